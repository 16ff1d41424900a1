//! Moving a value to another thread, and sharing it with one.

use std::sync::Wait;
use std::thread::{self, Threads};

/// Has another thread end the value. It says whether that thread was started.
pub(crate) fn moved<R: Wait + Threads + Sync, V: Send + Drop>(rt: &R, value: V) -> bool {
    thread::scope(thread::scope_env(), rt, |scope| {
        scope.spawn(move || drop(value)).is_ok()
    })
}

/// Has another thread see the value beside this one. It says whether that thread was started.
pub(crate) fn shared<R: Wait + Threads + Sync, V: Sync>(rt: &R, value: &V) -> bool {
    thread::scope(thread::scope_env(), rt, |scope| {
        let is_started = scope.spawn(move || seen(value)).is_ok();
        seen(value);
        is_started
    })
}

fn seen<V>(_value: &V) {}
