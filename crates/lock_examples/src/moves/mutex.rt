//! A mutex, its guards and its futures.

use crate::moves::moved::{moved, shared};
use async_lock::{Mutex, Refusal, Runtime};
use std::sync::Arc;
use std::thread::Threads;

// Those that borrow the mutex.
fn borrowed<R: Runtime + Threads + Send + Sync>(rt: &R, mutex: &Mutex<u64, R>) -> bool {
    let is_done = shared(rt, mutex) && moved(rt, mutex.lock());
    let Some(guard) = mutex.try_lock() else {
        return false;
    };
    is_done && moved(rt, guard)
}

// Those that own a share of it.
fn owned<R: Runtime + Threads + Send + Sync>(rt: &R, mutex: &Arc<Mutex<u64, R>>) -> bool {
    let is_done = moved(rt, Mutex::lock_arc(mutex));
    let Some(guard) = Mutex::try_lock_arc(mutex) else {
        return false;
    };
    is_done && moved(rt, guard)
}

/// Shares the lock, and moves each.
pub(crate) fn all<R: Runtime + Threads + Send + Sync + Copy>(rt: R) -> Result<bool, Refusal> {
    let mutex = Mutex::new(rt, 0_u64)?;
    let is_done = borrowed(&rt, &mutex);
    let mutex = Arc::new(rt.alloc(), mutex)?;
    let is_done = is_done && owned(&rt, &mutex) && moved(&rt, mutex);
    Ok(is_done && moved(&rt, Mutex::new(rt, 0_u64)?))
}
