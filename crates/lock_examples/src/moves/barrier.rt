//! A barrier and its future.

use crate::moves::moved::{moved, shared};
use async_lock::{Barrier, Refusal, Runtime};
use std::thread::Threads;

fn borrowed<R: Runtime + Threads + Send + Sync>(rt: &R, barrier: &Barrier<R>) -> bool {
    shared(rt, barrier) && moved(rt, barrier.wait())
}

/// Shares the barrier, and moves each.
pub(crate) fn all<R: Runtime + Threads + Send + Sync + Copy>(rt: R) -> Result<bool, Refusal> {
    let barrier = Barrier::new(rt, 1)?;
    let is_done = borrowed(&rt, &barrier);
    let result = barrier.wait_blocking()?;
    Ok(is_done && moved(&rt, result) && moved(&rt, barrier))
}
