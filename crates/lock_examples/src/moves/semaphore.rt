//! A semaphore, its guards and its futures.

use crate::moves::moved::{moved, shared};
use async_lock::{Refusal, Runtime, Semaphore};
use std::sync::Arc;
use std::thread::Threads;

// Those that borrow the semaphore.
fn borrowed<R: Runtime + Threads + Send + Sync>(rt: &R, semaphore: &Semaphore<R>) -> bool {
    let is_done = shared(rt, semaphore) && moved(rt, semaphore.acquire());
    let Some(guard) = semaphore.try_acquire() else {
        return false;
    };
    is_done && moved(rt, guard)
}

// Those that own a share of it.
fn owned<R: Runtime + Threads + Send + Sync>(rt: &R, semaphore: &Arc<Semaphore<R>>) -> bool {
    let is_done = moved(rt, Semaphore::acquire_arc(semaphore));
    let Some(guard) = Semaphore::try_acquire_arc(semaphore) else {
        return false;
    };
    is_done && moved(rt, guard)
}

/// Shares the semaphore, and moves each.
pub(crate) fn all<R: Runtime + Threads + Send + Sync + Copy>(rt: R) -> Result<bool, Refusal> {
    let semaphore = Semaphore::new(rt, 1)?;
    let is_done = borrowed(&rt, &semaphore);
    let semaphore = Arc::new(rt.alloc(), semaphore)?;
    let is_done = is_done && owned(&rt, &semaphore) && moved(&rt, semaphore);
    Ok(is_done && moved(&rt, Semaphore::new(rt, 1)?))
}
