//! A guard that owns its share of the mutex, and outlives the function that locked it.

use async_lock::{Mutex, MutexGuardArc, Refusal, Runtime};
use std::alloc::AllocGlobal;
use std::sync::Arc;

/// Makes a mutex, locks it, and returns the guard alone: the guard is the mutex's last owner.
pub(crate) fn locked<R>(rt: R, value: u64) -> Result<MutexGuardArc<u64, R>, Refusal>
where
    R: Runtime,
{
    let alloc = rt.alloc();
    let mutex = Mutex::new(rt, value)?;
    let shared = Arc::new(alloc, mutex)?;
    Mutex::lock_arc_blocking(&shared)
}
