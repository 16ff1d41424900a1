//! A guard that owns its lock.

use async_lock::{Refusal, Runtime, RwLock, RwLockReadGuardArc};
use std::alloc::AllocGlobal;
use std::sync::Arc;

/// Makes a lock of this number, and returns a guard that reads it. The lock lives as long as the guard.
pub(crate) fn read<R>(rt: R, number: u64) -> Result<RwLockReadGuardArc<u64, R>, Refusal>
where
    R: Runtime + Copy,
{
    let lock = Arc::new(rt.alloc(), RwLock::new(rt, number)?)?;
    RwLock::read_arc_blocking(&lock)
}
