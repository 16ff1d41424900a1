//! A look that becomes a write only where it has to.

use async_lock::{Refusal, Runtime, RwLock, RwLockUpgradableReadGuard, RwLockWriteGuard};
use std::alloc::AllocGlobal;

/// Adds to the number if it is even, and returns what it is then. Other readers may look meanwhile, and no writer comes between
/// the look and the write.
pub(crate) fn add_if_even<R>(lock: &RwLock<u64, R>, by: u64) -> Result<u64, Refusal>
where
    R: Runtime,
{
    let guard = lock.upgradable_read_blocking()?;
    if *guard % 2 == 1 {
        return Ok(*guard);
    }
    let mut guard = RwLockUpgradableReadGuard::upgrade_blocking(guard)?;
    *guard = guard.saturating_add(by);
    let guard = RwLockWriteGuard::downgrade(guard);
    Ok(*guard)
}
