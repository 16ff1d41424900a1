//! A read-write lock, its guards and its futures.

use crate::moves::moved::{moved, shared};
use async_lock::{
    Refusal, Runtime, RwLock, RwLockUpgradableReadGuard, RwLockUpgradableReadGuardArc,
};
use std::sync::Arc;
use std::thread::Threads;

// Those that borrow the lock.
fn borrowed<R: Runtime + Threads + Send + Sync>(rt: &R, lock: &RwLock<u64, R>) -> bool {
    let mut is_done = shared(rt, lock) && moved(rt, lock.read());
    is_done = is_done && moved(rt, lock.upgradable_read()) && moved(rt, lock.write());
    if let Some(guard) = lock.try_read() {
        is_done = is_done && moved(rt, guard);
    }
    if let Some(guard) = lock.try_upgradable_read() {
        is_done = is_done && moved(rt, RwLockUpgradableReadGuard::upgrade(guard));
    }
    if let Some(guard) = lock.try_upgradable_read() {
        is_done = is_done && moved(rt, guard);
    }
    let Some(guard) = lock.try_write() else {
        return false;
    };
    is_done && moved(rt, guard)
}

// Those that own a share of it.
fn owned<R: Runtime + Threads + Send + Sync>(rt: &R, lock: &Arc<RwLock<u64, R>>) -> bool {
    let mut is_done = moved(rt, RwLock::read_arc(lock));
    is_done = is_done && moved(rt, RwLock::upgradable_read_arc(lock));
    is_done = is_done && moved(rt, RwLock::write_arc(lock));
    if let Some(guard) = RwLock::try_read_arc(lock) {
        is_done = is_done && moved(rt, guard);
    }
    if let Some(guard) = RwLock::try_upgradable_read_arc(lock) {
        is_done = is_done && moved(rt, RwLockUpgradableReadGuardArc::upgrade(guard));
    }
    if let Some(guard) = RwLock::try_upgradable_read_arc(lock) {
        is_done = is_done && moved(rt, guard);
    }
    let Some(guard) = RwLock::try_write_arc(lock) else {
        return false;
    };
    is_done && moved(rt, guard)
}

/// Shares the lock, and moves each.
pub(crate) fn all<R: Runtime + Threads + Send + Sync + Copy>(rt: R) -> Result<bool, Refusal> {
    let lock = RwLock::new(rt, 0_u64)?;
    let is_done = borrowed(&rt, &lock);
    let lock = Arc::new(rt.alloc(), lock)?;
    let is_done = is_done && owned(&rt, &lock) && moved(&rt, lock);
    Ok(is_done && moved(&rt, RwLock::new(rt, 0_u64)?))
}
