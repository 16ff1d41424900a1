//! The pool and its calls.

ghost use Rattle.std.specs.Prelude.{◌≡◌, false, IfErr, IfOk, IfSome, Some};
ghost use Rattle.async_driver.specs.Turns.{CanRefuse};
ghost use Rattle.mutex_core.specs.Outcomes.{IsGivenUp};
ghost use Rattle.bounded_pool.specs.Leases.{IsAsBefore, Lent};

use crate::give::Give;
use crate::lease::Lease;
use crate::take::Take;
use async_mutex::Mutex;
use async_semaphore::{Refusal, Semaphore};
use std::alloc::AllocGlobal;
use std::fmt;
use std::random::RandomSource;
use std::sync::Wait;
use std::time::Clock;

/// Items that are lent to one at a time.
///
/// It is made with a runtime, which it keeps. A pool that is dropped drops the items in it.
#[derive(Drop)]
pub struct Pool<T: Drop, R> {
    pub(crate) permits: Semaphore<R>,
    pub(crate) items: Mutex<Vec<T>, R>,
}

impl<T: Drop, R: AllocGlobal + Copy + Drop> Pool<T, R> {
    /// Makes a pool of these items. It takes memory for its two locks; where that is refused it returns [`Refusal::Memory`], and the
    /// items are dropped.
    pub fn new(rt: R, items: Vec<T>) -> Result<Pool<T, R>, Refusal>
        ensures memory { IfErr result (λ refusal. refusal ≡ Refusal.Memory) }
    {
        let permits = Semaphore::new(rt, items.len())?;
        let items = Mutex::new(rt, items)?;
        Ok(Pool { permits, items })
    }
}

impl<T: Drop, R> Pool<T, R> {
    /// Returns how many items can be taken now: those in the pool that no pending take has a permit for. The number may have changed before
    /// the call returns.
    pub fn available(&self) -> usize {
        self.permits.available_permits()
    }
}

impl<T: Drop, R: Wait> Pool<T, R> {
    /// Takes an item at once. It is `None` if no item is available, or if somebody has the list's lock.
    ///
    /// By the contract the lease is of this pool. It waits for nobody and takes no memory.
    pub fn try_take(&self) -> Option<Lease<'_, T, R>>
        ensures { IfSome result (λ lease. lease.pool ≡ self.now) }
    {
        let permit = self.permits.try_acquire()?;
        let mut items = self.items.try_lock()?;
        let item = items.pop()?;
        drop(items);
        Some(Lease::new(self, item, permit))
    }

    /// Returns a future of a lease, which does nothing until it is polled.
    pub fn take(&self) -> Take<'_, T, R>
        ensures { (result.pool ≡ self.now) × (result.is_over ≡ false) }
    {
        Take::new(self)
    }

    /// Returns a future that gives the item back to the pool that lent it. It does nothing until it is polled, and keeps the lease
    /// until it is ready.
    pub fn give<'a>(lease: Lease<'a, T, R>) -> Give<'a, T, R>
        ensures { result.lease ≡ Some lease.entry }
    {
        Give::new(lease)
    }
}

impl<T: Drop, R: Wait + Clock + RandomSource + AllocGlobal> Pool<T, R> {
    /// Takes an item, blocking the calling thread until one is available.
    ///
    /// It is refused as [`Refusal::Memory`], or as [`Refusal::Starved`] of the list's lock, and then has taken nothing.
    /// Don't call it in an async context: it blocks the thread that runs the other tasks, and may deadlock.
    pub fn take_blocking(&self) -> Result<Lease<'_, T, R>, Refusal>
        ensures pool { IfOk result (λ lease. lease.pool ≡ self.now) }
        ensures refused { IfErr result (CanRefuse IsGivenUp false) }
    {
        // The list has an item for each permit: one turn is enough.
        for _ in 0..u64::MAX {
            let permit = self.permits.acquire_blocking()?;
            let mut items = self.items.lock_blocking()?;
            let item = items.pop();
            drop(items);
            if let Some(item) = item {
                return Ok(Lease::new(self, item, permit));
            }
        }
        Err(Refusal::Memory)
    }

    /// Gives the item back to the pool that lent it, blocking the calling thread until it has the list's lock.
    ///
    /// It is refused as [`Refusal::Memory`], or as [`Refusal::Starved`] of the list's lock, and then the lease comes back with its item
    /// (`back`).
    /// Don't call it in an async context: it blocks the thread that runs the other tasks, and may deadlock.
    pub fn give_blocking<'a>(lease: Lease<'a, T, R>) -> Result<(), (Lease<'a, T, R>, Refusal)>
        ensures back { IfErr result (λ back. IsAsBefore lease.entry back.0 × CanRefuse IsGivenUp false back.1) }
    {
        let pool = Lease::pool(&lease);
        let mut items = match pool.items.lock_blocking() {
            Ok(items) => items,
            Err(refusal) => return Err((lease, refusal)),
        };
        let (item, permit) = lease.into_parts();
        match items.push(item) {
            Ok(()) => {
                drop(items);
                drop(permit);
                Ok(())
            }
            Err(refused) => {
                drop(items);
                let lease = Lease::new(pool, refused.value, permit);
                Err((lease, Refusal::Memory))
            }
        }
    }
}

impl<T: Drop, R> fmt::Debug for Pool<T, R> {
    fn fmt<W: fmt::Write>(&self, f: &mut fmt::Formatter<W>) -> fmt::Result {
        f.debug_struct("Pool")
            .field("available", &self.available())
            .finish_non_exhaustive()
    }
}
