//! The calls of a semaphore.

ghost use Rattle.std.specs.Prelude.{◌≡◌, IfErr, IfOk, IfSome, None};
ghost use Rattle.std.specs.Arc.{arc_value};
ghost use Rattle.async_driver.specs.Stages.{IsFor, IsOf};
ghost use Rattle.semaphore_core.specs.Semaphores.{HasAdded};
ghost use Rattle.lock_program.specs.declared.refusal.Refusal.{Refusal};

use crate::acquire::AcquireFuture;
use crate::guard::PermitGuard;
use crate::lock_futures::{Acquire, AcquireArc};
use crate::releases::Releases;
use crate::semaphore::Semaphore;
use crate::{SemaphoreGuard, SemaphoreGuardArc};
use async_driver::{Stage, first, wait_for};
use lock_program::Refusal;
use semaphore_core::{Added, Tried};
use std::alloc::AllocGlobal;
use std::random::RandomSource;
use std::sync::{Arc, Wait};
use std::time::Clock;

impl<R: Releases> Semaphore<R> {
    /// Attempts to acquire a permit: it does if one is available. It waits for nobody, but looks again where another party changes the
    /// number of permits between its look and its exchange.
    ///
    /// By the contract a guard that it returns has one permit of this semaphore. That an available one is acquired is tested.
    ///
    /// ```
    /// let Some(guard) = semaphore.try_acquire() else {
    ///     return Ok(false);
    /// };
    /// ```
    #[inline]
    pub fn try_acquire(&self) -> Option<SemaphoreGuard<'_, R>>
        ensures { IfSome result (λ guard. (guard.semaphore ≡ self.now) × (guard.permits ≡ 1)) }
    {
        let seat = match self.raw.try_take(1) {
            Tried::Got(seat) => seat,
            Tried::Short(seat) => {
                self.raw.give_up(seat, 1);
                return None;
            }
            Tried::Changed(seat) => self.rt.try_again(&self.raw, seat, 1)?,
        };
        Some(PermitGuard::new(self, seat, 1))
    }

    /// Attempts to acquire this many permits at once, as [`Semaphore::try_acquire`] does one: it does if as many are available. None
    /// are enough for 0.
    ///
    /// The Rust crate has no such call.
    ///
    /// ```
    /// let three_more = semaphore.try_acquire_many(3).is_some();
    /// ```
    #[inline]
    pub fn try_acquire_many(&self, permits: usize) -> Option<SemaphoreGuard<'_, R>>
        ensures { IfSome result (λ guard. (guard.semaphore ≡ self.now) × (guard.permits ≡ permits)) }
    {
        let permits = permits as u64;
        let seat = match self.raw.try_take(permits) {
            Tried::Got(seat) => seat,
            Tried::Short(seat) => {
                self.raw.give_up(seat, permits);
                return None;
            }
            Tried::Changed(seat) => self.rt.try_again(&self.raw, seat, permits)?,
        };
        Some(PermitGuard::new(self, seat, permits))
    }
}

impl<R: Wait> Semaphore<R> {
    /// Returns a future of a permit, which does nothing until it is polled.
    ///
    /// ```
    /// let one = wait_for(&rt, semaphore.acquire())?;
    /// ```
    #[inline]
    pub fn acquire(&self) -> Acquire<'_, R>
        ensures owner { IsOf (λ o. o.now) result.stage self.now }
        ensures permits { result.permits ≡ 1 }
        ensures waiting { result.waiting ≡ None }
    {
        self.acquire_many(1)
    }

    /// Returns a future of this many permits at once, which does nothing until it is polled.
    ///
    /// With 0 it is ready at once. With more than the semaphore's limit it waits until enough are added. It isn't fair to large
    /// requests: a waiter for fewer permits may be notified first, and a large request that was notified and found too few goes
    /// on waiting. The Rust crate has no such call.
    ///
    /// ```
    /// let of_two = semaphore.acquire_many(2);
    /// ```
    #[inline]
    pub fn acquire_many(&self, permits: usize) -> Acquire<'_, R>
        ensures owner { IsOf (λ o. o.now) result.stage self.now }
        ensures permits { result.permits ≡ permits }
        ensures waiting { result.waiting ≡ None }
    {
        AcquireFuture::new(Stage::Waits(self), permits as u64)
    }

    /// Adds this many permits, and notifies the first waiter for whom those that are then available are enough. It takes no
    /// memory. By the contract its receipt says that exactly these were added to the limit and made available, by a seat that has ended, and has
    /// added no others and forgotten none (`given`).
    ///
    /// If the limit would pass 18,446,744,073,709,551,615, it returns [`Refusal::Permits`] and changes nothing. The Rust crate
    /// wraps there, and returns nothing.
    ///
    /// ```
    /// let added = semaphore.add_permits(2)?;
    /// ```
    pub fn add_permits(&self, permits: usize) -> Result<Added, Refusal>
        ensures given { IfOk result (λ added. (added.permits ≡ permits) × HasAdded self.now.raw permits added.ended) }
        ensures refused { IfErr result (λ refusal. refusal ≡ Refusal.Permits) }
    {
        self.raw.add(&self.rt, permits as u64)
    }
}

impl<R: Wait + Clock + RandomSource + AllocGlobal> Semaphore<R> {
    /// Acquires a permit, blocking the calling thread until it has one. It is refused for memory
    /// alone (`memory`), and any error of the executor is [`Refusal::Memory`].
    /// Don't call it in an async context: it blocks the thread that runs the other tasks, and may deadlock.
    ///
    /// ```
    /// let permit = semaphore.acquire_blocking()?;
    /// ```
    pub fn acquire_blocking(&self) -> Result<SemaphoreGuard<'_, R>, Refusal>
        ensures permits { IfOk result (λ guard. (guard.semaphore ≡ self.now) × (guard.permits ≡ 1)) }
        ensures memory { IfErr result (λ refusal. refusal ≡ Refusal.Memory) }
    {
        self.acquire_many_blocking(1)
    }

    /// Acquires this many permits at once, as [`Semaphore::acquire_many`], blocking the calling thread until it has them. Any
    /// error of the executor is [`Refusal::Memory`].
    /// Don't call it in an async context: it blocks the thread that runs the other tasks, and may deadlock.
    ///
    /// ```
    /// let three = semaphore.acquire_many_blocking(3)?;
    /// ```
    pub fn acquire_many_blocking(&self, permits: usize) -> Result<SemaphoreGuard<'_, R>, Refusal>
        ensures permits { IfOk result (λ guard. (guard.semaphore ≡ self.now) × (guard.permits ≡ permits)) }
        ensures memory { IfErr result (λ refusal. refusal ≡ Refusal.Memory) }
    {
        if let Some(guard) = self.try_acquire_many(permits) {
            return Ok(guard);
        }
        wait_for(&self.rt, self.acquire_many(permits))
    }
}

impl<R: Releases + Drop> Semaphore<R> {
    /// Does as [`Semaphore::try_acquire`] does, for a guard that has a share of the semaphore. It is `None` too if that share can't be had.
    ///
    /// ```
    /// let one = Semaphore::try_acquire_arc(&semaphore).is_some();
    /// ```
    #[inline]
    pub fn try_acquire_arc(this: &Arc<Semaphore<R>>) -> Option<SemaphoreGuardArc<R>>
        ensures { IfSome result (λ guard. (guard.semaphore ≡ arc_value this.now) × (guard.permits ≡ 1)) }
    {
        Semaphore::try_acquire_many_arc(this, 1)
    }

    /// Does as [`Semaphore::try_acquire_many`] does, for a guard that has a share of the semaphore. It is `None` too if that share can't be
    /// had.
    ///
    /// ```
    /// let two = Semaphore::try_acquire_many_arc(&semaphore, 2).is_some();
    /// ```
    #[inline]
    pub fn try_acquire_many_arc(
        this: &Arc<Semaphore<R>>,
        permits: usize,
    ) -> Option<SemaphoreGuardArc<R>>
        ensures { IfSome result (λ guard. (guard.semaphore ≡ arc_value this.now) × (guard.permits ≡ permits)) }
    {
        let owner = Arc::try_clone(this).ok()?;
        let permits = permits as u64;
        let seat = match owner.raw.try_take(permits) {
            Tried::Got(seat) => seat,
            Tried::Short(seat) => {
                owner.raw.give_up(seat, permits);
                return None;
            }
            Tried::Changed(seat) => owner.rt.try_again(&owner.raw, seat, permits)?,
        };
        Some(PermitGuard::new(owner, seat, permits))
    }
}

impl<R: Wait + Drop> Semaphore<R> {
    /// Returns a future as [`Semaphore::acquire`] does, which has a share of the semaphore and gives it to its guard. If that share can't be
    /// had, its polls are refused as [`Refusal::Memory`].
    ///
    /// ```
    /// let one = wait_for(&rt, Semaphore::acquire_arc(&semaphore))?;
    /// ```
    #[inline]
    pub fn acquire_arc(this: &Arc<Semaphore<R>>) -> AcquireArc<R>
        ensures semaphore { IsFor arc_value result.stage (arc_value this.now) }
        ensures permits { result.permits ≡ 1 }
        ensures waiting { result.waiting ≡ None }
    {
        Semaphore::acquire_many_arc(this, 1)
    }

    /// Returns a future as [`Semaphore::acquire_many`] does, which has a share of the semaphore and gives it to its guard. If that share
    /// can't be had, its polls are refused as [`Refusal::Memory`].
    ///
    /// ```
    /// let two = wait_for(&rt, Semaphore::acquire_many_arc(&semaphore, 2))?;
    /// ```
    #[inline]
    pub fn acquire_many_arc(this: &Arc<Semaphore<R>>, permits: usize) -> AcquireArc<R>
        ensures semaphore { IsFor arc_value result.stage (arc_value this.now) }
        ensures permits { result.permits ≡ permits }
        ensures waiting { result.waiting ≡ None }
    {
        let stage = first::<Semaphore<R>, Arc<Semaphore<R>>>(Arc::try_clone(this).ok());
        AcquireFuture::new(stage, permits as u64)
    }
}

impl<R: Wait + Clock + RandomSource + AllocGlobal + Drop> Semaphore<R> {
    /// Does as [`Semaphore::acquire_blocking`] does, for a guard that has a share of the semaphore.
    ///
    /// ```
    /// let first = Semaphore::acquire_arc_blocking(&semaphore)?;
    /// ```
    pub fn acquire_arc_blocking(this: &Arc<Semaphore<R>>) -> Result<SemaphoreGuardArc<R>, Refusal>
        ensures permits { IfOk result (λ guard. (guard.semaphore ≡ arc_value this.now) × (guard.permits ≡ 1)) }
        ensures memory { IfErr result (λ refusal. refusal ≡ Refusal.Memory) }
    {
        Semaphore::acquire_many_arc_blocking(this, 1)
    }

    /// Does as [`Semaphore::acquire_many_blocking`] does, for a guard that has a share of the semaphore.
    ///
    /// ```
    /// let others = Semaphore::acquire_many_arc_blocking(&semaphore, 2)?;
    /// ```
    pub fn acquire_many_arc_blocking(
        this: &Arc<Semaphore<R>>,
        permits: usize,
    ) -> Result<SemaphoreGuardArc<R>, Refusal>
        ensures permits { IfOk result (λ guard. (guard.semaphore ≡ arc_value this.now) × (guard.permits ≡ permits)) }
        ensures memory { IfErr result (λ refusal. refusal ≡ Refusal.Memory) }
    {
        if let Some(guard) = Semaphore::try_acquire_many_arc(this, permits) {
            return Ok(guard);
        }
        wait_for(&this.rt, Semaphore::acquire_many_arc(this, permits))
    }
}
