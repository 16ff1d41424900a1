//! The calls of a read-write lock.

ghost use Rattle.std.specs.Prelude.{◌≡◌, IfErr, IfOk, IfSome, None};
ghost use Rattle.async_rwlock.specs.Guards.{HasFoundRoom};
ghost use Rattle.async_driver.specs.Stages.{IsFor, IsOf};
ghost use Rattle.rwlock_core.specs.Outcomes.{IsReadRefusal, IsUpgradableRefusal, IsWriteRefusal};
ghost use Rattle.std.specs.Arc.{arc_value};

use crate::acquired::Acquired;
use crate::future::GuardFuture;
use crate::lock_futures::{Read, ReadArc, UpgradableRead, UpgradableReadArc, Write, WriteArc};
use crate::read_guard::ReadGuard;
use crate::releases::Releases;
use crate::rwlock::RwLock;
use crate::upgradable_guard::UpgradableGuard;
use crate::write_guard::WriteGuard;
use crate::{
    RwLockReadGuard, RwLockReadGuardArc, RwLockUpgradableReadGuard, RwLockUpgradableReadGuardArc,
    RwLockWriteGuard, RwLockWriteGuardArc,
};
use async_driver::{Stage, first, wait_for};
use lock_program::Refusal;
use rwlock_core::Reader;
use std::alloc::AllocGlobal;
use std::fmt;
use std::random::RandomSource;
use std::sync::{Arc, Wait};
use std::time::Clock;

impl<T, R: Releases> RwLock<T, R> {
    /// Attempts to acquire a right to read: it does if nobody writes or waits for readers to leave, and fewer read than may.
    ///
    /// The contract guarantees that a returned guard belongs to this lock, and that its seat has found fewer readers than the lock's own
    /// limit (`few`). That a free lock is acquired is only tested.
    ///
    /// ```
    /// let is_shared = lock.try_read().is_some();
    /// ```
    pub fn try_read(&self) -> Option<RwLockReadGuard<'_, T, R>>
        ensures lock { IfSome result (λ guard. guard.lock ≡ self.now) }
        ensures few { IfSome result HasFoundRoom }
    {
        match self.rt.try_read(&self.raw) {
            Ok(reader) => Some(ReadGuard::new(self, reader)),
            Err(seat) => {
                seat.rise();
                None
            }
        }
    }

    /// Attempts to acquire the right to read that can become a right to write: it does if nobody has it or writes, nobody is starved
    /// for it, and fewer read than may.
    ///
    /// ```
    /// let is_free = lock.try_upgradable_read().is_some();
    /// ```
    pub fn try_upgradable_read(&self) -> Option<RwLockUpgradableReadGuard<'_, T, R>>
        ensures lock { IfSome result (λ guard. guard.lock ≡ self.now) }
        ensures few { IfSome result HasFoundRoom }
    {
        match self.rt.try_upgradable_read(&self.raw) {
            Ok(upgradable) => Some(UpgradableGuard::new(self, upgradable)),
            Err(vain) => {
                vain.end();
                None
            }
        }
    }

    /// Attempts to acquire the right to write: it does if nobody reads or writes, and nobody is starved for it.
    ///
    /// ```
    /// let reads = *reader == 2 && lock.try_write().is_none();
    /// ```
    pub fn try_write(&self) -> Option<RwLockWriteGuard<'_, T, R>>
        ensures { IfSome result (λ guard. guard.lock ≡ self.now) }
    {
        match self.rt.try_write(&self.raw) {
            Ok(writer) => Some(WriteGuard::new(self, writer)),
            Err(vain) => {
                vain.end();
                None
            }
        }
    }
}

impl<T, R: Wait> RwLock<T, R> {
    /// Returns a future of a right to read of this lock, which does nothing until it is polled.
    ///
    /// ```
    /// let read = *wait_for(&rt, lock.read())?;
    /// ```
    pub fn read(&self) -> Read<'_, T, R>
        ensures lock { IsOf (λ o. o.now) result.stage self.now }
        ensures waiting { result.waiting ≡ None }
    {
        GuardFuture::new(Stage::Waits(self))
    }

    /// Returns a future of the right to read that can become a right to write, which does nothing until it is polled.
    ///
    /// ```
    /// let upgradable = wait_for(&rt, lock.upgradable_read())?;
    /// ```
    pub fn upgradable_read(&self) -> UpgradableRead<'_, T, R>
        ensures lock { IsOf (λ o. o.now) result.stage self.now }
        ensures waiting { result.waiting ≡ None }
    {
        GuardFuture::new(Stage::Waits(self))
    }

    /// Returns a future of the right to write, which does nothing until it is polled.
    ///
    /// ```
    /// let mut writer = wait_for(&rt, lock.write())?;
    /// *writer = writer.saturating_add(1);
    /// ```
    pub fn write(&self) -> Write<'_, T, R>
        ensures lock { IsOf (λ o. o.now) result.stage self.now }
        ensures waiting { result.waiting ≡ None }
    {
        GuardFuture::new(Stage::Waits(self))
    }
}

impl<T: Drop, R: Wait + Clock + RandomSource + AllocGlobal> RwLock<T, R> {
    /// Acquires a right to read, blocking the calling thread until it has it. Any error of the executor is
    /// [`Refusal::Memory`]; the others are those of [`RwLock::read`]'s polls.
    /// Don't call it in an async context: it blocks the thread that runs the other tasks, and may deadlock.
    ///
    /// ```
    /// let guard = lock.read_blocking()?;
    /// Ok(*guard)
    /// ```
    pub fn read_blocking(&self) -> Result<RwLockReadGuard<'_, T, R>, Refusal>
        ensures lock { IfOk result (λ guard. guard.lock ≡ self.now) }
        ensures few { IfOk result HasFoundRoom }
        ensures refused { IfErr result IsReadRefusal }
    {
        if let Some(guard) = self.try_read() {
            return Ok(guard);
        }
        wait_for(&self.rt, self.read())
    }

    /// Acquires the right to read that can become a right to write, blocking the calling thread until it has it. Any error of the executor is
    /// [`Refusal::Memory`]; the others are those of [`RwLock::upgradable_read`]'s polls.
    /// Don't call it in an async context: it blocks the thread that runs the other tasks, and may deadlock.
    ///
    /// ```
    /// let guard = lock.upgradable_read_blocking()?;
    /// if *guard % 2 == 1 {
    ///     return Ok(*guard);
    /// }
    /// ```
    pub fn upgradable_read_blocking(&self) -> Result<RwLockUpgradableReadGuard<'_, T, R>, Refusal>
        ensures lock { IfOk result (λ guard. guard.lock ≡ self.now) }
        ensures few { IfOk result HasFoundRoom }
        ensures refused { IfErr result IsUpgradableRefusal }
    {
        if let Some(guard) = self.try_upgradable_read() {
            return Ok(guard);
        }
        wait_for(&self.rt, self.upgradable_read())
    }

    /// Acquires the right to write, blocking the calling thread until it has it. Any error of the executor is
    /// [`Refusal::Memory`]; the others are those of [`RwLock::write`]'s polls.
    /// Don't call it in an async context: it blocks the thread that runs the other tasks, and may deadlock.
    ///
    /// ```
    /// let mut writer = lock.write_blocking()?;
    /// *writer = writer.saturating_add(1);
    /// ```
    pub fn write_blocking(&self) -> Result<RwLockWriteGuard<'_, T, R>, Refusal>
        ensures lock { IfOk result (λ guard. guard.lock ≡ self.now) }
        ensures refused { IfErr result IsWriteRefusal }
    {
        if let Some(guard) = self.try_write() {
            return Ok(guard);
        }
        wait_for(&self.rt, self.write())
    }
}

// Whoever got a right for an owned guard gets a share of the lock now: the words and the count of the `Arc` are in different lines of the
// processor's cache, and are changed in turns so, which takes less time. Whoever can't have a share gives the right back.
impl<T: Drop, R: Releases + Drop> RwLock<T, R> {
    /// Does as [`RwLock::try_read`] does, for a guard that has a share of the lock. It is `None` too if that share can't be had.
    ///
    /// ```
    /// let reads = RwLock::try_read_arc(&lock).is_some();
    /// ```
    pub fn try_read_arc(this: &Arc<RwLock<T, R>>) -> Option<RwLockReadGuardArc<T, R>>
        ensures lock { IfSome result (λ guard. guard.lock ≡ arc_value this.now) }
        ensures few { IfSome result HasFoundRoom }
    {
        let reader = match this.rt.try_read(&this.raw) {
            Ok(reader) => reader,
            Err(seat) => {
                seat.rise();
                return None;
            }
        };
        let Ok(owner) = Arc::try_clone(this) else {
            let Reader { seat } = reader;
            this.rt.release_read(&this.raw, seat);
            return None;
        };
        Some(ReadGuard::new(owner, reader))
    }

    /// Does as [`RwLock::try_upgradable_read`] does, for a guard that has a share of the lock. It is `None` too if that share can't be had.
    ///
    /// ```
    /// let upgrades = RwLock::try_upgradable_read_arc(&lock).is_some();
    /// ```
    pub fn try_upgradable_read_arc(
        this: &Arc<RwLock<T, R>>,
    ) -> Option<RwLockUpgradableReadGuardArc<T, R>>
        ensures lock { IfSome result (λ guard. guard.lock ≡ arc_value this.now) }
        ensures few { IfSome result HasFoundRoom }
    {
        let upgradable = match this.rt.try_upgradable_read(&this.raw) {
            Ok(upgradable) => upgradable,
            Err(vain) => {
                vain.end();
                return None;
            }
        };
        let Ok(owner) = Arc::try_clone(this) else {
            this.rt.release_upgradable(&this.raw, upgradable);
            return None;
        };
        Some(UpgradableGuard::new(owner, upgradable))
    }

    /// Does as [`RwLock::try_write`] does, for a guard that has a share of the lock. It is `None` too if that share can't be had.
    ///
    /// ```
    /// let writes = RwLock::try_write_arc(&lock).is_some();
    /// ```
    pub fn try_write_arc(this: &Arc<RwLock<T, R>>) -> Option<RwLockWriteGuardArc<T, R>>
        ensures { IfSome result (λ guard. guard.lock ≡ arc_value this.now) }
    {
        let writer = match this.rt.try_write(&this.raw) {
            Ok(writer) => writer,
            Err(vain) => {
                vain.end();
                return None;
            }
        };
        let Ok(owner) = Arc::try_clone(this) else {
            this.rt.release_write(&this.raw, writer);
            return None;
        };
        Some(WriteGuard::new(owner, writer))
    }
}

impl<T: Drop, R: Wait + Drop> RwLock<T, R> {
    /// Returns a future as [`RwLock::read`] does, which has a share of the lock and gives it to its guard. If that share can't be
    /// had, its polls are refused as [`Refusal::Memory`].
    ///
    /// ```
    /// let reader = wait_for(&rt, RwLock::read_arc(&lock))?;
    /// ```
    pub fn read_arc(this: &Arc<RwLock<T, R>>) -> ReadArc<T, R>
        ensures lock { IsFor arc_value result.stage (arc_value this.now) }
        ensures waiting { result.waiting ≡ None }
    {
        GuardFuture::new(first::<RwLock<T, R>, Arc<RwLock<T, R>>>(Arc::try_clone(this).ok()))
    }

    /// Returns a future as [`RwLock::upgradable_read`] does, which has a share of the lock and gives it to its guard. If that share can't be
    /// had, its polls are refused as [`Refusal::Memory`].
    ///
    /// ```
    /// let upgradable = wait_for(&rt, RwLock::upgradable_read_arc(&lock))?;
    /// ```
    pub fn upgradable_read_arc(this: &Arc<RwLock<T, R>>) -> UpgradableReadArc<T, R>
        ensures lock { IsFor arc_value result.stage (arc_value this.now) }
        ensures waiting { result.waiting ≡ None }
    {
        GuardFuture::new(first::<RwLock<T, R>, Arc<RwLock<T, R>>>(Arc::try_clone(this).ok()))
    }

    /// Returns a future as [`RwLock::write`] does, which has a share of the lock and gives it to its guard. If that share can't be
    /// had, its polls are refused as [`Refusal::Memory`].
    ///
    /// ```
    /// let mut writer = wait_for(&rt, RwLock::write_arc(&lock))?;
    /// *writer = writer.saturating_add(1);
    /// ```
    pub fn write_arc(this: &Arc<RwLock<T, R>>) -> WriteArc<T, R>
        ensures lock { IsFor arc_value result.stage (arc_value this.now) }
        ensures waiting { result.waiting ≡ None }
    {
        GuardFuture::new(first::<RwLock<T, R>, Arc<RwLock<T, R>>>(Arc::try_clone(this).ok()))
    }
}

impl<T: Drop, R: Wait + Clock + RandomSource + AllocGlobal + Drop> RwLock<T, R> {
    /// Does as [`RwLock::read_blocking`] does, for a guard that has a share of the lock.
    ///
    /// ```
    /// RwLock::read_arc_blocking(&lock)
    /// ```
    pub fn read_arc_blocking(this: &Arc<RwLock<T, R>>) -> Result<RwLockReadGuardArc<T, R>, Refusal>
        ensures lock { IfOk result (λ guard. guard.lock ≡ arc_value this.now) }
        ensures few { IfOk result HasFoundRoom }
        ensures refused { IfErr result IsReadRefusal }
    {
        if let Some(guard) = RwLock::try_read_arc(this) {
            return Ok(guard);
        }
        wait_for(&this.rt, RwLock::read_arc(this))
    }

    /// Does as [`RwLock::upgradable_read_blocking`] does, for a guard that has a share of the lock.
    ///
    /// ```
    /// let upgradable = RwLock::upgradable_read_arc_blocking(&lock)?;
    /// ```
    pub fn upgradable_read_arc_blocking(
        this: &Arc<RwLock<T, R>>,
    ) -> Result<RwLockUpgradableReadGuardArc<T, R>, Refusal>
        ensures lock { IfOk result (λ guard. guard.lock ≡ arc_value this.now) }
        ensures few { IfOk result HasFoundRoom }
        ensures refused { IfErr result IsUpgradableRefusal }
    {
        if let Some(guard) = RwLock::try_upgradable_read_arc(this) {
            return Ok(guard);
        }
        wait_for(&this.rt, RwLock::upgradable_read_arc(this))
    }

    /// Does as [`RwLock::write_blocking`] does, for a guard that has a share of the lock.
    ///
    /// ```
    /// let mut writer = RwLock::write_arc_blocking(&lock)?;
    /// *writer = writer.saturating_add(1);
    /// ```
    pub fn write_arc_blocking(
        this: &Arc<RwLock<T, R>>,
    ) -> Result<RwLockWriteGuardArc<T, R>, Refusal>
        ensures lock { IfOk result (λ guard. guard.lock ≡ arc_value this.now) }
        ensures refused { IfErr result IsWriteRefusal }
    {
        if let Some(guard) = RwLock::try_write_arc(this) {
            return Ok(guard);
        }
        wait_for(&this.rt, RwLock::write_arc(this))
    }
}

impl<T: fmt::Debug, R: Releases> fmt::Debug for RwLock<T, R> {
    fn fmt<W: fmt::Write>(&self, f: &mut fmt::Formatter<W>) -> fmt::Result {
        match self.try_read() {
            Some(guard) => debug_as(f, &*guard),
            None => debug_as(f, &Locked),
        }
    }
}

// A lock with what stands for its value.
fn debug_as<D: fmt::Debug, W: fmt::Write>(f: &mut fmt::Formatter<W>, value: &D) -> fmt::Result {
    f.debug_struct("RwLock").field("value", value).finish()
}

// What stands for the value of a lock that can't be read at once.
struct Locked;

impl fmt::Debug for Locked {
    fn fmt<W: fmt::Write>(&self, f: &mut fmt::Formatter<W>) -> fmt::Result {
        f.write_str("<locked>")
    }
}
