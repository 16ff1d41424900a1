//! The mutex.

ghost use Rattle.std.specs.Prelude.{◌≡◌, IfSome, IfOk, IfErr, None, ◌≤◌, false};
ghost use Rattle.std.specs.Arc.{arc_value};
ghost use Rattle.async_driver.specs.Stages.{IsFor, IsOf, is_finished};
ghost use Rattle.mutex_core.specs.Outcomes.{IsGivenUp, IsHeldOf};
ghost use Rattle.lock_program.specs.declared.refusal.Refusal.{Refusal};

use crate::guard::Guard;
use crate::lock::LockFuture;
use crate::lock_futures::{Lock, LockArc};
use crate::releases::Releases;
use crate::{MutexGuard, MutexGuardArc};
use async_driver::{Stage, first, wait_for};
use lock_program::Refusal;
use mutex_core::{Held, STARVED_LIMIT, Words};
use std::alloc::AllocGlobal;
use std::fmt;
use std::random::RandomSource;
use std::sync::{Arc, Wait};
use std::time::Clock;

/// A value that one task at a time reads and writes.
///
/// `R` is the runtime that the mutex was made with and keeps.
pub struct Mutex<T, R> {
    pub(crate) words: Words<T>,
    pub(crate) rt: R,
}

// By hand, so that a drop is one call to prove, and not all of its parts again.
impl<T: Drop, R: Drop> Drop for Mutex<T, R> {
    fn drop(self) {
        let Mutex { words: _, rt: _ } = self;
    }
}

impl<T: Drop, R: AllocGlobal + Drop> Mutex<T, R> {
    /// Creates a free mutex over a value. If memory is refused, it returns [`Refusal::Memory`] and drops the value.
    ///
    /// No forgotten guard has left the mutex held (`is_left`), and as many waiters may be starved as [`STARVED_LIMIT`] says (`limit`).
    ///
    /// ```
    /// let mutex = Mutex::new(rt, 0_u64)?;
    /// ```
    // In line, as all that makes a mutex: so it isn't copied from one place to the next.
    #[inline(always)]
    pub fn new(rt: R, value: T) -> Result<Mutex<T, R>, Refusal>
        ensures memory { IfErr result (λ refusal. refusal ≡ Refusal.Memory) }
        ensures is_left { IfOk result (λ mutex. mutex.words.is_left ≡ false) }
        ensures limit { IfOk result (λ mutex. mutex.words.limit ≡ 1073741823) }
    {
        Mutex::with_limit(rt, value, STARVED_LIMIT)
    }

    /// Creates a free mutex as [`Mutex::new`] does, where at most `limit` waiters may be starved at once. It is for tests.
    #[inline(always)]
    pub fn with_limit(rt: R, value: T, limit: u64) -> Result<Mutex<T, R>, Refusal>
        requires { limit ≤ 1073741823 }
        ensures memory { IfErr result (λ refusal. refusal ≡ Refusal.Memory) }
        ensures is_left { IfOk result (λ mutex. mutex.words.is_left ≡ false) }
        ensures limit { IfOk result (λ mutex. mutex.words.limit ≡ limit) }
    {
        let alloc = rt.alloc();
        let Ok(words) = Words::with_limit(alloc, value, limit) else {
            return Err(Refusal::Memory);
        };
        Ok(Mutex { words, rt })
    }
}

impl<T, R> Mutex<T, R> {
    /// Returns the value, also of a mutex that a forgotten guard left held. It waits for nobody and takes no memory.
    ///
    /// ```
    /// Ok(mutex.into_inner())
    /// ```
    pub fn into_inner(self) -> T
    where
        R: Drop,
    {
        let Mutex { words, rt } = self;
        drop(rt);
        words.into_inner()
    }

    /// Returns the value, also of a mutex that a forgotten guard left held, which stays held. It waits for nobody and takes
    /// no memory.
    ///
    /// ```
    /// let value = mutex.get_mut();
    /// *value = value.saturating_add(1);
    /// ```
    pub fn get_mut(&mut self) -> &mut T {
        self.words.get_mut()
    }
}

impl<T, R: Releases> Mutex<T, R> {
    /// Takes the lock at once, if it is free and nobody is starved.
    ///
    /// The contract guarantees that a returned guard belongs to this mutex. That a free lock is acquired is only tested.
    ///
    /// ```
    /// let Some(guard) = mutex.try_lock() else {
    ///     return Ok(false);
    /// };
    /// ```
    pub fn try_lock(&self) -> Option<MutexGuard<'_, T, R>>
        ensures { IfSome result (λ guard. guard.mutex ≡ self.now) }
    {
        let held = self.words.try_lock()?;
        Some(Guard::new(self, held))
    }

    // Gives the lock back.
    #[inline]
    pub(crate) fn release(&self, held: Held<T>)
        requires { IsHeldOf self.now.words held }
    {
        self.rt.release(&self.words, held);
    }
}

impl<T, R: Wait> Mutex<T, R> {
    /// Returns a future of the lock, which does nothing until it is polled. It has the mutex (`owner`).
    ///
    /// ```
    /// let mut future = mutex.lock();
    /// let first = task.enter(|cx| poll_once(&mut future, cx))?;
    /// ```
    pub fn lock(&self) -> Lock<'_, T, R>
        ensures owner { IsOf (λ o. o.now) result.stage self.now }
        ensures new { is_finished result.stage ≡ false }
        ensures entry { result.entry ≡ None }
    {
        LockFuture::new(Stage::Waits(self))
    }
}

impl<T: Drop, R: Releases + Drop> Mutex<T, R> {
    /// Does as [`Mutex::try_lock`] does, for a guard that owns its share of the mutex. It is `None` too where that share
    /// can't be had.
    ///
    /// ```
    /// let is_free = Mutex::try_lock_arc(&mutex).is_some();
    /// ```
    pub fn try_lock_arc(this: &Arc<Mutex<T, R>>) -> Option<MutexGuardArc<T, R>>
        ensures { IfSome result (λ guard. guard.mutex ≡ arc_value this.now) }
    {
        let held = this.words.try_lock()?;
        match Arc::try_clone(this) {
            Ok(mutex) => Some(Guard::new(mutex, held)),
            Err(_) => {
                this.release(held);
                None
            }
        }
    }
}

impl<T: Drop, R: Wait + Drop> Mutex<T, R> {
    /// Returns a future as [`Mutex::lock`] does, which owns its share of the mutex and gives it to its guard. Where that share
    /// can't be had, its polls are refused as [`Refusal::Memory`].
    ///
    /// ```
    /// let mut guard = wait_for(&rt, Mutex::lock_arc(&mutex))?;
    /// ```
    #[inline]
    pub fn lock_arc(this: &Arc<Mutex<T, R>>) -> LockArc<T, R>
        ensures mutex { IsFor arc_value result.stage (arc_value this.now) }
        ensures new { is_finished result.stage ≡ false }
        ensures entry { result.entry ≡ None }
    {
        LockFuture::new(first::<Mutex<T, R>, Arc<Mutex<T, R>>>(Arc::try_clone(this).ok()))
    }
}

impl<T: Drop, R: Wait + Clock + RandomSource + AllocGlobal> Mutex<T, R> {
    /// Acquires the lock, blocking the calling thread until it is available. Any error of the executor is
    /// [`Refusal::Memory`]. It is refused as this, or as [`Refusal::Starved`] (`refused`).
    /// Don't call it in an async context: it blocks the thread that runs the other tasks, and may deadlock.
    ///
    /// ```
    /// let mut guard = mutex.lock_blocking()?;
    /// *guard = guard.saturating_add(1);
    /// ```
    #[inline]
    pub fn lock_blocking(&self) -> Result<MutexGuard<'_, T, R>, Refusal>
        ensures mutex { IfOk result (λ guard. guard.mutex ≡ self.now) }
        ensures refused { IfErr result IsGivenUp }
    {
        if let Some(guard) = self.try_lock() {
            return Ok(guard);
        }
        self.lock_held()
    }

    // As `lock_blocking`, where the lock isn't free. It stands apart, so that the call is short where it is.
    #[cold]
    #[inline(never)]
    fn lock_held(&self) -> Result<MutexGuard<'_, T, R>, Refusal>
        ensures mutex { IfOk result (λ guard. guard.mutex ≡ self.now) }
        ensures refused { IfErr result IsGivenUp }
    {
        wait_for(&self.rt, self.lock())
    }
}

impl<T: Drop, R: Wait + Clock + RandomSource + AllocGlobal + Drop> Mutex<T, R> {
    /// Does as [`Mutex::lock_blocking`] does, for a guard that owns its share of the mutex.
    ///
    /// ```
    /// Mutex::lock_arc_blocking(&shared)
    /// ```
    pub fn lock_arc_blocking(this: &Arc<Mutex<T, R>>) -> Result<MutexGuardArc<T, R>, Refusal>
        ensures mutex { IfOk result (λ guard. guard.mutex ≡ arc_value this.now) }
        ensures refused { IfErr result IsGivenUp }
    {
        if let Some(guard) = Mutex::try_lock_arc(this) {
            return Ok(guard);
        }
        wait_for(&this.rt, Mutex::lock_arc(this))
    }
}

impl<T: fmt::Debug, R: Releases> fmt::Debug for Mutex<T, R> {
    fn fmt<W: fmt::Write>(&self, f: &mut fmt::Formatter<W>) -> fmt::Result {
        let Some(held) = self.words.try_lock() else {
            return debug_as(f, &Locked);
        };
        let shown = debug_as(f, held.hold.get(self.words.room()));
        self.release(held);
        shown
    }
}

// A mutex with what stands for its value.
fn debug_as<D: fmt::Debug, W: fmt::Write>(f: &mut fmt::Formatter<W>, data: &D) -> fmt::Result {
    f.debug_struct("Mutex").field("data", data).finish()
}

// What stands for the value of a mutex that is held.
struct Locked;

impl fmt::Debug for Locked {
    fn fmt<W: fmt::Write>(&self, f: &mut fmt::Formatter<W>) -> fmt::Result {
        f.write_str("<locked>")
    }
}
