//! The barrier.

ghost use Rattle.std.specs.Prelude.{◌≡◌, IfErr, IfOk, None, false};
ghost use Rattle.async_barrier.specs.Futures.{IsResultAt};
ghost use Rattle.barrier_core.specs.Outcomes.{IsGivenUp};
ghost use Rattle.lock_program.specs.declared.refusal.Refusal.{Refusal};

use crate::result::BarrierWaitResult;
use crate::wait::BarrierWait;
use async_driver::wait_for;
use barrier_core::{RawBarrier, Verdict};
use lock_program::Refusal;
use std::alloc::AllocGlobal;
use std::fmt;
use std::random::RandomSource;
use std::sync::Wait;
use std::time::Clock;

/// How many generations a barrier may finish.
const GENERATIONS_LIMIT: u64 = u64::MAX;

/// A number of tasks wait for each other here.
///
/// `R` is the runtime that the barrier was made with and keeps.
pub struct Barrier<R> {
    pub(crate) raw: RawBarrier,
    pub(crate) rt: R,
}

// By hand, so that a drop is one call to prove, and not all of its parts again.
impl<R: Drop> Drop for Barrier<R> {
    fn drop(self) {
        let Barrier { raw: _, rt: _ } = self;
    }
}

impl<R: AllocGlobal + Drop> Barrier<R> {
    /// Creates a barrier for `n` tasks, at which nobody has arrived. If memory is refused, it returns [`Refusal::Memory`].
    ///
    /// The first `n` - 1 arrivals of a generation wait, and the last leads and ends their wait. At a barrier for 0 or 1 each
    /// arrival leads. Its limits are the greatest: `u64::MAX` generations (`barrier`), and 1,073,741,823 arrivals at once that wait starved
    /// for its inner lock, as for a mutex (`limit`).
    ///
    /// ```
    /// let barrier = Barrier::new(rt, 2)?;
    /// ```
    pub fn new(rt: R, n: usize) -> Result<Barrier<R>, Refusal>
        ensures memory { IfErr result (λ refusal. refusal ≡ Refusal.Memory) }
        ensures barrier { IfOk result (λ barrier. (barrier.raw.size ≡ n) × (barrier.raw.most ≡ u64.MAX)) }
        ensures limit { IfOk result (λ barrier. barrier.raw.inner.limit ≡ 1073741823) }
    {
        Barrier::with_limit(rt, n, GENERATIONS_LIMIT)
    }

    /// Creates a barrier as [`Barrier::new`] does, which may finish so many generations. It is for tests.
    pub fn with_limit(rt: R, n: usize, most: u64) -> Result<Barrier<R>, Refusal>
        ensures memory { IfErr result (λ refusal. refusal ≡ Refusal.Memory) }
        ensures barrier { IfOk result (λ barrier. (barrier.raw.size ≡ n) × (barrier.raw.most ≡ most)) }
        ensures limit { IfOk result (λ barrier. barrier.raw.inner.limit ≡ 1073741823) }
    {
        match RawBarrier::new(rt.alloc(), n as u64, most) {
            Ok(raw) => Ok(Barrier { raw, rt }),
            Err(_) => Err(Refusal::Memory),
        }
    }
}

impl<R> Barrier<R> {
    /// Returns the barrier without its runtime. It is for tests.
    pub fn raw(&self) -> &RawBarrier
        ensures { result.now ≡ self.now.raw }
    {
        &self.raw
    }
}

impl<R: Wait> Barrier<R> {
    ghost use Rattle.async_barrier.specs.Futures.{future};

    /// Returns a future of a wait at this barrier, which does nothing until it is polled. Its arrival counts once a poll has had the
    /// inner lock.
    ///
    /// ```
    /// let result = wait_for(&rt, barrier.wait())?;
    /// ```
    pub fn wait(&self) -> BarrierWait<'_, R>
        ensures { result ≡ future self.now false None None }
    {
        BarrierWait::new(self)
    }
}

impl<R: Wait + Clock + RandomSource + AllocGlobal> Barrier<R> {
    /// Waits at this barrier, blocking the calling thread until its generation is finished. Any error of the executor is
    /// [`Refusal::Memory`]. It is refused by the names by which a wait gives up, and never as finished (`refused`).
    ///
    /// Its result leads by a seat of this barrier that has finished a generation, or follows by one that found its arrival's generation
    /// finished (`found`).
    ///
    /// Don't call it in an async context: it blocks the thread that runs the other tasks, and may deadlock.
    ///
    /// ```
    /// let first = barrier.wait_blocking()?.is_leader();
    /// ```
    pub fn wait_blocking(&self) -> Result<BarrierWaitResult, Refusal>
        ensures found { IfOk result (IsResultAt self.now.raw) }
        ensures refused { IfErr result IsGivenUp }
    {
        match self.raw.try_lead(&self.rt) {
            Ok(Some(led)) => Ok(BarrierWaitResult::new(&self.raw, Verdict::Led(led)).0),
            Ok(None) => self.wait_asleep(),
            Err(refusal) => Err(refusal),
        }
    }

    // As `wait_blocking`, of an arrival that has to wait. It stands apart, so that the call is short where it leads.
    #[cold]
    #[inline(never)]
    fn wait_asleep(&self) -> Result<BarrierWaitResult, Refusal>
        ensures found { IfOk result (IsResultAt self.now.raw) }
        ensures refused { IfErr result IsGivenUp }
    {
        wait_for(&self.rt, self.wait())
    }
}

impl<R> fmt::Debug for Barrier<R> {
    fn fmt<W: fmt::Write>(&self, f: &mut fmt::Formatter<W>) -> fmt::Result {
        f.debug_struct("Barrier").finish_non_exhaustive()
    }
}
