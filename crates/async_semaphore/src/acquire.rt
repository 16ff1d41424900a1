//! The future of permits.

ghost use Rattle.std.specs.Prelude.{◌≡◌, true, false, IfSome, IsNone, None};
ghost use Rattle.futures.specs.Task.{Covers, Keeps};
ghost use Rattle.async_driver.specs.Turns.{IsForMemory, IsTurn, OnPending, OnRefused};
ghost use Rattle.async_driver.specs.Stages.{is_finished};
ghost use Rattle.async_semaphore.specs.Stages.{Gives, GoesOnBy, HasReceiptAt, OnTriedAt, WaitsAt, future};

use crate::guard::PermitGuard;
use crate::owns::Owns;
use crate::stage::{drop_stage, into_guard, poll_first, poll_waiting, take};
use async_driver::{Polled, Stage, Turn, put};
use futures::task::Context;
use lock_program::Refusal;
use semaphore_core::{Outcome, Tried, Waiting};
use std::marker::{Model, PhantomData};
use std::sync::Wait;
use std::time::Clock;
use std::{fmt, mem};

/// A future of a number of permits. Dropping it while it waits takes its entry out of the list; if the entry was notified, the
/// first waiter for whom the available permits are enough is notified instead.
///
/// Contracts see how far it is (`stage`), for how many permits it is (`permits`), and what it has at the semaphore meanwhile
/// (`waiting`).
pub struct AcquireFuture<R: Wait, O: Owns<Runtime = R>> {
    stage: Stage<O>,
    permits: u64,
    // What it has there while it waits, and `None` else.
    waiting: Option<Waiting>,
    runtime: PhantomData<R>,
}

impl<R: Wait, O: Owns<Runtime = R>> Model for AcquireFuture<R, O> {
    ghost use Rattle.std.specs.Prelude.{IfSome};
    ghost use Rattle.async_semaphore.specs.Stages.{Future, WaitsAs, future};

    ghost Value = { Future O };

    ghost view = { λ f. future f.stage f.permits f.waiting };

    ghost invariant = { λ f. IfSome f.waiting (WaitsAs O.semaphore_of f.stage f.permits) };
}

impl<R: Wait, O: Owns<Runtime = R>> AcquireFuture<R, O> {
    #[inline]
    pub(crate) fn new(stage: Stage<O>, permits: u64) -> AcquireFuture<R, O>
        requires { is_finished stage ≡ false }
        ensures { result ≡ future stage permits None }
    {
        AcquireFuture {
            stage,
            permits,
            waiting: None,
            runtime: PhantomData,
        }
    }

    /// Returns for how many permits the future is.
    ///
    /// ```
    /// let is_of_two = of_two.permits() == 2;
    /// ```
    pub fn permits(&self) -> usize
        ensures { result ≡ self.now.permits }
    {
        self.permits as usize
    }
}

impl<R: Wait + Clock, O: Owns<Runtime = R>> AcquireFuture<R, O> {
    /// Polls once: ready with the guard, or pending.
    ///
    /// It is refused as [`Refusal::Memory`] if memory for its entry was refused, or if no share of the semaphore could be had. Then
    /// the future is as when it was made, and may be polled again (`refused`). Once it was ready it is refused as
    /// [`Refusal::Finished`], and nothing changes (`turn`).
    ///
    /// Pending, it has an entry for its permits in the semaphore's list, which keeps a waker of the task that polls
    /// (`receipt`). The task has registered with the semaphore's source (`registered`), and keeps what it had registered before
    /// (`kept`). It waits by one seat, from the poll that joined the list to the guard (`same`): so it gets its permits by no other way,
    /// and keeps its wait.
    #[inline(always)]
    pub fn poll(&mut self, cx: &mut Context<'_>) -> Turn<PermitGuard<R, O>>
        ensures turn { IsTurn IsForMemory (Gives O.semaphore_of self.old.stage self.old.permits) (is_finished self.old.stage) result (is_finished self.new.stage) }
        ensures permits { self.new.permits ≡ self.old.permits }
        ensures share { is_finished self.new.stage ≡ false → self.new.stage ≡ self.old.stage }
        ensures same { IfSome self.old.waiting (λ w. GoesOnBy w.seat result self.new.waiting) }
        ensures refused { OnRefused result (λ _. IsNone self.new.waiting) }
        ensures receipt { OnPending result (HasReceiptAt O.semaphore_of self.old.stage self.old.permits cx.new self.new.waiting) }
        ensures registered { OnPending result (Covers cx.new (WaitsAt O.semaphore_of self.old.stage)) }
        ensures kept { Keeps cx.old cx.new }
    {
        let permits = self.permits;
        if let Some(waiting) = self.waiting.take() {
            return match poll_waiting::<R, O>(&self.stage, permits, waiting, cx) {
                Outcome::Got(seat) => {
                    let stage = mem::replace(&mut self.stage, Stage::Finished);
                    Turn::Ready(into_guard(stage, seat, permits))
                }
                Outcome::Waits(waiting) => {
                    put(&mut self.waiting, waiting);
                    Turn::Pending
                }
                Outcome::Refused(refusal) => Turn::Refused(refusal),
            };
        }
        // The stage is out meanwhile, so that a future that is ready at once need not be in memory.
        let stage = mem::replace(&mut self.stage, Stage::Finished);
        match take::<R, O>(&stage, permits) {
            Some(Tried::Got(seat)) => Turn::Ready(into_guard(stage, seat, permits)),
            Some(tried) => self.poll_on(stage, tried, cx),
            None => {
                if let Stage::Finished = stage {
                    return Turn::Refused(Refusal::Finished);
                }
                self.stage = stage;
                Turn::Refused(Refusal::Memory)
            }
        }
    }

    // The rest of a first poll, whose stage is out. It is in line, so that the future need not be in memory for it, and a function of
    // its own, so that what it takes room for is cleared only where it is reached.
    #[inline(always)]
    fn poll_on(
        &mut self,
        stage: Stage<O>,
        tried: Tried,
        cx: &mut Context<'_>,
    ) -> Turn<PermitGuard<R, O>>
        requires out { (is_finished self.old.stage ≡ true) × (self.old.waiting ≡ None) }
        requires tried { OnTriedAt O.semaphore_of stage self.old.permits tried }
        ensures turn { IsTurn IsForMemory (Gives O.semaphore_of stage self.old.permits) false result (is_finished self.new.stage) }
        ensures permits { self.new.permits ≡ self.old.permits }
        ensures share { is_finished self.new.stage ≡ false → self.new.stage ≡ stage }
        ensures refused { OnRefused result (λ _. IsNone self.new.waiting) }
        ensures receipt { OnPending result (HasReceiptAt O.semaphore_of stage self.old.permits cx.new self.new.waiting) }
        ensures registered { OnPending result (Covers cx.new (WaitsAt O.semaphore_of stage)) }
        ensures kept { Keeps cx.old cx.new }
    {
        let permits = self.permits;
        match poll_first::<R, O>(&stage, permits, tried, cx) {
            Outcome::Got(seat) => Turn::Ready(into_guard(stage, seat, permits)),
            Outcome::Waits(waiting) => {
                self.stage = stage;
                put(&mut self.waiting, waiting);
                Turn::Pending
            }
            Outcome::Refused(refusal) => {
                self.stage = stage;
                Turn::Refused(refusal)
            }
        }
    }
}

impl<R: Wait + Clock, O: Owns<Runtime = R>> Polled for AcquireFuture<R, O> {
    type Got = PermitGuard<R, O>;

    ghost use Rattle.async_driver.specs.Stages.{is_finished};
    ghost use Rattle.std.specs.Prelude.{IfSome};
    ghost use Rattle.async_driver.specs.Turns.{CanRefuse, IsForMemory};
    ghost use Rattle.async_semaphore.specs.Stages.{Gives, GoesOnBy};

    ghost gives = { λ future guard. Gives O.semaphore_of future.stage future.permits guard };

    ghost refuses = { λ future. CanRefuse IsForMemory (is_finished future.stage) };

    ghost goes_on = { λ old turn new. IfSome old.waiting (λ w. GoesOnBy w.seat turn new.waiting) };

    fn poll_turn(&mut self, cx: &mut Context<'_>) -> Turn<PermitGuard<R, O>> {
        self.poll(cx)
    }
}

impl<R: Wait, O: Owns<Runtime = R>> Drop for AcquireFuture<R, O> {
    #[inline]
    fn drop(self) {
        let Self {
            stage,
            permits,
            waiting,
            runtime: _,
        } = self;
        drop_stage::<R, O>(stage, permits, waiting);
    }
}

impl<R: Wait, O: Owns<Runtime = R>> fmt::Debug for AcquireFuture<R, O> {
    fn fmt<W: fmt::Write>(&self, f: &mut fmt::Formatter<W>) -> fmt::Result {
        if O::is_share() {
            f.write_str("AcquireArc { .. }")
        } else {
            f.write_str("Acquire { .. }")
        }
    }
}
