//! The future of a barrier.

ghost use Rattle.std.specs.Prelude.{◌≡◌, false, ⊤, None, IfSome};
ghost use Rattle.futures.specs.Task.{Covers, Keeps};
ghost use Rattle.async_driver.specs.Turns.{IsTurn, OnPending, OnReady, OnRefused};
ghost use Rattle.async_barrier.specs.Futures.{GoesOnBy, IsEndOf, IsInNoList, IsReceipt, OnAgain, counted_of};
ghost use Rattle.barrier_core.specs.Outcomes.{IsGivenUp, StaysCounted};

use crate::barrier::Barrier;
use crate::result::BarrierWaitResult;
use async_driver::{Polled, Turn, put};
use barrier_core::{Aim, Ended, Outcome, Resting};
use futures::task::Context;
use lock_program::Refusal;
use std::fmt;
use std::marker::Model;
use std::sync::Wait;
use std::time::Clock;

/// A future of a barrier's wait. Dropping it leaves the list that it waits in, the barrier's or the inner lock's, and forwards an
/// unused notification. An arrival that was counted stays counted.
///
/// Contracts see its barrier, whether it was ready before (`is_over`), what it has at the barrier between two polls (`waiting`), and the
/// seat by which it has ended (`ended`).
pub struct BarrierWait<'a, R: Wait> {
    barrier: &'a Barrier<R>,
    is_over: bool,
    // The seat that has led or followed, once it was ready.
    ended: Option<Ended>,
    // `None` before the first poll, and once it was ready, or was refused before its arrival was counted.
    waiting: Option<Resting>,
}

impl<'a, R: Wait> Model for BarrierWait<'a, R> {
    ghost use Rattle.std.specs.Prelude.{◌≡◌, IfSome, None, true};
    ghost use Rattle.async_barrier.specs.Futures.{Future, future};
    ghost use Rattle.barrier_core.specs.Outcomes.{RestsAt};

    ghost Value = { Future R };

    ghost view = { λ w. future w.barrier.now w.is_over w.waiting w.ended };

    ghost invariant = { λ w. IfSome w.waiting (RestsAt w.barrier.now.raw) × (w.is_over ≡ true → w.waiting ≡ None) };
}

impl<'a, R: Wait> BarrierWait<'a, R> {
    ghost use Rattle.async_barrier.specs.Futures.{future};

    pub(crate) fn new(barrier: &'a Barrier<R>) -> BarrierWait<'a, R>
        ensures { result ≡ future barrier.now false None None }
    {
        BarrierWait {
            barrier,
            is_over: false,
            ended: None,
            waiting: None,
        }
    }
}

impl<R: Wait + Clock> BarrierWait<'_, R> {
    /// Polls once: ready with whether this wait led its generation, or pending. A ready wait leads by a seat of its barrier that has finished
    /// a generation, or follows by one that found its arrival's generation finished, and has ended by that seat (`found`).
    ///
    /// It is refused as [`Refusal::Memory`] if memory for an entry was refused, as [`Refusal::Starved`] if as many wait starved
    /// for the inner lock as may, and as [`Refusal::Generations`] if the arrival would finish a generation past the limit. Then
    /// the wait may be polled again: an arrival that wasn't counted begins anew, and one that was stays counted. Once it was
    /// ready it is refused as [`Refusal::Finished`], and nothing changes (`turn`). Refused, it has an entry in no list (`refused`).
    ///
    /// An arrival that was counted stays counted, in the same generation, while the wait isn't ready (`counted`). It goes on by one seat,
    /// from the poll that counted it to its end; and one that isn't counted yet, and waits for the inner lock, by one seat of that lock
    /// (`same`).
    ///
    /// Pending, it has an entry in the barrier's list or in the inner lock's that keeps a waker of the task that polls
    /// (`receipt`). The task has registered with the barrier's source (`registered`), and keeps what it had registered before
    /// (`kept`).
    pub fn poll(&mut self, cx: &mut Context<'_>) -> Turn<BarrierWaitResult>
        ensures turn { IsTurn IsGivenUp (λ _. ⊤) self.old.is_over result self.new.is_over }
        ensures barrier { self.new.barrier ≡ self.old.barrier }
        ensures found { OnReady result (IsEndOf self.old.barrier.raw self.new.ended) }
        ensures refused { OnRefused result (λ _. IsInNoList self.new.waiting) }
        ensures same { IfSome self.old.waiting (λ r. GoesOnBy r result self.new.waiting self.new.ended) }
        ensures counted { OnAgain result (StaysCounted (counted_of self.old.waiting) (counted_of self.new.waiting)) }
        ensures receipt { OnPending result (IsReceipt self.old.barrier.raw cx.new self.new.waiting) }
        ensures registered { OnPending result (Covers cx.new (λ s. s ≡ self.old.barrier.raw.inner.source)) }
        ensures kept { Keeps cx.old cx.new }
    {
        if self.is_over {
            return Turn::Refused(Refusal::Finished);
        }
        let barrier = self.barrier;
        let outcome = match self.waiting.take() {
            None => barrier.raw.poll_first(&barrier.rt, cx),
            Some(resting) => barrier.raw.poll_later(&barrier.rt, cx, resting),
        };
        match outcome {
            Outcome::Ready(verdict) => {
                let (result, ended) = BarrierWaitResult::new(&barrier.raw, verdict);
                self.is_over = true;
                self.ended = Some(ended);
                Turn::Ready(result)
            }
            Outcome::Pending(resting) => {
                put(&mut self.waiting, resting);
                Turn::Pending
            }
            Outcome::Refused(refusal, aim) => {
                match aim {
                    Aim::Arrive(course) => course.end(),
                    Aim::Check(arrival) => put(&mut self.waiting, Resting::Counted(arrival)),
                }
                Turn::Refused(refusal)
            }
        }
    }
}

impl<R: Wait + Clock> Polled for BarrierWait<'_, R> {
    type Got = BarrierWaitResult;

    ghost use Rattle.std.specs.Prelude.{IfSome};
    ghost use Rattle.async_driver.specs.Turns.{CanRefuse};
    ghost use Rattle.async_barrier.specs.Futures.{GoesOnBy, IsResultAt};
    ghost use Rattle.barrier_core.specs.Outcomes.{IsGivenUp};

    ghost gives = { λ wait got. IsResultAt wait.barrier.raw got };

    ghost refuses = { λ wait. CanRefuse IsGivenUp wait.is_over };

    ghost goes_on = { λ old turn new. IfSome old.waiting (λ r. GoesOnBy r turn new.waiting new.ended) };

    fn poll_turn(&mut self, cx: &mut Context<'_>) -> Turn<BarrierWaitResult> {
        self.poll(cx)
    }
}

impl<R: Wait> Drop for BarrierWait<'_, R> {
    fn drop(self) {
        let Self {
            barrier,
            is_over: _,
            ended: _,
            waiting,
        } = self;
        if let Some(resting) = waiting {
            barrier.raw.cancel(&barrier.rt, resting);
        }
    }
}

impl<R: Wait> fmt::Debug for BarrierWait<'_, R> {
    fn fmt<W: fmt::Write>(&self, f: &mut fmt::Formatter<W>) -> fmt::Result {
        f.debug_struct("BarrierWait").finish_non_exhaustive()
    }
}
