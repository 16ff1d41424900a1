//! The future of a mutex.

ghost use Rattle.std.specs.Prelude.{◌≡◌, false, IfSome, None};
ghost use Rattle.futures.specs.Task.{Covers, Keeps};
ghost use Rattle.async_driver.specs.Stages.{IsOf, is_finished};
ghost use Rattle.async_driver.specs.Turns.{IsTurn, OnPending, OnRefused};
ghost use Rattle.async_mutex.specs.Futures.{GoesOnBy, HasReceipt, WaitsAt, WaitsSinceThen, future};
ghost use Rattle.mutex_core.specs.Outcomes.{IsGivenUp};

use crate::guard::Guard;
use crate::mutex::Mutex;
use crate::owns::Owns;
use crate::stage::{drop_stage, first_look, first_poll, into_guard, into_turn, later_poll};
use async_driver::{Look, Polled, Stage, Turn, no_share};
use futures::task::Context;
use lock_program::Refusal;
use mutex_core::Waiting;
use std::marker::{Model, PhantomData};
use std::sync::Wait;
use std::time::Clock;
use std::{fmt, mem};

/// A future of a mutex's lock. Dropping it leaves the waiting list, forwards an unused notification, and removes its count as
/// starved.
///
/// Contracts see how far it is (`stage`), and its entry in the mutex's list (`entry`).
pub struct LockFuture<T, R: Wait, O: Owns<Value = T, Runtime = R>> {
    stage: Stage<O>,
    // `None` before the first poll that didn't get the lock, and once it was ready.
    waiting: Option<Waiting<T>>,
    runtime: PhantomData<R>,
}

impl<T, R: Wait, O: Owns<Value = T, Runtime = R>> Model for LockFuture<T, R, O> {
    ghost use Rattle.std.specs.Prelude.{IfSome};
    ghost use Rattle.async_mutex.specs.Futures.{Future, WaitsAs, entry_of, future};

    ghost Value = { Future O };

    ghost view = { λ l. future l.stage (entry_of l.waiting) };

    ghost invariant = { λ l. IfSome l.waiting (WaitsAs O.lock_of l.stage) };
}

impl<T, R: Wait, O: Owns<Value = T, Runtime = R>> LockFuture<T, R, O> {
    #[inline]
    pub(crate) fn new(stage: Stage<O>) -> LockFuture<T, R, O>
        requires { is_finished stage ≡ false }
        ensures { result ≡ future stage None }
    {
        LockFuture {
            stage,
            waiting: None,
            runtime: PhantomData,
        }
    }
}

impl<T, R: Wait + Clock, O: Owns<Value = T, Runtime = R>> LockFuture<T, R, O> {
    /// Polls once: ready with the guard, or pending.
    ///
    /// It is refused as [`Refusal::Memory`] if memory for its entry was refused, or if no share of the mutex could be had, and as
    /// [`Refusal::Starved`] if as many waiters are starved as may be. Then it has no entry (`refused`), as when it was made, and may be polled
    /// again. Once it was ready it is refused as [`Refusal::Finished`], and nothing changes (`turn`).
    ///
    /// Pending, it has an entry in the mutex's list that keeps a waker of the task that polls (`receipt`). The task has registered
    /// with the mutex's source (`registered`), and keeps what it had registered before (`kept`). Until it is ready the future keeps
    /// its mutex (`share`). It waits by one seat, from the poll that joined the list to the guard (`same`), which
    /// begins no other call meanwhile. If it waits on, it keeps the time since which it waits, if it has one, until it counts as starved
    /// (`since`).
    ///
    /// ```
    /// match future.poll(cx) {
    ///     Turn::Pending => Ok(None),
    ///     Turn::Ready(guard) => Ok(Some(*guard)),
    ///     Turn::Refused(refusal) => Err(refusal),
    /// }
    /// ```
    #[inline]
    pub fn poll(&mut self, cx: &mut Context<'_>) -> Turn<Guard<T, R, O>>
        ensures turn { IsTurn IsGivenUp (λ guard. IsOf O.lock_of self.old.stage guard.mutex) (is_finished self.old.stage) result (is_finished self.new.stage) }
        ensures share { is_finished self.new.stage ≡ false → self.new.stage ≡ self.old.stage }
        ensures same { IfSome self.old.entry (λ e. GoesOnBy (λ guard. guard.seat) e.seat result self.new.entry) }
        ensures since { IfSome self.old.entry (λ e. WaitsSinceThen e.since result self.new.entry) }
        ensures refused { OnRefused result (λ _. self.new.entry ≡ None) }
        ensures receipt { OnPending result (HasReceipt O.lock_of self.old.stage cx.new self.new.entry) }
        ensures registered { OnPending result (Covers cx.new (WaitsAt O.lock_of self.old.stage)) }
        ensures kept { Keeps cx.old cx.new }
    {
        let outcome = match self.waiting.take() {
            Some(waiting) => later_poll::<T, R, O>(&self.stage, cx, waiting),
            None => match first_look::<T, R, O>(&self.stage) {
                Look::Got(held) => {
                    let stage = mem::replace(&mut self.stage, Stage::Finished);
                    return Turn::Ready(into_guard(stage, held));
                }
                Look::Vain(vain) => first_poll::<T, R, O>(&self.stage, cx, vain),
                Look::NoShare => return Turn::Refused(no_share(&self.stage)),
            },
        };
        into_turn::<T, R, O>(&mut self.stage, &mut self.waiting, outcome)
    }
}

impl<T, R: Wait + Clock, O: Owns<Value = T, Runtime = R>> Polled for LockFuture<T, R, O> {
    type Got = Guard<T, R, O>;

    ghost use Rattle.std.specs.Prelude.{IfSome};
    ghost use Rattle.async_driver.specs.Stages.{IsOf, is_finished};
    ghost use Rattle.async_driver.specs.Turns.{CanRefuse};
    ghost use Rattle.async_mutex.specs.Futures.{GoesOnBy, WaitsSinceThen};
    ghost use Rattle.mutex_core.specs.Outcomes.{IsGivenUp};

    ghost gives = { λ future guard. IsOf O.lock_of future.stage guard.mutex };

    ghost refuses = { λ future. CanRefuse IsGivenUp (is_finished future.stage) };

    ghost goes_on = { λ old turn new. IfSome old.entry (λ e. GoesOnBy (λ guard. guard.seat) e.seat turn new.entry × WaitsSinceThen e.since turn new.entry) };

    fn poll_turn(&mut self, cx: &mut Context<'_>) -> Turn<Guard<T, R, O>> {
        self.poll(cx)
    }
}

impl<T, R: Wait, O: Owns<Value = T, Runtime = R>> Drop for LockFuture<T, R, O> {
    #[inline]
    fn drop(self) {
        let Self {
            stage,
            waiting,
            runtime: _,
        } = self;
        drop_stage::<T, R, O>(stage, waiting);
    }
}

impl<T, R: Wait, O: Owns<Value = T, Runtime = R>> fmt::Debug for LockFuture<T, R, O> {
    fn fmt<W: fmt::Write>(&self, f: &mut fmt::Formatter<W>) -> fmt::Result {
        if O::is_share() {
            f.write_str("LockArc { .. }")
        } else {
            f.write_str("Lock { .. }")
        }
    }
}
