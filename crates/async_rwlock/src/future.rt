//! The futures of a read, of an upgradable read and of a write: one type over the guard that each waits for.

ghost use Rattle.std.specs.Prelude.{◌≡◌, false, IfSome, None};
ghost use Rattle.futures.specs.Task.{Covers, Keeps};
ghost use Rattle.async_driver.specs.Turns.{IsTurn, OnPending, OnReady, OnRefused};
ghost use Rattle.async_driver.specs.Stages.{IsOf, is_finished};
ghost use Rattle.async_rwlock.specs.Stages.{GoesOnBy, HasReceiptAt, WaitsAt, future};

use crate::acquired::Acquired;
use crate::owns::Owns;
use async_driver::{Polled, Stage, Turn, no_share, nothing, put};
use futures::task::Context;
use rwlock_core::Outcome;
use std::marker::{Model, PhantomData};
use std::sync::Wait;
use std::time::Clock;
use std::{fmt, mem};

/// A future of a guard. Dropping it while it waits gives back what it has.
///
/// Contracts see how far it is (`stage`), and what it has at the lock meanwhile (`waiting`).
pub struct GuardFuture<T, R: Wait, O: Owns<Value = T, Runtime = R>, G: Acquired<Owner = O>> {
    stage: Stage<O>,
    // `None` before the first poll that didn't get the right, and once it was ready.
    waiting: Option<G::Waiting>,
    lock: PhantomData<(T, R)>,
}

impl<T, R: Wait, O: Owns<Value = T, Runtime = R>, G: Acquired<Owner = O>> Model
    for GuardFuture<T, R, O, G> {
    ghost use Rattle.std.specs.Prelude.{IfSome};
    ghost use Rattle.async_rwlock.specs.Stages.{At, Future, entry_of, future};

    ghost Value = { Future O };

    ghost view = { λ l. future l.stage (entry_of G.entry l.waiting) };

    ghost invariant = { λ l. IfSome l.waiting (λ w. At O.lock_of l.stage (λ raw. G.waits_at raw w)) };
}

impl<T, R: Wait, O: Owns<Value = T, Runtime = R>, G: Acquired<Owner = O>> GuardFuture<T, R, O, G> {
    #[inline]
    pub(crate) fn new(stage: Stage<O>) -> GuardFuture<T, R, O, G>
        requires { is_finished stage ≡ false }
        ensures { result ≡ future stage None }
    {
        GuardFuture {
            stage,
            waiting: None,
            lock: PhantomData,
        }
    }
}

impl<T, R: Wait + Clock, O: Owns<Value = T, Runtime = R>, G: Acquired<Owner = O>> GuardFuture<
    T,
    R,
    O,
    G,
> {
    /// Polls once: ready with the guard, or pending. The seat of a guard that reads has found fewer readers than the lock's own limit (`few`).
    ///
    /// It is refused as [`Refusal::Memory`](crate::Refusal::Memory) if memory for its entry was refused. A read, upgradable or not, is refused
    /// as [`Refusal::Readers`](crate::Refusal::Readers) if as many read as may, and an upgradable read and a write as
    /// [`Refusal::Starved`](crate::Refusal::Starved) if as many waiters are starved for the writer lock as may be. Then the future is as when
    /// it was made, and may be polled again (`refused`): a write that waited for readers gives up the right to be next. Once it was ready it is
    /// refused as [`Refusal::Finished`](crate::Refusal::Finished), and nothing changes (`turn`).
    ///
    /// Pending, it has an entry in the list of what it wants next, which keeps a waker of the task that polls (`receipt`). The task
    /// has registered with the source of that (`registered`), and keeps what it had registered before (`kept`). It waits by one seat, from
    /// the poll that joined a list to the guard: a read by one of the state, an upgradable read by one of the writer lock, and a write by
    /// one of each (`same`). In each poll a seat of the state that waited begins one call.
    #[inline]
    pub fn poll(&mut self, cx: &mut Context<'_>) -> Turn<G>
        ensures turn { IsTurn G.refuses (λ guard. IsOf O.lock_of self.old.stage (G.held guard).lock) (is_finished self.old.stage) result (is_finished self.new.stage) }
        ensures share { is_finished self.new.stage ≡ false → self.new.stage ≡ self.old.stage }
        ensures same { IfSome self.old.waiting (λ e. GoesOnBy (λ guard. (G.held guard).seat) (λ guard. (G.held guard).turn_seat) e result self.new.waiting) }
        ensures few { OnReady result G.has_room }
        ensures refused { OnRefused result (λ _. self.new.waiting ≡ None) }
        ensures receipt { OnPending result (HasReceiptAt O.lock_of self.old.stage cx.new self.new.waiting) }
        ensures registered { OnPending result (Covers cx.new (WaitsAt O.lock_of self.old.stage self.new.waiting)) }
        ensures kept { Keeps cx.old cx.new }
    {
        let waiting = self.waiting.take();
        let outcome = match &self.stage {
            Stage::Waits(owner) => {
                let lock = owner.lock();
                match waiting {
                    Some(waiting) => G::later_poll(&lock.raw, &lock.rt, cx, waiting),
                    None => match G::first_look(&lock.raw, &lock.rt, cx) {
                        Ok(outcome) => outcome,
                        Err(vain) => G::first_poll(&lock.raw, &lock.rt, cx, vain),
                    },
                }
            }
            Stage::Unowned | Stage::Finished => {
                nothing(waiting);
                return Turn::Refused(no_share(&self.stage));
            }
        };
        match outcome {
            Outcome::Got(right) => match mem::replace(&mut self.stage, Stage::Finished) {
                Stage::Waits(owner) => Turn::Ready(G::new(owner, right)),
                Stage::Unowned | Stage::Finished => unreachable!(),
            },
            Outcome::Waits(waits) => {
                put(&mut self.waiting, waits);
                Turn::Pending
            }
            Outcome::Refused(refusal) => Turn::Refused(refusal),
        }
    }
}

impl<T, R: Wait + Clock, O: Owns<Value = T, Runtime = R>, G: Acquired<Owner = O>> Polled
    for GuardFuture<T, R, O, G> {
    type Got = G;

    ghost use Rattle.std.specs.Prelude.{IfSome};
    ghost use Rattle.async_driver.specs.Stages.{IsOf, is_finished};
    ghost use Rattle.async_driver.specs.Turns.{CanRefuse};
    ghost use Rattle.async_rwlock.specs.Stages.{GoesOnBy};

    ghost gives = { λ future guard. IsOf O.lock_of future.stage (G.held guard).lock × G.has_room guard };

    ghost refuses = { λ future. CanRefuse G.refuses (is_finished future.stage) };

    ghost goes_on = { λ old turn new. IfSome old.waiting (λ e. GoesOnBy (λ guard. (G.held guard).seat) (λ guard. (G.held guard).turn_seat) e turn new.waiting) };

    fn poll_turn(&mut self, cx: &mut Context<'_>) -> Turn<G> {
        self.poll(cx)
    }
}

impl<T, R: Wait, O: Owns<Value = T, Runtime = R>, G: Acquired<Owner = O>> Drop
    for GuardFuture<T, R, O, G> {
    // What a dropped future gives back, its share of the lock last.
    #[inline]
    fn drop(self) {
        let Self {
            stage,
            waiting,
            lock: _,
        } = self;
        match stage {
            Stage::Waits(owner) => {
                if let Some(waiting) = waiting {
                    let lock = owner.lock();
                    G::cancel(&lock.raw, &lock.rt, waiting);
                }
                drop(owner);
            }
            Stage::Unowned | Stage::Finished => nothing(waiting),
        }
    }
}

impl<T, R: Wait, O: Owns<Value = T, Runtime = R>, G: Acquired<Owner = O>> fmt::Debug
    for GuardFuture<T, R, O, G> {
    fn fmt<W: fmt::Write>(&self, f: &mut fmt::Formatter<W>) -> fmt::Result {
        f.write_str(if O::is_share() {
            G::SHARED_NAME
        } else {
            G::NAME
        })
    }
}
