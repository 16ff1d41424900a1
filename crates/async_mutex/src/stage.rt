//! One poll of a future by who has the mutex, and what a dropped one gives back.

ghost use Rattle.std.specs.Prelude.{◌≡◌, false, IfSome, None, Some};
ghost use Rattle.futures.specs.Task.{Keeps};
ghost use Rattle.async_driver.specs.Stages.{IsOf, Looks, is_finished};
ghost use Rattle.async_driver.specs.Turns.{IsTurn};
ghost use Rattle.async_mutex.specs.Futures.{GotAt, HasReceipt, IsAnswer, LooksInVain, OnPolled, OnWaits, WaitsAs, entry_of};
ghost use Rattle.mutex_core.specs.Outcomes.{IsBySeat, IsGivenUp, WaitsSince};

use crate::guard::Guard;
use crate::owns::Owns;
use async_driver::{Look, Stage, Turn, nothing, put};
use futures::task::Context;
use lock_program::mutex::{LockCall, Place};
use mutex_core::{Held, Outcome, Vain, Waiting};
use std::mem;
use std::sync::Wait;
use std::time::Clock;

/// Looks at the lock, and takes it if it is free and nobody is starved.
#[inline]
pub(crate) fn first_look<T, R, O: Owns<Value = T, Runtime = R>>(
    stage: &Stage<O>,
) -> Look<Held<T>, Vain<T>>
    ensures { Looks stage.now (GotAt O.lock_of stage.now) (LooksInVain O.lock_of stage.now) result }
{
    match stage {
        Stage::Waits(owner) => match owner.lock().words.first_look(LockCall::Lock, Place::Enter) {
            Ok(held) => Look::Got(held),
            Err(vain) => Look::Vain(vain),
        },
        Stage::Unowned | Stage::Finished => Look::NoShare,
    }
}

/// The guard of a future that got the lock, with who has the mutex.
#[inline]
pub(crate) fn into_guard<T, R: Wait, O: Owns<Value = T, Runtime = R>>(
    stage: Stage<O>,
    held: Held<T>,
) -> Guard<T, R, O>
    requires { GotAt O.lock_of stage held }
    ensures { IsOf O.lock_of stage result.mutex × (result.seat ≡ held.seat.id) }
{
    match stage {
        Stage::Waits(owner) => Guard::new(owner, held),
        Stage::Unowned | Stage::Finished => unreachable!(),
    }
}

/// The answer of a poll that went so. Who has the mutex goes to the guard, and who waits to the future.
#[inline(always)]
pub(crate) fn into_turn<T, R: Wait, O: Owns<Value = T, Runtime = R>>(
    stage: &mut Stage<O>,
    waiting: &mut Option<Waiting<T>>,
    outcome: Outcome<T>,
) -> Turn<Guard<T, R, O>>
    requires none { waiting.old ≡ None }
    requires outcome { OnPolled O.lock_of stage.old outcome }
    requires open { is_finished stage.old ≡ false }
    ensures waiting { IfSome waiting.new (WaitsAs O.lock_of stage.new) }
    ensures turn { IsTurn IsGivenUp (λ guard. IsOf O.lock_of stage.old guard.mutex) false result (is_finished stage.new) }
    ensures share { is_finished stage.new ≡ false → stage.new ≡ stage.old }
    ensures answer { IsAnswer (λ guard. guard.seat) outcome result waiting.new }
{
    match outcome {
        Outcome::Got(held) => {
            let stage = mem::replace(stage, Stage::Finished);
            Turn::Ready(into_guard(stage, held))
        }
        Outcome::Waits(waits) => {
            put(waiting, waits);
            Turn::Pending
        }
        Outcome::Refused(gave_up) => Turn::Refused(gave_up.refusal()),
    }
}

/// The rest of a first poll whose look was in vain. It stands apart, since what it takes room for would be cleared at each poll.
#[inline(never)]
pub(crate) fn first_poll<T, R: Wait + Clock, O: Owns<Value = T, Runtime = R>>(
    stage: &Stage<O>,
    cx: &mut Context<'_>,
    vain: Vain<T>,
) -> Outcome<T>
    requires { LooksInVain O.lock_of stage.now vain }
    ensures outcome { OnPolled O.lock_of stage.now result }
    ensures same { IsBySeat vain.seat result }
    ensures receipt { OnWaits result (λ waiting. HasReceipt O.lock_of stage.now cx.new (entry_of (Some waiting))) }
    ensures kept { Keeps cx.old cx.new }
{
    match stage {
        Stage::Waits(owner) => {
            let mutex = owner.lock();
            mutex.words.poll_first(&mutex.rt, cx, vain)
        }
        Stage::Unowned | Stage::Finished => unreachable!(),
    }
}

/// A poll of what waits. It stands apart, so that a poll is short where it is called that gets the lock at once.
#[inline(never)]
pub(crate) fn later_poll<T, R: Wait + Clock, O: Owns<Value = T, Runtime = R>>(
    stage: &Stage<O>,
    cx: &mut Context<'_>,
    waiting: Waiting<T>,
) -> Outcome<T>
    requires { WaitsAs O.lock_of stage.now waiting }
    ensures outcome { OnPolled O.lock_of stage.now result }
    ensures same { IsBySeat waiting.seat result }
    ensures since { WaitsSince waiting.since result }
    ensures receipt { OnWaits result (λ waiting. HasReceipt O.lock_of stage.now cx.new (entry_of (Some waiting))) }
    ensures kept { Keeps cx.old cx.new }
{
    match stage {
        Stage::Waits(owner) => {
            let mutex = owner.lock();
            mutex.words.poll_later(&mutex.rt, cx, waiting)
        }
        Stage::Unowned | Stage::Finished => unreachable!(),
    }
}

/// What a dropped future gives back, its share of the mutex last.
#[inline]
pub(crate) fn drop_stage<T, R: Wait, O: Owns<Value = T, Runtime = R>>(
    stage: Stage<O>,
    waiting: Option<Waiting<T>>,
)
    requires { IfSome waiting (WaitsAs O.lock_of stage) }
{
    match stage {
        Stage::Waits(owner) => {
            if let Some(waiting) = waiting {
                let mutex = owner.lock();
                mutex.words.cancel(&mutex.rt, waiting);
            }
            drop(owner);
        }
        Stage::Unowned | Stage::Finished => nothing(waiting),
    }
}
