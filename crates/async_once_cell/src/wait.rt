//! A future that waits for a cell's value.

ghost use Rattle.std.specs.Prelude.{◌≡◌, ⊤, true, false, None, IfSome};
ghost use Rattle.futures.specs.Task.{Keeps};
ghost use Rattle.async_driver.specs.Turns.{IsForMemory, IsTurn, OnPending, OnReady};
ghost use Rattle.cell_core.specs.Cells.{IsOf};
ghost use Rattle.cell_core.specs.Outcomes.{IsWaitedBySeat, OnWaited};
ghost use Rattle.async_once_cell.specs.Futures.{GoesOnBy, IsFoundBy, OnMemory, seat_in};
ghost use Rattle.async_once_cell.specs.Stages.{HasReceiptPassive, passive_of};

use crate::cell::OnceCell;
use async_driver::{Polled, Turn, nothing, put};
use cell_core::{Ended, Waited, Waiting};
use futures::task::Context;
use lock_program::Refusal;
use std::fmt;
use std::marker::Model;
use std::sync::Wait as Waits;
use std::time::Clock;

/// A future of a cell's value, which only waits until the cell has one. Dropping it leaves the list in which it waits, and
/// forwards a notification that it was given.
///
/// Contracts see its cell, whether it was ready before (`is_over`), its entry in the cell's list of those that wait (`entry`), and the
/// seat by which it has come to its end (`ended`).
pub struct Wait<'a, T, R: Waits> {
    cell: &'a OnceCell<T, R>,
    is_over: bool,
    // The seat that has found the value. There is none where the first look of a poll found it.
    ended: Option<Ended>,
    // What its party has between two polls.
    waiting: Option<Waiting>,
}

impl<'a, T, R: Waits> Model for Wait<'a, T, R> {
    ghost use Rattle.std.specs.Prelude.{◌≡◌, true, is_some, false, IfSome};
    ghost use Rattle.async_once_cell.specs.Futures.{Waiting as WaitingFor};
    ghost use Rattle.async_once_cell.specs.Stages.{passive_of};
    ghost use Rattle.async_once_cell.specs.declared.cell.OnceCell.{OnceCell};
    ghost use Rattle.cell_core.specs.Cells.{IsOf};

    ghost Value = { WaitingFor (OnceCell T R) };

    ghost view = { λ w. record { cell = w.cell.now; is_over = w.is_over; entry = passive_of w.waiting; ended = w.ended } };

    ghost invariant = { λ w. IfSome w.waiting (λ q. IsOf w.cell.now.raw q.seat) × (w.is_over ≡ true → is_some w.waiting ≡ false) × (w.is_over ≡ false → is_some w.ended ≡ false) };
}

impl<'a, T: Drop, R: Waits> Wait<'a, T, R> {
    pub(crate) fn new(cell: &'a OnceCell<T, R>) -> Wait<'a, T, R>
        ensures { result ≡ record { cell = cell.now; is_over = false; entry = None; ended = None } }
    {
        Wait {
            cell,
            is_over: false,
            ended: None,
            waiting: None,
        }
    }
}

// One poll of a party that only waits.
#[inline(never)]
fn poll_on<'a, T: Drop, R: Waits + Clock>(
    cell: &'a OnceCell<T, R>,
    cx: &mut Context<'_>,
    waiting: Option<Waiting>,
) -> Waited<'a, T>
    requires { IfSome waiting (λ q. IsOf cell.now.raw q.seat) }
    ensures outcome { OnWaited cell.now.raw cx.new result }
    ensures same { IfSome (seat_in (passive_of waiting)) (λ s. IsWaitedBySeat s result) }
    ensures kept { Keeps cx.old cx.new }
{
    match waiting {
        Some(waiting) => cell.raw.wait_later(&cell.rt, cx, waiting),
        None => cell.raw.wait_first(&cell.rt, cx),
    }
}

impl<'a, T: Drop, R: Waits + Clock> Wait<'a, T, R> {
    /// Polls once: ready with the cell's value, or pending. The seat by which it is ready has found the cell full. It is ready without a seat
    /// only if it stood in no list (`found`): then the first look of the poll found the value, which no clause says.
    ///
    /// It is refused as [`Refusal::Memory`](crate::Refusal) if memory for its entry was refused; then it stands in no list and may be
    /// polled again. Once it was ready it is refused as `Refusal::Finished`, and nothing changes (`turn`, `over`).
    ///
    /// Pending, it has an entry in the cell's list of those that wait, which keeps a waker of the task that polls (`receipt`). The
    /// task has registered with the cell's source, and keeps what it had registered before (`kept`). It goes on by one seat, from the
    /// poll that joined the list to its end (`same`).
    #[inline]
    pub fn poll(&mut self, cx: &mut Context<'_>) -> Turn<&'a T>
        ensures turn { IsTurn IsForMemory (λ _. ⊤) self.old.is_over result self.new.is_over }
        ensures over { self.old.is_over ≡ true → self.new ≡ self.old }
        ensures memory { OnMemory result (self.new.entry ≡ None) }
        ensures cell { self.new.cell ≡ self.old.cell }
        ensures same { GoesOnBy (seat_in self.old.entry) result (seat_in self.new.entry) self.new.ended }
        ensures found { OnReady result (λ _. IsFoundBy self.old.cell.raw (seat_in self.old.entry) self.new.ended) }
        ensures receipt { OnPending result (HasReceiptPassive self.old.cell.raw cx.new self.new.entry) }
        ensures kept { Keeps cx.old cx.new }
    {
        let cell = self.cell;
        if self.is_over {
            return Turn::Refused(Refusal::Finished);
        }
        let waiting = self.waiting.take();
        if waiting.is_none() {
            if let Some(value) = cell.get() {
                nothing(waiting);
                self.is_over = true;
                return Turn::Ready(value);
            }
        }
        match poll_on(cell, cx, waiting) {
            Waited::Waits(waiting) => {
                put(&mut self.waiting, waiting);
                Turn::Pending
            }
            Waited::Refused => Turn::Refused(Refusal::Memory),
            Waited::Value(value, ended) => {
                self.is_over = true;
                self.ended = Some(ended);
                Turn::Ready(value)
            }
        }
    }
}

impl<'a, T: Drop, R: Waits + Clock> Polled for Wait<'a, T, R> {
    type Got = &'a T;

    ghost use Rattle.async_driver.specs.Turns.{CanRefuse, IsForMemory};
    ghost use Rattle.async_once_cell.specs.Futures.{GoesOnBy, seat_in};

    ghost refuses = { λ wait. CanRefuse IsForMemory wait.is_over };

    ghost goes_on = { λ old turn new. GoesOnBy (seat_in old.entry) turn (seat_in new.entry) new.ended };

    fn poll_turn(&mut self, cx: &mut Context<'_>) -> Turn<&'a T> {
        self.poll(cx)
    }
}

impl<T: Drop, R: Waits> Drop for Wait<'_, T, R> {
    fn drop(self) {
        let Self {
            cell,
            is_over: _,
            ended: _,
            waiting,
        } = self;
        if let Some(waiting) = waiting {
            cell.raw.cancel_wait(&cell.rt, waiting);
        }
    }
}

impl<T, R: Waits> fmt::Debug for Wait<'_, T, R> {
    fn fmt<W: fmt::Write>(&self, f: &mut fmt::Formatter<W>) -> fmt::Result {
        f.debug_struct("Wait").finish_non_exhaustive()
    }
}
