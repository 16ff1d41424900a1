//! A future that puts a value into a cell.

ghost use Rattle.std.specs.Prelude.{◌≡◌, ◌⊎◌, IsSomeAnd, Some, false, true, None};
ghost use Rattle.futures.specs.Task.{Keeps};
ghost use Rattle.async_driver.specs.Turns.{IsForMemory, IsTurn, OnPending, OnReady};
ghost use Rattle.cell_core.specs.Cells.{HasFound};
ghost use Rattle.async_once_cell.specs.Futures.{GoesOnBy, IsSet, OnMemory, value_in};
ghost use Rattle.async_once_cell.specs.Stages.{CanDrop, HasReceiptActive, maker_in};

use crate::cell::OnceCell;
use crate::makers::Given;
use crate::task::{Answer, Stage, drop_stage, give_back, poll_stage};
use async_driver::{Polled, Turn};
use futures::task::Context;
use std::convert::Infallible;
use std::fmt;
use std::marker::Model;
use std::sync::Wait;
use std::time::Clock;

/// A future that puts a value into a cell, or has it back. Dropping it drops its value and leaves the list in which it waits, and
/// forwards a notification that it was given.
///
/// Contracts see its cell, whether it was ready before (`is_over`), its entry in the cell's list of those that would make the
/// value (`entry`), the seat by which it waits (`seat`) or has come to its end (`ended`), and its value until it is ready (`value`).
pub struct Set<'a, T, R: Wait> {
    cell: &'a OnceCell<T, R>,
    stage: Stage<Given<T>>,
}

impl<'a, T, R: Wait> Model for Set<'a, T, R> {
    ghost use Rattle.async_once_cell.specs.Futures.{Setting, setting};
    ghost use Rattle.async_once_cell.specs.Stages.{KeepsStage, future};
    ghost use Rattle.async_once_cell.specs.declared.cell.OnceCell.{OnceCell};
    ghost use Rattle.cell_core.specs.declared.maker.Purpose.TheVariants as purposes;
    ghost use Rattle.std.specs.Prelude.{IsSome};

    ghost Value = { Setting (OnceCell T R) T };

    ghost view = { λ s. setting (future s.cell.now s.stage) };

    ghost invariant = { λ s. KeepsStage purposes.Sets (λ given. IsSome given.value) s.cell.now.raw s.stage };
}

impl<'a, T: Drop, R: Wait> Set<'a, T, R> {
    pub(crate) fn new(cell: &'a OnceCell<T, R>, value: T) -> Set<'a, T, R>
        ensures { result ≡ record { cell = cell.now; is_over = false; entry = None; seat = None; ended = None; value = Some value } }
    {
        Set {
            cell,
            stage: Stage::new(Given::new(value)),
        }
    }
}

impl<'a, T: Drop, R: Wait> Set<'a, T, R> {
    /// Ends the future, and returns its value, if it wasn't ready.
    ///
    /// ```
    /// let has_ended = cell.set(7).into_value() == Some(7);
    /// ```
    pub fn into_value(self) -> Option<T>
        ensures { result ≡ self.entry.value }
    {
        let Self { cell, stage } = self;
        value_of(cell, stage)
    }
}

// The value that a stage has, whose party gives back what it has.
fn value_of<'a, T: Drop, R: Wait>(cell: &'a OnceCell<T, R>, stage: Stage<Given<T>>) -> Option<T>
    requires { CanDrop cell.now.raw stage }
    ensures { result ≡ value_in (maker_in stage) }
{
    let Stage { maker, party } = stage;
    give_back(cell, party);
    match maker {
        Some(given) => given.into_option(),
        None => None,
    }
}

impl<'a, T: Drop, R: Wait + Clock> Set<'a, T, R> {
    /// Polls once: ready with the cell's value, which is the one that was set; ready with the value back, if the cell was full;
    /// or pending, while another task makes the value. It is ready by a seat of its own alone, whose last step on the cell's word found the
    /// cell full, or made it so (`found`).
    ///
    /// It is refused as [`Refusal::Memory`](crate::Refusal) if memory for its entry was refused; then it is as when it was made, with its
    /// value in it (`memory`), and may be polled again. Once it was ready it is refused as `Refusal::Finished`, and nothing changes
    /// (`turn`, `over`).
    ///
    /// Pending, it keeps its value (`value`), and has an entry in the cell's list of those that would make the value, which keeps a
    /// waker of the task that polls (`receipt`). The task has registered with the cell's source, and keeps what it had registered
    /// before (`kept`). It goes on by one seat, from the poll that joined the list to its end (`same`).
    pub fn poll(&mut self, cx: &mut Context<'_>) -> Turn<Result<&'a T, T>>
        ensures turn { IsTurn IsForMemory (IsSet self.old.value) self.old.is_over result self.new.is_over }
        ensures over { self.old.is_over ≡ true → self.new ≡ self.old }
        ensures memory { OnMemory result ((self.new.entry ≡ None) × (self.new.value ≡ self.old.value)) }
        ensures cell { self.new.cell ≡ self.old.cell }
        ensures same { GoesOnBy self.old.seat result self.new.seat self.new.ended }
        ensures found { OnReady result (λ _. IsSomeAnd self.new.ended (HasFound self.old.cell.raw)) }
        ensures value { OnPending result (self.new.value ≡ self.old.value) }
        ensures stays { (self.new.value ≡ None) ⊎ (self.new.value ≡ self.old.value) }
        ensures receipt { OnPending result (HasReceiptActive self.old.cell.raw cx.new self.new.entry) }
        ensures kept { Keeps cx.old cx.new }
    {
        let cell = self.cell;
        match poll_stage::<T, Infallible, Given<T>, R>(cell, &mut self.stage, cx) {
            Answer::Pending => Turn::Pending,
            Answer::Refused(refusal) => Turn::Refused(refusal),
            Answer::Value(value) => Turn::Ready(Ok(value)),
            Answer::Back(own, _) => Turn::Ready(Err(own)),
            Answer::Kept(given, _) => Turn::Ready(Err(given.into_value())),
            Answer::Failed(_) => unreachable!(),
        }
    }
}

impl<'a, T: Drop, R: Wait + Clock> Polled for Set<'a, T, R> {
    type Got = Result<&'a T, T>;

    ghost use Rattle.async_driver.specs.Turns.{CanRefuse, IsForMemory};
    ghost use Rattle.async_once_cell.specs.Futures.{GoesOnBy};

    ghost gives = { λ set got. IsSet set.value got };

    ghost refuses = { λ set. CanRefuse IsForMemory set.is_over };

    ghost goes_on = { λ old turn new. GoesOnBy old.seat turn new.seat new.ended };

    fn poll_turn(&mut self, cx: &mut Context<'_>) -> Turn<Result<&'a T, T>> {
        self.poll(cx)
    }
}

impl<T: Drop, R: Wait> Drop for Set<'_, T, R> {
    fn drop(self) {
        let Self { cell, stage } = self;
        drop_stage::<T, Given<T>, R>(cell, stage);
    }
}

impl<T, R: Wait> fmt::Debug for Set<'_, T, R> {
    fn fmt<W: fmt::Write>(&self, f: &mut fmt::Formatter<W>) -> fmt::Result {
        f.debug_struct("Set").finish_non_exhaustive()
    }
}
