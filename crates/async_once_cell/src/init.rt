//! The futures that make a cell's value by a closure.

ghost use Rattle.std.specs.Prelude.{◌≡◌, ⊤, IfSome, IsSomeAnd, true, None};
ghost use Rattle.futures.specs.Task.{Keeps};
ghost use Rattle.async_driver.specs.Turns.{IsForMemory, IsTurn, OnPending, OnReady};
ghost use Rattle.async_once_cell.specs.Closures.{CanMake, CanTry, MakeGives, MakeNeeds, TryGives, TryNeeds, is_new_make, is_new_try};
ghost use Rattle.async_once_cell.specs.Futures.{FailsSo, GoesOnBy, IsFoundBy, OnMemory, OnValue};
ghost use Rattle.async_once_cell.specs.Stages.{IsAwaiting, new_future};
ghost use Rattle.async_once_cell.specs.declared.makers.Trying.TheVariants as tries;
ghost use Rattle.async_once_cell.specs.declared.makers.Making.TheVariants as makes;

use crate::cell::OnceCell;
use crate::makers::{Making, Trying};
use crate::task::{Answer, Stage, drop_stage, find, poll_stage};
use async_driver::{Polled, Turn};
use cell_core::Sealed;
use futures::Future;
use futures::task::Context;
use std::convert::Infallible;
use std::fmt;
use std::marker::{Model, PhantomData};
use std::sync::Wait;
use std::time::Clock;

/// A future of a cell's value, which a closure's future makes if the cell is empty, and which may fail.
///
/// Dropping it while it makes drops the closure's future first, then leaves the cell empty, and then notifies the next that would
/// make the value. Dropping it while it waits leaves the list in which it waits, and forwards a notification that it was given.
///
/// Contracts see its cell, whether it was ready before (`is_over`), its entry in the cell's list of those that would make the
/// value (`entry`), the seat by which it waits or makes (`seat`) or has come to its end (`ended`), and the closure or its future
/// (`maker`).
pub struct GetOrTryInit<'a, T, E, R: Wait, F, Fut> {
    cell: &'a OnceCell<T, R>,
    stage: Stage<Trying<F, Fut>>,
    fault: PhantomData<E>,
}

impl<'a, T, E, R: Wait, F, Fut> Model for GetOrTryInit<'a, T, E, R, F, Fut> {
    ghost use Rattle.async_once_cell.specs.Closures.{is_new_try};
    ghost use Rattle.async_once_cell.specs.Stages.{Future, KeepsStage, future};
    ghost use Rattle.async_once_cell.specs.declared.cell.OnceCell.{OnceCell};
    ghost use Rattle.async_once_cell.specs.declared.makers.Trying.{Trying};
    ghost use Rattle.cell_core.specs.declared.maker.Purpose.TheVariants as purposes;

    ghost Value = { Future (OnceCell T R) (Trying F Fut) };

    ghost view = { λ g. future g.cell.now g.stage };

    ghost invariant = { λ g. KeepsStage purposes.Makes is_new_try g.cell.now.raw g.stage };
}

impl<
    'a,
    T: Drop,
    E: Drop,
    R: Wait,
    F: FnOnce() -> Fut,
    Fut: Future<Output = Result<T, E>>,
> GetOrTryInit<'a, T, E, R, F, Fut> {
    pub(crate) fn new(cell: &'a OnceCell<T, R>, closure: F) -> GetOrTryInit<'a, T, E, R, F, Fut>
        requires call { F.pre closure }
        requires poll { (fut : _) → F.post closure fut → Fut.can_poll fut }
        ensures { result ≡ new_future cell.now (tries.Closure closure) }
    {
        GetOrTryInit {
            cell,
            stage: Stage::new(Trying::Closure(Sealed::new(closure))),
            fault: PhantomData,
        }
    }
}

impl<
    'a,
    T: Drop,
    E: Drop,
    R: Wait + Clock,
    F: FnOnce() -> Fut,
    Fut: Future<Output = Result<T, E>>,
> GetOrTryInit<'a, T, E, R, F, Fut> {
    /// Polls once: ready with the cell's value or with how the closure's future failed, or pending. It asks that the closure may be
    /// called and its future polled, as its maker said, and keeps that (`again`).
    ///
    /// It is refused as [`Refusal::Memory`](crate::Refusal) if memory for its entry was refused; then it is as when it was made, with its
    /// closure in it (`memory`), and may be polled again. Once it was ready it is refused as `Refusal::Finished`, and nothing
    /// changes (`turn`, `over`). A closure is called once at most, and what it failed with is what its future gave (`turn`).
    ///
    /// If it is pending, one of two things holds (`receipt`). It has an entry in the cell's list of those that would make the value, which
    /// keeps a waker of the polling task, and the task has registered with the cell's source. Or it makes the value, and its closure's
    /// future has registered with what it waits for. What the task had registered before stays registered (`kept`).
    ///
    /// It goes on by one seat, from the poll that joined the list, or took the right to make, to its end (`same`). If it is ready with the
    /// cell's value, that seat has found the cell full, or made it so. It is ready without a seat only if it had none before (`found`): then
    /// the first look of the poll found the value, which no clause says.
    #[inline]
    pub fn poll(&mut self, cx: &mut Context<'_>) -> Turn<Result<&'a T, E>>
        requires { IfSome self.old.maker (CanTry F.pre F.post Fut.can_poll) }
        ensures again { IfSome self.new.maker (CanTry F.pre F.post Fut.can_poll) }
        ensures turn { IsTurn IsForMemory (FailsSo (TryGives F.post Fut.gives) self.old.maker) self.old.is_over result self.new.is_over }
        ensures over { self.old.is_over ≡ true → self.new ≡ self.old }
        ensures memory { OnMemory result ((self.new.entry ≡ None) × (self.new.maker ≡ self.old.maker) × IsSomeAnd self.new.maker is_new_try) }
        ensures cell { self.new.cell ≡ self.old.cell }
        ensures same { GoesOnBy self.old.seat result self.new.seat self.new.ended }
        ensures found { OnValue result (IsFoundBy self.old.cell.raw self.old.seat self.new.ended) }
        ensures receipt { OnPending result (IsAwaiting (TryGives F.post Fut.gives) (TryNeeds Fut.needs) self.old.cell.raw cx.new self.old.maker self.new.maker self.new.entry) }
        ensures kept { Keeps cx.old cx.new }
    {
        let cell = self.cell;
        if let Some(value) = find(cell, &mut self.stage) {
            return Turn::Ready(Ok(value));
        }
        match poll_stage(cell, &mut self.stage, cx) {
            Answer::Pending => Turn::Pending,
            Answer::Refused(refusal) => Turn::Refused(refusal),
            Answer::Value(value) | Answer::Back(_, value) | Answer::Kept(_, value) => {
                Turn::Ready(Ok(value))
            }
            Answer::Failed(fault) => Turn::Ready(Err(fault)),
        }
    }
}

impl<
    'a,
    T: Drop,
    E: Drop,
    R: Wait + Clock,
    F: FnOnce() -> Fut,
    Fut: Future<Output = Result<T, E>>,
> Polled for GetOrTryInit<'a, T, E, R, F, Fut> {
    type Got = Result<&'a T, E>;

    ghost use Rattle.async_once_cell.specs.Closures.{CanTry, TryGives};
    ghost use Rattle.async_driver.specs.Turns.{CanRefuse, IsForMemory};
    ghost use Rattle.async_once_cell.specs.Futures.{FailsSo, GoesOnBy};
    ghost use Rattle.std.specs.Prelude.{IfSome};

    ghost can_poll = { λ g. IfSome g.maker (CanTry F.pre F.post Fut.can_poll) };

    ghost gives = { λ g got. FailsSo (TryGives F.post Fut.gives) g.maker got };

    ghost refuses = { λ g. CanRefuse IsForMemory g.is_over };

    ghost goes_on = { λ old turn new. GoesOnBy old.seat turn new.seat new.ended };

    fn poll_turn(&mut self, cx: &mut Context<'_>) -> Turn<Result<&'a T, E>> {
        self.poll(cx)
    }
}

impl<T: Drop, E: Drop, R: Wait, F: Drop, Fut: Drop> Drop for GetOrTryInit<'_, T, E, R, F, Fut> {
    fn drop(self) {
        let Self {
            cell,
            stage,
            fault: _,
        } = self;
        drop_stage::<T, Trying<F, Fut>, R>(cell, stage);
    }
}

impl<T, E, R: Wait, F, Fut> fmt::Debug for GetOrTryInit<'_, T, E, R, F, Fut> {
    fn fmt<W: fmt::Write>(&self, f: &mut fmt::Formatter<W>) -> fmt::Result {
        f.debug_struct("GetOrTryInit").finish_non_exhaustive()
    }
}

/// A future of a cell's value, which a closure's future makes if the cell is empty. Otherwise it is as [`GetOrTryInit`].
pub struct GetOrInit<'a, T, R: Wait, F, Fut> {
    cell: &'a OnceCell<T, R>,
    stage: Stage<Making<F, Fut>>,
}

impl<'a, T, R: Wait, F, Fut> Model for GetOrInit<'a, T, R, F, Fut> {
    ghost use Rattle.async_once_cell.specs.Closures.{is_new_make};
    ghost use Rattle.async_once_cell.specs.Stages.{Future, KeepsStage, future};
    ghost use Rattle.async_once_cell.specs.declared.cell.OnceCell.{OnceCell};
    ghost use Rattle.async_once_cell.specs.declared.makers.Making.{Making};
    ghost use Rattle.cell_core.specs.declared.maker.Purpose.TheVariants as purposes;

    ghost Value = { Future (OnceCell T R) (Making F Fut) };

    ghost view = { λ g. future g.cell.now g.stage };

    ghost invariant = { λ g. KeepsStage purposes.Makes is_new_make g.cell.now.raw g.stage };
}

impl<'a, T: Drop, R: Wait, F: FnOnce() -> Fut, Fut: Future<Output = T>> GetOrInit<
    'a,
    T,
    R,
    F,
    Fut,
> {
    pub(crate) fn new(cell: &'a OnceCell<T, R>, closure: F) -> GetOrInit<'a, T, R, F, Fut>
        requires call { F.pre closure }
        requires poll { (fut : _) → F.post closure fut → Fut.can_poll fut }
        ensures { result ≡ new_future cell.now (makes.Closure closure) }
    {
        GetOrInit {
            cell,
            stage: Stage::new(Making::Closure(Sealed::new(closure))),
        }
    }
}

impl<'a, T: Drop, R: Wait + Clock, F: FnOnce() -> Fut, Fut: Future<Output = T>> GetOrInit<
    'a,
    T,
    R,
    F,
    Fut,
> {
    ghost use Rattle.std.specs.declared.convert.Infallible.{Infallible};

    /// Polls once, as [`GetOrTryInit::poll`]: ready with the cell's value, or pending.
    #[inline]
    pub fn poll(&mut self, cx: &mut Context<'_>) -> Turn<&'a T>
        requires { IfSome self.old.maker (CanMake F.pre F.post Fut.can_poll) }
        ensures again { IfSome self.new.maker (CanMake F.pre F.post Fut.can_poll) }
        ensures turn { IsTurn IsForMemory (λ _. ⊤) self.old.is_over result self.new.is_over }
        ensures over { self.old.is_over ≡ true → self.new ≡ self.old }
        ensures memory { OnMemory result ((self.new.entry ≡ None) × (self.new.maker ≡ self.old.maker) × IsSomeAnd self.new.maker is_new_make) }
        ensures cell { self.new.cell ≡ self.old.cell }
        ensures same { GoesOnBy self.old.seat result self.new.seat self.new.ended }
        ensures found { OnReady result (λ _. IsFoundBy self.old.cell.raw self.old.seat self.new.ended) }
        ensures receipt { OnPending result (IsAwaiting {E = Infallible} (MakeGives F.post Fut.gives) (MakeNeeds Fut.needs) self.old.cell.raw cx.new self.old.maker self.new.maker self.new.entry) }
        ensures kept { Keeps cx.old cx.new }
    {
        let cell = self.cell;
        if let Some(value) = find(cell, &mut self.stage) {
            return Turn::Ready(value);
        }
        match poll_stage(cell, &mut self.stage, cx) {
            Answer::Pending => Turn::Pending,
            Answer::Refused(refusal) => Turn::Refused(refusal),
            Answer::Value(value) | Answer::Back(_, value) | Answer::Kept(_, value) => {
                Turn::Ready(value)
            }
            Answer::Failed(never) => match never {},
        }
    }
}

impl<'a, T: Drop, R: Wait + Clock, F: FnOnce() -> Fut, Fut: Future<Output = T>> Polled
    for GetOrInit<'a, T, R, F, Fut> {
    type Got = &'a T;

    ghost use Rattle.async_once_cell.specs.Closures.{CanMake};
    ghost use Rattle.async_once_cell.specs.Futures.{GoesOnBy};
    ghost use Rattle.std.specs.Prelude.{IfSome};
    ghost use Rattle.async_driver.specs.Turns.{CanRefuse, IsForMemory};

    ghost can_poll = { λ g. IfSome g.maker (CanMake F.pre F.post Fut.can_poll) };

    ghost refuses = { λ g. CanRefuse IsForMemory g.is_over };

    ghost goes_on = { λ old turn new. GoesOnBy old.seat turn new.seat new.ended };

    fn poll_turn(&mut self, cx: &mut Context<'_>) -> Turn<&'a T> {
        self.poll(cx)
    }
}

impl<T: Drop, R: Wait, F: Drop, Fut: Drop> Drop for GetOrInit<'_, T, R, F, Fut> {
    fn drop(self) {
        let Self { cell, stage } = self;
        drop_stage::<T, Making<F, Fut>, R>(cell, stage);
    }
}

impl<T, R: Wait, F, Fut> fmt::Debug for GetOrInit<'_, T, R, F, Fut> {
    fn fmt<W: fmt::Write>(&self, f: &mut fmt::Formatter<W>) -> fmt::Result {
        f.debug_struct("GetOrInit").finish_non_exhaustive()
    }
}
