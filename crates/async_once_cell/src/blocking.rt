//! The futures that blocking calls wait for. What they give borrows nothing: the cell's value is read afterwards.

ghost use Rattle.std.specs.Prelude.{◌≡◌, IfErr, IfOk, IfSome, IsSomeAnd, Option, Some, None, false};
ghost use Rattle.async_once_cell.specs.Faults.{EndsWith, FailedSo};
ghost use Rattle.async_once_cell.specs.Stages.{new_future};
ghost use Rattle.async_driver.specs.Turns.{CanRefuse, IsForMemory};
ghost use Rattle.futures.specs.Poll.{IfReady, OnPending};
ghost use Rattle.futures.specs.Task.{Covers, Keeps};

use crate::cell::OnceCell;
use crate::set::Set;
use crate::task::{Answer, Stage, drop_stage, find, poll_stage};
use crate::wait::Wait;
use async_driver::Turn;
use cell_core::Maker;
use futures::Future;
use futures::task::{Context, Poll};
use lock_program::Refusal;
use std::marker::{Brand, Model, PhantomData};
use std::sync::Wait as Waits;
use std::time::Clock;

/// What a blocking call began with, for its contracts. Each call picks it.
pub trait Origin<M> {
    ghost origin: { Option M };
}

impl<M> Origin<M> for Brand {
    ghost origin = { None };
}

/// A wait of a blocking call.
#[derive(Drop)]
pub(crate) struct BlockedWait<F>(pub(crate) F);

impl<'a, T: Drop, R: Waits + Clock> Future for BlockedWait<Wait<'a, T, R>> {
    type Output = Result<(), Refusal>;

    ghost gives = { λ b got. IfErr got (CanRefuse IsForMemory b.0.is_over) };

    fn poll(&mut self, cx: &mut Context<'_>) -> Poll<Result<(), Refusal>> {
        match self.0.poll(cx) {
            Turn::Pending => Poll::Pending,
            Turn::Ready(_) => Poll::Ready(Ok(())),
            Turn::Refused(refusal) => Poll::Ready(Err(refusal)),
        }
    }
}

/// An initialisation of a blocking call, by this maker.
pub(crate) struct Blocked<'a, T, E, R: Waits, M: Maker<T, E>> {
    cell: &'a OnceCell<T, R>,
    stage: Stage<M>,
    fault: PhantomData<E>,
}

impl<'a, T, E, R: Waits, M: Maker<T, E>> Model for Blocked<'a, T, E, R, M> {
    ghost use Rattle.async_once_cell.specs.Stages.{Future, KeepsStage, future};
    ghost use Rattle.async_once_cell.specs.declared.cell.OnceCell.{OnceCell};

    ghost Value = { Future (OnceCell T R) M };

    ghost view = { λ b. future b.cell.now b.stage };

    ghost invariant = { λ b. KeepsStage M.purpose M.is_new b.cell.now.raw b.stage };
}

impl<'a, T: Drop, E: Drop, R: Waits, M: Maker<T, E>> Blocked<'a, T, E, R, M> {
    pub(crate) fn new(cell: &'a OnceCell<T, R>, maker: M) -> Blocked<'a, T, E, R, M>
        requires { M.is_new maker }
        ensures { result ≡ new_future cell.now maker }
    {
        Blocked {
            cell,
            stage: Stage::new(maker),
            fault: PhantomData,
        }
    }
}

impl<'a, T: Drop, E: Drop, R: Waits + Clock, M: Maker<T, E>> Future for Blocked<'a, T, E, R, M> {
    type Output = Result<Result<(), E>, Refusal>;

    ghost can_poll = { λ b. IfSome b.maker M.can_make };

    ghost gives = { λ b got. IfOk got (FailedSo M.gives b.maker) × IfErr got (CanRefuse IsForMemory b.is_over) };

    fn poll(&mut self, cx: &mut Context<'_>) -> Poll<Result<Result<(), E>, Refusal>> {
        let cell = self.cell;
        if let Some(_) = find(cell, &mut self.stage) {
            return Poll::Ready(Ok(Ok(())));
        }
        let ended = match poll_stage(cell, &mut self.stage, cx) {
            Answer::Pending => return Poll::Pending,
            Answer::Refused(refusal) => Err(refusal),
            Answer::Value(_) | Answer::Back(_, _) | Answer::Kept(_, _) => Ok(Ok(())),
            Answer::Failed(fault) => Ok(Err(fault)),
        };
        Poll::Ready(ended)
    }
}

impl<T: Drop, E: Drop, R: Waits, M: Maker<T, E>> Drop for Blocked<'_, T, E, R, M> {
    fn drop(self) {
        let Self {
            cell,
            stage,
            fault: _,
        } = self;
        drop_stage::<T, M, R>(cell, stage);
    }
}

/// How a blocking set has ended.
pub(crate) enum Ended<'a, T> {
    /// It was done, and this is the cell's value.
    Done(&'a T),
    /// The cell was full, and this is the value back.
    Back(T),
    /// It wasn't ready, and this is the value that it was to set.
    Never(T),
}

/// A set of a blocking call, of the value that was handed in (`O`), with what it was ready with, once it was.
pub(crate) struct Kept<'a, T, R: Waits, O: Origin<T>> {
    pub(crate) set: Set<'a, T, R>,
    got: Option<Result<&'a T, T>>,
    value: PhantomData<O>,
}

impl<'a, T, R: Waits, O: Origin<T>> Model for Kept<'a, T, R, O> {
    ghost use Rattle.async_once_cell.specs.Faults.{HasValue};
    ghost use Rattle.async_once_cell.specs.Futures.{Setting};
    ghost use Rattle.async_once_cell.specs.declared.cell.OnceCell.{OnceCell};

    ghost Value = { Setting (OnceCell T R) T };

    ghost view = { λ k. k.set };

    ghost invariant = { λ k. HasValue O.origin k.set.value k.got };
}

impl<'a, T: Drop, R: Waits, O: Origin<T>> Kept<'a, T, R, O> {
    pub(crate) fn new(set: Set<'a, T, R>) -> Kept<'a, T, R, O>
        requires { IsSomeAnd set.value (λ v. O.origin ≡ Some v) }
        ensures { result ≡ set.entry }
    {
        Kept {
            set,
            got: None,
            value: PhantomData,
        }
    }

    // One poll: whether the set was ready, with what it keeps then.
    fn poll(&mut self, cx: &mut Context<'_>) -> Poll<Result<(), Refusal>>
    where
        R: Clock,
        ensures refused { IfReady result (λ got. IfErr got (CanRefuse IsForMemory self.old.is_over)) }
        ensures over { OnPending result ((self.old.is_over ≡ false) × (self.new.is_over ≡ false)) }
        ensures registered { OnPending result (Covers cx.new (λ _. ⊥)) }
        ensures kept { Keeps cx.old cx.new }
    {
        match self.set.poll(cx) {
            Turn::Pending => Poll::Pending,
            Turn::Ready(got) => {
                self.got = Some(got);
                Poll::Ready(Ok(()))
            }
            Turn::Refused(refusal) => Poll::Ready(Err(refusal)),
        }
    }

    // How the set has ended.
    pub(crate) fn into_end(self) -> Ended<'a, T>
        ensures { EndsWith O.origin result }
    {
        let Kept { set, got, value: _ } = self;
        match got {
            Some(Ok(value)) => Ended::Done(value),
            Some(Err(value)) => Ended::Back(value),
            None => match set.into_value() {
                Some(value) => Ended::Never(value),
                None => unreachable!(),
            },
        }
    }
}

impl<T: Drop, R: Waits, O: Origin<T>> Drop for Kept<'_, T, R, O> {
    fn drop(self) {
        let Self {
            set: _,
            got: _,
            value: _,
        } = self;
    }
}

/// The private future of a blocking set, which borrows the set.
pub(crate) struct BlockedSet<'b, 'a, T, R: Waits, O: Origin<T>>(
    pub(crate) &'b mut Kept<'a, T, R, O>,
);

impl<T, R: Waits, O: Origin<T>> Drop for BlockedSet<'_, '_, T, R, O> {
    fn drop(self) {
        let Self(_) = self;
    }
}

impl<'b, 'a, T: Drop, R: Waits + Clock, O: Origin<T>> Future for BlockedSet<'b, 'a, T, R, O> {
    type Output = Result<(), Refusal>;

    ghost gives = { λ b got. IfErr got (CanRefuse IsForMemory b.0.now.is_over) };

    fn poll(&mut self, cx: &mut Context<'_>) -> Poll<Result<(), Refusal>> {
        let kept: &mut Kept<'a, T, R, O> = &mut *self.0;
        kept.poll(cx)
    }
}
