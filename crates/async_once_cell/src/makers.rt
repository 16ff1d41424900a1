//! What makes the value of a cell: a closure's future, or a value that is there.

ghost use Rattle.std.specs.Prelude.{◌≡◌, Some, IsOkAnd, IsSome};
ghost use Rattle.cell_core.specs.declared.maker.Purpose.TheVariants as purposes;
ghost use Rattle.async_once_cell.specs.Closures.{CanMake, CanMakeNow, CanTry, CanTryNow, MakeGives, MakeGivesNow, MakeNeeds, TryGives, TryGivesNow, TryNeeds, is_new_make, is_new_make_now, is_new_try, is_new_try_now};

use cell_core::{Maker, Right, Sealed};
use futures::task::{Context, Poll};
use futures::{Future, ready};
use std::convert::Infallible;
use std::mem;
use sync_program::once_cell::Maker as MakerKind;

/// A closure that answers a future of a value or a failure.
#[derive(Drop)]
pub enum Trying<F, Fut> {
    /// It wasn't called, and is so against the right to make alone.
    Closure(Sealed<F>),
    /// It was called, and this is what it answered.
    Future(Fut),
    /// Its future was ready.
    Asked,
}

impl<T, E, F: FnOnce() -> Fut, Fut: Future<Output = Result<T, E>>> Maker<T, E> for Trying<F, Fut> {
    ghost purpose = { purposes.Makes };

    ghost is_new = { is_new_try };

    ghost can_make = { CanTry F.pre F.post Fut.can_poll };

    ghost needs = { TryNeeds Fut.needs };

    ghost gives = { TryGives F.post Fut.gives };

    #[inline(always)]
    fn kind() -> MakerKind<()> {
        MakerKind::Closure
    }

    fn make(&mut self, cx: &mut Context<'_>, right: Right) -> Poll<Result<T, E>> {
        match mem::replace(self, Trying::Asked) {
            Trying::Closure(closure) => {
                let closure = closure.open(right);
                *self = Trying::Future(closure());
            }
            asked => {
                drop(right);
                *self = asked;
            }
        }
        let Trying::Future(future) = self else {
            unreachable!()
        };
        let made = ready!(future.poll(cx));
        *self = Trying::Asked;
        Poll::Ready(made)
    }
}

/// A closure that answers a future of a value.
#[derive(Drop)]
pub enum Making<F, Fut> {
    /// It wasn't called, and is so against the right to make alone.
    Closure(Sealed<F>),
    /// It was called, and this is what it answered.
    Future(Fut),
    /// Its future was ready.
    Asked,
}

impl<T, F: FnOnce() -> Fut, Fut: Future<Output = T>> Maker<T, Infallible> for Making<F, Fut> {
    ghost purpose = { purposes.Makes };

    ghost is_new = { is_new_make };

    ghost can_make = { CanMake F.pre F.post Fut.can_poll };

    ghost needs = { MakeNeeds Fut.needs };

    ghost gives = { MakeGives F.post Fut.gives };

    #[inline(always)]
    fn kind() -> MakerKind<()> {
        MakerKind::Closure
    }

    fn make(&mut self, cx: &mut Context<'_>, right: Right) -> Poll<Result<T, Infallible>> {
        match mem::replace(self, Making::Asked) {
            Making::Closure(closure) => {
                let closure = closure.open(right);
                *self = Making::Future(closure());
            }
            asked => {
                drop(right);
                *self = asked;
            }
        }
        let Making::Future(future) = self else {
            unreachable!()
        };
        let made = ready!(future.poll(cx));
        *self = Making::Asked;
        Poll::Ready(Ok(made))
    }
}

/// What a blocking call makes a value by. Whatever can be called with nothing is one.
///
/// A function over it has nothing else to call it by: it is called against the right to make alone.
pub trait Makes<A>: Drop {
    /// It may be called.
    ghost can_call: { Self → Type 0 };

    /// What it may answer.
    ghost answers: { Self → A → Type 0 };

    /// Calls it, against the right to make.
    fn call(self, right: Right) -> A
        requires { can_call self }
        ensures { answers self result };
}

impl<A, F: FnOnce() -> A> Makes<A> for F {
    ghost can_call = { F.pre };

    ghost answers = { F.post };

    #[inline]
    fn call(self, right: Right) -> A {
        drop(right);
        self()
    }
}

/// What makes a value at once, or fails to.
#[derive(Drop)]
pub(crate) enum TryingNow<F> {
    /// It wasn't called.
    Closure(F),
    /// It was called.
    Asked,
}

impl<T, E, F: Makes<Result<T, E>>> Maker<T, E> for TryingNow<F> {
    ghost purpose = { purposes.Makes };

    ghost is_new = { is_new_try_now };

    ghost can_make = { CanTryNow F.can_call };

    ghost needs = { λ _ _. ⊥ };

    ghost gives = { TryGivesNow F.answers };

    #[inline(always)]
    fn kind() -> MakerKind<()> {
        MakerKind::Closure
    }

    fn make(&mut self, cx: &mut Context<'_>, right: Right) -> Poll<Result<T, E>> {
        let _ = cx;
        match mem::replace(self, TryingNow::Asked) {
            TryingNow::Closure(closure) => Poll::Ready(closure.call(right)),
            TryingNow::Asked => unreachable!(),
        }
    }
}

/// What makes a value at once.
#[derive(Drop)]
pub(crate) enum MakingNow<F> {
    /// It wasn't called.
    Closure(F),
    /// It was called.
    Asked,
}

impl<T, F: Makes<T>> Maker<T, Infallible> for MakingNow<F> {
    ghost purpose = { purposes.Makes };

    ghost is_new = { is_new_make_now };

    ghost can_make = { CanMakeNow F.can_call };

    ghost needs = { λ _ _. ⊥ };

    ghost gives = { MakeGivesNow F.answers };

    #[inline(always)]
    fn kind() -> MakerKind<()> {
        MakerKind::Closure
    }

    fn make(&mut self, cx: &mut Context<'_>, right: Right) -> Poll<Result<T, Infallible>> {
        let _ = cx;
        match mem::replace(self, MakingNow::Asked) {
            MakingNow::Closure(closure) => Poll::Ready(Ok(closure.call(right))),
            MakingNow::Asked => unreachable!(),
        }
    }
}

/// A value that is there already.
#[derive(Drop)]
pub struct Given<T> {
    value: Option<T>,
}

impl<T> Given<T> {
    pub(crate) fn new(value: T) -> Given<T>
        ensures { result.value ≡ Some value }
    {
        Given { value: Some(value) }
    }

    pub(crate) fn into_option(self) -> Option<T>
        ensures { result ≡ self.value }
    {
        let Given { value } = self;
        value
    }

    pub(crate) fn into_value(self) -> T
        requires { IsSome self.value }
        ensures { self.value ≡ Some result }
    {
        let Given { value } = self;
        match value {
            Some(value) => value,
            None => unreachable!(),
        }
    }
}

impl<T: Drop> Maker<T, Infallible> for Given<T> {
    ghost purpose = { purposes.Sets };

    ghost is_new = { λ given. IsSome given.value };

    ghost can_make = { λ given. IsSome given.value };

    ghost needs = { λ _ _. ⊥ };

    ghost gives = { λ given made. IsOkAnd made (λ v. given.value ≡ Some v) };

    #[inline(always)]
    fn kind() -> MakerKind<()> {
        MakerKind::Given(())
    }

    fn make(&mut self, cx: &mut Context<'_>, right: Right) -> Poll<Result<T, Infallible>> {
        let _ = cx;
        drop(right);
        match self.value.take() {
            Some(value) => Poll::Ready(Ok(value)),
            None => unreachable!(),
        }
    }
}
