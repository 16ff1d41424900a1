//! What makes the value of a cell.

ghost use Rattle.std.specs.Prelude.{◌≡◌, ℕ, Result, true};
ghost use Rattle.futures.specs.Task.{Covers, Keeps};
ghost use Rattle.futures.specs.Poll.{IfReady, OnPending};
ghost use Rattle.sync_program.specs.declared.once_cell.Action.TheVariants as act;
ghost use Rattle.cell_core.specs.Cells.{IsAt, goes};
ghost use Rattle.cell_core.specs.Courses.{asked_of};
ghost use Rattle.cell_core.specs.Purposes.{IsAwaited, maker_of};

use crate::seat::{Right, Seat};
use futures::task::{Context, Poll};
use std::marker::Model;
use sync_program::once_cell::{Found, Maker as MakerKind, Place};

/// What a party is there for that would make the value. No value of it is made: contracts name it.
pub enum Purpose {
    /// To make the value by what may be pending or fail.
    Makes,
    /// To put a value in that it has from the beginning.
    Sets,
}

/// What makes the value of a cell for one party: it is polled against the right to make, and is pending, gives a value, or fails.
pub trait Maker<T, E>: Drop {
    ghost use Rattle.cell_core.specs.declared.maker.Purpose.{Purpose};

    /// What the party is there for.
    ghost purpose: { Purpose };

    /// Holds of a maker that was never polled.
    ghost is_new: { Self → Type 0 };

    /// What a poll needs of the maker.
    ghost can_make: { Self → Type 0 };

    /// The sources that a pending maker waits for.
    ghost needs: { Self → ℕ → Type 0 };

    /// What the maker may give.
    ghost gives: { Self → Result T E → Type 0 };

    /// Returns what makes the value, as the program's places say.
    fn kind() -> MakerKind<()>
        ensures { result ≡ maker_of purpose };

    /// One poll of the maker, against the right to make.
    fn make(&mut self, cx: &mut Context<'_>, right: Right) -> Poll<Result<T, E>>
        requires { can_make self.old }
        ensures made { IfReady result (gives self.old) }
        ensures again { OnPending result (IsAwaited purpose × can_make self.new) }
        ensures same { OnPending result ((made : Result T E) → gives self.new made → gives self.old made) }
        ensures registered { OnPending result (Covers cx.new (needs self.new)) }
        ensures kept { Keeps cx.old cx.new };
}

impl Seat {
    /// Asks a maker once, against the seat's right to make, as [`Maker::make`]: the right is lent for one poll (`Seat::lend_right`).
    #[inline]
    pub fn ask_maker<T, E, M: Maker<T, E>>(
        &mut self,
        cx: &mut Context<'_>,
        maker: &mut M,
        at: Place<()>,
    ) -> Poll<Result<T, E>>
        requires course { IsAt at (act.Make (maker_of M.purpose)) self.old }
        requires makes { self.old.makes ≡ true }
        requires ready { M.can_make maker.old }
        ensures asked { self.new ≡ goes at (asked_of result) self.old }
        ensures made { IfReady result (M.gives maker.old) }
        ensures again { OnPending result (IsAwaited M.purpose × M.can_make maker.new) }
        ensures same { OnPending result ((made : Result T E) → M.gives maker.new made → M.gives maker.old made) }
        ensures registered { OnPending result (Covers cx.new (M.needs maker.new)) }
        ensures kept { Keeps cx.old cx.new }
    {
        let polled = maker.make(cx, self.lend_right(at));
        self.go(at, asking(&polled));
        polled
    }
}

// What an action that asks a maker found.
#[inline(always)]
fn asking<T, E>(polled: &Poll<Result<T, E>>) -> Found<()>
    ensures { result ≡ asked_of polled.now }
{
    match polled {
        Poll::Pending => Found::NotYet,
        Poll::Ready(Ok(_)) => Found::Made(()),
        Poll::Ready(Err(_)) => Found::Failed,
    }
}

/// What may be done against the right to make alone: a closure that makes a value, or that value.
///
/// Contracts see what is in it.
pub struct Sealed<F> {
    inner: F,
}

impl<F> Model for Sealed<F> {
    ghost Value = { F };

    ghost view = { λ s. s.inner };
}

impl<F: Drop> Drop for Sealed<F> {
    fn drop(self) {
        let Sealed { inner: _ } = self;
    }
}

impl<F> Sealed<F> {
    /// Seals it.
    pub fn new(inner: F) -> Sealed<F>
        ensures { result ≡ inner }
    {
        Sealed { inner }
    }

    /// Opens it, against the right to make.
    pub fn open(self, right: Right) -> F
        ensures { result ≡ self }
    {
        drop(right);
        let Sealed { inner } = self;
        inner
    }
}
