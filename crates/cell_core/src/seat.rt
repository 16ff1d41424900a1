//! What a party steps with.

ghost use Rattle.std.specs.Prelude.{◌≡◌, [], false, true};
ghost use Rattle.lock_program.specs.declared.end.Next.TheVariants.{Do};
ghost use Rattle.sync_program.specs.OnceCell.{action_of};
ghost use Rattle.sync_program.specs.declared.once_cell.Action.TheVariants as act;
ghost use Rattle.cell_core.specs.Cells.{IsAt, IsIdle, entering, goes, with_asking, with_begun};
ghost use Rattle.cell_core.specs.Courses.{AsksMaker, IsOutside, IsStart};

use crate::cell::RawCell;
use crate::course::Course;
use crate::lists::Lists;
use atomic_table::Seat as TableSeat;
use lock_program::{End, Next};
use std::marker::Model;
use sync_program::once_cell::{CellCall, Found, Left, Place, Position, decide};
use words_cell::steps::WORD;
use words_cell::{Keep, View};

/// A party's place at a cell, with which it steps on the cell's words. It has no bytes, and borrows nothing.
///
/// Contracts see: the cell's table, which of its seats it is, whether it has the right to make, whether it owes a notification of one that would make the value,
/// of all of them, and of all that wait for it, in which list it has an entry and of which number, whether it has not looked since it
/// joined, or found the cell full, what its last look found or it made of the cell since, and where its call is in the program. It has no `Drop`: only
/// [`Seat::end`] and [`Seat::rise`] end it, once it is outside every call, makes nothing, stands in no list, and owes nothing. This file
/// alone makes one and takes one apart.
pub struct Seat {
    pub(crate) inner: TableSeat<Lists, View>,
    // Where it is in its program: no bytes. Nobody else can name it, nor so let the seat go.
    course: Course,
}

impl Model for Seat {
    ghost use Rattle.cell_core.specs.Cells.{Seated, seated_coded};

    ghost Value = { Seated };

    ghost coded = { seated_coded };

    ghost use Rattle.std.specs.Prelude.{◌≡◌, false, []};
    ghost use Rattle.cell_core.specs.Cells.{seated};

    ghost view = { λ s. seated s.inner.table_id s.inner.id s.inner.me.0 s.course.next };

    ghost invariant = { λ s. (s.inner.me.1 ≡ []) × (s.inner.me.0.has_lists ≡ false) };
}

impl<T> RawCell<T> {
    /// Returns a new seat, with nothing: one load.
    #[inline]
    pub fn sit(&self) -> Seat
        ensures { result ≡ entering self.now result.id }
    {
        Seat {
            inner: self.words.table.shared.load_new_seat::<Keep>(WORD).1,
            course: Course::of(&Next::End(End::Pending, Left::Outside(Position::Out))),
        }
    }
}

impl Seat {
    /// Begins a call, at this place.
    #[inline(always)]
    pub fn begin(&mut self, call: CellCall<()>, at: Place<()>)
        requires { IsStart call at self.old.course }
        ensures { self.new ≡ with_begun at self.old }
    {
        let _ = call;
        self.course = Course::of(&Next::Do(at));
    }

    // The action of this place was done, and found this.
    #[inline(always)]
    pub(crate) fn go(&mut self, at: Place<()>, found: Found<()>)
        ensures { self.new ≡ goes at found self.old }
    {
        self.course = Course::of(&decide(at, found));
    }

    /// Ends a seat that is outside every call, makes nothing, has no entry in a list, and owes nothing.
    pub fn rise(self)
        requires course { IsOutside self.course }
        requires idle { IsIdle self }
    {
        drop(self.end());
    }

    /// Ends it as [`Seat::rise`] does, and shows which seat it was, and what it has found.
    #[inline]
    pub fn end(self) -> Ended
        requires course { IsOutside self.course }
        requires idle { IsIdle self }
        ensures { result ≡ self }
    {
        let Self { inner, course } = self;
        Ended { inner, course }
    }

    // Shows that this seat has the right to make, at a place where a value enters the cell.
    #[inline(always)]
    pub(crate) fn right(&self, at: Place<()>) -> Right
        requires course { IsAt at (act.Fill tt) self.now }
        requires makes { self.now.makes ≡ true }
    {
        let _ = at;
        Right { seal: () }
    }

    // The right by which a maker is asked, once: until its answer moves the seat on, the seat begins nothing.
    #[inline(always)]
    pub(crate) fn lend_right(&mut self, at: Place<()>) -> Right
        requires course { (self.old.course ≡ Do at) × AsksMaker (action_of at) }
        requires makes { self.old.makes ≡ true }
        ensures { self.new ≡ with_asking self.old }
    {
        let _ = at;
        self.course = Course::of(&Next::End(End::GivenBack, Left::Outside(Position::Out)));
        Right { seal: () }
    }
}

/// A seat that has ended, which is outside every call, makes nothing, stands in no list, and owes nothing. [`Seat::end`] alone makes it.
///
/// Contracts see what a seat's see.
pub struct Ended {
    inner: TableSeat<Lists, View>,
    course: Course,
}

impl Model for Ended {
    ghost use Rattle.cell_core.specs.Cells.{Seated, seated_coded};

    ghost Value = { Seated };

    ghost coded = { seated_coded };

    ghost use Rattle.cell_core.specs.Cells.{IsIdle, seated};
    ghost use Rattle.cell_core.specs.Courses.{IsOutside};

    ghost view = { λ e. seated e.inner.table_id e.inner.id e.inner.me.0 e.course.next };

    ghost invariant = { λ e. IsOutside e.course.next × IsIdle (seated e.inner.table_id e.inner.id e.inner.me.0 e.course.next) };
}

impl Drop for Ended {
    #[inline]
    fn drop(self) {
        let Self { inner, course: _ } = self;
        drop(inner);
    }
}

/// Shows that a seat has the right to make a cell's value. It is made by [`Seat::right`] alone.
#[derive(Drop)]
pub struct Right {
    seal: (),
}
