//! What a party steps with, and where it is in its program.

ghost use Rattle.std.specs.Prelude.{◌≡◌, false, []};
ghost use Rattle.lock_program.specs.declared.end.Next.TheVariants.{Do};
ghost use Rattle.sync_program.specs.Barrier.{next_of};
ghost use Rattle.sync_program.specs.declared.barrier.Place.TheVariants as places;
ghost use Rattle.barrier_core.specs.Barriers.{IsIdle, entering, goes, with_begun};
ghost use Rattle.barrier_core.specs.Courses.{IsOutside, IsStart, IsUndone, outside, unbegun};

use crate::list::Entries;
use crate::raw::RawBarrier;
use crate::standing::Standing;
use atomic_table::Seat as TableSeat;
use lock_program::{End, Next};
use std::marker::Model;
use sync_program::barrier::{BarrierCall, Found, Left, Place, Position, decide};
use words_barrier::steps::WORD;
use words_barrier::{Looks, View};

/// Where a party is in its program. It has no bytes, and borrows nothing. A party has it alone until it first looks with the inner lock,
/// and then with its seat.
///
/// Contracts see: the place whose action it does next, or how its last call ended and where that left it. It has no `Drop`: only
/// [`Course::end`] ends it, outside every call, or [`Course::withdraw`], of a try that has done nothing.
pub struct Course {
    next: Standing,
}

impl Model for Course {
    ghost use Rattle.barrier_core.specs.Courses.{Course as InTable, course_coded};

    ghost Value = { InTable };

    ghost coded = { course_coded };

    ghost view = { λ c. c.next.next };
}

impl Course {
    /// A party that has begun no call, with nothing.
    #[inline(always)]
    pub fn new() -> Course
        ensures { result ≡ unbegun }
    {
        Course {
            next: Standing::of(&Next::End(End::Pending, Left::Outside(Position::Out))),
        }
    }

    /// Begins a call, at this place.
    #[inline(always)]
    pub fn begin(&mut self, call: BarrierCall, at: Place)
        requires { IsStart call at self.old }
        ensures { self.new ≡ Do at }
    {
        let _ = call;
        self.next = Standing::of(&Next::Do(at));
    }

    // The action of this place was done, and found this.
    #[inline(always)]
    pub(crate) fn go(&mut self, at: Place, found: Found)
        ensures { self.new ≡ next_of at found }
    {
        self.next = Standing::of(&decide(at, found));
    }

    /// Ends a party that is outside every call and has nothing.
    #[inline(always)]
    pub fn end(self)
        requires { IsOutside self }
    {
        let Self { next: _ } = self;
    }

    // Ends a try that has done nothing, inside its call. The program has no place for that.
    #[inline(always)]
    pub(crate) fn withdraw(self)
        requires { IsUndone self }
    {
        let Self { next: _ } = self;
    }
}

/// A party's place at a barrier, with which it steps on the barrier's words. It has no bytes, and borrows nothing.
///
/// Contracts see: the barrier's table, which of its seats it is, whether it has finished a generation and owes all of the list a notification, whether it has an
/// entry in the list and of which number, whether it has not looked since it joined, how many generations its last look found
/// finished, and where its party is in its program. It has no `Drop`: only [`Seat::rise`] ends it, once it is outside every call, stands
/// in no list and owes nothing, as does [`Seat::end`], or [`Seat::into_course`], which keeps the course. This file alone makes one and takes
/// one apart.
pub struct Seat {
    pub(crate) inner: TableSeat<Entries, View>,
    pub(crate) course: Course,
    // Nobody else can name it, nor so let the seat go.
    seal: (),
}

impl Model for Seat {
    ghost use Rattle.barrier_core.specs.Barriers.{Seated, seated_coded};

    ghost Value = { Seated };

    ghost coded = { seated_coded };

    ghost use Rattle.std.specs.Prelude.{◌≡◌, false, []};
    ghost use Rattle.barrier_core.specs.Barriers.{seated};
    ghost use Rattle.words_base.specs.Lists.{nobody};

    ghost view = { λ s. seated s.inner.table_id s.inner.id s.inner.me.0 s.course };

    ghost invariant = { λ s. (s.inner.me.1 ≡ []) × (s.inner.me.0.has_list ≡ false) × (s.inner.me.0.list ≡ nobody) };
}

impl RawBarrier {
    /// Returns a new seat, which has nothing, of a party that looks next, and so has the inner lock, and how many generations it has found
    /// finished: one load.
    #[inline]
    pub fn sit(&self, course: Course) -> (Seat, u64)
        requires { course ≡ Do places.Look }
        ensures { result.0 ≡ entering self.now result.0.id result.1 course }
    {
        self.seat(course)
    }

    // The seat of nobody, which begins no call.
    pub(crate) fn sit_apart(&self) -> Seat
        ensures { result ≡ entering self.now result.id result.found outside }
    {
        let next = Standing::of(&Next::End(End::GivenBack, Left::Outside(Position::Out)));
        self.seat(Course { next }).0
    }

    #[inline(always)]
    fn seat(&self, course: Course) -> (Seat, u64)
        ensures { result.0 ≡ entering self.now result.0.id result.1 course }
    {
        let (finished, inner) = self.table.shared.load_new_seat::<Looks>(WORD);
        let seat = Seat {
            inner,
            course,
            seal: (),
        };
        (seat, finished)
    }
}

impl Seat {
    /// Begins a call, at this place.
    #[inline(always)]
    pub fn begin(&mut self, call: BarrierCall, at: Place)
        requires { IsStart call at self.old.course }
        ensures { self.new ≡ with_begun at self.old }
    {
        self.course.begin(call, at);
    }

    // The action of this place was done, and found this.
    #[inline(always)]
    pub(crate) fn go(&mut self, at: Place, found: Found)
        ensures { self.new ≡ goes at found self.old }
    {
        self.course.go(at, found);
    }

    /// Leaves a seat that has no entry in the list, and owes nothing: its party goes on without one.
    #[inline(always)]
    pub fn into_course(self) -> Course
        requires { IsIdle self }
        ensures { result ≡ self.course }
    {
        let Self {
            inner,
            course,
            seal: (),
        } = self;
        drop(inner);
        course
    }

    /// Ends a seat that is outside every call, has no entry in the list, and owes nothing.
    pub fn rise(self)
        requires course { IsOutside self.course }
        requires idle { IsIdle self }
    {
        self.into_course().end();
    }

    /// Ends it as [`Seat::rise`] does, and shows which seat it was.
    #[inline]
    pub fn end(self) -> Ended
        requires course { IsOutside self.course }
        requires idle { IsIdle self }
        ensures { result ≡ self }
    {
        let Self {
            inner,
            course,
            seal: (),
        } = self;
        Ended { inner, course }
    }
}

/// A seat that has ended, which is outside every call, stands in no list and owes nothing. [`Seat::end`] alone makes it.
///
/// Contracts see what a seat's see.
pub struct Ended {
    inner: TableSeat<Entries, View>,
    course: Course,
}

impl Model for Ended {
    ghost use Rattle.barrier_core.specs.Barriers.{Seated, seated_coded};

    ghost Value = { Seated };

    ghost coded = { seated_coded };

    ghost use Rattle.barrier_core.specs.Barriers.{seated};
    ghost use Rattle.barrier_core.specs.Courses.{IsOutside};

    ghost view = { λ e. seated e.inner.table_id e.inner.id e.inner.me.0 e.course };

    ghost invariant = { λ e. IsOutside e.course };
}

impl Drop for Ended {
    #[inline]
    fn drop(self) {
        let Self { inner, course } = self;
        drop(inner);
        course.end();
    }
}
