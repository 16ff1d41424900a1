//! What a party steps with.

ghost use Rattle.std.specs.Prelude.{◌≡◌, false, []};
ghost use Rattle.semaphore_core.specs.Courses.{IsOutside, IsStart, unbegun};
ghost use Rattle.semaphore_core.specs.Semaphores.{entering, goes, seated, with_begun, with_look};

use crate::course::Course;
use crate::giving_back::Listing;
use crate::queue::Queue;
use crate::raw::RawSemaphore;
use atomic_table::Seat as TableSeat;
use lock_program::{End, Next};
use std::marker::Model;
use sync_program::permits::{Found, Place, Position, SemaphoreCall, decide};
use words_permits::steps::AVAILABLE;
use words_permits::{Keep, Sees, View};

/// A party's place at a semaphore, with which it steps on the semaphore's words. It has no bytes, and borrows nothing.
///
/// Contracts see: the semaphore, which of its seats it is, how many permits the seat has and how many are under way, what it found last of the available permits and
/// of the limit, what it has added and forgotten in all, whether it owes a notification and has looked since, its entry in the list, and where
/// it is in its program (`course`). It has no `Drop`: only [`Seat::rise`] and [`Seat::end`] end it, once it is outside every call, has given
/// back what it has, and owes nothing. This file alone makes one and takes one apart.
pub struct Seat {
    pub(crate) inner: TableSeat<Queue, View>,
    // Where it is in its program: no bytes. Nobody else can name it, nor so let the seat go.
    course: Course,
}

impl Model for Seat {
    ghost use Rattle.semaphore_core.specs.Semaphores.{Seated, seated_coded};

    ghost Value = { Seated };

    ghost coded = { seated_coded };

    ghost use Rattle.std.specs.Prelude.{◌≡◌, false, []};
    ghost use Rattle.semaphore_core.specs.Semaphores.{seated};

    ghost view = { λ s. seated s.inner.table_id s.inner.id s.inner.me.0 s.course.next };

    ghost invariant = { λ s. (s.inner.me.1 ≡ []) × (s.inner.me.0.has_list ≡ false) × (s.inner.me.0.waiters ≡ []) × (s.inner.me.0.marked ≡ 0) };
}

impl RawSemaphore {
    /// Returns a new seat, which has nothing. It costs one load, and takes no memory.
    #[inline]
    pub fn sit(&self) -> Seat
        ensures { result ≡ entering self.now result.id }
    {
        let shared: &Listing = &self.table.shared;
        Seat::new(shared.load_new_seat::<Keep>(AVAILABLE).1)
    }

    /// Returns a new seat as [`RawSemaphore::sit`] does, with how many permits its one load found available.
    #[inline]
    pub fn sit_and_look(&self) -> (Seat, u64)
        ensures { result.0 ≡ with_look result.1 (entering self.now result.0.id) }
    {
        let shared: &Listing = &self.table.shared;
        let (found, inner) = shared.load_new_seat::<Sees>(AVAILABLE);
        (Seat::new(inner), found)
    }
}

impl Seat {
    // A seat that has begun no call, with nothing.
    #[inline(always)]
    fn new(inner: TableSeat<Queue, View>) -> Seat
        requires { (inner.me.1 ≡ []) × (inner.me.0.has_list ≡ false) × (inner.me.0.waiters ≡ []) × (inner.me.0.marked ≡ 0) }
        ensures { result ≡ seated inner.table_id inner.id inner.me.0 unbegun }
    {
        Seat {
            inner,
            course: Course::of(&Next::End(End::Pending, Position::Out)),
        }
    }

    /// Begins a call, at this place.
    #[inline(always)]
    pub fn begin(&mut self, call: SemaphoreCall, at: Place)
        requires { IsStart call at self.old.course }
        ensures { self.new ≡ with_begun at self.old }
    {
        let _ = call;
        self.course = Course::of(&Next::Do(at));
    }

    // The action of this place was done, and found this.
    #[inline(always)]
    pub(crate) fn go(&mut self, at: Place, found: Found)
        ensures { self.new ≡ goes at found self.old }
    {
        self.course = Course::of(&decide(at, found));
    }

    /// Ends a seat that is outside every call, has no permits and nothing under way, no entry in the list, and owes nothing.
    #[inline]
    pub fn rise(self)
        requires course { IsOutside self.course }
        requires has { (self.permits ≡ 0) × (self.under_way ≡ 0) × (self.listed ≡ false) × (self.fresh ≡ false) }
        requires owes { self.owes ≡ false }
    {
        let Self { inner, course: _ } = self;
        drop(inner);
    }

    /// Ends it as [`Seat::rise`] does, and shows what it has done.
    #[inline]
    pub fn end(self) -> Ended
        requires course { IsOutside self.course }
        requires has { (self.permits ≡ 0) × (self.under_way ≡ 0) × (self.listed ≡ false) × (self.fresh ≡ false) }
        requires owes { self.owes ≡ false }
        ensures { result ≡ self }
    {
        let Self { inner, course } = self;
        Ended { inner, course }
    }
}

/// A seat that has ended, which is outside every call, has nothing and owes nothing. [`Seat::end`] alone makes it.
///
/// Contracts see what a seat's see: so what it has added and forgotten in all.
pub struct Ended {
    inner: TableSeat<Queue, View>,
    course: Course,
}

impl Model for Ended {
    ghost use Rattle.semaphore_core.specs.Semaphores.{Seated, seated_coded};

    ghost Value = { Seated };

    ghost coded = { seated_coded };

    ghost use Rattle.std.specs.Prelude.{◌≡◌, false};
    ghost use Rattle.semaphore_core.specs.Courses.{IsOutside};
    ghost use Rattle.semaphore_core.specs.Semaphores.{seated};

    ghost view = { λ e. seated e.inner.table_id e.inner.id e.inner.me.0 e.course.next };

    ghost invariant = { λ e. IsOutside e.course.next × (e.inner.me.0.permits ≡ 0) × (e.inner.me.0.under_way ≡ 0) × (e.inner.me.0.listed ≡ false) × (e.inner.me.0.owes ≡ false) };
}

impl Drop for Ended {
    #[inline]
    fn drop(self) {
        let Self { inner, course: _ } = self;
        drop(inner);
    }
}
