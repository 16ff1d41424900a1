//! What a party steps with.

ghost use Rattle.std.specs.Prelude.{◌≡◌, [], true, false};
ghost use Rattle.mutex_core.specs.Courses.{IsOutside, IsStart, refusing, unbegun};
ghost use Rattle.mutex_core.specs.Locks.{HasSlots, goes, seated, with_begun};
ghost use Rattle.words_mutex.specs.Rule.{first_view};

use crate::cell::{Cell, Listing};
use crate::course::Course;
use atomic_table::Seat as TableSeat;
use lock_program::mutex::{Found, LockCall, Place, decide};
use lock_program::{End, Next, Refusal};
use std::marker::Model;
use words_mutex::steps::WORD;
use words_mutex::{Keep, View, never_two};

/// A party's place at a lock, with which it steps on the lock's words. It has no bytes, and borrows nothing.
///
/// Contracts see: the lock, which of its seats it is, whether the seat holds it, whether it is counted as starved, whether it owes a notification or a look, whether it
/// has an entry in the list, and of which number, and whether it has not looked since it joined. It has no `Drop`: only [`Seat::rise`] ends it, once it has given
/// back what it has, and owes nothing. This file alone makes one and takes one apart.
pub struct Seat<T> {
    pub(crate) inner: TableSeat<Cell<T>, View>,
    // Where it is in its program. Nobody else can name it, nor so let the seat go.
    course: Course,
}

impl<T> Model for Seat<T> {
    ghost use Rattle.mutex_core.specs.Locks.{Seated, seated_coded};

    ghost Value = { Seated };

    ghost coded = { seated_coded };

    ghost use Rattle.std.specs.Prelude.{◌≡◌, [], false};
    ghost use Rattle.mutex_core.specs.Locks.{seated, HasSlots};

    ghost view = { λ s. seated s.inner.table_id s.inner.id s.inner.me.0 s.course.next };

    ghost invariant = { λ s. HasSlots s.inner.me.0.holds s.inner.me.1 × (s.inner.me.0.has_list ≡ false) × (s.inner.me.0.entries ≡ []) × (s.inner.me.0.marked ≡ 0) };
}

impl<T> Seat<T> {
    // A new seat of this table, which has begun no call, with nothing: one load.
    #[inline(always)]
    pub(crate) fn sit(shared: &Listing<T>) -> Seat<T>
        requires { shared.now.table_id.words ≡ 2 }
        ensures { result ≡ seated shared.now.table_id result.id (first_view shared.now.key.room_id shared.now.key.deed) unbegun }
    {
        Seat {
            inner: shared.load_new_seat::<Keep>(WORD).1,
            course: Course::of(&Next::End(End::Pending, Place::Out)),
        }
    }

    /// Begins a call, at this place.
    #[inline(always)]
    pub fn begin(&mut self, call: LockCall, at: Place)
        requires { IsStart call at self.old.course }
        ensures { self.new ≡ with_begun at self.old }
    {
        let _ = call;
        self.course = Course::of(&Next::Do(at));
    }

    // The action of this place was done, and found this.
    #[inline(always)]
    pub(crate) fn go(&mut self, at: Place, found: Found)
        ensures { self.new ≡ goes at found self.old }
    {
        self.course = Course::of(&decide(at, found));
    }

    /// Ends a seat that is outside every call, has nothing to give back, no entry in the list, and owes nothing.
    pub fn rise(self)
        requires course { IsOutside self.course }
        requires has { (self.holds ≡ false) × (self.starved ≡ false) × (self.listed ≡ false) × (self.fresh ≡ false) }
        requires owes { self.owes ≡ false }
    {
        let Self { inner, course: _ } = self;
        drop(inner);
    }

    // Ends the seat of a call that gave up, for the reason that its course ended by.
    pub(crate) fn give_up(self, refusal: Refusal) -> GaveUp
        requires course { self.course ≡ refusing false refusal }
        requires has { (self.holds ≡ false) × (self.starved ≡ false) × (self.listed ≡ false) × (self.fresh ≡ false) }
        requires owes { self.owes ≡ false }
        ensures { result ≡ refusal }
    {
        self.rise();
        GaveUp { refusal }
    }

    // Leaves the lock held for good, outside every call: no guard's seat is that.
    pub(crate) fn stay(self)
        requires course { IsOutside self.course }
        requires holds { self.holds ≡ true }
    {
        let Self { inner, course: _ } = self;
        drop(inner);
    }

    // Two seats never both hold the lock.
    pub(crate) fn never_two(self, other: Seat<T>, shared: &Listing<T>)
        requires table { (self.table ≡ shared.now.table_id) × (other.table ≡ shared.now.table_id) × (shared.now.table_id.words ≡ 2) }
        requires deed { self.right.deed ≡ shared.now.key.deed }
        requires hold { (self.holds ≡ true) × (other.holds ≡ true) }
        ensures { ⊥ }
    {
        let Self { inner, course: _ } = self;
        let Self {
            inner: second,
            course: _,
        } = other;
        never_two(shared, inner, second);
    }
}

/// Why a poll gave up: the end of its table by which its seat's call was over. Nobody else can make one, so a poll is refused as
/// [`Refusal::Starved`] only past a count that was refused, and as [`Refusal::Memory`] only past a join that was.
#[derive(Drop)]
pub struct GaveUp {
    refusal: Refusal,
}

impl Model for GaveUp {
    ghost use Rattle.lock_program.specs.declared.refusal.Refusal.{Refusal};
    ghost use Rattle.mutex_core.specs.Courses.{refusal_coded};

    ghost Value = { Refusal };

    ghost coded = { refusal_coded };

    ghost view = { λ g. g.refusal };
}

impl GaveUp {
    /// Returns the reason.
    #[inline(always)]
    pub fn refusal(&self) -> Refusal
        ensures { result ≡ self.now }
    {
        self.refusal
    }
}
