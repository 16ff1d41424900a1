//! Where a party is in its program.

ghost use Rattle.std.specs.Prelude.{◌≡◌, Some};
ghost use Rattle.access_core.specs.Accesses.{with_call};
ghost use Rattle.lock_program.specs.declared.end.Next.TheVariants as next;
ghost use Rattle.sync_program.specs.ReadWrite.{next_of, start_of};
ghost use Rattle.sync_program.specs.declared.rwlock.Place.TheVariants as at;
ghost use Rattle.rwlock_core.specs.Courses.{HasTurn, next_in};

use crate::party::Turn;
use access_core::Seat;
use lock_program::{End, Next};
use std::snapshot::Snapshot;
use sync_program::rwlock::{Ending, Found, Place, RwLockCall, decide};

/// How far a call is in the lock's program. It has no bytes, and no `Drop`: each action moves it on, and [`Course::end`] ends it where the
/// program ends the call.
///
/// It is of one call, and of no seat: but a seat counts each call that it begins, so that a contract can say that a poll was one call.
pub struct Course {
    pub(crate) next: Snapshot<Next<Place, Place>>,
}

impl Course {
    // This seat begins a call, at this place.
    #[inline(always)]
    pub(crate) fn begin(seat: &mut Seat, call: RwLockCall, from: Place, at: Place) -> Course
        requires { start_of call from ≡ Some at }
        ensures seat { seat.new ≡ with_call seat.old }
        ensures course { next_in result ≡ next.Do at }
    {
        let _ = call;
        let _ = from;
        seat.begin();
        Course {
            next: Snapshot::of(&Next::Do(at)),
        }
    }

    // A call goes on by this seat that has the turn, to which the turn's own program led it.
    #[inline(always)]
    pub(crate) fn with_turn(seat: &mut Seat, turn: &Turn, at: Place) -> Course
        requires { HasTurn at }
        ensures seat { seat.new ≡ with_call seat.old }
        ensures course { next_in result ≡ next.Do at }
    {
        let _ = turn;
        seat.begin();
        Course {
            next: Snapshot::of(&Next::Do(at)),
        }
    }

    // A call begins that gives the turn back, and does nothing else: no seat of the state steps in it.
    #[inline(always)]
    pub(crate) fn of_turn(turn: &Turn, call: RwLockCall, from: Place, ending: Ending) -> Course
        requires { start_of call from ≡ Some (at.ReleaseTurn ending) }
        ensures { next_in result ≡ next.Do (at.ReleaseTurn ending) }
    {
        let _ = turn;
        let _ = call;
        let _ = from;
        Course {
            next: Snapshot::of(&Next::Do(Place::ReleaseTurn { ending })),
        }
    }

    // The action of this place was done, and found this.
    #[inline(always)]
    pub(crate) fn go(&mut self, at: Place, found: Found)
        ensures { next_in self.new ≡ next_of at found }
    {
        self.next = Snapshot::of(&decide(at, found));
    }

    // The call is over, so, and its party stands here.
    #[inline(always)]
    pub(crate) fn end(self, end: End, position: Place)
        requires { next_in self ≡ next.End end position }
    {
        let Course { next: _ } = self;
    }

    // The call has done nothing, and begins again.
    #[inline(always)]
    pub(crate) fn begin_again(self, call: RwLockCall, from: Place, at: Place)
        requires begins { start_of call from ≡ Some at }
        requires stands { next_in self ≡ next.Do at }
    {
        let Course { next: _ } = self;
    }
}

// How far a call is that has no seat yet, since it wants the turn first. It is as `Course`.
pub(crate) struct Unseated {
    course: Course,
}

impl Unseated {
    // A call begins, at this place.
    #[inline(always)]
    pub(crate) fn begin(call: RwLockCall, from: Place, at: Place) -> Unseated
        requires { start_of call from ≡ Some at }
        ensures { next_in result.course ≡ next.Do at }
    {
        let _ = call;
        let _ = from;
        Unseated {
            course: Course {
                next: Snapshot::of(&Next::Do(at)),
            },
        }
    }

    // The action of this place was done, and found this.
    #[inline(always)]
    pub(crate) fn go(&mut self, at: Place, found: Found)
        ensures { next_in self.new.course ≡ next_of at found }
    {
        self.course.go(at, found);
    }

    // The call is over, so, and its party stands here.
    #[inline(always)]
    pub(crate) fn end(self, end: End, position: Place)
        requires { next_in self.course ≡ next.End end position }
    {
        let Unseated { course } = self;
        course.end(end, position);
    }

    // It goes on by this seat, for which it is one call more.
    #[inline(always)]
    pub(crate) fn sit_down(self, seat: &mut Seat) -> Course
        ensures seat { seat.new ≡ with_call seat.old }
        ensures course { next_in result ≡ next_in self.course }
    {
        let Unseated { course } = self;
        seat.begin();
        course
    }
}
