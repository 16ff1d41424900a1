//! Who waits, who has the lock, and how a poll went.

ghost use Rattle.std.specs.Prelude.{◌≡◌, true, false};
ghost use Rattle.mutex_core.specs.Courses.{IsOutside, holding, pending};
ghost use Rattle.mutex_core.specs.Locks.{IsHolding};

use crate::seat::{GaveUp, Seat};
use lock_event::EntryId;
use lock_place::Hold;
use lock_queue::Whose;
use std::time::Instant;

/// A party that has looked at the lock in vain: its seat has nothing, and owes nothing. It has no `Drop`: a poll goes on with it, or
/// [`Vain::end`] ends it.
pub struct Vain<T> {
    pub(crate) seat: Seat<T>,
    // Whether it found the lock free, and others starved.
    pub(crate) is_free: bool,
    ghost idle: { (seat.holds ≡ false) × (seat.starved ≡ false) × (seat.owes ≡ false) × (seat.listed ≡ false) × (seat.fresh ≡ false) },
}

impl<T> Vain<T> {
    /// Ends a try that was in vain.
    #[inline]
    pub fn end(self)
        requires { IsOutside self.seat.course }
    {
        let Vain { seat, is_free: _ } = self;
        seat.rise();
    }
}

/// A party that waits between two polls: its seat owes nothing, and its entry stands in the list. It has no `Drop`: a poll goes on with
/// it, or a cancel ends it.
///
/// Contracts see its seat, and whose waker its entry keeps (`whose`).
pub struct Waiting<T> {
    pub(crate) seat: Seat<T>,
    pub(crate) id: EntryId,
    pub(crate) whose: Whose,
    // When it first waited. Where the clock couldn't be read it is `None`, and the party doesn't count as one that waits for too long.
    pub(crate) since: Option<Instant>,
    // Whether it is counted as starved.
    pub(crate) is_starved: bool,
    ghost idle: { (seat.holds ≡ false) × (seat.starved ≡ is_starved) × (seat.owes ≡ false) × (seat.listed ≡ true) × (seat.fresh ≡ false) × (seat.entry ≡ id.number) × (seat.course ≡ pending is_starved) },
}

impl<T> Waiting<T> {
    /// Puts together whoever waits by this seat, whose entry has this id and keeps a waker so, since then, starved or not. It is for tests,
    /// which carry out a poll one action at a time.
    pub fn of(
        seat: Seat<T>,
        id: EntryId,
        whose: Whose,
        since: Option<Instant>,
        is_starved: bool,
    ) -> Waiting<T>
        requires { (seat.holds ≡ false) × (seat.starved ≡ is_starved) × (seat.owes ≡ false) × (seat.listed ≡ true) × (seat.fresh ≡ false) × (seat.entry ≡ id.number) × (seat.course ≡ pending is_starved) }
        ensures { (result.seat ≡ seat) × (result.whose ≡ whose) }
    {
        Waiting {
            seat,
            id,
            whose,
            since,
            is_starved,
        }
    }

    /// Takes it apart into its seat, its entry's id, whose waker the entry keeps, and since when it waits. It is for tests.
    pub fn into_parts(self) -> (Seat<T>, EntryId, Whose, Option<Instant>)
        ensures { (result.0 ≡ self.seat) × (result.2 ≡ self.whose) }
    {
        let Waiting {
            seat,
            id,
            whose,
            since,
            is_starved: _,
        } = self;
        (seat, id, whose, since)
    }

    /// Returns whether it is counted as starved.
    pub fn is_starved(&self) -> bool
        ensures { result ≡ self.now.seat.starved }
    {
        self.is_starved
    }
}

/// A party that has the lock, with the right to the value. It owes nothing until it releases the lock. It has no `Drop`.
pub struct Held<T> {
    /// Its seat, which holds the lock.
    pub seat: Seat<T>,
    /// The right to the value.
    pub hold: Hold<T>,
    ghost holds: { (seat.holds ≡ true) × (seat.starved ≡ false) × (seat.owes ≡ false) × (seat.listed ≡ false) × (seat.fresh ≡ false) × (seat.course ≡ holding) },
}

impl<T> Held<T> {
    /// Puts together whoever holds a lock by this seat, with this right to its value.
    #[inline]
    pub fn of(seat: Seat<T>, hold: Hold<T>) -> Held<T>
        requires { IsHolding seat }
        ensures { (result.seat ≡ seat) × (result.hold ≡ hold) }
    {
        Held { seat, hold }
    }

    /// Takes it apart into its seat and its right.
    #[inline]
    pub fn into_parts(self) -> (Seat<T>, Hold<T>)
        ensures parts { (result.0 ≡ self.seat) × (result.1 ≡ self.hold) }
        ensures holds { IsHolding result.0 }
    {
        let Held { seat, hold } = self;
        (seat, hold)
    }
}

/// How a poll went.
pub enum Outcome<T> {
    /// It has the lock.
    Got(Held<T>),
    /// It waits.
    Waits(Waiting<T>),
    /// It gave up, and has nothing: memory was refused for its entry, or as many waiters are starved as may be.
    Refused(GaveUp),
}
