//! Who waits, what shows how a wait has ended, and how a poll went.

ghost use Rattle.std.specs.Prelude.{◌≡◌, ◌≢◌, true};
ghost use Rattle.barrier_core.specs.Barriers.{IsCountedIn, IsIdle, IsWaiting, HasFollowed, HasLed};

use crate::arrivals::Arrivals;
use crate::seat::{Course, Ended, Seat};
use lock_event::EntryId;
use lock_program::Refusal;
use lock_queue::Whose;
use mutex_core::Waiting as WaitingForLock;

/// An arrival that was counted, and stands in no list of the barrier: by its seat, and with the generation that it was counted in. It has no
/// `Drop`: a poll goes on with it, or a drop of its wait ends its seat.
pub struct Arrival {
    pub(crate) seat: Seat,
    pub(crate) generation: u64,
    ghost counted: { IsIdle seat × IsCountedIn generation seat },
}

impl Arrival {
    /// Puts together an arrival that was counted by this seat. It is for tests, which carry out a poll one action at a time.
    pub fn of(seat: Seat, generation: u64) -> Arrival
        requires { IsIdle seat × IsCountedIn generation seat }
        ensures { (result.seat ≡ seat) × (result.generation ≡ generation) }
    {
        Arrival { seat, generation }
    }

    /// Returns the generation that it was counted in, from 0.
    pub fn generation(&self) -> u64
        ensures { result ≡ self.now.generation }
    {
        self.generation
    }

    /// Takes it apart into its seat and its generation.
    pub fn into_parts(self) -> (Seat, u64)
        ensures parts { (result.0 ≡ self.seat) × (result.1 ≡ self.generation) }
        ensures counted { IsIdle result.0 × IsCountedIn result.1 result.0 }
    {
        let Arrival { seat, generation } = self;
        (seat, generation)
    }
}

/// An arrival that was counted, and waits in the barrier's list between two polls: it has looked since it joined, and its generation was under
/// way then. It has no `Drop`: a poll goes on with it, or a cancel ends it.
///
/// Contracts see its seat, the generation that it was counted in, and whose waker its entry keeps (`whose`).
pub struct Waiting {
    pub(crate) seat: Seat,
    pub(crate) id: EntryId,
    pub(crate) whose: Whose,
    pub(crate) generation: u64,
    ghost waits: { IsWaiting generation id.number seat },
}

impl Waiting {
    /// Puts together whoever waits by this seat, whose entry has this id, and keeps a waker so. It is for tests, which carry out a poll one
    /// action at a time.
    pub fn of(seat: Seat, id: EntryId, whose: Whose, generation: u64) -> Waiting
        requires { IsWaiting generation id.number seat }
        ensures { (result.seat ≡ seat) × (result.whose ≡ whose) × (result.generation ≡ generation) }
    {
        Waiting {
            seat,
            id,
            whose,
            generation,
        }
    }
}

/// What the inner lock is taken for, and by whom. It has no `Drop`, since a course and an arrival have none.
pub enum Aim {
    /// To arrive: the wait isn't counted yet.
    Arrive(Course),
    /// To check whether the generation of this arrival is finished.
    Check(Arrival),
}

/// A wait between two polls. It has no `Drop`: a poll goes on with it, or a cancel ends it.
pub enum Resting {
    /// A poll of it was refused once its arrival was counted. It stands in no list.
    Counted(Arrival),
    /// It waits for the inner lock.
    Locking(Aim, WaitingForLock<Arrivals>),
    /// It waits for its generation.
    Waiting(Waiting),
}

/// A seat has finished a generation: whoever has it leads. It can't be dropped: [`Verdict::told`] ends it.
pub struct Led {
    pub(crate) seat: Seat,
    ghost led: { HasLed seat },
}

impl Led {
    /// Shows that this seat has finished a generation, and owes nothing any more.
    pub fn of(seat: Seat) -> Led
        requires { HasLed seat }
        ensures { result.seat ≡ seat }
    {
        Led { seat }
    }
}

/// A seat whose arrival was counted has found its generation finished by another. It can't be dropped: [`Verdict::told`] ends it.
pub struct Followed {
    pub(crate) seat: Seat,
    ghost followed: { HasFollowed seat },
}

impl Followed {
    /// Shows that this seat has found its generation finished.
    pub fn of(seat: Seat) -> Followed
        requires { HasFollowed seat }
        ensures { result.seat ≡ seat }
    {
        Followed { seat }
    }
}

/// How a wait has ended: the arrival's own evidence.
pub enum Verdict {
    /// It has finished its generation.
    Led(Led),
    /// Another has.
    Followed(Followed),
}

impl Verdict {
    ghost use Rattle.barrier_core.specs.Barriers.{HasEnded};
    ghost use Rattle.barrier_core.specs.Counts.{leads, seat_by};

    /// Ends the evidence, says whether the arrival led, and shows which seat it was, and that it has ended so.
    pub fn told(self) -> (bool, Ended)
        ensures told { (result.0 ≡ leads self) × (result.1 ≡ seat_by self) }
        ensures ended { HasEnded result.0 result.1 }
    {
        match self {
            Verdict::Led(led) => {
                let Led { seat } = led;
                (true, seat.end())
            }
            Verdict::Followed(followed) => {
                let Followed { seat } = followed;
                (false, seat.end())
            }
        }
    }
}

/// How a poll went.
pub enum Outcome {
    /// The wait is over.
    Ready(Verdict),
    /// It waits.
    Pending(Resting),
    /// It gave up, and stands in no list. An arrival that was counted stays so.
    Refused(Refusal, Aim),
}

// What a check came to, with the inner lock.
pub(crate) enum Checking {
    /// The poll is over.
    Over(Outcome),
    /// The arrival was notified again before it asked: it has to check once more.
    Told(Arrival),
}
