//! Who waits, who has still to notify, and how a try and a poll went.

ghost use Rattle.std.specs.Prelude.{◌≡◌, true, false};
ghost use Rattle.semaphore_core.specs.Courses.{pending};

use crate::receipts::Given;
use crate::seat::Seat;
use lock_event::EntryId;
use lock_program::Refusal;
use lock_queue::Whose;

/// A party that waits between two polls: its seat has no permits and owes nothing, its entry stands in the list, and its last poll was
/// pending for as many permits as the entry is for. It has no `Drop`: a poll goes on with it, or a cancel ends it.
///
/// Contracts see its seat, and whose waker its entry keeps (`whose`).
pub struct Waiting {
    pub(crate) seat: Seat,
    pub(crate) id: EntryId,
    pub(crate) whose: Whose,
    ghost idle: { (seat.permits ≡ 0) × (seat.under_way ≡ 0) × (seat.owes ≡ false) × (seat.listed ≡ true) × (seat.fresh ≡ false) × (seat.entry ≡ id.number) × (seat.course ≡ pending seat.weight) },
}

impl Waiting {
    /// Puts together whoever waits by this seat, whose entry has this id, and keeps a waker so. It is for tests, which carry out a poll one
    /// action at a time.
    pub fn of(seat: Seat, id: EntryId, whose: Whose) -> Waiting
        requires { (seat.permits ≡ 0) × (seat.under_way ≡ 0) × (seat.owes ≡ false) × (seat.listed ≡ true) × (seat.fresh ≡ false) × (seat.entry ≡ id.number) × (seat.course ≡ pending seat.weight) }
        ensures { (result.seat ≡ seat) × (result.id ≡ id) × (result.whose ≡ whose) }
    {
        Waiting { seat, id, whose }
    }

    /// Takes it apart. It is for tests.
    pub fn into_parts(self) -> (Seat, EntryId, Whose)
        ensures { (result.0 ≡ self.seat) × (result.1 ≡ self.id) × (result.2 ≡ self.whose) }
    {
        let Waiting { seat, id, whose } = self;
        (seat, id, whose)
    }
}

/// What a try to take permits came to, or a first look of a poll.
pub enum Tried {
    /// The permits, by this seat, which has exactly these.
    Got(Seat),
    /// Fewer are available, as this seat's last look found: [`RawSemaphore::give_up`](crate::RawSemaphore::give_up) ends it, and a poll
    /// goes on by [`RawSemaphore::poll_first`](crate::RawSemaphore::poll_first).
    Short(Seat),
    /// The word changed meanwhile: [`RawSemaphore::try_again`](crate::RawSemaphore::try_again) goes on with this seat, and a poll by
    /// [`RawSemaphore::look_on`](crate::RawSemaphore::look_on).
    Changed(Seat),
}

/// What is left to do of a drop where somebody may wait: [`RawSemaphore::notify`](crate::RawSemaphore::notify) does it. It has no `Drop`.
pub struct Notifies {
    pub(crate) seat: Seat,
    pub(crate) given: Given,
}

/// How a poll went.
pub enum Outcome {
    /// The permits that the future is for, by this seat.
    Got(Seat),
    /// It waits.
    Waits(Waiting),
    /// It gave up, and has nothing: memory was refused for its entry.
    Refused(Refusal),
}
