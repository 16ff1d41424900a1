//! Who waits, who makes, and how a poll went.

ghost use Rattle.std.specs.Prelude.{◌≡◌, true, false};
ghost use Rattle.cell_core.specs.Cells.{IsMaking, WaitsIn};
ghost use Rattle.cell_core.specs.Courses.{IsMakingStill, IsWaitingToMake, waiting};
ghost use Rattle.sync_program.specs.declared.once_cell.ListName.TheVariants as lists;

use crate::seat::{Ended, Seat};
use lock_event::EntryId;
use lock_queue::Whose;

/// A party that would make the value and waits between two polls: its seat owes nothing, its call was pending, and its entry stands in the list. It has no
/// `Drop`: a poll goes on with it, or a cancel ends it.
///
/// Contracts see its seat, and whose waker its entry keeps (`whose`).
pub struct WaitingToMake {
    pub(crate) seat: Seat,
    pub(crate) id: EntryId,
    pub(crate) whose: Whose,
    ghost idle: { (seat.makes ≡ false) × (seat.owes ≡ false) × (seat.owes_active ≡ false) × (seat.owes_passive ≡ false) × (seat.in_active ≡ true) × (seat.in_passive ≡ false) × (seat.fresh ≡ false) × (seat.entry ≡ id.number) },
    ghost pending: { IsWaitingToMake seat.course },
}

impl WaitingToMake {
    /// Puts together whoever waits by this seat, with its entry.
    pub fn of(seat: Seat, id: EntryId, whose: Whose) -> WaitingToMake
        requires idle { WaitsIn lists.Active id.number seat }
        requires pending { IsWaitingToMake seat.course }
        ensures { (result.seat ≡ seat) × (result.whose ≡ whose) }
    {
        WaitingToMake { seat, id, whose }
    }
}

/// A party that only waits for the value, between two polls. It is as [`WaitingToMake`], in the other list.
pub struct Waiting {
    pub(crate) seat: Seat,
    pub(crate) id: EntryId,
    pub(crate) whose: Whose,
    ghost idle: { (seat.makes ≡ false) × (seat.owes ≡ false) × (seat.owes_active ≡ false) × (seat.owes_passive ≡ false) × (seat.in_active ≡ false) × (seat.in_passive ≡ true) × (seat.fresh ≡ false) × (seat.entry ≡ id.number) },
    ghost pending: { seat.course ≡ waiting },
}

impl Waiting {
    /// Puts together whoever waits by this seat, with its entry.
    pub fn of(seat: Seat, id: EntryId, whose: Whose) -> Waiting
        requires idle { WaitsIn lists.Passive id.number seat }
        requires pending { seat.course ≡ waiting }
        ensures { (result.seat ≡ seat) × (result.whose ≡ whose) }
    {
        Waiting { seat, id, whose }
    }
}

/// A party that makes the value, whose maker is pending: its seat has the right to make, and nothing else. It has no `Drop`.
pub struct Making {
    pub(crate) seat: Seat,
    ghost makes: { (seat.makes ≡ true) × (seat.owes ≡ false) × (seat.owes_active ≡ false) × (seat.owes_passive ≡ false) × (seat.in_active ≡ false) × (seat.in_passive ≡ false) × (seat.fresh ≡ false) },
    ghost pending: { IsMakingStill seat.course },
}

impl Making {
    /// Puts together whoever makes by this seat.
    pub fn of(seat: Seat) -> Making
        requires makes { IsMaking seat }
        requires pending { IsMakingStill seat.course }
        ensures { result.seat ≡ seat }
    {
        Making { seat }
    }
}

/// What a party that would make the value has between two polls, beside its maker.
pub enum Resting {
    /// It stands in the list.
    Waits(WaitingToMake),
    /// It makes the value.
    Makes(Making),
}

/// How a poll of a party went that would make the value. With each end comes the seat that has come to it.
pub enum Outcome<'a, T, E, M> {
    /// It waits, or makes, with this maker.
    Pending(M, Resting),
    /// There was no memory for its entry. Nothing is left of the party but its maker.
    Refused(M),
    /// The cell has this value, which is its own.
    Value(&'a T, Ended),
    /// The cell had a value already when its own was to enter, which it has back.
    Back(T, &'a T, Ended),
    /// The cell was full before its maker was asked.
    Kept(M, &'a T, Ended),
    /// The maker failed.
    Failed(E, Ended),
}

/// How a poll of a party went that only waits.
pub enum Waited<'a, T> {
    /// It waits.
    Waits(Waiting),
    /// There was no memory for its entry, and nothing is left of the party.
    Refused,
    /// The cell has this value, as this seat has found.
    Value(&'a T, Ended),
}
