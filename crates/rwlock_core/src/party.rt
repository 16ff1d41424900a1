//! Who reads, who writes, who waits, and how a poll went.

ghost use Rattle.std.specs.Prelude.{◌≡◌, true, false};
ghost use Rattle.access_core.specs.Accesses.{WaitsToRead as IsWaitingToRead, WaitsToWrite as IsWaitingToWrite};
ghost use Rattle.lock_program.specs.declared.end.Next.TheVariants as next;
ghost use Rattle.sync_program.specs.declared.rwlock.Ending.TheVariants as ending;
ghost use Rattle.sync_program.specs.declared.rwlock.Place.TheVariants as at;
ghost use Rattle.rwlock_core.specs.Courses.{next_in};
ghost use Rattle.rwlock_core.specs.Vain.{HasNothing};

use crate::course::Course;
use access_core::Seat;
use lock_event::EntryId;
use lock_program::Refusal;
use lock_queue::Whose;
use mutex_core::Held;

/// The turn, of whoever has it: it has no value.
pub type Turn = Held<()>;

/// A party that reads. It owes nothing. It has no `Drop`: only its release ends it, or a change of its right.
pub struct Reader {
    /// Its seat, which reads.
    pub seat: Seat,
    ghost reads: { (seat.marks ≡ false) × (seat.reads ≡ true) × (seat.writes ≡ false) × (seat.owes_readers ≡ false) × (seat.owes_writer ≡ false) × (seat.in_readers ≡ false) × (seat.in_writer ≡ false) × (seat.fresh ≡ false) },
}

/// A party that reads and has the turn. It is as [`Reader`].
pub struct Upgradable {
    /// Its seat, which reads.
    pub seat: Seat,
    /// The turn.
    pub turn: Turn,
    ghost reads: { (seat.marks ≡ false) × (seat.reads ≡ true) × (seat.writes ≡ false) × (seat.owes_readers ≡ false) × (seat.owes_writer ≡ false) × (seat.in_readers ≡ false) × (seat.in_writer ≡ false) × (seat.fresh ≡ false) },
}

/// A party that writes: it has set the writer's bit, and has the turn. It is as [`Reader`].
pub struct Writer {
    /// Its seat, which writes.
    pub seat: Seat,
    /// The turn.
    pub turn: Turn,
    ghost writes: { (seat.marks ≡ true) × (seat.reads ≡ false) × (seat.writes ≡ true) × (seat.owes_readers ≡ false) × (seat.owes_writer ≡ false) × (seat.in_readers ≡ false) × (seat.in_writer ≡ false) × (seat.fresh ≡ false) },
}

/// A party that has set the writer's bit, has the turn, and stands in no list: an upgrade that was never polled, or was refused. It owes
/// nothing. It has no `Drop`: a poll goes on with it, or a cancel ends it.
pub struct Upgrading {
    /// Its seat, which has set the writer's bit.
    pub seat: Seat,
    /// The turn.
    pub turn: Turn,
    ghost marks: { (seat.marks ≡ true) × (seat.reads ≡ false) × (seat.writes ≡ false) × (seat.owes_readers ≡ false) × (seat.owes_writer ≡ false) × (seat.in_readers ≡ false) × (seat.in_writer ≡ false) × (seat.fresh ≡ false) },
}

/// What is left of a writer's downgrade whose own seat reads already: the turn is to be given back, and then the readers to be notified. This
/// seat has that duty, and nothing else. It has no `Drop`: [`RawRwLock::end_downgrade`](crate::RawRwLock::end_downgrade) alone ends it.
pub struct Downgrading {
    pub(crate) duty: Seat,
    pub(crate) course: Course,
    ghost owes: { (duty.marks ≡ false) × (duty.reads ≡ false) × (duty.writes ≡ false) × (duty.owes_readers ≡ true) × (duty.owes_writer ≡ false) × (duty.in_readers ≡ false) × (duty.in_writer ≡ false) × (duty.fresh ≡ false) × (next_in course ≡ next.Do (at.ReleaseTurn ending.NotifyReaders)) },
}

/// A party that waits to read, between two polls: its seat owes nothing, and its entry stands in the readers' list. It has no `Drop`: a poll
/// goes on with it, or a cancel ends it.
///
/// Contracts see its seat, and whose waker its entry keeps (`whose`).
pub struct WaitsToRead {
    pub(crate) seat: Seat,
    pub(crate) id: EntryId,
    pub(crate) whose: Whose,
    ghost waits: { (seat.marks ≡ false) × (seat.reads ≡ false) × (seat.writes ≡ false) × (seat.owes_readers ≡ false) × (seat.owes_writer ≡ false) × (seat.in_readers ≡ true) × (seat.in_writer ≡ false) × (seat.fresh ≡ false) × (seat.entry ≡ id.number) },
}

/// The seat of a party that waits until no reader is inside, between two polls: it has set the writer's bit, owes nothing, and its entry
/// stands in the writer's list. It is as [`WaitsToRead`].
pub struct WaitsToWrite {
    pub(crate) seat: Seat,
    pub(crate) id: EntryId,
    pub(crate) whose: Whose,
    ghost waits: { (seat.marks ≡ true) × (seat.reads ≡ false) × (seat.writes ≡ false) × (seat.owes_readers ≡ false) × (seat.owes_writer ≡ false) × (seat.in_readers ≡ false) × (seat.in_writer ≡ true) × (seat.fresh ≡ false) × (seat.entry ≡ id.number) },
}

impl WaitsToRead {
    /// Puts together whoever waits to read by this seat, with its entry.
    pub fn of(seat: Seat, id: EntryId, whose: Whose) -> WaitsToRead
        requires { IsWaitingToRead id.number seat }
        ensures { (result.seat ≡ seat) × (result.whose ≡ whose) }
    {
        WaitsToRead { seat, id, whose }
    }

    /// Takes it apart into its seat, its entry, and whose waker that keeps.
    pub fn into_parts(self) -> (Seat, EntryId, Whose)
        ensures parts { (result.0 ≡ self.seat) × (result.1 ≡ self.id) × (result.2 ≡ self.whose) }
        ensures waits { IsWaitingToRead result.1.number result.0 }
    {
        let WaitsToRead { seat, id, whose } = self;
        (seat, id, whose)
    }
}

impl WaitsToWrite {
    /// Puts together whoever waits by this seat until no reader is inside, with its entry.
    pub fn of(seat: Seat, id: EntryId, whose: Whose) -> WaitsToWrite
        requires { IsWaitingToWrite id.number seat }
        ensures { (result.seat ≡ seat) × (result.whose ≡ whose) }
    {
        WaitsToWrite { seat, id, whose }
    }

    /// Takes it apart into its seat, its entry, and whose waker that keeps.
    pub fn into_parts(self) -> (Seat, EntryId, Whose)
        ensures parts { (result.0 ≡ self.seat) × (result.1 ≡ self.id) × (result.2 ≡ self.whose) }
        ensures waits { IsWaitingToWrite result.1.number result.0 }
    {
        let WaitsToWrite { seat, id, whose } = self;
        (seat, id, whose)
    }
}

/// How a poll went.
pub enum Outcome<G, W> {
    /// It has its right.
    Got(G),
    /// It waits.
    Waits(W),
    /// It gave up, and has nothing.
    Refused(Refusal),
}

/// How it went with a seat that has set the writer's bit.
pub enum Awaited {
    /// It writes.
    Writes(Seat),
    /// It waits.
    Waits(WaitsToWrite),
    /// Memory was refused for its entry. It still has the bit.
    NoMemory(Seat),
}

/// What a try with the turn was in vain by. It has no `Drop`: [`InVain::end`] ends it.
pub enum InVain {
    /// A look at the turn, which found it held, or others starved for it.
    Turn(mutex_core::Vain<()>),
    /// What this seat's last look at the state found.
    Inside(Seat),
}

impl InVain {
    /// Ends it.
    #[inline]
    pub fn end(self)
        requires { HasNothing self }
    {
        match self {
            InVain::Turn(vain) => vain.end(),
            InVain::Inside(seat) => seat.rise(),
        }
    }
}

/// What a write waits for.
pub enum WaitsFor {
    /// The turn.
    Turn(mutex_core::Waiting<()>),
    /// That no reader is inside. It has the turn.
    Readers(WaitsToWrite, Turn),
}

/// How a poll of an upgrade went.
pub enum Upgraded {
    /// It writes.
    Got(Writer),
    /// It waits, with the turn.
    Waits(WaitsToWrite, Turn),
    /// Memory was refused for its entry. It still has the bit, and the turn.
    NoMemory(Upgrading),
}

/// An upgrade that has begun.
pub enum Begun {
    /// Nobody else read: it writes.
    Writes(Writer),
    /// Others read: it waits until none does.
    Awaits(Upgrading),
}
