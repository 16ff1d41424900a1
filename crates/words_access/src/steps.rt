//! The single steps on the table.

ghost use Rattle.std.specs.Prelude.{◌≡◌, ◌≢◌, ◌<◌, ◌%◌, ◌/◌, [], true, false};
ghost use Rattle.atomic_table.specs.Table.{rest};
ghost use Rattle.words_access.specs.Seats.{down_of, unmarked_of, duty_view, relieved_of, joined_readers_of, joined_writer_of, told_reader_of, told_writer_of, gone_reader_of, gone_writer_of, paid_readers_of, paid_writer_of, back};
ghost use Rattle.words_access.specs.Steps.{Looked, LookedLeft, Entered, Left, Marked, Won, Raised, Upgraded, Peeked, IsHeld, IsSame, CanJoinReaders, CanJoinWriter, CanHearReader, CanHearWriter, CanLeaveReaders, CanLeaveWriter, CanPayReaders, CanPayWriter, CanStay};

use crate::plays::{
    Downs, DutyApart, Enters, Grabs, HearsReader, HearsWriter, JoinsReaders, JoinsWriter, Leaves,
    LeavesReaders, LeavesWriter, Looks, LooksLeft, Marks, PaysReaders, PaysWriter, Peeks, Raises,
    Stays, Unmarks, Upgrades, Wins,
};
use crate::rule::{AccessRule, Content};
use crate::view::View;
use atomic_table::{Seat as TableSeat, Shared};
use words_base::Numbered;

/// The tables of read-write locks' states with their lists.
pub type Ruled<S> = Shared<S, View, (), AccessRule>;

/// Where the state word stands.
pub const STATE: usize = 0;

/// Where the word of the lists stands.
pub const LIST: usize = 1;

/// Where the lists lie.
pub const LIST_SLOT: usize = 0;

/// The state while nobody reads, writes, or waits to write.
pub const FREE: u64 = 0;

/// The writer's bit of the state.
pub const MARK: u64 = 1;

/// What each reader adds to the state.
pub const READER: u64 = 2;

/// The greatest number of readers.
pub const READERS_LIMIT: u64 = 1_073_741_823;

/// The bit of the lists' word that says that they are out.
pub const OUT: u64 = 1;

/// That bit, and the one that says that somebody may sleep for the lists.
pub const OUT_AND_ASLEEP: u64 = 3;

/// The bit of the lists' word that says that somebody may sleep for them.
pub const ASLEEP: u64 = 2;

/// The bit of the lists' word that says that one of them may have entries.
pub const ENTRIES: u64 = 4;

/// What each notification adds to the lists' word.
pub const NOTIFICATION: u64 = 8;

/// A look at the state: one load. Who waits to write doesn't look so.
#[inline]
pub fn look<S: Content>(shared: &Ruled<S>, inner: &mut TableSeat<S, View>) -> u64
    requires table { (inner.old.table_id ≡ shared.now.table_id) × (shared.now.table_id.words ≡ 2) }
    requires away { inner.old.me.0.in_writer ≡ false }
    ensures seat { (inner.new.table_id ≡ inner.old.table_id) × (inner.new.id ≡ inner.old.id) }
    ensures step { Looked inner.old.me result inner.new.me }
{
    shared.load::<Looks>(inner, STATE)
}

/// A look by the seat that has set the writer's bit: one load. If no reader is left, it writes.
#[inline]
pub fn look_left<S: Content>(shared: &Ruled<S>, inner: &mut TableSeat<S, View>) -> u64
    requires table { (inner.old.table_id ≡ shared.now.table_id) × (shared.now.table_id.words ≡ 2) }
    requires waits { (inner.old.me.0.marks ≡ true) × (inner.old.me.0.in_readers ≡ false) }
    ensures seat { (inner.new.table_id ≡ inner.old.table_id) × (inner.new.id ≡ inner.old.id) }
    ensures step { LookedLeft inner.old.me result inner.new.me }
{
    shared.load::<LooksLeft>(inner, STATE)
}

/// One more reader, if the state is still what was seen, where the bit was clear: one exchange. It answers what it found.
#[inline]
pub fn enter<S: Content>(shared: &Ruled<S>, inner: &mut TableSeat<S, View>, seen: u64) -> u64
    requires table { (inner.old.table_id ≡ shared.now.table_id) × (shared.now.table_id.words ≡ 2) }
    requires clear { seen % 2 ≡ 0 }
    requires few { seen / 2 < 1073741823 }
    requires idle { inner.old.me.0.reads ≡ false }
    ensures seat { (inner.new.table_id ≡ inner.old.table_id) × (inner.new.id ≡ inner.old.id) }
    ensures step { Entered seen inner.old.me result inner.new.me }
{
    shared.compare_exchange::<Enters>(inner, STATE, seen, seen + READER)
}

/// One reader fewer: one step. The last one owes the writer a notification, if the bit is set.
#[inline]
pub fn leave<S: Content>(shared: &Ruled<S>, inner: &mut TableSeat<S, View>) -> u64
    requires table { (inner.old.table_id ≡ shared.now.table_id) × (shared.now.table_id.words ≡ 2) }
    requires reads { inner.old.me.0.reads ≡ true }
    ensures seat { (inner.new.table_id ≡ inner.old.table_id) × (inner.new.id ≡ inner.old.id) }
    ensures step { Left inner.old.me result inner.new.me }
{
    shared.fetch_sub::<Leaves>(inner, STATE, READER)
}

/// Sets the writer's bit: one step. If nobody was inside, the seat writes. If another had set the bit, nothing has changed.
#[inline]
pub fn mark<S: Content>(shared: &Ruled<S>, inner: &mut TableSeat<S, View>) -> u64
    requires table { (inner.old.table_id ≡ shared.now.table_id) × (shared.now.table_id.words ≡ 2) }
    ensures seat { (inner.new.table_id ≡ inner.old.table_id) × (inner.new.id ≡ inner.old.id) }
    ensures step { Marked inner.old.me result inner.new.me }
{
    shared.fetch_or::<Marks>(inner, STATE, MARK)
}

/// Sets the writer's bit and writes, if nobody is inside: one exchange.
#[inline]
pub fn try_write<S: Content>(shared: &Ruled<S>, inner: &mut TableSeat<S, View>) -> u64
    requires table { (inner.old.table_id ≡ shared.now.table_id) × (shared.now.table_id.words ≡ 2) }
    ensures seat { (inner.new.table_id ≡ inner.old.table_id) × (inner.new.id ≡ inner.old.id) }
    ensures step { Won 0 inner.old.me result inner.new.me }
{
    shared.compare_exchange::<Wins>(inner, STATE, FREE, MARK)
}

/// Writes in place of reading, by the reader that is alone: one exchange.
#[inline]
pub fn try_upgrade<S: Content>(shared: &Ruled<S>, inner: &mut TableSeat<S, View>) -> u64
    requires table { (inner.old.table_id ≡ shared.now.table_id) × (shared.now.table_id.words ≡ 2) }
    requires reads { inner.old.me.0.reads ≡ true }
    ensures seat { (inner.new.table_id ≡ inner.old.table_id) × (inner.new.id ≡ inner.old.id) }
    ensures step { Raised inner.old.me result inner.new.me }
{
    shared.compare_exchange::<Raises>(inner, STATE, READER, MARK)
}

/// Sets the writer's bit in place of reading, beside other readers, if the state is still what was seen: one exchange.
#[inline]
pub fn upgrade<S: Content>(shared: &Ruled<S>, inner: &mut TableSeat<S, View>, seen: u64) -> u64
    requires table { (inner.old.table_id ≡ shared.now.table_id) × (shared.now.table_id.words ≡ 2) }
    requires clear { seen % 2 ≡ 0 }
    requires others { 2 < seen }
    requires reads { inner.old.me.0.reads ≡ true }
    ensures seat { (inner.new.table_id ≡ inner.old.table_id) × (inner.new.id ≡ inner.old.id) }
    ensures step { Upgraded seen inner.old.me result inner.new.me }
{
    shared.compare_exchange::<Upgrades>(inner, STATE, seen, seen - 1)
}

/// Reads in place of writing: one step. The seat owes the readers a notification.
#[inline]
pub fn down<S: Content>(shared: &Ruled<S>, inner: &mut TableSeat<S, View>)
    requires table { (inner.old.table_id ≡ shared.now.table_id) × (shared.now.table_id.words ≡ 2) }
    requires writes { (inner.old.me.0.writes ≡ true) × (inner.old.me.0.in_writer ≡ false) }
    ensures seat { (inner.new.table_id ≡ inner.old.table_id) × (inner.new.id ≡ inner.old.id) }
    ensures step { inner.new.me ≡ (down_of inner.old.me.0, inner.old.me.1) }
{
    shared.fetch_add::<Downs>(inner, STATE, 1);
}

/// Clears the writer's bit: one step. The seat has left the writer's list before, and owes the readers a notification.
#[inline]
pub fn unmark<S: Content>(shared: &Ruled<S>, inner: &mut TableSeat<S, View>)
    requires table { (inner.old.table_id ≡ shared.now.table_id) × (shared.now.table_id.words ≡ 2) }
    requires marks { (inner.old.me.0.marks ≡ true) × (inner.old.me.0.in_writer ≡ false) }
    ensures seat { (inner.new.table_id ≡ inner.old.table_id) × (inner.new.id ≡ inner.old.id) }
    ensures step { inner.new.me ≡ (unmarked_of inner.old.me.0, inner.old.me.1) }
{
    shared.fetch_sub::<Unmarks>(inner, STATE, 1);
}

/// Splits the duty to the readers off to a new seat, which has nothing else: one load, which changes no word. So the first seat may be lent on before
/// the readers are notified.
#[inline]
pub fn split_duty<S: Content>(
    shared: &Ruled<S>,
    inner: &mut TableSeat<S, View>,
) -> TableSeat<S, View>
    requires table { (inner.old.table_id ≡ shared.now.table_id) × (shared.now.table_id.words ≡ 2) }
    requires owes { inner.old.me.0.owes_readers ≡ true }
    ensures seat { (inner.new.table_id ≡ inner.old.table_id) × (inner.new.id ≡ inner.old.id) }
    ensures step { inner.new.me ≡ (relieved_of inner.old.me.0, inner.old.me.1) }
    ensures duty { (result.table_id ≡ inner.old.table_id) × (result.me ≡ (duty_view, [])) }
{
    shared.split_seat::<DutyApart>(inner)
}

/// A look at the word of the lists: one load.
#[inline]
pub fn peek<S: Content>(shared: &Ruled<S>, inner: &mut TableSeat<S, View>) -> u64
    requires table { (inner.old.table_id ≡ shared.now.table_id) × (shared.now.table_id.words ≡ 2) }
    ensures seat { (inner.new.table_id ≡ inner.old.table_id) × (inner.new.id ≡ inner.old.id) }
    ensures step { Peeked inner.old.me result inner.new.me }
{
    shared.load::<Peeks>(inner, LIST)
}

/// Takes the lists out, if nobody has them: one step. It answers what it found.
#[inline]
pub fn grab<S: Content>(shared: &Ruled<S>, inner: &mut TableSeat<S, View>) -> u64
    requires table { (inner.old.table_id ≡ shared.now.table_id) × (shared.now.table_id.words ≡ 2) }
    ensures seat { (inner.new.table_id ≡ inner.old.table_id) × (inner.new.id ≡ inner.old.id) }
    ensures took { result % 2 ≡ 0 → IsHeld S.readers S.writer inner.new.me × IsSame inner.old.me.0 inner.new.me.0 × (rest inner.new.me.1 ≡ inner.old.me.1) }
    ensures not { result % 2 ≢ 0 → inner.new.me ≡ inner.old.me }
{
    shared.fetch_or::<Grabs>(inner, LIST, OUT)
}

/// The same, by somebody who may sleep for them.
#[inline]
pub fn grab_asleep<S: Content>(shared: &Ruled<S>, inner: &mut TableSeat<S, View>) -> u64
    requires table { (inner.old.table_id ≡ shared.now.table_id) × (shared.now.table_id.words ≡ 2) }
    ensures seat { (inner.new.table_id ≡ inner.old.table_id) × (inner.new.id ≡ inner.old.id) }
    ensures took { result % 2 ≡ 0 → IsHeld S.readers S.writer inner.new.me × IsSame inner.old.me.0 inner.new.me.0 × (rest inner.new.me.1 ≡ inner.old.me.1) }
    ensures not { result % 2 ≢ 0 → inner.new.me ≡ inner.old.me }
{
    shared.fetch_or::<Grabs>(inner, LIST, OUT_AND_ASLEEP)
}

/// Gives the lists back, where this entry, its own, stands last of the readers: one step. It answers what it found.
#[inline]
pub fn give_joined_readers<S: Content, N: Numbered>(
    shared: &Ruled<S>,
    inner: &mut TableSeat<S, View>,
    new: u64,
    entry: &N,
) -> u64
    requires table { (inner.old.table_id ≡ shared.now.table_id) × (shared.now.table_id.words ≡ 2) × (shared.now.table_id.slots ≡ 1) }
    requires lists { CanJoinReaders S.readers S.writer inner.old.me new (N.number entry.now) }
    requires away { (inner.old.me.0.in_readers ≡ false) × (inner.old.me.0.in_writer ≡ false) }
    ensures seat { (inner.new.table_id ≡ inner.old.table_id) × (inner.new.id ≡ inner.old.id) }
    ensures step { inner.new.me ≡ (joined_readers_of (N.number entry.now) inner.old.me.0, rest inner.old.me.1) }
{
    let _ = entry;
    shared.swap::<JoinsReaders>(inner, LIST, new)
}

/// The same, of the writer's list, by who has set the bit.
#[inline]
pub fn give_joined_writer<S: Content, N: Numbered>(
    shared: &Ruled<S>,
    inner: &mut TableSeat<S, View>,
    new: u64,
    entry: &N,
) -> u64
    requires table { (inner.old.table_id ≡ shared.now.table_id) × (shared.now.table_id.words ≡ 2) × (shared.now.table_id.slots ≡ 1) }
    requires lists { CanJoinWriter S.readers S.writer inner.old.me new (N.number entry.now) }
    requires away { (inner.old.me.0.in_readers ≡ false) × (inner.old.me.0.in_writer ≡ false) }
    requires marks { inner.old.me.0.marks ≡ true }
    ensures seat { (inner.new.table_id ≡ inner.old.table_id) × (inner.new.id ≡ inner.old.id) }
    ensures step { inner.new.me ≡ (joined_writer_of (N.number entry.now) inner.old.me.0, rest inner.old.me.1) }
{
    let _ = entry;
    shared.swap::<JoinsWriter>(inner, LIST, new)
}

/// The same, where its entry was notified, and has left the readers: the seat owes.
#[inline]
pub fn give_told_reader<S: Content>(
    shared: &Ruled<S>,
    inner: &mut TableSeat<S, View>,
    new: u64,
) -> u64
    requires table { (inner.old.table_id ≡ shared.now.table_id) × (shared.now.table_id.words ≡ 2) × (shared.now.table_id.slots ≡ 1) }
    requires lists { CanHearReader S.readers S.writer inner.old.me new }
    requires stands { (inner.old.me.0.in_readers ≡ true) × (inner.old.me.0.fresh ≡ false) }
    ensures seat { (inner.new.table_id ≡ inner.old.table_id) × (inner.new.id ≡ inner.old.id) }
    ensures step { inner.new.me ≡ (told_reader_of inner.old.me.0, rest inner.old.me.1) }
{
    shared.swap::<HearsReader>(inner, LIST, new)
}

/// The same, of the writer's list.
#[inline]
pub fn give_told_writer<S: Content>(
    shared: &Ruled<S>,
    inner: &mut TableSeat<S, View>,
    new: u64,
) -> u64
    requires table { (inner.old.table_id ≡ shared.now.table_id) × (shared.now.table_id.words ≡ 2) × (shared.now.table_id.slots ≡ 1) }
    requires lists { CanHearWriter S.readers S.writer inner.old.me new }
    requires stands { (inner.old.me.0.in_writer ≡ true) × (inner.old.me.0.fresh ≡ false) }
    ensures seat { (inner.new.table_id ≡ inner.old.table_id) × (inner.new.id ≡ inner.old.id) }
    ensures step { inner.new.me ≡ (told_writer_of inner.old.me.0, rest inner.old.me.1) }
{
    shared.swap::<HearsWriter>(inner, LIST, new)
}

/// The same, where its entry has left the readers: what it was told has gone on.
#[inline]
pub fn give_left_readers<S: Content>(
    shared: &Ruled<S>,
    inner: &mut TableSeat<S, View>,
    new: u64,
) -> u64
    requires table { (inner.old.table_id ≡ shared.now.table_id) × (shared.now.table_id.words ≡ 2) × (shared.now.table_id.slots ≡ 1) }
    requires lists { CanLeaveReaders S.readers S.writer inner.old.me new }
    requires stands { (inner.old.me.0.in_readers ≡ true) × (inner.old.me.0.in_writer ≡ false) }
    ensures seat { (inner.new.table_id ≡ inner.old.table_id) × (inner.new.id ≡ inner.old.id) }
    ensures step { inner.new.me ≡ (gone_reader_of inner.old.me.0, rest inner.old.me.1) }
{
    shared.swap::<LeavesReaders>(inner, LIST, new)
}

/// The same, of the writer's list.
#[inline]
pub fn give_left_writer<S: Content>(
    shared: &Ruled<S>,
    inner: &mut TableSeat<S, View>,
    new: u64,
) -> u64
    requires table { (inner.old.table_id ≡ shared.now.table_id) × (shared.now.table_id.words ≡ 2) × (shared.now.table_id.slots ≡ 1) }
    requires lists { CanLeaveWriter S.readers S.writer inner.old.me new }
    requires stands { (inner.old.me.0.in_writer ≡ true) × (inner.old.me.0.in_readers ≡ false) }
    ensures seat { (inner.new.table_id ≡ inner.old.table_id) × (inner.new.id ≡ inner.old.id) }
    ensures step { inner.new.me ≡ (gone_writer_of inner.old.me.0, rest inner.old.me.1) }
{
    shared.swap::<LeavesWriter>(inner, LIST, new)
}

/// The same, and a reader is notified: the seat owes the readers nothing any more.
#[inline]
pub fn give_paid_readers<S: Content>(
    shared: &Ruled<S>,
    inner: &mut TableSeat<S, View>,
    new: u64,
) -> u64
    requires table { (inner.old.table_id ≡ shared.now.table_id) × (shared.now.table_id.words ≡ 2) × (shared.now.table_id.slots ≡ 1) }
    requires lists { CanPayReaders S.readers S.writer inner.old.me new }
    ensures seat { (inner.new.table_id ≡ inner.old.table_id) × (inner.new.id ≡ inner.old.id) }
    ensures step { inner.new.me ≡ (paid_readers_of inner.old.me.0, rest inner.old.me.1) }
{
    shared.swap::<PaysReaders>(inner, LIST, new)
}

/// The same, and who waits to write is.
#[inline]
pub fn give_paid_writer<S: Content>(
    shared: &Ruled<S>,
    inner: &mut TableSeat<S, View>,
    new: u64,
) -> u64
    requires table { (inner.old.table_id ≡ shared.now.table_id) × (shared.now.table_id.words ≡ 2) × (shared.now.table_id.slots ≡ 1) }
    requires lists { CanPayWriter S.readers S.writer inner.old.me new }
    ensures seat { (inner.new.table_id ≡ inner.old.table_id) × (inner.new.id ≡ inner.old.id) }
    ensures step { inner.new.me ≡ (paid_writer_of inner.old.me.0, rest inner.old.me.1) }
{
    shared.swap::<PaysWriter>(inner, LIST, new)
}

/// The same, and nothing changes for the seat.
#[inline]
pub fn give_same<S: Content>(shared: &Ruled<S>, inner: &mut TableSeat<S, View>, new: u64) -> u64
    requires table { (inner.old.table_id ≡ shared.now.table_id) × (shared.now.table_id.words ≡ 2) × (shared.now.table_id.slots ≡ 1) }
    requires lists { CanStay S.readers S.writer inner.old.me new }
    ensures seat { (inner.new.table_id ≡ inner.old.table_id) × (inner.new.id ≡ inner.old.id) }
    ensures step { inner.new.me ≡ (back inner.old.me.0, rest inner.old.me.1) }
{
    shared.swap::<Stays>(inner, LIST, new)
}
