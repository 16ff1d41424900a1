//! The single steps on the table.

ghost use Rattle.std.specs.Prelude.{◌≡◌, ◌≢◌, ◌<◌, ◌%◌, false, true};
ghost use Rattle.atomic_table.specs.Table.{rest};
ghost use Rattle.words_barrier.specs.Seats.{finished_by, joined_of, gone_of, paid_of, back};
ghost use Rattle.words_barrier.specs.Steps.{Looked, Counted, Peeked, IsHeld, IsSame, CanJoin, CanLeave, CanPay, CanStay};

use crate::plays::{Counts, Finishes, Grabs, Joins, Leaves, Looks, Pays, Peeks, Stays};
use crate::rule::{BarrierRule, Content};
use crate::view::View;
use atomic_table::{Seat as TableSeat, Shared};
use words_base::Numbered;

/// The tables of barriers with their lists.
pub type Ruled<S> = Shared<S, View, (), BarrierRule>;

/// Where it stands how many generations are finished.
pub const WORD: usize = 0;

/// Where the list's word stands.
pub const LIST: usize = 1;

/// Where the list lies.
pub const LIST_SLOT: usize = 0;

/// The bit of the list's word that says that the list is out.
pub const OUT: u64 = 1;

/// That bit, and the one that says that somebody may sleep for the list.
pub const OUT_AND_ASLEEP: u64 = 3;

/// The bit of the list's word that says that somebody may sleep for the list.
pub const ASLEEP: u64 = 2;

/// The bit of the list's word that says that the list may have entries.
pub const ENTRIES: u64 = 4;

/// By how much each notification raises the list's word.
pub const NOTIFICATION: u64 = 8;

/// A look at how many generations are finished: one load.
#[inline]
pub fn look<S: Content>(shared: &Ruled<S>, inner: &mut TableSeat<S, View>) -> u64
    requires table { (inner.old.table_id ≡ shared.now.table_id) × (shared.now.table_id.words ≡ 2) }
    ensures seat { (inner.new.table_id ≡ inner.old.table_id) × (inner.new.id ≡ inner.old.id) }
    ensures step { Looked inner.old.me result inner.new.me }
{
    shared.load::<Looks>(inner, WORD)
}

/// The same, by which the seat's arrival is counted in the generation after those: one load.
#[inline]
pub fn count<S: Content>(shared: &Ruled<S>, inner: &mut TableSeat<S, View>) -> u64
    requires table { (inner.old.table_id ≡ shared.now.table_id) × (shared.now.table_id.words ≡ 2) }
    ensures seat { (inner.new.table_id ≡ inner.old.table_id) × (inner.new.id ≡ inner.old.id) }
    ensures step { Counted inner.old.me result inner.new.me }
{
    shared.load::<Counts>(inner, WORD)
}

/// Finishes one generation more than the seat has found finished, which is so many: one step. The seat owes the whole list a notification then.
#[inline]
pub fn finish<S: Content>(shared: &Ruled<S>, inner: &mut TableSeat<S, View>, found: u64)
    requires table { (inner.old.table_id ≡ shared.now.table_id) × (shared.now.table_id.words ≡ 2) }
    requires found { (inner.old.me.0.found ≡ found) × (found < u64.MAX) }
    ensures seat { (inner.new.table_id ≡ inner.old.table_id) × (inner.new.id ≡ inner.old.id) }
    ensures step { inner.new.me ≡ (finished_by inner.old.me.0, inner.old.me.1) }
{
    shared.store::<Finishes>(inner, WORD, found + 1);
}

/// A look at the list's word: one load.
#[inline]
pub fn peek<S: Content>(shared: &Ruled<S>, inner: &mut TableSeat<S, View>) -> u64
    requires table { (inner.old.table_id ≡ shared.now.table_id) × (shared.now.table_id.words ≡ 2) }
    ensures seat { (inner.new.table_id ≡ inner.old.table_id) × (inner.new.id ≡ inner.old.id) }
    ensures step { Peeked inner.old.me result inner.new.me }
{
    shared.load::<Peeks>(inner, LIST)
}

/// Takes the list out, if nobody has it: one step. It answers what it found.
#[inline]
pub fn grab<S: Content>(shared: &Ruled<S>, inner: &mut TableSeat<S, View>) -> u64
    requires table { (inner.old.table_id ≡ shared.now.table_id) × (shared.now.table_id.words ≡ 2) }
    ensures seat { (inner.new.table_id ≡ inner.old.table_id) × (inner.new.id ≡ inner.old.id) }
    ensures took { result % 2 ≡ 0 → IsHeld S.listed inner.new.me × IsSame inner.old.me.0 inner.new.me.0 × (rest inner.new.me.1 ≡ inner.old.me.1) }
    ensures not { result % 2 ≢ 0 → inner.new.me ≡ inner.old.me }
{
    shared.fetch_or::<Grabs>(inner, LIST, OUT)
}

/// The same, by somebody who may sleep for it.
#[inline]
pub fn grab_asleep<S: Content>(shared: &Ruled<S>, inner: &mut TableSeat<S, View>) -> u64
    requires table { (inner.old.table_id ≡ shared.now.table_id) × (shared.now.table_id.words ≡ 2) }
    ensures seat { (inner.new.table_id ≡ inner.old.table_id) × (inner.new.id ≡ inner.old.id) }
    ensures took { result % 2 ≡ 0 → IsHeld S.listed inner.new.me × IsSame inner.old.me.0 inner.new.me.0 × (rest inner.new.me.1 ≡ inner.old.me.1) }
    ensures not { result % 2 ≢ 0 → inner.new.me ≡ inner.old.me }
{
    shared.fetch_or::<Grabs>(inner, LIST, OUT_AND_ASLEEP)
}

/// Gives the list back, where this entry, its own, stands last of those that wait: one step. It answers what it found.
#[inline]
pub fn give_joined<S: Content, N: Numbered>(
    shared: &Ruled<S>,
    inner: &mut TableSeat<S, View>,
    new: u64,
    entry: &N,
) -> u64
    requires table { (inner.old.table_id ≡ shared.now.table_id) × (shared.now.table_id.words ≡ 2) × (shared.now.table_id.slots ≡ 1) }
    requires list { CanJoin S.listed inner.old.me new (N.number entry.now) }
    requires away { inner.old.me.0.listed ≡ false }
    ensures seat { (inner.new.table_id ≡ inner.old.table_id) × (inner.new.id ≡ inner.old.id) }
    ensures step { inner.new.me ≡ (joined_of (N.number entry.now) inner.old.me.0, rest inner.old.me.1) }
{
    let _ = entry;
    shared.swap::<Joins>(inner, LIST, new)
}

/// The same, which its entry has left.
#[inline]
pub fn give_gone<S: Content>(shared: &Ruled<S>, inner: &mut TableSeat<S, View>, new: u64) -> u64
    requires table { (inner.old.table_id ≡ shared.now.table_id) × (shared.now.table_id.words ≡ 2) × (shared.now.table_id.slots ≡ 1) }
    requires list { CanLeave S.listed inner.old.me new }
    requires stands { inner.old.me.0.listed ≡ true }
    ensures seat { (inner.new.table_id ≡ inner.old.table_id) × (inner.new.id ≡ inner.old.id) }
    ensures step { inner.new.me ≡ (gone_of inner.old.me.0, rest inner.old.me.1) }
{
    shared.swap::<Leaves>(inner, LIST, new)
}

/// The same, and all are notified: the seat owes nothing any more.
#[inline]
pub fn give_paid<S: Content>(shared: &Ruled<S>, inner: &mut TableSeat<S, View>, new: u64) -> u64
    requires table { (inner.old.table_id ≡ shared.now.table_id) × (shared.now.table_id.words ≡ 2) × (shared.now.table_id.slots ≡ 1) }
    requires list { CanPay S.listed inner.old.me new }
    ensures seat { (inner.new.table_id ≡ inner.old.table_id) × (inner.new.id ≡ inner.old.id) }
    ensures step { inner.new.me ≡ (paid_of inner.old.me.0, rest inner.old.me.1) }
{
    shared.swap::<Pays>(inner, LIST, new)
}

/// The same, and nothing changes for the seat.
#[inline]
pub fn give_same<S: Content>(shared: &Ruled<S>, inner: &mut TableSeat<S, View>, new: u64) -> u64
    requires table { (inner.old.table_id ≡ shared.now.table_id) × (shared.now.table_id.words ≡ 2) × (shared.now.table_id.slots ≡ 1) }
    requires list { CanStay S.listed inner.old.me new }
    ensures seat { (inner.new.table_id ≡ inner.old.table_id) × (inner.new.id ≡ inner.old.id) }
    ensures step { inner.new.me ≡ (back inner.old.me.0, rest inner.old.me.1) }
{
    shared.swap::<Stays>(inner, LIST, new)
}
