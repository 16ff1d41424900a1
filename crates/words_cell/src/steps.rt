//! The single steps on the table.

ghost use Rattle.std.specs.Prelude.{◌≡◌, ◌≢◌, ◌<◌, ◌%◌, true, false};
ghost use Rattle.atomic_table.specs.Table.{rest};
ghost use Rattle.words_cell.specs.Seats.{filled_by, emptied_by, joined_active_of, joined_passive_of, told_of, gone_of, paid_of, paid_active_of, paid_passive_of, back};
ghost use Rattle.words_cell.specs.Steps.{Looked, Claimed, Took, Peeked, IsHeld, IsSame, CanJoinActive, CanJoinPassive, CanHear, CanLeave, CanPay, CanPayActive, CanPayPassive, CanStay};

use crate::plays::{
    Claims, Empties, Fills, Grabs, Hears, JoinsActive, JoinsPassive, Leaves, Looks, Pays,
    PaysActive, PaysPassive, Peeks, Stays, Takes,
};
use crate::rule::{CellRule, Content};
use crate::view::View;
use atomic_table::{Seat as TableSeat, Shared};
use words_base::Numbered;

/// The tables of cells with their lists.
pub type Ruled<S> = Shared<S, View, bool, CellRule>;

/// Where the cell's word stands.
pub const WORD: usize = 0;

/// Where the word of its lists stands.
pub const LIST: usize = 1;

/// Where the lists lie.
pub const LIST_SLOT: usize = 0;

/// The cell's word while it has no value and nobody makes one.
pub const EMPTY: u64 = 0;

/// The same, while a seat has the right to make its value.
pub const MAKING: u64 = 1;

/// The same, while it has a value.
pub const FULL: u64 = 2;

/// The bit of the lists' word that says that they are out.
pub const OUT: u64 = 1;

/// That bit, and the one that says that somebody may sleep for the lists.
pub const OUT_AND_ASLEEP: u64 = 3;

/// The bit of the lists' word that says that somebody may sleep for them.
pub const ASLEEP: u64 = 2;

/// The bit of the lists' word that says that one of them may have entries.
pub const ENTRIES: u64 = 4;

/// By how much each notification raises the lists' word.
pub const NOTIFICATION: u64 = 8;

/// A look at the cell: one load.
#[inline]
pub fn look<S: Content>(shared: &Ruled<S>, inner: &mut TableSeat<S, View>) -> u64
    requires table { (inner.old.table_id ≡ shared.now.table_id) × (shared.now.table_id.words ≡ 2) }
    requires away { inner.old.me.0.in_active ≡ false }
    ensures seat { (inner.new.table_id ≡ inner.old.table_id) × (inner.new.id ≡ inner.old.id) }
    ensures step { Looked inner.old.me result inner.new.me }
{
    shared.load::<Looks>(inner, WORD)
}

/// Takes the right to make the value, if the cell is empty: one exchange. It answers what it found.
#[inline]
pub fn claim<S: Content>(shared: &Ruled<S>, inner: &mut TableSeat<S, View>) -> u64
    requires table { (inner.old.table_id ≡ shared.now.table_id) × (shared.now.table_id.words ≡ 2) }
    ensures seat { (inner.new.table_id ≡ inner.old.table_id) × (inner.new.id ≡ inner.old.id) }
    ensures step { Claimed inner.old.me result inner.new.me }
{
    shared.compare_exchange::<Claims>(inner, WORD, EMPTY, MAKING)
}

/// Makes the cell full, by the seat that makes: one step. It owes all of both lists then.
#[inline]
pub fn fill<S: Content>(shared: &Ruled<S>, inner: &mut TableSeat<S, View>)
    requires table { (inner.old.table_id ≡ shared.now.table_id) × (shared.now.table_id.words ≡ 2) }
    requires makes { inner.old.me.0.makes ≡ true }
    ensures seat { (inner.new.table_id ≡ inner.old.table_id) × (inner.new.id ≡ inner.old.id) }
    ensures step { inner.new.me ≡ (filled_by inner.old.me.0, inner.old.me.1) }
{
    shared.fetch_add::<Fills>(inner, WORD, 1);
}

/// Makes the cell empty again, by the seat that makes: one step. It owes a notification then.
#[inline]
pub fn empty<S: Content>(shared: &Ruled<S>, inner: &mut TableSeat<S, View>)
    requires table { (inner.old.table_id ≡ shared.now.table_id) × (shared.now.table_id.words ≡ 2) }
    requires makes { inner.old.me.0.makes ≡ true }
    ensures seat { (inner.new.table_id ≡ inner.old.table_id) × (inner.new.id ≡ inner.old.id) }
    ensures step { inner.new.me ≡ (emptied_by inner.old.me.0, inner.old.me.1) }
{
    shared.fetch_sub::<Empties>(inner, WORD, 1);
}

/// Makes a full cell empty, for whoever takes its value out: one exchange. It answers what it found.
#[inline]
pub fn take<S: Content>(shared: &Ruled<S>, inner: &mut TableSeat<S, View>) -> u64
    requires table { (inner.old.table_id ≡ shared.now.table_id) × (shared.now.table_id.words ≡ 2) }
    ensures seat { (inner.new.table_id ≡ inner.old.table_id) × (inner.new.id ≡ inner.old.id) }
    ensures step { Took inner.old.me result inner.new.me }
{
    shared.compare_exchange::<Takes>(inner, WORD, FULL, EMPTY)
}

/// A look at the word of the lists: one load.
#[inline]
pub fn peek<S: Content>(shared: &Ruled<S>, inner: &mut TableSeat<S, View>) -> u64
    requires table { (inner.old.table_id ≡ shared.now.table_id) × (shared.now.table_id.words ≡ 2) }
    ensures seat { (inner.new.table_id ≡ inner.old.table_id) × (inner.new.id ≡ inner.old.id) }
    ensures step { Peeked inner.old.me result inner.new.me }
{
    shared.load::<Peeks>(inner, LIST)
}

/// Takes the lists out, if nobody has them: one step. It answers what it found.
#[inline]
pub fn grab<S: Content>(shared: &Ruled<S>, inner: &mut TableSeat<S, View>) -> u64
    requires table { (inner.old.table_id ≡ shared.now.table_id) × (shared.now.table_id.words ≡ 2) }
    ensures seat { (inner.new.table_id ≡ inner.old.table_id) × (inner.new.id ≡ inner.old.id) }
    ensures took { result % 2 ≡ 0 → IsHeld S.active S.passive inner.new.me × IsSame inner.old.me.0 inner.new.me.0 × (rest inner.new.me.1 ≡ inner.old.me.1) }
    ensures not { result % 2 ≢ 0 → inner.new.me ≡ inner.old.me }
{
    shared.fetch_or::<Grabs>(inner, LIST, OUT)
}

/// The same, by somebody who may sleep for them.
#[inline]
pub fn grab_asleep<S: Content>(shared: &Ruled<S>, inner: &mut TableSeat<S, View>) -> u64
    requires table { (inner.old.table_id ≡ shared.now.table_id) × (shared.now.table_id.words ≡ 2) }
    ensures seat { (inner.new.table_id ≡ inner.old.table_id) × (inner.new.id ≡ inner.old.id) }
    ensures took { result % 2 ≡ 0 → IsHeld S.active S.passive inner.new.me × IsSame inner.old.me.0 inner.new.me.0 × (rest inner.new.me.1 ≡ inner.old.me.1) }
    ensures not { result % 2 ≢ 0 → inner.new.me ≡ inner.old.me }
{
    shared.fetch_or::<Grabs>(inner, LIST, OUT_AND_ASLEEP)
}

/// Gives the lists back, where this entry, its own, stands last of those that would make the value: one step. It answers what it found.
#[inline]
pub fn give_joined_active<S: Content, N: Numbered>(
    shared: &Ruled<S>,
    inner: &mut TableSeat<S, View>,
    new: u64,
    entry: &N,
) -> u64
    requires table { (inner.old.table_id ≡ shared.now.table_id) × (shared.now.table_id.words ≡ 2) × (shared.now.table_id.slots ≡ 1) }
    requires lists { CanJoinActive S.active S.passive inner.old.me new (N.number entry.now) }
    requires away { (inner.old.me.0.in_active ≡ false) × (inner.old.me.0.in_passive ≡ false) }
    ensures seat { (inner.new.table_id ≡ inner.old.table_id) × (inner.new.id ≡ inner.old.id) }
    ensures step { inner.new.me ≡ (joined_active_of (N.number entry.now) inner.old.me.0, rest inner.old.me.1) }
{
    let _ = entry;
    shared.swap::<JoinsActive>(inner, LIST, new)
}

/// The same, of those that only wait for it.
#[inline]
pub fn give_joined_passive<S: Content, N: Numbered>(
    shared: &Ruled<S>,
    inner: &mut TableSeat<S, View>,
    new: u64,
    entry: &N,
) -> u64
    requires table { (inner.old.table_id ≡ shared.now.table_id) × (shared.now.table_id.words ≡ 2) × (shared.now.table_id.slots ≡ 1) }
    requires lists { CanJoinPassive S.active S.passive inner.old.me new (N.number entry.now) }
    requires away { (inner.old.me.0.in_active ≡ false) × (inner.old.me.0.in_passive ≡ false) }
    ensures seat { (inner.new.table_id ≡ inner.old.table_id) × (inner.new.id ≡ inner.old.id) }
    ensures step { inner.new.me ≡ (joined_passive_of (N.number entry.now) inner.old.me.0, rest inner.old.me.1) }
{
    let _ = entry;
    shared.swap::<JoinsPassive>(inner, LIST, new)
}

/// The same, where its entry was notified, and has left those that would make the value: the seat owes.
#[inline]
pub fn give_told<S: Content>(shared: &Ruled<S>, inner: &mut TableSeat<S, View>, new: u64) -> u64
    requires table { (inner.old.table_id ≡ shared.now.table_id) × (shared.now.table_id.words ≡ 2) × (shared.now.table_id.slots ≡ 1) }
    requires lists { CanHear S.active S.passive inner.old.me new }
    requires stands { inner.old.me.0.in_active ≡ true }
    ensures seat { (inner.new.table_id ≡ inner.old.table_id) × (inner.new.id ≡ inner.old.id) }
    ensures step { inner.new.me ≡ (told_of inner.old.me.0, rest inner.old.me.1) }
{
    shared.swap::<Hears>(inner, LIST, new)
}

/// The same, where its entry has left: what it was told has gone on.
#[inline]
pub fn give_gone<S: Content>(shared: &Ruled<S>, inner: &mut TableSeat<S, View>, new: u64) -> u64
    requires table { (inner.old.table_id ≡ shared.now.table_id) × (shared.now.table_id.words ≡ 2) × (shared.now.table_id.slots ≡ 1) }
    requires lists { CanLeave S.active S.passive inner.old.me new }
    ensures seat { (inner.new.table_id ≡ inner.old.table_id) × (inner.new.id ≡ inner.old.id) }
    ensures step { inner.new.me ≡ (gone_of inner.old.me.0, rest inner.old.me.1) }
{
    shared.swap::<Leaves>(inner, LIST, new)
}

/// The same, and one that would make the value is notified: the seat owes none of these any more.
#[inline]
pub fn give_paid<S: Content>(shared: &Ruled<S>, inner: &mut TableSeat<S, View>, new: u64) -> u64
    requires table { (inner.old.table_id ≡ shared.now.table_id) × (shared.now.table_id.words ≡ 2) × (shared.now.table_id.slots ≡ 1) }
    requires lists { CanPay S.active S.passive inner.old.me new }
    ensures seat { (inner.new.table_id ≡ inner.old.table_id) × (inner.new.id ≡ inner.old.id) }
    ensures step { inner.new.me ≡ (paid_of inner.old.me.0, rest inner.old.me.1) }
{
    shared.swap::<Pays>(inner, LIST, new)
}

/// The same, and all that would make it are.
#[inline]
pub fn give_paid_active<S: Content>(
    shared: &Ruled<S>,
    inner: &mut TableSeat<S, View>,
    new: u64,
) -> u64
    requires table { (inner.old.table_id ≡ shared.now.table_id) × (shared.now.table_id.words ≡ 2) × (shared.now.table_id.slots ≡ 1) }
    requires lists { CanPayActive S.active S.passive inner.old.me new }
    ensures seat { (inner.new.table_id ≡ inner.old.table_id) × (inner.new.id ≡ inner.old.id) }
    ensures step { inner.new.me ≡ (paid_active_of inner.old.me.0, rest inner.old.me.1) }
{
    shared.swap::<PaysActive>(inner, LIST, new)
}

/// The same, and all that only wait for it are.
#[inline]
pub fn give_paid_passive<S: Content>(
    shared: &Ruled<S>,
    inner: &mut TableSeat<S, View>,
    new: u64,
) -> u64
    requires table { (inner.old.table_id ≡ shared.now.table_id) × (shared.now.table_id.words ≡ 2) × (shared.now.table_id.slots ≡ 1) }
    requires lists { CanPayPassive S.active S.passive inner.old.me new }
    ensures seat { (inner.new.table_id ≡ inner.old.table_id) × (inner.new.id ≡ inner.old.id) }
    ensures step { inner.new.me ≡ (paid_passive_of inner.old.me.0, rest inner.old.me.1) }
{
    shared.swap::<PaysPassive>(inner, LIST, new)
}

/// The same, and nothing changes for the seat.
#[inline]
pub fn give_same<S: Content>(shared: &Ruled<S>, inner: &mut TableSeat<S, View>, new: u64) -> u64
    requires table { (inner.old.table_id ≡ shared.now.table_id) × (shared.now.table_id.words ≡ 2) × (shared.now.table_id.slots ≡ 1) }
    requires lists { CanStay S.active S.passive inner.old.me new }
    ensures seat { (inner.new.table_id ≡ inner.old.table_id) × (inner.new.id ≡ inner.old.id) }
    ensures step { inner.new.me ≡ (back inner.old.me.0, rest inner.old.me.1) }
{
    shared.swap::<Stays>(inner, LIST, new)
}
