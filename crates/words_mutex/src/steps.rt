//! The single steps on the table.

ghost use Rattle.std.specs.Prelude.{◌≡◌, ◌≢◌, ◌<◌, ◌%◌, ◌/◌, true, false};
ghost use Rattle.atomic_table.specs.Table.{rest};
ghost use Rattle.words_mutex.specs.Seats.{cleared_of, counted_listed_of, counted_unlisted_of, uncounted_of, joined_of, told_of, paid_of, gone_of, back, peeking, saw_of};
ghost use Rattle.words_mutex.specs.Steps.{Looked, Got, HasRight, IsHeld, IsSame, CanJoin, CanHear, CanPay, CanLeave, CanStay};

use crate::plays::{
    Clears, CountsListed, CountsUnlisted, Gone, Grabs, Joined, Keep, Lifts, Looks, Paid, Peeks,
    Same, Takes, TakesAlone, Told, Uncounts,
};
use crate::rule::{Content, MutexRule};
use crate::view::View;
use atomic_table::{Seat as TableSeat, Shared};
use lock_place::Spare;
use words_base::Numbered;

/// The tables of mutexes with their lists.
pub type Ruled<T, S> = Shared<S, View, Spare<T>, MutexRule>;

/// Where the mutex's word stands.
pub const WORD: usize = 0;

/// Where the list's word stands.
pub const LIST: usize = 1;

/// Where the list lies.
pub const LIST_SLOT: usize = 0;

/// Where the right to the value lies.
pub const RIGHT_SLOT: usize = 1;

/// The mutex's word while nobody holds the lock and nobody is starved.
pub const FREE: u64 = 0;

/// The same, while somebody holds it.
pub const HELD: u64 = 1;

/// The mutex's word while nobody holds the lock and one seat is starved.
pub const ALONE: u64 = 2;

/// The same, while somebody holds it.
pub const HELD_ALONE: u64 = 3;

/// By how much each starved seat raises the mutex's word.
pub const COUNT: u64 = 2;

/// The bit of the list's word that says that the list is out.
pub const OUT: u64 = 1;

/// That bit, and the one that says that somebody may sleep for the list.
pub const OUT_AND_ASLEEP: u64 = 3;

/// The bit of the list's word that says that somebody may sleep for the list.
pub const ASLEEP: u64 = 2;

/// The bit of the list's word that says that the list may have entries.
pub const ENTRIES: u64 = 4;

/// By how much each notification raises the list's word.
pub const NOTIFICATION: u64 = 8;

/// A look at the mutex's word: one load.
#[inline]
pub fn look<T, S: Content>(shared: &Ruled<T, S>, inner: &mut TableSeat<S, View>) -> u64
    requires table { (inner.old.table_id ≡ shared.now.table_id) × (shared.now.table_id.words ≡ 2) }
    requires seen { inner.old.me.0.starved ≡ true → inner.old.me.0.listed ≡ true }
    ensures seat { (inner.new.table_id ≡ inner.old.table_id) × (inner.new.id ≡ inner.old.id) }
    ensures step { Looked inner.old.me result inner.new.me }
{
    shared.load::<Looks>(inner, WORD)
}

/// A look at the mutex's word that changes nothing for the seat: one load.
#[inline]
pub fn read<T, S: Content>(shared: &Ruled<T, S>, inner: &mut TableSeat<S, View>) -> u64
    requires table { (inner.old.table_id ≡ shared.now.table_id) × (shared.now.table_id.words ≡ 2) }
    ensures seat { (inner.new.table_id ≡ inner.old.table_id) × (inner.new.id ≡ inner.old.id) }
    ensures same { inner.new.me ≡ inner.old.me }
{
    shared.load::<Keep>(inner, WORD)
}

/// Takes a free lock, if nobody is starved: one exchange. It answers what it found.
#[inline]
pub fn exchange<T, S: Content>(shared: &Ruled<T, S>, inner: &mut TableSeat<S, View>) -> u64
    requires table { (inner.old.table_id ≡ shared.now.table_id) × (shared.now.table_id.words ≡ 2) }
    requires seen { inner.old.me.0.starved ≡ true → inner.old.me.0.listed ≡ true }
    ensures seat { (inner.new.table_id ≡ inner.old.table_id) × (inner.new.id ≡ inner.old.id) }
    ensures took { result ≡ 0 → Got S.is_right 0 inner.old.me inner.new.me }
    ensures not { result ≢ 0 → Looked inner.old.me result inner.new.me }
{
    shared.compare_exchange::<Takes>(inner, WORD, FREE, HELD)
}

/// The same, by the only one who is starved.
#[inline]
pub fn exchange_alone<T, S: Content>(shared: &Ruled<T, S>, inner: &mut TableSeat<S, View>) -> u64
    requires table { (inner.old.table_id ≡ shared.now.table_id) × (shared.now.table_id.words ≡ 2) }
    requires stands { (inner.old.me.0.starved ≡ true) × (inner.old.me.0.listed ≡ true) }
    ensures seat { (inner.new.table_id ≡ inner.old.table_id) × (inner.new.id ≡ inner.old.id) }
    ensures took { result ≡ 2 → Got S.is_right 2 inner.old.me inner.new.me }
    ensures not { result ≢ 2 → Looked inner.old.me result inner.new.me }
    ensures some { result ≢ 0 }
{
    shared.compare_exchange::<TakesAlone>(inner, WORD, ALONE, HELD_ALONE)
}

/// Sets the lowest bit of the word: one step. The seat has the lock, if that was free.
#[inline]
pub fn lift<T, S: Content>(shared: &Ruled<T, S>, inner: &mut TableSeat<S, View>) -> u64
    requires table { (inner.old.table_id ≡ shared.now.table_id) × (shared.now.table_id.words ≡ 2) }
    ensures seat { (inner.new.table_id ≡ inner.old.table_id) × (inner.new.id ≡ inner.old.id) }
    ensures took { result % 2 ≡ 0 → Got S.is_right result inner.old.me inner.new.me }
    ensures not { result % 2 ≢ 0 → inner.new.me ≡ (saw_of result inner.old.me.0, inner.old.me.1) }
{
    shared.fetch_or::<Lifts>(inner, WORD, HELD)
}

/// Counts a seat as starved that has an entry and has looked: one exchange. It answers what it found.
#[inline]
pub fn count_listed<T, S: Content>(
    shared: &Ruled<T, S>,
    inner: &mut TableSeat<S, View>,
    found: u64,
) -> u64
    requires table { (inner.old.table_id ≡ shared.now.table_id) × (shared.now.table_id.words ≡ 2) }
    requires few { found / 2 < 1073741823 }
    requires waits { (inner.old.me.0.starved ≡ false) × (inner.old.me.0.listed ≡ true) × (inner.old.me.0.fresh ≡ false) }
    ensures seat { (inner.new.table_id ≡ inner.old.table_id) × (inner.new.id ≡ inner.old.id) }
    ensures counts { result ≡ found → inner.new.me ≡ (counted_listed_of inner.old.me.0, inner.old.me.1) }
    ensures not { result ≢ found → inner.new.me ≡ inner.old.me }
{
    shared.compare_exchange::<CountsListed>(inner, WORD, found, found + COUNT)
}

/// The same, by any seat: it owes a look.
#[inline]
pub fn count_unlisted<T, S: Content>(
    shared: &Ruled<T, S>,
    inner: &mut TableSeat<S, View>,
    found: u64,
) -> u64
    requires table { (inner.old.table_id ≡ shared.now.table_id) × (shared.now.table_id.words ≡ 2) }
    requires few { found / 2 < 1073741823 }
    requires waits { inner.old.me.0.starved ≡ false }
    ensures seat { (inner.new.table_id ≡ inner.old.table_id) × (inner.new.id ≡ inner.old.id) }
    ensures counts { result ≡ found → inner.new.me ≡ (counted_unlisted_of inner.old.me.0, inner.old.me.1) }
    ensures not { result ≢ found → inner.new.me ≡ inner.old.me }
{
    shared.compare_exchange::<CountsUnlisted>(inner, WORD, found, found + COUNT)
}

/// Its count goes off: one step.
#[inline]
pub fn uncount<T, S: Content>(shared: &Ruled<T, S>, inner: &mut TableSeat<S, View>)
    requires table { (inner.old.table_id ≡ shared.now.table_id) × (shared.now.table_id.words ≡ 2) }
    requires starved { inner.old.me.0.starved ≡ true }
    ensures seat { (inner.new.table_id ≡ inner.old.table_id) × (inner.new.id ≡ inner.old.id) }
    ensures step { inner.new.me ≡ (uncounted_of inner.old.me.0, inner.old.me.1) }
{
    shared.fetch_sub::<Uncounts>(inner, WORD, COUNT);
}

/// Gives the lock back: one step.
#[inline]
pub fn clear<T, S: Content>(shared: &Ruled<T, S>, inner: &mut TableSeat<S, View>)
    requires table { (inner.old.table_id ≡ shared.now.table_id) × (shared.now.table_id.words ≡ 2) × (shared.now.table_id.slots ≡ 2) }
    requires right { HasRight S.is_right inner.old.me }
    ensures seat { (inner.new.table_id ≡ inner.old.table_id) × (inner.new.id ≡ inner.old.id) }
    ensures step { inner.new.me ≡ (cleared_of inner.old.me.0, rest inner.old.me.1) }
{
    shared.fetch_sub::<Clears>(inner, WORD, HELD);
}

/// A look at the list's word: one load.
#[inline]
pub fn peek<T, S: Content>(shared: &Ruled<T, S>, inner: &mut TableSeat<S, View>) -> u64
    requires table { (inner.old.table_id ≡ shared.now.table_id) × (shared.now.table_id.words ≡ 2) }
    requires calm { inner.old.me.0.starved ≡ false }
    ensures seat { (inner.new.table_id ≡ inner.old.table_id) × (inner.new.id ≡ inner.old.id) }
    ensures step { inner.new.me ≡ (peeking result inner.old.me.0, inner.old.me.1) }
{
    shared.load::<Peeks>(inner, LIST)
}

/// Takes the list's lock, if it is free: one step. It answers what it found.
#[inline]
pub fn grab<T, S: Content>(shared: &Ruled<T, S>, inner: &mut TableSeat<S, View>) -> u64
    requires table { (inner.old.table_id ≡ shared.now.table_id) × (shared.now.table_id.words ≡ 2) }
    ensures seat { (inner.new.table_id ≡ inner.old.table_id) × (inner.new.id ≡ inner.old.id) }
    ensures took { result % 2 ≡ 0 → IsHeld S.entries S.marked inner.new.me × IsSame inner.old.me.0 inner.new.me.0 × (rest inner.new.me.1 ≡ inner.old.me.1) }
    ensures not { result % 2 ≢ 0 → inner.new.me ≡ inner.old.me }
{
    shared.fetch_or::<Grabs>(inner, LIST, OUT)
}

/// The same, by somebody who may sleep for it.
#[inline]
pub fn grab_asleep<T, S: Content>(shared: &Ruled<T, S>, inner: &mut TableSeat<S, View>) -> u64
    requires table { (inner.old.table_id ≡ shared.now.table_id) × (shared.now.table_id.words ≡ 2) }
    ensures seat { (inner.new.table_id ≡ inner.old.table_id) × (inner.new.id ≡ inner.old.id) }
    ensures took { result % 2 ≡ 0 → IsHeld S.entries S.marked inner.new.me × IsSame inner.old.me.0 inner.new.me.0 × (rest inner.new.me.1 ≡ inner.old.me.1) }
    ensures not { result % 2 ≢ 0 → inner.new.me ≡ inner.old.me }
{
    shared.fetch_or::<Grabs>(inner, LIST, OUT_AND_ASLEEP)
}

/// Gives the list back, in which this entry, its own, stands last now: one step. It answers what it found.
#[inline]
pub fn give_joined<T, S: Content, N: Numbered>(
    shared: &Ruled<T, S>,
    inner: &mut TableSeat<S, View>,
    new: u64,
    entry: &N,
) -> u64
    requires table { (inner.old.table_id ≡ shared.now.table_id) × (shared.now.table_id.words ≡ 2) × (shared.now.table_id.slots ≡ 2) }
    requires list { CanJoin S.entries S.marked inner.old.me new (N.number entry.now) }
    requires stands { (inner.old.me.0.listed ≡ false) × (inner.old.me.0.starved ≡ true → inner.old.me.0.owes ≡ true) }
    ensures seat { (inner.new.table_id ≡ inner.old.table_id) × (inner.new.id ≡ inner.old.id) }
    ensures step { inner.new.me ≡ (joined_of (N.number entry.now) inner.old.me.0, rest inner.old.me.1) }
{
    let _ = entry;
    shared.swap::<Joined>(inner, LIST, new)
}

/// The same, which its entry has left, notified: the seat owes.
#[inline]
pub fn give_told<T, S: Content>(
    shared: &Ruled<T, S>,
    inner: &mut TableSeat<S, View>,
    new: u64,
) -> u64
    requires table { (inner.old.table_id ≡ shared.now.table_id) × (shared.now.table_id.words ≡ 2) × (shared.now.table_id.slots ≡ 2) }
    requires list { CanHear S.entries S.marked inner.old.me new }
    requires stands { (inner.old.me.0.listed ≡ true) × (inner.old.me.0.fresh ≡ false) }
    ensures seat { (inner.new.table_id ≡ inner.old.table_id) × (inner.new.id ≡ inner.old.id) }
    ensures step { inner.new.me ≡ (told_of inner.old.me.0, rest inner.old.me.1) }
{
    shared.swap::<Told>(inner, LIST, new)
}

/// The same, and the seat has notified: it owes nothing any more.
#[inline]
pub fn give_paid<T, S: Content>(
    shared: &Ruled<T, S>,
    inner: &mut TableSeat<S, View>,
    new: u64,
) -> u64
    requires table { (inner.old.table_id ≡ shared.now.table_id) × (shared.now.table_id.words ≡ 2) × (shared.now.table_id.slots ≡ 2) }
    requires list { CanPay S.entries S.marked inner.old.me new }
    requires stands { inner.old.me.0.starved ≡ true → (inner.old.me.0.listed ≡ true) × (inner.old.me.0.fresh ≡ false) }
    ensures seat { (inner.new.table_id ≡ inner.old.table_id) × (inner.new.id ≡ inner.old.id) }
    ensures step { inner.new.me ≡ (paid_of inner.old.me.0, rest inner.old.me.1) }
{
    shared.swap::<Paid>(inner, LIST, new)
}

/// The same, which its entry has left: what it was told has gone on.
#[inline]
pub fn give_gone<T, S: Content>(
    shared: &Ruled<T, S>,
    inner: &mut TableSeat<S, View>,
    new: u64,
) -> u64
    requires table { (inner.old.table_id ≡ shared.now.table_id) × (shared.now.table_id.words ≡ 2) × (shared.now.table_id.slots ≡ 2) }
    requires list { CanLeave S.entries S.marked inner.old.me new }
    requires stands { (inner.old.me.0.listed ≡ true) × (inner.old.me.0.fresh ≡ false) × (inner.old.me.0.starved ≡ false) }
    ensures seat { (inner.new.table_id ≡ inner.old.table_id) × (inner.new.id ≡ inner.old.id) }
    ensures step { inner.new.me ≡ (gone_of inner.old.me.0, rest inner.old.me.1) }
{
    shared.swap::<Gone>(inner, LIST, new)
}

/// The same, unchanged.
#[inline]
pub fn give_same<T, S: Content>(
    shared: &Ruled<T, S>,
    inner: &mut TableSeat<S, View>,
    new: u64,
) -> u64
    requires table { (inner.old.table_id ≡ shared.now.table_id) × (shared.now.table_id.words ≡ 2) × (shared.now.table_id.slots ≡ 2) }
    requires list { CanStay S.entries S.marked inner.old.me new }
    ensures seat { (inner.new.table_id ≡ inner.old.table_id) × (inner.new.id ≡ inner.old.id) }
    ensures step { inner.new.me ≡ (back inner.old.me.0, rest inner.old.me.1) }
{
    shared.swap::<Same>(inner, LIST, new)
}
