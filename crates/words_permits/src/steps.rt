//! The single steps on the table.

ghost use Rattle.std.specs.Prelude.{◌≡◌, ◌≢◌, ◌+◌, ◌-◌, ◌<◌, ◌≤◌, ◌%◌, true, false};
ghost use Rattle.atomic_table.specs.Table.{rest};
ghost use Rattle.words_permits.specs.Seats.{looking, having_taken, having_given, having_given_new, having_lowered, having_raised, having_found_limit, joined_of, told_of, paid_of, gone_of, back, peeking};
ghost use Rattle.words_permits.specs.Steps.{IsHeld, IsSame, CanJoin, CanHear, CanPay, CanLeave, CanStay};
ghost use Rattle.words_permits.specs.Tries.{OnRaising};
ghost use Rattle.words_permits.specs.Waiters.{Waiter};

use crate::found::Raising;
use crate::plays::{
    GivesNewStep, GivesStep, Gone, Grabs, Joined, LowersStep, Paid, Peeks, RaisesStep, Same, Sees,
    SeesLimit, TakesStep, Told,
};
use crate::rule::{Content, PermitRule};
use crate::view::View;
use atomic_table::{Seat as TableSeat, Shared};

/// The tables of semaphores with their lists.
pub type Ruled<S> = Shared<S, View, u64, PermitRule>;

/// Where the number of available permits stands.
pub const AVAILABLE: usize = 0;

/// Where the list's word stands.
pub const LIST: usize = 1;

/// Where the limit stands.
pub const LIMIT: usize = 2;

/// Where the list lies.
pub const LIST_SLOT: usize = 0;

/// The bit of the list's word that says that the list is out.
pub const OUT: u64 = 1;

/// That bit, and the one that says that somebody may sleep for the list.
pub const OUT_AND_ASLEEP: u64 = 3;

/// The bit of the list's word that says that somebody may sleep for the list.
pub const ASLEEP: u64 = 2;

/// The bit of the list's word that says that the list may have entries.
pub const ENTRIES: u64 = 4;

/// By how much each notification raises the list's word.
pub const NOTIFICATION: u64 = 8;

/// A look at the available permits: one load.
#[inline]
pub fn look<S: Content>(shared: &Ruled<S>, inner: &mut TableSeat<S, View>) -> u64
    requires table { (inner.old.table_id ≡ shared.now.table_id) × (shared.now.table_id.words ≡ 3) }
    ensures seat { (inner.new.table_id ≡ inner.old.table_id) × (inner.new.id ≡ inner.old.id) }
    ensures step { inner.new.me ≡ (looking result inner.old.me.0, inner.old.me.1) }
{
    shared.load::<Sees>(inner, AVAILABLE)
}

/// Takes the permits by which `left` is less than `found`, if `found` are available: one exchange. It answers how many it found.
#[inline]
pub fn take<S: Content>(
    shared: &Ruled<S>,
    inner: &mut TableSeat<S, View>,
    found: u64,
    left: u64,
) -> u64
    requires table { (inner.old.table_id ≡ shared.now.table_id) × (shared.now.table_id.words ≡ 3) }
    requires fewer { left ≤ found }
    ensures seat { (inner.new.table_id ≡ inner.old.table_id) × (inner.new.id ≡ inner.old.id) }
    ensures took { result ≡ found → inner.new.me ≡ (having_taken (found - left) left inner.old.me.0, inner.old.me.1) }
    ensures not { result ≢ found → inner.new.me ≡ inner.old.me }
{
    shared.compare_exchange::<TakesStep>(inner, AVAILABLE, found, left)
}

/// Gives this many of the seat's permits back: one step. It answers how many are then available.
#[inline]
pub fn give<S: Content>(shared: &Ruled<S>, inner: &mut TableSeat<S, View>, permits: u64) -> u64
    requires table { (inner.old.table_id ≡ shared.now.table_id) × (shared.now.table_id.words ≡ 3) }
    requires has { permits ≤ inner.old.me.0.permits }
    ensures seat { (inner.new.table_id ≡ inner.old.table_id) × (inner.new.id ≡ inner.old.id) }
    ensures step { inner.new.me ≡ (having_given permits result inner.old.me.0, inner.old.me.1) }
{
    let found = shared.fetch_add::<GivesStep>(inner, AVAILABLE, permits);
    found + permits
}

/// Gives this many new permits that the seat has under way: one step. It answers how many are then available.
#[inline]
pub fn give_new<S: Content>(shared: &Ruled<S>, inner: &mut TableSeat<S, View>, permits: u64) -> u64
    requires table { (inner.old.table_id ≡ shared.now.table_id) × (shared.now.table_id.words ≡ 3) }
    requires has { permits ≤ inner.old.me.0.under_way }
    ensures seat { (inner.new.table_id ≡ inner.old.table_id) × (inner.new.id ≡ inner.old.id) }
    ensures step { inner.new.me ≡ (having_given_new permits result inner.old.me.0, inner.old.me.1) }
{
    let found = shared.fetch_add::<GivesNewStep>(inner, AVAILABLE, permits);
    found + permits
}

/// Raises the limit by this many permits if it stays a number of 64 bits: one try, after a look. The seat has the new permits under way.
/// It is refused only where its look found that the limit would pass its greatest value.
pub fn raise<S: Content>(shared: &Ruled<S>, inner: &mut TableSeat<S, View>, permits: u64) -> Raising
    requires table { (inner.old.table_id ≡ shared.now.table_id) × (shared.now.table_id.words ≡ 3) }
    ensures seat { (inner.new.table_id ≡ inner.old.table_id) × (inner.new.id ≡ inner.old.id) }
    ensures step { OnRaising result (inner.new.me ≡ (having_raised permits (having_found_limit inner.new.me.0.limit inner.old.me.0), inner.old.me.1)) ((18446744073709551615 < inner.new.me.0.limit + permits) × (inner.new.me ≡ (having_found_limit inner.new.me.0.limit inner.old.me.0, inner.old.me.1))) (inner.new.me ≡ (having_found_limit inner.new.me.0.limit inner.old.me.0, inner.old.me.1)) }
{
    let found = shared.load::<SeesLimit>(inner, LIMIT);
    if permits > u64::MAX - found {
        return Raising::PastLimit;
    }
    let more = found + permits;
    if shared.compare_exchange::<RaisesStep>(inner, LIMIT, found, more) == found {
        Raising::Raised
    } else {
        Raising::Changed
    }
}

/// Lowers the limit by this many of the seat's permits, which never come back: one step.
#[inline]
pub fn lower<S: Content>(shared: &Ruled<S>, inner: &mut TableSeat<S, View>, permits: u64)
    requires table { (inner.old.table_id ≡ shared.now.table_id) × (shared.now.table_id.words ≡ 3) }
    requires has { permits ≤ inner.old.me.0.permits }
    ensures seat { (inner.new.table_id ≡ inner.old.table_id) × (inner.new.id ≡ inner.old.id) }
    ensures step { inner.new.me ≡ (having_lowered permits inner.old.me.0, inner.old.me.1) }
{
    shared.fetch_sub::<LowersStep>(inner, LIMIT, permits);
}

/// A look at the list's word: one load.
#[inline]
pub fn peek<S: Content>(shared: &Ruled<S>, inner: &mut TableSeat<S, View>) -> u64
    requires table { (inner.old.table_id ≡ shared.now.table_id) × (shared.now.table_id.words ≡ 3) }
    ensures seat { (inner.new.table_id ≡ inner.old.table_id) × (inner.new.id ≡ inner.old.id) }
    ensures step { inner.new.me ≡ (peeking result inner.old.me.0, inner.old.me.1) }
{
    shared.load::<Peeks>(inner, LIST)
}

/// Takes the list's lock, if it is free: one step. It answers what it found.
#[inline]
pub fn grab<S: Content>(shared: &Ruled<S>, inner: &mut TableSeat<S, View>) -> u64
    requires table { (inner.old.table_id ≡ shared.now.table_id) × (shared.now.table_id.words ≡ 3) }
    ensures seat { (inner.new.table_id ≡ inner.old.table_id) × (inner.new.id ≡ inner.old.id) }
    ensures took { result % 2 ≡ 0 → IsHeld S.waiters S.marked inner.new.me × IsSame inner.old.me.0 inner.new.me.0 × (rest inner.new.me.1 ≡ inner.old.me.1) }
    ensures not { result % 2 ≢ 0 → inner.new.me ≡ inner.old.me }
{
    shared.fetch_or::<Grabs>(inner, LIST, OUT)
}

/// The same, by somebody who may sleep for it.
#[inline]
pub fn grab_asleep<S: Content>(shared: &Ruled<S>, inner: &mut TableSeat<S, View>) -> u64
    requires table { (inner.old.table_id ≡ shared.now.table_id) × (shared.now.table_id.words ≡ 3) }
    ensures seat { (inner.new.table_id ≡ inner.old.table_id) × (inner.new.id ≡ inner.old.id) }
    ensures took { result % 2 ≡ 0 → IsHeld S.waiters S.marked inner.new.me × IsSame inner.old.me.0 inner.new.me.0 × (rest inner.new.me.1 ≡ inner.old.me.1) }
    ensures not { result % 2 ≢ 0 → inner.new.me ≡ inner.old.me }
{
    shared.fetch_or::<Grabs>(inner, LIST, OUT_AND_ASLEEP)
}

/// Gives the list back, in which its entry stands now: one step. It answers what it found.
#[inline]
pub fn give_joined<S: Content>(shared: &Ruled<S>, inner: &mut TableSeat<S, View>, new: u64) -> u64
    requires table { (inner.old.table_id ≡ shared.now.table_id) × (shared.now.table_id.words ≡ 3) × (shared.now.table_id.slots ≡ 1) }
    requires list { (w : Waiter) × CanJoin S.waiters S.marked inner.old.me new w }
    requires away { inner.old.me.0.listed ≡ false }
    ensures seat { (inner.new.table_id ≡ inner.old.table_id) × (inner.new.id ≡ inner.old.id) }
    ensures step { (w : Waiter) → CanJoin S.waiters S.marked inner.old.me new w → inner.new.me ≡ (joined_of w inner.old.me.0, rest inner.old.me.1) }
{
    shared.swap::<Joined>(inner, LIST, new)
}

/// The same, which its entry has left, notified: the seat owes.
#[inline]
pub fn give_told<S: Content>(shared: &Ruled<S>, inner: &mut TableSeat<S, View>, new: u64) -> u64
    requires table { (inner.old.table_id ≡ shared.now.table_id) × (shared.now.table_id.words ≡ 3) × (shared.now.table_id.slots ≡ 1) }
    requires list { CanHear S.waiters S.marked inner.old.me new inner.old.me.0.entry }
    requires stands { inner.old.me.0.listed ≡ true }
    ensures seat { (inner.new.table_id ≡ inner.old.table_id) × (inner.new.id ≡ inner.old.id) }
    ensures step { inner.new.me ≡ (told_of inner.old.me.0, rest inner.old.me.1) }
{
    shared.swap::<Told>(inner, LIST, new)
}

/// The same, which its entry has left that was not notified.
#[inline]
pub fn give_gone<S: Content>(shared: &Ruled<S>, inner: &mut TableSeat<S, View>, new: u64) -> u64
    requires table { (inner.old.table_id ≡ shared.now.table_id) × (shared.now.table_id.words ≡ 3) × (shared.now.table_id.slots ≡ 1) }
    requires list { CanLeave S.waiters S.marked inner.old.me new inner.old.me.0.entry }
    requires stands { inner.old.me.0.listed ≡ true }
    ensures seat { (inner.new.table_id ≡ inner.old.table_id) × (inner.new.id ≡ inner.old.id) }
    ensures step { inner.new.me ≡ (gone_of inner.old.me.0, rest inner.old.me.1) }
{
    shared.swap::<Gone>(inner, LIST, new)
}

/// The same, and the seat has notified whoever waits for no more than it saw: it owes nothing any more.
#[inline]
pub fn give_paid<S: Content>(
    shared: &Ruled<S>,
    inner: &mut TableSeat<S, View>,
    available: u64,
    new: u64,
) -> u64
    requires table { (inner.old.table_id ≡ shared.now.table_id) × (shared.now.table_id.words ≡ 3) × (shared.now.table_id.slots ≡ 1) }
    requires list { CanPay S.waiters S.marked inner.old.me new available }
    requires seen { (available ≡ inner.old.me.0.found) × (inner.old.me.0.seen ≡ true) }
    ensures seat { (inner.new.table_id ≡ inner.old.table_id) × (inner.new.id ≡ inner.old.id) }
    ensures step { inner.new.me ≡ (paid_of inner.old.me.0, rest inner.old.me.1) }
{
    let _ = available;
    shared.swap::<Paid>(inner, LIST, new)
}

/// The same, unchanged.
#[inline]
pub fn give_same<S: Content>(shared: &Ruled<S>, inner: &mut TableSeat<S, View>, new: u64) -> u64
    requires table { (inner.old.table_id ≡ shared.now.table_id) × (shared.now.table_id.words ≡ 3) × (shared.now.table_id.slots ≡ 1) }
    requires list { CanStay S.waiters S.marked inner.old.me new }
    ensures seat { (inner.new.table_id ≡ inner.old.table_id) × (inner.new.id ≡ inner.old.id) }
    ensures step { inner.new.me ≡ (back inner.old.me.0, rest inner.old.me.1) }
{
    shared.swap::<Same>(inner, LIST, new)
}
