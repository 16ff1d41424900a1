//! How the lists are given back, by which of them has changed: one step each. However many calls the seat has begun, that stays.

ghost use Rattle.std.specs.Prelude.{◌≡◌, ℕ, false};
ghost use Rattle.atomic_table.specs.Table.{rest};
ghost use Rattle.words_base.specs.Lists.{Pays, Joins, Leaves, HandsOn};
ghost use Rattle.access_core.specs.Accesses.{IsIn, MayJoin, seated, with_gone, with_joined, with_paid, with_told};
ghost use Rattle.access_core.specs.Contents.{CanGive};

use crate::lists::{Lister, Listing, Side};
use lock_event::EntryId;
use lock_queue::Joining;
use words_access::steps::{
    give_joined_readers, give_joined_writer, give_left_readers, give_left_writer,
    give_paid_readers, give_paid_writer, give_told_reader, give_told_writer,
};

// This entry, the seat's own, stands last of the list.
#[inline]
pub(crate) fn give_joined(
    shared: &Listing,
    inner: &mut Lister,
    side: Side,
    word: u64,
    id: EntryId,
) -> u64
    requires table { (inner.old.table_id ≡ shared.now.table_id) × (shared.now.table_id.words ≡ 2) × (shared.now.table_id.slots ≡ 1) }
    requires lists { CanGive (Joins id.number) side inner.old.me word }
    requires away { (inner.old.me.0.in_readers ≡ false) × (inner.old.me.0.in_writer ≡ false) }
    requires marks { MayJoin side (seated inner.old.table_id inner.old.id inner.old.me.0 0) }
    ensures seat { (inner.new.table_id ≡ inner.old.table_id) × (inner.new.id ≡ inner.old.id) }
    ensures back { (inner.new.me.0.has_lists ≡ false) × (inner.new.me.1 ≡ rest inner.old.me.1) }
    ensures step { (n : ℕ) → seated inner.new.table_id inner.new.id inner.new.me.0 n ≡ with_joined side id.number (seated inner.old.table_id inner.old.id inner.old.me.0 n) }
{
    match side {
        Side::Readers => give_joined_readers(shared, inner, word, &Joining { id }),
        Side::Writer => give_joined_writer(shared, inner, word, &Joining { id }),
    }
}

// The seat's entry was notified, and has left the list: the seat owes.
#[inline]
pub(crate) fn give_told(shared: &Listing, inner: &mut Lister, side: Side, word: u64) -> u64
    requires table { (inner.old.table_id ≡ shared.now.table_id) × (shared.now.table_id.words ≡ 2) × (shared.now.table_id.slots ≡ 1) }
    requires lists { CanGive (Leaves inner.old.me.0.entry) side inner.old.me word }
    requires stands { IsIn side (seated inner.old.table_id inner.old.id inner.old.me.0 0) }
    requires looked { inner.old.me.0.fresh ≡ false }
    ensures seat { (inner.new.table_id ≡ inner.old.table_id) × (inner.new.id ≡ inner.old.id) }
    ensures back { (inner.new.me.0.has_lists ≡ false) × (inner.new.me.1 ≡ rest inner.old.me.1) }
    ensures step { (n : ℕ) → seated inner.new.table_id inner.new.id inner.new.me.0 n ≡ with_told side (seated inner.old.table_id inner.old.id inner.old.me.0 n) }
{
    match side {
        Side::Readers => give_told_reader(shared, inner, word),
        Side::Writer => give_told_writer(shared, inner, word),
    }
}

// The seat's entry has left the list: what it was told has gone on.
#[inline]
pub(crate) fn give_left(shared: &Listing, inner: &mut Lister, side: Side, word: u64) -> u64
    requires table { (inner.old.table_id ≡ shared.now.table_id) × (shared.now.table_id.words ≡ 2) × (shared.now.table_id.slots ≡ 1) }
    requires lists { CanGive (HandsOn inner.old.me.0.entry) side inner.old.me word }
    requires stands { IsIn side (seated inner.old.table_id inner.old.id inner.old.me.0 0) }
    ensures seat { (inner.new.table_id ≡ inner.old.table_id) × (inner.new.id ≡ inner.old.id) }
    ensures back { (inner.new.me.0.has_lists ≡ false) × (inner.new.me.1 ≡ rest inner.old.me.1) }
    ensures step { (n : ℕ) → seated inner.new.table_id inner.new.id inner.new.me.0 n ≡ with_gone side (seated inner.old.table_id inner.old.id inner.old.me.0 n) }
{
    match side {
        Side::Readers => give_left_readers(shared, inner, word),
        Side::Writer => give_left_writer(shared, inner, word),
    }
}

// One of the list is notified: the seat owes none there any more.
#[inline]
pub(crate) fn give_paid(shared: &Listing, inner: &mut Lister, side: Side, word: u64) -> u64
    requires table { (inner.old.table_id ≡ shared.now.table_id) × (shared.now.table_id.words ≡ 2) × (shared.now.table_id.slots ≡ 1) }
    requires lists { CanGive Pays side inner.old.me word }
    ensures seat { (inner.new.table_id ≡ inner.old.table_id) × (inner.new.id ≡ inner.old.id) }
    ensures back { (inner.new.me.0.has_lists ≡ false) × (inner.new.me.1 ≡ rest inner.old.me.1) }
    ensures step { (n : ℕ) → seated inner.new.table_id inner.new.id inner.new.me.0 n ≡ with_paid side (seated inner.old.table_id inner.old.id inner.old.me.0 n) }
{
    match side {
        Side::Readers => give_paid_readers(shared, inner, word),
        Side::Writer => give_paid_writer(shared, inner, word),
    }
}
