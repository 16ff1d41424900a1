//! How the lists are given back, by the name of the list that was changed: one step, which answers what it found.

ghost use Rattle.std.specs.Prelude.{◌≡◌, false};
ghost use Rattle.atomic_table.specs.Table.{rest};
ghost use Rattle.cell_core.specs.ByName.{HasEntryIn, CanJoin, CanHear, CanPay, CanPayAll, joined_of, heard_of, paid_of, all_paid_of};

use crate::lists::{Lister, Listing};
use lock_event::EntryId;
use lock_queue::Joining;
use sync_program::once_cell::ListName;
use words_cell::steps::{
    give_gone, give_joined_active, give_joined_passive, give_paid, give_paid_active,
    give_paid_passive, give_same, give_told,
};

// This entry, the seat's own, stands last of the list.
#[inline]
pub(crate) fn give_joined(
    shared: &Listing,
    inner: &mut Lister,
    list: ListName,
    id: EntryId,
    word: u64,
) -> u64
    requires table { (inner.old.table_id ≡ shared.now.table_id) × (shared.now.table_id.words ≡ 2) × (shared.now.table_id.slots ≡ 1) }
    requires lists { CanJoin list inner.old.me word id.number }
    requires away { (inner.old.me.0.in_active ≡ false) × (inner.old.me.0.in_passive ≡ false) }
    ensures seat { (inner.new.table_id ≡ inner.old.table_id) × (inner.new.id ≡ inner.old.id) }
    ensures step { inner.new.me ≡ (joined_of list id.number inner.old.me.0, rest inner.old.me.1) }
{
    match list {
        ListName::Active => give_joined_active(shared, inner, word, &Joining { id }),
        ListName::Passive => give_joined_passive(shared, inner, word, &Joining { id }),
    }
}

// The seat's entry was notified, and has left the list: of those that would make the value, the seat owes.
#[inline]
pub(crate) fn give_heard(
    shared: &Listing,
    inner: &mut Lister,
    list: ListName,
    id: EntryId,
    word: u64,
) -> u64
    requires table { (inner.old.table_id ≡ shared.now.table_id) × (shared.now.table_id.words ≡ 2) × (shared.now.table_id.slots ≡ 1) }
    requires lists { CanHear list inner.old.me word }
    requires stands { HasEntryIn list id.number inner.old.me.0 × (inner.old.me.0.fresh ≡ false) }
    ensures seat { (inner.new.table_id ≡ inner.old.table_id) × (inner.new.id ≡ inner.old.id) }
    ensures step { inner.new.me ≡ (heard_of list inner.old.me.0, rest inner.old.me.1) }
{
    let _ = id;
    match list {
        ListName::Active => give_told(shared, inner, word),
        ListName::Passive => give_gone(shared, inner, word),
    }
}

// One in the list is notified: of those that would make the value, the seat owes no such notification any more.
#[inline]
pub(crate) fn give_notified(shared: &Listing, inner: &mut Lister, list: ListName, word: u64) -> u64
    requires table { (inner.old.table_id ≡ shared.now.table_id) × (shared.now.table_id.words ≡ 2) × (shared.now.table_id.slots ≡ 1) }
    requires lists { CanPay list inner.old.me word }
    ensures seat { (inner.new.table_id ≡ inner.old.table_id) × (inner.new.id ≡ inner.old.id) }
    ensures step { inner.new.me ≡ (paid_of list inner.old.me.0, rest inner.old.me.1) }
{
    match list {
        ListName::Active => give_paid(shared, inner, word),
        ListName::Passive => give_same(shared, inner, word),
    }
}

// All in the list are: the seat owes them nothing any more.
#[inline]
pub(crate) fn give_all_notified(
    shared: &Listing,
    inner: &mut Lister,
    list: ListName,
    word: u64,
) -> u64
    requires table { (inner.old.table_id ≡ shared.now.table_id) × (shared.now.table_id.words ≡ 2) × (shared.now.table_id.slots ≡ 1) }
    requires lists { CanPayAll list inner.old.me word }
    ensures seat { (inner.new.table_id ≡ inner.old.table_id) × (inner.new.id ≡ inner.old.id) }
    ensures step { inner.new.me ≡ (all_paid_of list inner.old.me.0, rest inner.old.me.1) }
{
    match list {
        ListName::Active => give_paid_active(shared, inner, word),
        ListName::Passive => give_paid_passive(shared, inner, word),
    }
}
