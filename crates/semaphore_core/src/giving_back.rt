//! How the list is given back.

ghost use Rattle.std.specs.Prelude.{◌≡◌, ⊤, false, IfNone, IfSome, MatchBool, true};
ghost use Rattle.atomic_table.specs.Table.{rest};
ghost use Rattle.lock_queue.specs.Asking.{ByHeard};
ghost use Rattle.lock_queue.specs.declared.heard.Heard.TheVariants as heard_as;
ghost use Rattle.semaphore_core.specs.Queues.{queue_waiters, queue_marked};
ghost use Rattle.words_permits.specs.Seats.{joined_of, told_of, gone_of, back};
ghost use Rattle.words_permits.specs.Steps.{CanJoin, CanHear, CanLeave, CanStay};
ghost use Rattle.words_permits.specs.Waiters.{waiter};

use crate::queue::Queue;
use atomic_table::Seat as TableSeat;
use lock_event::EntryId;
use lock_queue::{Heard, Whose};
use words_permits::steps::{Ruled, give_gone, give_joined, give_same, give_told};
use words_permits::{View, wake_next};

/// The tables of semaphores.
pub(crate) type Listing = Ruled<Queue>;

/// The seats of those tables.
pub(crate) type Lister = TableSeat<Queue, View>;

// Gives the list back, in which the entry of this id stands now for so many permits.
pub(crate) fn give_entered(
    shared: &Listing,
    inner: &mut Lister,
    id: EntryId,
    permits: u64,
    word: u64,
) -> u64
    requires table { (inner.old.table_id ≡ shared.now.table_id) × (shared.now.table_id.words ≡ 3) × (shared.now.table_id.slots ≡ 1) }
    requires list { CanJoin queue_waiters queue_marked inner.old.me word (waiter id.number permits) }
    requires away { inner.old.me.0.listed ≡ false }
    ensures seat { (inner.new.table_id ≡ inner.old.table_id) × (inner.new.id ≡ inner.old.id) }
    ensures step { inner.new.me ≡ (joined_of (waiter id.number permits) inner.old.me.0, rest inner.old.me.1) }
{
    let _ = (id, permits);
    give_joined(shared, inner, word)
}

// Gives the list back, which the entry of this id has left: it was notified or not.
pub(crate) fn give_left(
    shared: &Listing,
    inner: &mut Lister,
    id: EntryId,
    was_notified: bool,
    word: u64,
) -> u64
    requires table { (inner.old.table_id ≡ shared.now.table_id) × (shared.now.table_id.words ≡ 3) × (shared.now.table_id.slots ≡ 1) }
    requires list { MatchBool was_notified (CanHear queue_waiters queue_marked inner.old.me word id.number) (CanLeave queue_waiters queue_marked inner.old.me word id.number) }
    requires own { (inner.old.me.0.listed ≡ true) × (inner.old.me.0.entry ≡ id.number) }
    ensures seat { (inner.new.table_id ≡ inner.old.table_id) × (inner.new.id ≡ inner.old.id) }
    ensures step { MatchBool was_notified (inner.new.me ≡ (told_of inner.old.me.0, rest inner.old.me.1)) (inner.new.me ≡ (gone_of inner.old.me.0, rest inner.old.me.1)) }
{
    let _ = id;
    if was_notified {
        give_told(shared, inner, word)
    } else {
        give_gone(shared, inner, word)
    }
}

// Gives the list back that the entry of this id has asked, with this word: what it keeps, if it waits. What one kept that was told is dropped then.
pub(crate) fn give_asked(
    shared: &Listing,
    inner: &mut Lister,
    id: EntryId,
    heard: Heard,
    word: u64,
) -> Option<Whose>
    requires table { (inner.old.table_id ≡ shared.now.table_id) × (shared.now.table_id.words ≡ 3) × (shared.now.table_id.slots ≡ 1) }
    requires list { ByHeard heard (CanHear queue_waiters queue_marked inner.old.me word id.number) (λ _. CanStay queue_waiters queue_marked inner.old.me word) }
    requires own { (inner.old.me.0.listed ≡ true) × (inner.old.me.0.entry ≡ id.number) }
    ensures seat { (inner.new.table_id ≡ inner.old.table_id) × (inner.new.id ≡ inner.old.id) }
    ensures told { IfNone result ((inner.new.me ≡ (told_of inner.old.me.0, rest inner.old.me.1)) × ByHeard heard ⊤ (λ _. ⊥)) }
    ensures waits { IfSome result (λ kept. (inner.new.me ≡ (back inner.old.me.0, rest inner.old.me.1)) × (heard ≡ heard_as.Waits kept)) }
{
    let _ = id;
    match heard {
        Heard::Waits(kept) => {
            let found = give_same(shared, inner, word);
            wake_next(shared, found);
            Some(kept)
        }
        Heard::Told(waker) => {
            let found = give_told(shared, inner, word);
            wake_next(shared, found);
            drop(waker);
            None
        }
    }
}
