//! Joins with a waker, after which an ask is one load.

ghost use Rattle.std.specs.Prelude.{◌≡◌, true, false, IfNone, IfOk, IfSome, OnErr};
ghost use Rattle.futures.specs.Task.{Keeps};
ghost use Rattle.sync_program.specs.declared.once_cell.Action.TheVariants as act;
ghost use Rattle.sync_program.specs.declared.once_cell.Found.TheVariants as finds;
ghost use Rattle.cell_core.specs.Cells.{IsAt, IsOf, StandsIn, goes, with_joined, with_heard};
ghost use Rattle.lock_queue.specs.Receipts.{IsReceipt};

use crate::cell::RawCell;
use crate::giving_back::{give_heard, give_joined};
use crate::lists::MOST;
use crate::seat::Seat;
use futures::task::Context;
use lock_event::{EntryId, Memory};
use lock_queue::Whose;
use std::sync::Wait;
use sync_program::once_cell::{Found, ListName, Place};
use words_cell::steps::{LIST, LIST_SLOT, NOTIFICATION, give_same};
use words_cell::{take_out, wake_next};

/// An entry that has joined with a waker of its task, and the word that its lists had then.
#[derive(Drop)]
pub struct Joined {
    /// The entry.
    pub id: EntryId,
    /// Whose waker it keeps.
    pub whose: Whose,
    word: u64,
}

impl<T> RawCell<T> {
    /// Adds an entry at the back of this list, with a waker of the task of `cx`, which registers with the cell's source. The seat has not looked yet
    /// then. [`Memory`] comes only if memory was refused, and nothing has changed then.
    pub fn join<R: Wait>(
        &self,
        rt: &R,
        seat: &mut Seat,
        list: ListName,
        cx: &mut Context<'_>,
        at: Place<()>,
    ) -> Result<Joined, Memory>
        requires of { IsOf self.now seat.old }
        requires course { IsAt at (act.Join list) seat.old }
        requires away { (seat.old.in_active ≡ false) × (seat.old.in_passive ≡ false) }
        ensures joined { IfOk result (λ joined. seat.new ≡ goes at finds.Done (with_joined list joined.id.number seat.old)) }
        ensures refused { OnErr result (seat.new ≡ goes at finds.NoMemory seat.old) }
        ensures keeps { IfOk result (λ joined. IsReceipt self.now.source cx.new joined.whose) }
        ensures kept { Keeps cx.old cx.new }
    {
        let shared = &self.words.table.shared;
        let found = take_out(shared, rt, &mut seat.inner);
        let lists = seat.inner.slot_mut(shared, LIST_SLOT);
        let joined = lists.join(list, self.alloc, &self.source, cx);
        let word = lists.says(found, false);
        match joined {
            Ok((id, whose)) => {
                let found = give_joined(shared, &mut seat.inner, list, id, word);
                wake_next(shared, found);
                seat.go(at, Found::Done);
                Ok(Joined { id, whose, word })
            }
            Err(memory) => {
                let found = give_same(shared, &mut seat.inner, word);
                wake_next(shared, found);
                seat.go(at, Found::NoMemory);
                Err(memory)
            }
        }
    }

    /// Asks, of an entry of this list that has joined with a waker: one load, where nobody was notified since. Else it asks as
    /// [`RawCell::ask`] does.
    pub fn still_waits<R: Wait>(
        &self,
        rt: &R,
        seat: &mut Seat,
        list: ListName,
        joined: Joined,
        cx: &mut Context<'_>,
        at: Place<()>,
    ) -> Option<Whose>
        requires of { IsOf self.now seat.old }
        requires course { IsAt at (act.Ask list) seat.old }
        requires stands { StandsIn list joined.id.number seat.old × (seat.old.fresh ≡ false) }
        requires keeps { IsReceipt self.now.source cx.old joined.whose }
        ensures told { IfNone result ((seat.new ≡ goes at finds.Yes (with_heard list seat.old)) × (cx.new ≡ cx.old)) }
        ensures waits { IfSome result (λ whose. (seat.new ≡ goes at finds.No seat.old) × IsReceipt self.now.source cx.new whose) }
        ensures kept { Keeps cx.old cx.new }
    {
        let told = joined.word / NOTIFICATION;
        if told < MOST && self.words.table.shared.peek(LIST) / NOTIFICATION == told {
            seat.go(at, Found::No);
            return Some(joined.whose);
        }
        self.ask(rt, seat, list, joined.id, cx, at)
    }
}
