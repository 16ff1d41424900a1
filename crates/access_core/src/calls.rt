//! The calls on the lists.

ghost use Rattle.std.specs.Prelude.{◌≡◌, true, false, IfNone, IfOk, IfSome, OnErr};
ghost use Rattle.futures.specs.Task.{Keeps};
ghost use Rattle.lock_queue.specs.Receipts.{IsReceipt};
ghost use Rattle.access_core.specs.Accesses.{IsOf, MayJoin, StandsIn, with_gone, with_joined, with_paid, with_told};

use crate::access::Access;
use crate::giving_back::{give_joined, give_left, give_paid, give_told};
use crate::lists::{MOST, Side};
use crate::seat::Seat;
use futures::task::Context;
use lock_event::{EntryId, Memory};
use lock_queue::{Heard, Whose};
use std::sync::Wait;
use words_access::steps::{LIST, LIST_SLOT, NOTIFICATION, give_same};
use words_access::{take_out, wake_next};

/// An entry that has joined with a waker of its task, and the word that its list had then.
#[derive(Drop)]
pub struct Joined {
    /// The entry.
    pub id: EntryId,
    /// Whose waker it keeps.
    pub whose: Whose,
    word: u64,
}

impl Access {
    /// Adds an entry at the back of a list, with no waker: of the writer's, by who has set the writer's bit. The seat has not looked yet then.
    /// [`Memory`] comes only if memory was refused, and nothing has changed then.
    pub fn join<R: Wait>(&self, rt: &R, side: Side, seat: &mut Seat) -> Result<EntryId, Memory>
        requires of { IsOf self.now seat.old }
        requires away { (seat.old.in_readers ≡ false) × (seat.old.in_writer ≡ false) }
        requires marks { MayJoin side seat.old }
        ensures joined { IfOk result (λ id. seat.new ≡ with_joined side id.number seat.old) }
        ensures refused { OnErr result (seat.new ≡ seat.old) }
    {
        let shared = &self.table.shared;
        let found = take_out(shared, rt, &mut seat.inner);
        let lists = seat.inner.slot_mut(shared, LIST_SLOT);
        let joined = lists.join(side, self.alloc);
        let word = lists.says(found, false);
        match joined {
            Ok(id) => {
                let found = give_joined(shared, &mut seat.inner, side, word, id);
                wake_next(shared, found);
                Ok(id)
            }
            Err(memory) => {
                let found = give_same(shared, &mut seat.inner, word);
                wake_next(shared, found);
                Err(memory)
            }
        }
    }

    /// The same, with a waker of the task of `cx`.
    pub fn join_waking<R: Wait>(
        &self,
        rt: &R,
        side: Side,
        seat: &mut Seat,
        cx: &mut Context<'_>,
    ) -> Result<Joined, Memory>
        requires of { IsOf self.now seat.old }
        requires away { (seat.old.in_readers ≡ false) × (seat.old.in_writer ≡ false) }
        requires marks { MayJoin side seat.old }
        ensures joined { IfOk result (λ joined. seat.new ≡ with_joined side joined.id.number seat.old) }
        ensures refused { OnErr result (seat.new ≡ seat.old) }
        ensures keeps { IfOk result (λ joined. IsReceipt self.now.source cx.new joined.whose) }
        ensures kept { Keeps cx.old cx.new }
    {
        let shared = &self.table.shared;
        let found = take_out(shared, rt, &mut seat.inner);
        let lists = seat.inner.slot_mut(shared, LIST_SLOT);
        let joined = lists.join_waking(side, self.alloc, &self.source, cx);
        let word = lists.says(found, false);
        match joined {
            Ok((id, whose)) => {
                let found = give_joined(shared, &mut seat.inner, side, word, id);
                wake_next(shared, found);
                Ok(Joined { id, whose, word })
            }
            Err(memory) => {
                let found = give_same(shared, &mut seat.inner, word);
                wake_next(shared, found);
                Err(memory)
            }
        }
    }

    /// Asks for the notification of an entry of a list. One that waits keeps a waker of the task of `cx`, which is answered.
    /// Notified, it has left the list, and the seat owes.
    pub fn ask<R: Wait>(
        &self,
        rt: &R,
        side: Side,
        seat: &mut Seat,
        id: EntryId,
        cx: &mut Context<'_>,
    ) -> Option<Whose>
        requires of { IsOf self.now seat.old }
        requires stands { StandsIn side id.number seat.old }
        requires looked { seat.old.fresh ≡ false }
        ensures told { IfNone result ((seat.new ≡ with_told side seat.old) × (cx.new ≡ cx.old)) }
        ensures waits { IfSome result (λ whose. (seat.new ≡ seat.old) × IsReceipt self.now.source cx.new whose) }
        ensures kept { Keeps cx.old cx.new }
    {
        let shared = &self.table.shared;
        let found = take_out(shared, rt, &mut seat.inner);
        let lists = seat.inner.slot_mut(shared, LIST_SLOT);
        let heard = lists.ask(side, id, &self.source, cx);
        let word = lists.says(found, false);
        match heard {
            Heard::Waits(whose) => {
                let found = give_same(shared, &mut seat.inner, word);
                wake_next(shared, found);
                Some(whose)
            }
            Heard::Told(waker) => {
                let found = give_told(shared, &mut seat.inner, side, word);
                wake_next(shared, found);
                drop(waker);
                None
            }
        }
    }

    /// Asks, of an entry that has joined a list with a waker: one load, where nobody was notified since. Else it asks as [`Access::ask`] does.
    pub fn still_waits<R: Wait>(
        &self,
        rt: &R,
        side: Side,
        seat: &mut Seat,
        joined: Joined,
        cx: &mut Context<'_>,
    ) -> Option<Whose>
        requires of { IsOf self.now seat.old }
        requires stands { StandsIn side joined.id.number seat.old }
        requires looked { seat.old.fresh ≡ false }
        requires keeps { IsReceipt self.now.source cx.old joined.whose }
        ensures told { IfNone result ((seat.new ≡ with_told side seat.old) × (cx.new ≡ cx.old)) }
        ensures waits { IfSome result (λ whose. (seat.new ≡ seat.old) × IsReceipt self.now.source cx.new whose) }
        ensures kept { Keeps cx.old cx.new }
    {
        let told = joined.word / NOTIFICATION;
        if told < MOST && self.table.shared.peek(LIST) / NOTIFICATION == told {
            return Some(joined.whose);
        }
        self.ask(rt, side, seat, joined.id, cx)
    }

    /// An entry leaves a list without asking: a notification that it had goes on to the next.
    pub fn leave<R: Wait>(&self, rt: &R, side: Side, seat: &mut Seat, id: EntryId)
        requires of { IsOf self.now seat.old }
        requires stands { StandsIn side id.number seat.old }
        ensures { seat.new ≡ with_gone side seat.old }
    {
        let shared = &self.table.shared;
        let found = take_out(shared, rt, &mut seat.inner);
        let lists = seat.inner.slot_mut(shared, LIST_SLOT);
        let (kept, due) = lists.leave(side, id);
        let word = lists.says(found, true);
        let found = give_left(shared, &mut seat.inner, side, word);
        wake_next(shared, found);
        drop(kept);
        drop(due.pay());
    }

    /// Notifies the first that waits in a list, unless one is notified. The seat owes none there any more.
    #[inline(never)]
    pub fn notify<R: Wait>(&self, rt: &R, side: Side, seat: &mut Seat)
        requires of { IsOf self.now seat.old }
        ensures { seat.new ≡ with_paid side seat.old }
    {
        let shared = &self.table.shared;
        let found = take_out(shared, rt, &mut seat.inner);
        let lists = seat.inner.slot_mut(shared, LIST_SLOT);
        let due = lists.notify(side);
        let word = lists.says(found, true);
        let found = give_paid(shared, &mut seat.inner, side, word);
        wake_next(shared, found);
        drop(due.pay());
    }
}
