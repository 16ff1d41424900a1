//! Each action on the list.

ghost use Rattle.std.specs.Prelude.{◌≡◌, true, false, IfNone, IfOk, IfSome, OnErr};
ghost use Rattle.futures.specs.Task.{Keeps};
ghost use Rattle.lock_program.specs.declared.mutex.Action.TheVariants as act;
ghost use Rattle.lock_program.specs.declared.mutex.Found.TheVariants as finds;
ghost use Rattle.mutex_core.specs.Locks.{IsAt, IsOf, goes, with_joined, with_told, with_paid, with_gone};
ghost use Rattle.lock_queue.specs.Receipts.{IsReceipt};

use crate::cell::MOST;
use crate::seat::Seat;
use crate::words::Words;
use futures::task::Context;
use lock_event::{EntryId, Memory};
use lock_program::mutex::{Found, Place};
use lock_queue::{Heard, Joining, Whose};
use std::sync::Wait;
use words_mutex::steps::{
    LIST, LIST_SLOT, NOTIFICATION, give_gone, give_joined, give_paid, give_same, give_told,
};
use words_mutex::{take_out, wake_next};

/// An entry that has joined with a waker of its task, and the word that its list had then.
#[derive(Drop)]
pub struct Joined {
    pub(crate) id: EntryId,
    pub(crate) whose: Whose,
    word: u64,
}

impl<T> Words<T> {
    /// Joins the list at the back, with no waker. The seat has not looked since then. [`Memory`] comes only if memory was refused, and
    /// nothing has changed then.
    pub fn join<R: Wait>(&self, rt: &R, seat: &mut Seat<T>, at: Place) -> Result<EntryId, Memory>
        requires of { IsOf self.now seat.old }
        requires course { IsAt at act.Join seat.old }
        requires away { (seat.old.listed ≡ false) × (seat.old.starved ≡ true → seat.old.owes ≡ true) }
        ensures joined { IfOk result (λ id. seat.new ≡ goes at finds.Done (with_joined id.number seat.old)) }
        ensures refused { OnErr result (seat.new ≡ goes at finds.NoMemory seat.old) }
    {
        let shared = &self.table.shared;
        let found = take_out(shared, rt, &mut seat.inner);
        let list = seat.inner.slot_mut(shared, LIST_SLOT);
        let joined = list.queue.join(self.alloc);
        let word = list.says(found, false);
        match joined {
            Ok(id) => {
                let found = give_joined(shared, &mut seat.inner, word, &Joining { id });
                wake_next(shared, found);
                seat.go(at, Found::Done);
                Ok(id)
            }
            Err(memory) => {
                let found = give_same(shared, &mut seat.inner, word);
                wake_next(shared, found);
                seat.go(at, Found::NoMemory);
                Err(memory)
            }
        }
    }

    /// The same, with a waker of the task of `cx`, which registers with the lock's source.
    pub fn join_waking<R: Wait>(
        &self,
        rt: &R,
        seat: &mut Seat<T>,
        cx: &mut Context<'_>,
        at: Place,
    ) -> Result<Joined, Memory>
        requires of { IsOf self.now seat.old }
        requires course { IsAt at act.Join seat.old }
        requires away { (seat.old.listed ≡ false) × (seat.old.starved ≡ true → seat.old.owes ≡ true) }
        ensures joined { IfOk result (λ joined. seat.new ≡ goes at finds.Done (with_joined joined.id.number seat.old)) }
        ensures refused { OnErr result (seat.new ≡ goes at finds.NoMemory seat.old) }
        ensures keeps { IfOk result (λ joined. IsReceipt self.now.source cx.new joined.whose) }
        ensures kept { Keeps cx.old cx.new }
    {
        let shared = &self.table.shared;
        let found = take_out(shared, rt, &mut seat.inner);
        let list = seat.inner.slot_mut(shared, LIST_SLOT);
        let joined = list.queue.join_waking(self.alloc, &self.source, cx);
        let word = list.says(found, false);
        match joined {
            Ok((id, whose)) => {
                let found = give_joined(shared, &mut seat.inner, word, &Joining { id });
                wake_next(shared, found);
                seat.go(at, Found::Done);
                Ok(Joined { id, whose, word })
            }
            Err(memory) => {
                let found = give_same(shared, &mut seat.inner, word);
                wake_next(shared, found);
                seat.go(at, Found::NoMemory);
                Err(memory)
            }
        }
    }

    /// Notifies the first who waits, unless one is notified, and calls its waker. The seat owes nothing any more.
    #[inline(never)]
    pub fn notify<R: Wait>(&self, rt: &R, seat: &mut Seat<T>, at: Place)
        requires of { IsOf self.now seat.old }
        requires course { IsAt at act.Notify seat.old }
        requires stands { seat.old.starved ≡ true → (seat.old.listed ≡ true) × (seat.old.fresh ≡ false) }
        ensures { seat.new ≡ goes at finds.Done (with_paid seat.old) }
    {
        let shared = &self.table.shared;
        let found = take_out(shared, rt, &mut seat.inner);
        let list = seat.inner.slot_mut(shared, LIST_SLOT);
        let due = list.queue.notify();
        let word = list.says(found, true);
        let found = give_paid(shared, &mut seat.inner, word);
        wake_next(shared, found);
        seat.go(at, Found::Done);
        drop(due.pay());
    }

    /// Takes the entry of this id out of the list without asking, which is the seat's. A notification that it had goes on to the next. The
    /// entry's own waker is dropped, by which the kit wakes its task once more.
    pub fn leave<R: Wait>(&self, rt: &R, seat: &mut Seat<T>, id: EntryId, at: Place)
        requires of { IsOf self.now seat.old }
        requires course { IsAt at act.Leave seat.old }
        requires stands { (seat.old.listed ≡ true) × (seat.old.fresh ≡ false) × (seat.old.starved ≡ false) }
        requires own { seat.old.entry ≡ id.number }
        ensures { seat.new ≡ goes at finds.Done (with_gone seat.old) }
    {
        let shared = &self.table.shared;
        let found = take_out(shared, rt, &mut seat.inner);
        let list = seat.inner.slot_mut(shared, LIST_SLOT);
        let (kept, due) = list.queue.leave(id);
        let word = list.says(found, list.queue.is_notified());
        let found = give_gone(shared, &mut seat.inner, word);
        wake_next(shared, found);
        seat.go(at, Found::Done);
        drop(kept);
        drop(due.pay());
    }

    /// Asks for the notification of the entry of this id, which is the seat's. One that waits keeps a waker of the task of `cx`, which is
    /// answered, and the task has registered with the lock's source. Notified, it has left the list, and the seat owes a look or a
    /// notification.
    pub fn ask<R: Wait>(
        &self,
        rt: &R,
        seat: &mut Seat<T>,
        id: EntryId,
        cx: &mut Context<'_>,
        at: Place,
    ) -> Option<Whose>
        requires of { IsOf self.now seat.old }
        requires course { IsAt at act.Ask seat.old }
        requires stands { (seat.old.listed ≡ true) × (seat.old.fresh ≡ false) }
        requires own { seat.old.entry ≡ id.number }
        ensures told { IfNone result ((seat.new ≡ goes at finds.Yes (with_told seat.old)) × (cx.new ≡ cx.old)) }
        ensures waits { IfSome result (λ whose. (seat.new ≡ goes at finds.No seat.old) × IsReceipt self.now.source cx.new whose) }
        ensures kept { Keeps cx.old cx.new }
    {
        let shared = &self.table.shared;
        let found = take_out(shared, rt, &mut seat.inner);
        let list = seat.inner.slot_mut(shared, LIST_SLOT);
        let heard = list.queue.ask(id, &self.source, cx);
        let word = list.says(found, false);
        match heard {
            Heard::Waits(whose) => {
                let found = give_same(shared, &mut seat.inner, word);
                wake_next(shared, found);
                seat.go(at, Found::No);
                Some(whose)
            }
            Heard::Told(waker) => {
                let found = give_told(shared, &mut seat.inner, word);
                wake_next(shared, found);
                seat.go(at, Found::Yes);
                drop(waker);
                None
            }
        }
    }

    /// Asks, of an entry that has joined with a waker: one load, where the list was not notified since. Else it asks as [`Words::ask`] does.
    pub fn still_waits<R: Wait>(
        &self,
        rt: &R,
        seat: &mut Seat<T>,
        joined: Joined,
        cx: &mut Context<'_>,
        at: Place,
    ) -> Option<Whose>
        requires of { IsOf self.now seat.old }
        requires course { IsAt at act.Ask seat.old }
        requires stands { (seat.old.listed ≡ true) × (seat.old.fresh ≡ false) }
        requires own { seat.old.entry ≡ joined.id.number }
        requires keeps { IsReceipt self.now.source cx.old joined.whose }
        ensures told { IfNone result ((seat.new ≡ goes at finds.Yes (with_told seat.old)) × (cx.new ≡ cx.old)) }
        ensures waits { IfSome result (λ whose. (seat.new ≡ goes at finds.No seat.old) × IsReceipt self.now.source cx.new whose) }
        ensures kept { Keeps cx.old cx.new }
    {
        let told = joined.word / NOTIFICATION;
        if told < MOST && self.table.shared.peek(LIST) / NOTIFICATION == told {
            seat.go(at, Found::No);
            return Some(joined.whose);
        }
        self.ask(rt, seat, joined.id, cx, at)
    }
}
