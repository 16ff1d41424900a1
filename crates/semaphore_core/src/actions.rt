//! Each action on the list.
//!
//! It names its place in the table of `sync_program`, and asks that the seat's call has come to it.

ghost use Rattle.std.specs.Prelude.{◌≡◌, ◌<◌, true, false, IfErr, IfNone, IfOk, IfSome, MatchBool, OnErr};
ghost use Rattle.futures.specs.Task.{Keeps};
ghost use Rattle.lock_queue.specs.Receipts.{IsReceipt};
ghost use Rattle.sync_program.specs.declared.permits.Action.TheVariants as act;
ghost use Rattle.sync_program.specs.declared.permits.Found.TheVariants as finds;
ghost use Rattle.semaphore_core.specs.Semaphores.{IsAt, IsOf, goes, with_joined, with_told, with_gone, with_paid};

use crate::giving_back::{give_asked, give_entered, give_left};
use crate::queue::MOST;
use crate::raw::RawSemaphore;
use crate::seat::Seat;
use futures::task::Context;
use lock_event::{EntryId, Memory};
use lock_queue::Whose;
use std::sync::Wait;
use sync_program::permits::{Found, Place};
use words_permits::steps::{LIST, LIST_SLOT, NOTIFICATION, give_paid, give_same};
use words_permits::{take_out, wake_next};

/// An entry that has joined with a waker of its task, and the word that its list had then.
#[derive(Drop)]
pub struct Joined {
    pub(crate) id: EntryId,
    pub(crate) whose: Whose,
    word: u64,
}

impl RawSemaphore {
    /// Joins the list at the back for this many permits, with no waker. The seat has not looked since then. [`Memory`] comes only if memory
    /// was refused, and nothing has changed then.
    pub fn join<R: Wait>(
        &self,
        rt: &R,
        seat: &mut Seat,
        permits: u64,
        at: Place,
    ) -> Result<EntryId, Memory>
        requires of { IsOf self.now seat.old }
        requires course { IsAt at (act.Join permits) seat.old }
        requires away { seat.old.listed ≡ false }
        requires some { 0 < permits }
        ensures joined { IfOk result (λ id. seat.new ≡ goes at finds.Done (with_joined id.number permits seat.old)) }
        ensures refused { OnErr result (seat.new ≡ goes at finds.NoMemory seat.old) }
    {
        let shared = &self.table.shared;
        let found = take_out(shared, rt, &mut seat.inner);
        let list = seat.inner.slot_mut(shared, LIST_SLOT);
        let joined = list.join(self.alloc, permits);
        let word = list.says(found, false);
        match joined {
            Ok(id) => {
                let found = give_entered(shared, &mut seat.inner, id, permits, word);
                wake_next(shared, found);
                seat.go(at, Found::Done);
                Ok(id)
            }
            Err(memory) => {
                let found = give_same(shared, &mut seat.inner, word);
                wake_next(shared, found);
                seat.go(at, Found::NoMemory);
                Err(memory)
            }
        }
    }

    /// The same, with a waker of the task of `cx`, which registers with the semaphore's source.
    pub fn join_waking<R: Wait>(
        &self,
        rt: &R,
        seat: &mut Seat,
        permits: u64,
        cx: &mut Context<'_>,
        at: Place,
    ) -> Result<Joined, Memory>
        requires of { IsOf self.now seat.old }
        requires course { IsAt at (act.Join permits) seat.old }
        requires away { seat.old.listed ≡ false }
        requires some { 0 < permits }
        ensures joined { IfOk result (λ joined. seat.new ≡ goes at finds.Done (with_joined joined.id.number permits seat.old)) }
        ensures refused { OnErr result (seat.new ≡ goes at finds.NoMemory seat.old) }
        ensures keeps { IfOk result (λ joined. IsReceipt self.now.source cx.new joined.whose) }
        ensures kept { Keeps cx.old cx.new }
    {
        let shared = &self.table.shared;
        let found = take_out(shared, rt, &mut seat.inner);
        let list = seat.inner.slot_mut(shared, LIST_SLOT);
        let joined = list.join_waking(self.alloc, permits, &self.source, cx);
        let word = list.says(found, false);
        match joined {
            Ok((id, whose)) => {
                let found = give_entered(shared, &mut seat.inner, id, permits, word);
                wake_next(shared, found);
                seat.go(at, Found::Done);
                Ok(Joined { id, whose, word })
            }
            Err(memory) => {
                let found = give_same(shared, &mut seat.inner, word);
                wake_next(shared, found);
                seat.go(at, Found::NoMemory);
                Err(memory)
            }
        }
    }

    /// Takes the entry of this id out of the list, which is the seat's: whether it was notified. If so, the seat owes a look and a
    /// notification. The entry's own waker is dropped, by which the kit wakes its task once more.
    pub fn remove<R: Wait>(&self, rt: &R, seat: &mut Seat, id: EntryId, at: Place) -> bool
        requires of { IsOf self.now seat.old }
        requires course { IsAt at act.Remove seat.old }
        requires own { (seat.old.listed ≡ true) × (seat.old.entry ≡ id.number) }
        ensures { MatchBool result (seat.new ≡ goes at finds.Yes (with_told seat.old)) (seat.new ≡ goes at finds.No (with_gone seat.old)) }
    {
        let shared = &self.table.shared;
        let found = take_out(shared, rt, &mut seat.inner);
        let list = seat.inner.slot_mut(shared, LIST_SLOT);
        let (was_notified, kept) = list.remove(id);
        let word = list.says(found, false);
        let found = give_left(shared, &mut seat.inner, id, was_notified, word);
        wake_next(shared, found);
        let heard = if was_notified { Found::Yes } else { Found::No };
        seat.go(at, heard);
        drop(kept);
        was_notified
    }

    /// Asks for the notification of the entry of this id, which is the seat's. One that waits keeps a waker of the task of `cx`, which is
    /// answered, and the task has registered with the semaphore's source. Notified, it has left the list, and the seat owes a look and a
    /// notification.
    pub fn ask<R: Wait>(
        &self,
        rt: &R,
        seat: &mut Seat,
        id: EntryId,
        cx: &mut Context<'_>,
        at: Place,
    ) -> Option<Whose>
        requires of { IsOf self.now seat.old }
        requires course { IsAt at act.Ask seat.old }
        requires own { (seat.old.listed ≡ true) × (seat.old.entry ≡ id.number) }
        ensures told { IfNone result ((seat.new ≡ goes at finds.Yes (with_told seat.old)) × (cx.new ≡ cx.old)) }
        ensures waits { IfSome result (λ whose. (seat.new ≡ goes at finds.No seat.old) × IsReceipt self.now.source cx.new whose) }
        ensures kept { Keeps cx.old cx.new }
    {
        let shared = &self.table.shared;
        let found = take_out(shared, rt, &mut seat.inner);
        let list = seat.inner.slot_mut(shared, LIST_SLOT);
        let heard = list.ask(id, &self.source, cx);
        let word = list.says(found, false);
        let kept = give_asked(shared, &mut seat.inner, id, heard, word);
        let heard = if kept.is_none() {
            Found::Yes
        } else {
            Found::No
        };
        seat.go(at, heard);
        kept
    }

    /// Asks, of an entry that has joined with a waker: one load, where the list was not notified since. Else it asks as
    /// [`RawSemaphore::ask`] does.
    pub fn still_waits<R: Wait>(
        &self,
        rt: &R,
        seat: &mut Seat,
        joined: Joined,
        cx: &mut Context<'_>,
        at: Place,
    ) -> Option<Whose>
        requires of { IsOf self.now seat.old }
        requires course { IsAt at act.Ask seat.old }
        requires own { (seat.old.listed ≡ true) × (seat.old.entry ≡ joined.id.number) }
        requires keeps { IsReceipt self.now.source cx.old joined.whose }
        ensures told { IfNone result ((seat.new ≡ goes at finds.Yes (with_told seat.old)) × (cx.new ≡ cx.old)) }
        ensures waits { IfSome result (λ whose. (seat.new ≡ goes at finds.No seat.old) × IsReceipt self.now.source cx.new whose) }
        ensures kept { Keeps cx.old cx.new }
    {
        let told = joined.word / NOTIFICATION;
        if told < MOST && self.table.shared.peek(LIST) / NOTIFICATION == told {
            seat.go(at, Found::No);
            return Some(joined.whose);
        }
        self.ask(rt, seat, joined.id, cx, at)
    }

    /// Notifies the first waiter for whom as many permits are enough as the seat found last, if nobody is notified and there is such a
    /// one, and calls its waker. The seat owes nothing any more.
    #[inline]
    pub fn fit<R: Wait>(&self, rt: &R, seat: &mut Seat, available: u64, at: Place)
        requires of { IsOf self.now seat.old }
        requires course { IsAt at (act.Fit available) seat.old }
        requires found { (available ≡ seat.old.found) × (seat.old.seen ≡ true) }
        ensures { seat.new ≡ goes at finds.Done (with_paid seat.old) }
    {
        if self.may_have_entries(seat, available, at) {
            self.fit_listed(rt, seat, available, at);
        }
    }

    // The same as `fit`, of as many as a look found: of nothing nobody has to be notified, and nothing is done.
    #[inline]
    pub(crate) fn fit_found<R: Wait>(&self, rt: &R, seat: &mut Seat, available: u64, at: Place)
        requires of { IsOf self.now seat.old }
        requires course { IsAt at (act.Fit available) seat.old }
        requires found { (available ≡ seat.old.found) × (seat.old.seen ≡ true) }
        requires none { available ≡ 0 → seat.old.owes ≡ false }
        ensures { seat.new ≡ goes at finds.Done (with_paid seat.old) }
    {
        if available > 0 {
            self.fit(rt, seat, available, at);
        } else {
            seat.go(at, Found::Done);
        }
    }

    // How many stand in the list, and whether the entry of this id is notified.
    fn see<R: Wait>(&self, rt: &R, id: Option<EntryId>) -> (usize, bool) {
        let mut seat = self.sit();
        let shared = &self.table.shared;
        let found = take_out(shared, rt, &mut seat.inner);
        let list = seat.inner.slot_mut(shared, LIST_SLOT);
        let len = list.len();
        let is_notified = match id {
            Some(id) => list.is_notified(id),
            None => false,
        };
        let word = list.says(found, false);
        let found = give_same(shared, &mut seat.inner, word);
        wake_next(shared, found);
        seat.rise();
        (len, is_notified)
    }

    /// Returns how many stand in the list. It is for tests.
    pub fn waiting<R: Wait>(&self, rt: &R) -> usize {
        self.see(rt, None).0
    }

    /// Returns whether the entry of this id is notified. It is for tests.
    pub fn is_notified<R: Wait>(&self, rt: &R, id: EntryId) -> bool {
        self.see(rt, Some(id)).1
    }

    // The same as `fit`, of a list that may have entries.
    #[inline(never)]
    pub(crate) fn fit_listed<R: Wait>(&self, rt: &R, seat: &mut Seat, available: u64, at: Place)
        requires of { IsOf self.now seat.old }
        requires course { IsAt at (act.Fit available) seat.old }
        requires found { (available ≡ seat.old.found) × (seat.old.seen ≡ true) }
        ensures { seat.new ≡ goes at finds.Done (with_paid seat.old) }
    {
        let shared = &self.table.shared;
        let found = take_out(shared, rt, &mut seat.inner);
        let list = seat.inner.slot_mut(shared, LIST_SLOT);
        let due = list.fit(available);
        let word = list.says(found, true);
        let found = give_paid(shared, &mut seat.inner, available, word);
        wake_next(shared, found);
        seat.go(at, Found::Done);
        drop(due.pay());
    }
}
