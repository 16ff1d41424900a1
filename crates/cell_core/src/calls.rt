//! The calls on the lists, each by the list's name.

ghost use Rattle.std.specs.Prelude.{◌≡◌, false, IfNone, IfSome};
ghost use Rattle.futures.specs.Task.{Keeps};
ghost use Rattle.sync_program.specs.declared.once_cell.Action.TheVariants as act;
ghost use Rattle.sync_program.specs.declared.once_cell.Found.TheVariants as finds;
ghost use Rattle.cell_core.specs.Cells.{IsAt, IsOf, StandsIn, goes, with_heard, with_gone, with_paid, with_all_paid};
ghost use Rattle.lock_queue.specs.Receipts.{IsReceipt};

use crate::cell::RawCell;
use crate::giving_back::{give_all_notified, give_heard, give_notified};
use crate::seat::Seat;
use futures::task::Context;
use lock_event::EntryId;
use lock_queue::{AllDue, Heard, Whose};
use std::sync::Wait;
use sync_program::once_cell::{Found, ListName, Place};
use words_cell::steps::{LIST_SLOT, give_gone, give_same};
use words_cell::{take_out, wake_next};

impl<T> RawCell<T> {
    /// Asks for the notification of an entry of this list. One that waits keeps a waker of the task of `cx`, which is answered. Notified, it has left
    /// the list: of those that would make the value, the seat owes.
    pub fn ask<R: Wait>(
        &self,
        rt: &R,
        seat: &mut Seat,
        list: ListName,
        id: EntryId,
        cx: &mut Context<'_>,
        at: Place<()>,
    ) -> Option<Whose>
        requires of { IsOf self.now seat.old }
        requires course { IsAt at (act.Ask list) seat.old }
        requires stands { StandsIn list id.number seat.old × (seat.old.fresh ≡ false) }
        ensures told { IfNone result ((seat.new ≡ goes at finds.Yes (with_heard list seat.old)) × (cx.new ≡ cx.old)) }
        ensures waits { IfSome result (λ whose. (seat.new ≡ goes at finds.No seat.old) × IsReceipt self.now.source cx.new whose) }
        ensures kept { Keeps cx.old cx.new }
    {
        let shared = &self.words.table.shared;
        let found = take_out(shared, rt, &mut seat.inner);
        let lists = seat.inner.slot_mut(shared, LIST_SLOT);
        let heard = lists.ask(list, id, &self.source, cx);
        let word = lists.says(found, false);
        match heard {
            Heard::Waits(whose) => {
                let found = give_same(shared, &mut seat.inner, word);
                wake_next(shared, found);
                seat.go(at, Found::No);
                Some(whose)
            }
            Heard::Told(waker) => {
                let found = give_heard(shared, &mut seat.inner, list, id, word);
                wake_next(shared, found);
                seat.go(at, Found::Yes);
                drop(waker);
                None
            }
        }
    }

    /// An entry of this list leaves without asking: a notification that it had goes on to the next.
    pub fn leave<R: Wait>(
        &self,
        rt: &R,
        seat: &mut Seat,
        list: ListName,
        id: EntryId,
        at: Place<()>,
    )
        requires of { IsOf self.now seat.old }
        requires course { IsAt at (act.Leave list) seat.old }
        requires stands { StandsIn list id.number seat.old }
        ensures { seat.new ≡ goes at finds.Done (with_gone seat.old) }
    {
        let shared = &self.words.table.shared;
        let found = take_out(shared, rt, &mut seat.inner);
        let lists = seat.inner.slot_mut(shared, LIST_SLOT);
        let (kept, due) = lists.leave(list, id);
        let word = lists.says(found, true);
        let found = give_gone(shared, &mut seat.inner, word);
        wake_next(shared, found);
        seat.go(at, Found::Done);
        drop(kept);
        drop(due.pay());
    }

    /// Notifies the first in this list, unless one is notified. Of those that would make the value, the seat owes no such notification any more.
    pub fn notify<R: Wait>(&self, rt: &R, seat: &mut Seat, list: ListName, at: Place<()>)
        requires of { IsOf self.now seat.old }
        requires course { IsAt at (act.Notify list) seat.old }
        ensures { seat.new ≡ goes at finds.Done (with_paid list seat.old) }
    {
        let shared = &self.words.table.shared;
        let found = take_out(shared, rt, &mut seat.inner);
        let lists = seat.inner.slot_mut(shared, LIST_SLOT);
        let due = lists.notify(list);
        let word = lists.says(found, true);
        let found = give_notified(shared, &mut seat.inner, list, word);
        wake_next(shared, found);
        seat.go(at, Found::Done);
        drop(due.pay());
    }

    /// Notifies all in this list. The seat owes them nothing any more.
    pub fn notify_all<R: Wait>(&self, rt: &R, seat: &mut Seat, list: ListName, at: Place<()>)
        requires of { IsOf self.now seat.old }
        requires course { IsAt at (act.NotifyAll list) seat.old }
        ensures { seat.new ≡ goes at finds.Done (with_all_paid list seat.old) }
    {
        let shared = &self.words.table.shared;
        let found = take_out(shared, rt, &mut seat.inner);
        let lists = seat.inner.slot_mut(shared, LIST_SLOT);
        let due = lists.notify_all(list, self.alloc);
        let word = lists.says(found, true);
        let found = give_all_notified(shared, &mut seat.inner, list, word);
        wake_next(shared, found);
        seat.go(at, Found::Done);
        self.pay_all(rt, seat, due);
    }

    // Calls wakers that are due. Where memory was refused for more of them, the rest are taken out one by one.
    fn pay_all<R: Wait>(&self, rt: &R, seat: &mut Seat, due: AllDue)
        requires { IsOf self.now seat.old }
        ensures { seat.new ≡ seat.old }
    {
        if due.pay() {
            self.pay_rest(rt, seat);
        }
    }

    #[cold]
    #[inline(never)]
    fn pay_rest<R: Wait>(&self, rt: &R, seat: &mut Seat)
        requires { IsOf self.now seat.old }
        ensures { seat.new ≡ seat.old }
    {
        for _ in rt.forever() {
            if !self.pay_next(rt, seat) {
                return;
            }
        }
        unreachable!()
    }

    // Calls the next waker that is due: whether there was one.
    fn pay_next<R: Wait>(&self, rt: &R, seat: &mut Seat) -> bool
        requires { IsOf self.now seat.old }
        ensures { seat.new ≡ seat.old }
    {
        let shared = &self.words.table.shared;
        let found = take_out(shared, rt, &mut seat.inner);
        let lists = seat.inner.slot_mut(shared, LIST_SLOT);
        let due = lists.next_due();
        let word = lists.says(found, false);
        let found = give_same(shared, &mut seat.inner, word);
        wake_next(shared, found);
        due.pay().is_some()
    }
}
