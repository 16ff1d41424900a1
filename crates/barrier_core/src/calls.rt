//! Each action on the list.

ghost use Rattle.std.specs.Prelude.{◌≡◌, true, false, IfNone, IfOk, IfSome, OnErr};
ghost use Rattle.futures.specs.Task.{Keeps};
ghost use Rattle.lock_program.specs.declared.end.Next.TheVariants.{Do};
ghost use Rattle.sync_program.specs.declared.barrier.Action.TheVariants as act;
ghost use Rattle.sync_program.specs.declared.barrier.Found.TheVariants as finds;
ghost use Rattle.sync_program.specs.declared.barrier.Place.TheVariants as places;
ghost use Rattle.barrier_core.specs.Barriers.{IsAt, IsCountedIn, IsIdle, IsOf, IsSameSeat, goes, with_joined, with_gone, with_paid};
ghost use Rattle.barrier_core.specs.Rejoining.{FindsAgain};
ghost use Rattle.lock_queue.specs.Receipts.{IsReceipt};

use crate::list::MOST;
use crate::raw::RawBarrier;
use crate::seat::Seat;
use futures::task::Context;
use lock_event::{EntryId, Memory};
use lock_queue::{AllDue, Due, Heard, Joining, Whose};
use std::sync::Wait;
use sync_program::barrier::{Found, Place};
use words_barrier::steps::{
    ENTRIES, LIST, LIST_SLOT, NOTIFICATION, give_gone, give_joined, give_paid, give_same, peek,
};
use words_barrier::{take_out, wake_next};

/// An entry that has joined with a waker of its task, and the word that its list had then.
#[derive(Drop)]
pub struct Joined {
    pub(crate) id: EntryId,
    pub(crate) whose: Whose,
    word: u64,
}

/// What came of joining the list again, of an arrival whose generation wasn't finished.
pub(crate) enum Rejoined {
    /// It has an entry.
    Waits(Joined),
    /// It isn't in the list: its generation is finished.
    Finished,
    /// There was no memory for its entry.
    Refused,
}

impl RawBarrier {
    /// Joins the list at the back, with no waker. The seat has not looked since then. [`Memory`] comes only if memory was refused, and
    /// nothing has changed then.
    pub fn join<R: Wait>(&self, rt: &R, seat: &mut Seat, at: Place) -> Result<EntryId, Memory>
        requires of { IsOf self.now seat.old }
        requires course { IsAt at act.Join seat.old }
        requires away { seat.old.listed ≡ false }
        ensures joined { IfOk result (λ id. seat.new ≡ goes at finds.Done (with_joined id.number seat.old)) }
        ensures refused { OnErr result (seat.new ≡ goes at finds.NoMemory seat.old) }
    {
        let shared = &self.table.shared;
        let found = take_out(shared, rt, &mut seat.inner);
        let list = seat.inner.slot_mut(shared, LIST_SLOT);
        let joined = list.queue.join(self.alloc);
        let word = list.says(found, false);
        match joined {
            Ok(id) => {
                let found = give_joined(shared, &mut seat.inner, word, &Joining { id });
                wake_next(shared, found);
                seat.go(at, Found::Done);
                Ok(id)
            }
            Err(memory) => {
                let found = give_same(shared, &mut seat.inner, word);
                wake_next(shared, found);
                seat.go(at, Found::NoMemory);
                Err(memory)
            }
        }
    }

    /// The same, with a waker of the task of `cx`, which registers with the barrier's source.
    pub fn join_waking<R: Wait>(
        &self,
        rt: &R,
        seat: &mut Seat,
        cx: &mut Context<'_>,
        at: Place,
    ) -> Result<Joined, Memory>
        requires of { IsOf self.now seat.old }
        requires course { IsAt at act.Join seat.old }
        requires away { seat.old.listed ≡ false }
        ensures joined { IfOk result (λ joined. seat.new ≡ goes at finds.Done (with_joined joined.id.number seat.old)) }
        ensures refused { OnErr result (seat.new ≡ goes at finds.NoMemory seat.old) }
        ensures keeps { IfOk result (λ joined. IsReceipt self.now.inner.source cx.new joined.whose) }
        ensures kept { Keeps cx.old cx.new }
    {
        let shared = &self.table.shared;
        let found = take_out(shared, rt, &mut seat.inner);
        let list = seat.inner.slot_mut(shared, LIST_SLOT);
        let joined = list.queue.join_waking(self.alloc, self.inner.source(), cx);
        let word = list.says(found, false);
        match joined {
            Ok((id, whose)) => {
                let found = give_joined(shared, &mut seat.inner, word, &Joining { id });
                wake_next(shared, found);
                seat.go(at, Found::Done);
                Ok(Joined { id, whose, word })
            }
            Err(memory) => {
                let found = give_same(shared, &mut seat.inner, word);
                wake_next(shared, found);
                seat.go(at, Found::NoMemory);
                Err(memory)
            }
        }
    }

    /// Joins the list again, as [`RawBarrier::join_waking`], by whoever has the inner lock, and looks since then. While it has that lock nobody
    /// finishes a generation. The rule doesn't speak of that lock: should the look find the generation finished that its arrival was counted
    /// in, it leaves the list, and goes on as from a check that found so.
    #[inline]
    pub(crate) fn join_again<R: Wait>(
        &self,
        rt: &R,
        seat: &mut Seat,
        cx: &mut Context<'_>,
        generation: u64,
    ) -> Rejoined
        requires of { IsOf self.now seat.old }
        requires counted { IsIdle seat.old × IsCountedIn generation seat.old }
        requires course { seat.old.course ≡ Do places.JoinAgain }
        ensures again { FindsAgain self.now cx.new generation seat.new result }
        ensures same { IsSameSeat seat.old seat.new }
        ensures kept { Keeps cx.old cx.new }
    {
        let joined = match self.join_waking(rt, seat, cx, Place::JoinAgain) {
            Ok(joined) => joined,
            Err(Memory) => return Rejoined::Refused,
        };
        if self.look_again(seat) != generation {
            self.remove(rt, seat, joined.id);
            seat.go(Place::Check, Found::Finished);
            return Rejoined::Finished;
        }
        Rejoined::Waits(joined)
    }

    /// Takes the entry of this id out of the list without asking, which is the seat's. A notification that it had goes on to the next. The
    /// entry's own waker is dropped, by which the kit wakes its task once more.
    pub fn leave<R: Wait>(&self, rt: &R, seat: &mut Seat, id: EntryId, at: Place)
        requires of { IsOf self.now seat.old }
        requires course { IsAt at act.Leave seat.old }
        requires own { (seat.old.listed ≡ true) × (seat.old.entry ≡ id.number) }
        ensures { seat.new ≡ goes at finds.Done (with_gone seat.old) }
    {
        self.remove(rt, seat, id);
        seat.go(at, Found::Done);
    }

    // The same, of a party that stays at its place.
    fn remove<R: Wait>(&self, rt: &R, seat: &mut Seat, id: EntryId)
        requires of { IsOf self.now seat.old }
        requires own { (seat.old.listed ≡ true) × (seat.old.entry ≡ id.number) }
        ensures { seat.new ≡ with_gone seat.old }
    {
        let shared = &self.table.shared;
        let found = take_out(shared, rt, &mut seat.inner);
        let list = seat.inner.slot_mut(shared, LIST_SLOT);
        let (kept, due) = list.queue.leave(id);
        let word = list.says(found, list.queue.is_notified());
        let found = give_gone(shared, &mut seat.inner, word);
        wake_next(shared, found);
        drop(kept);
        drop(due.pay());
    }

    /// Asks for the notification of the entry of this id, which is the seat's. One that waits keeps a waker of the task of `cx`, which is
    /// answered, and the task has registered with the barrier's source. Notified, it has left the list.
    pub fn ask<R: Wait>(
        &self,
        rt: &R,
        seat: &mut Seat,
        id: EntryId,
        cx: &mut Context<'_>,
        at: Place,
    ) -> Option<Whose>
        requires of { IsOf self.now seat.old }
        requires course { IsAt at act.Ask seat.old }
        requires own { (seat.old.listed ≡ true) × (seat.old.entry ≡ id.number) }
        ensures told { IfNone result ((seat.new ≡ goes at finds.Yes (with_gone seat.old)) × (cx.new ≡ cx.old)) }
        ensures waits { IfSome result (λ whose. (seat.new ≡ goes at finds.No seat.old) × IsReceipt self.now.inner.source cx.new whose) }
        ensures kept { Keeps cx.old cx.new }
    {
        let shared = &self.table.shared;
        let found = take_out(shared, rt, &mut seat.inner);
        let list = seat.inner.slot_mut(shared, LIST_SLOT);
        let heard = list.queue.ask(id, self.inner.source(), cx);
        let word = list.says(found, false);
        match heard {
            Heard::Waits(whose) => {
                let found = give_same(shared, &mut seat.inner, word);
                wake_next(shared, found);
                seat.go(at, Found::No);
                Some(whose)
            }
            Heard::Told(waker) => {
                let found = give_gone(shared, &mut seat.inner, word);
                wake_next(shared, found);
                seat.go(at, Found::Yes);
                drop(waker);
                None
            }
        }
    }

    /// Asks, of an entry that has joined with a waker: one load, where the list was not notified since. Else it asks as
    /// [`RawBarrier::ask`] does.
    pub fn still_waits<R: Wait>(
        &self,
        rt: &R,
        seat: &mut Seat,
        joined: Joined,
        cx: &mut Context<'_>,
        at: Place,
    ) -> Option<Whose>
        requires of { IsOf self.now seat.old }
        requires course { IsAt at act.Ask seat.old }
        requires own { (seat.old.listed ≡ true) × (seat.old.entry ≡ joined.id.number) }
        requires keeps { IsReceipt self.now.inner.source cx.old joined.whose }
        ensures told { IfNone result ((seat.new ≡ goes at finds.Yes (with_gone seat.old)) × (cx.new ≡ cx.old)) }
        ensures waits { IfSome result (λ whose. (seat.new ≡ goes at finds.No seat.old) × IsReceipt self.now.inner.source cx.new whose) }
        ensures kept { Keeps cx.old cx.new }
    {
        let told = joined.word / NOTIFICATION;
        if told < MOST && self.table.shared.peek(LIST) / NOTIFICATION == told {
            seat.go(at, Found::No);
            return Some(joined.whose);
        }
        self.ask(rt, seat, joined.id, cx, at)
    }

    /// Returns whether the list may have entries: one load. If not, there is nobody to notify, so that was done, and the seat owes nothing any
    /// more.
    #[inline]
    pub fn may_have_entries(&self, seat: &mut Seat, at: Place) -> bool
        requires of { IsOf self.now seat.old }
        requires course { IsAt at act.NotifyAll seat.old }
        ensures some { result ≡ true → seat.new ≡ seat.old }
        ensures none { result ≡ false → seat.new ≡ goes at finds.Done (with_paid seat.old) }
    {
        if peek(&self.table.shared, &mut seat.inner) % 8 >= ENTRIES {
            return true;
        }
        seat.go(at, Found::Done);
        false
    }

    /// Notifies all that stand in the list, and calls their wakers. The seat owes nothing any more.
    #[inline(never)]
    pub fn notify_all<R: Wait>(&self, rt: &R, seat: &mut Seat, at: Place)
        requires of { IsOf self.now seat.old }
        requires course { IsAt at act.NotifyAll seat.old }
        ensures { seat.new ≡ goes at finds.Done (with_paid seat.old) }
    {
        let shared = &self.table.shared;
        let found = take_out(shared, rt, &mut seat.inner);
        let list = seat.inner.slot_mut(shared, LIST_SLOT);
        let due = list.queue.notify_each(self.alloc);
        let word = list.says(found, true);
        let found = give_paid(shared, &mut seat.inner, word);
        wake_next(shared, found);
        seat.go(at, Found::Done);
        self.pay_all(rt, seat, due);
    }

    // Calls wakers that are due. Where memory was refused for more of them, the rest are taken out one by one.
    fn pay_all<R: Wait>(&self, rt: &R, seat: &mut Seat, due: AllDue)
        requires { IsOf self.now seat.old }
        ensures { seat.new ≡ seat.old }
    {
        if due.pay() {
            self.pay_rest(rt, seat);
        }
    }

    #[cold]
    #[inline(never)]
    fn pay_rest<R: Wait>(&self, rt: &R, seat: &mut Seat)
        requires { IsOf self.now seat.old }
        ensures { seat.new ≡ seat.old }
    {
        for _ in rt.forever() {
            if !self.pay_next(rt, seat) {
                return;
            }
        }
        unreachable!()
    }

    // Calls the next waker that is due: whether there was one.
    fn pay_next<R: Wait>(&self, rt: &R, seat: &mut Seat) -> bool
        requires { IsOf self.now seat.old }
        ensures { seat.new ≡ seat.old }
    {
        let shared = &self.table.shared;
        let found = take_out(shared, rt, &mut seat.inner);
        let list = seat.inner.slot_mut(shared, LIST_SLOT);
        let due = Due::of(list.queue.next_due());
        let word = list.says(found, false);
        let found = give_same(shared, &mut seat.inner, word);
        wake_next(shared, found);
        due.pay().is_some()
    }
}
