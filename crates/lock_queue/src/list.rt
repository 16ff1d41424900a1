//! What is done to a list's entries while the list is out.

ghost use Rattle.std.specs.Prelude.{◌≡◌, true, false, OnErr, IfOk};
ghost use Rattle.futures.specs.Task.{Keeps};
ghost use Rattle.lock_event.specs.Lists.{is_waiting_at};
ghost use Rattle.lock_event.specs.Slots.{has_id};
ghost use Rattle.lock_queue.specs.Asking.{ByHeard};
ghost use Rattle.lock_queue.specs.Queues.{Becomes};
ghost use Rattle.lock_queue.specs.Receipts.{KeepsAt, IsReceipt};
ghost use Rattle.lock_queue.specs.Sizes.{IsOneMore, IsOneNotified, IsSameSize, StaysNotified};
ghost use Rattle.words_base.specs.Lists.{HandsOn, Joins, Leaves, Pays, PaysAll, Stays};

use crate::due::{AllDue, Due};
use crate::heard::Heard;
use crate::whose::Whose;
use futures::task::{Context, Poll, Source, Waker};
use lock_event::{Asked, EntryId, Event, Memory};
use std::alloc::{AllocFailed, Global};

// An entry joins at the back, with no waker.
pub(crate) fn join(event: &mut Event<Waker>) -> Result<EntryId, Memory>
    ensures joined { IfOk result (λ id. Becomes (Joins id.number) event.old.entries event.new.entries × IsOneMore event.old.entries event.new.entries) }
    ensures refused { OnErr result (event.new.entries ≡ event.old.entries) }
{
    event.listen()
}

// An entry joins at the back, with a waker of the task of `cx`, which registers with `source`.
#[inline(always)]
pub(crate) fn join_waking(
    event: &mut Event<Waker>,
    source: &Source,
    cx: &mut Context<'_>,
) -> Result<(EntryId, Whose), Memory>
    ensures joined { IfOk result (λ joined. Becomes (Joins joined.0.number) event.old.entries event.new.entries × IsOneMore event.old.entries event.new.entries) }
    ensures refused { OnErr result (event.new.entries ≡ event.old.entries) }
    ensures keeps { IfOk result (λ joined. KeepsAt joined.0 joined.1 event.new.entries × IsReceipt source.now.id cx.new joined.1) }
    ensures kept { Keeps cx.old cx.new }
{
    let id = event.listen()?;
    let Some(slot) = event.waker_mut(id) else {
        unreachable!()
    };
    let _: Poll<()> = cx.register(source, slot);
    Ok((id, Whose::of(slot)))
}

// Notifies the first who waits, unless one is notified: the waker that is due.
pub(crate) fn notify(event: &mut Event<Waker>) -> Option<Waker>
    ensures { Becomes Pays event.old.entries event.new.entries × IsOneNotified event.old.entries event.new.entries }
{
    event.notify(1);
    event.next_waker()
}

// Notifies all who wait: the wakers that are due.
pub(crate) fn notify_all(event: &mut Event<Waker>, alloc: Global) -> AllDue
    ensures { Becomes PaysAll event.old.entries event.new.entries }
{
    let all = event.len();
    event.notify_additional(all);
    all_due(event, alloc)
}

// The same, by plain notifications: those that were notified before count as such.
pub(crate) fn notify_each(event: &mut Event<Waker>, alloc: Global) -> AllDue
    ensures { Becomes PaysAll event.old.entries event.new.entries }
{
    let all = event.len();
    event.notify(all);
    all_due(event, alloc)
}

// All wakers that are due, in one pass, as far as memory lasts.
fn all_due(event: &mut Event<Waker>, alloc: Global) -> AllDue
    ensures { Becomes Stays event.old.entries event.new.entries }
{
    let mut all = Vec::new(alloc);
    for _ in 0..event.len() {
        let Some(waker) = next_due(event) else {
            return AllDue { all, next: None };
        };
        if let Err(failed) = all.push(Due::of(Some(waker))) {
            let AllocFailed { value } = failed;
            return AllDue {
                all,
                next: Some(value),
            };
        }
    }
    AllDue { all, next: None }
}

// The next waker that is due.
pub(crate) fn next_due(event: &mut Event<Waker>) -> Option<Waker>
    ensures { Becomes Stays event.old.entries event.new.entries × IsSameSize event.old.entries event.new.entries }
{
    event.next_waker()
}

// An entry leaves: what it kept, and the waker that is due.
pub(crate) fn leave(event: &mut Event<Waker>, id: EntryId) -> (Option<Waker>, Option<Waker>)
    ensures { Becomes (HandsOn id.number) event.old.entries event.new.entries × StaysNotified event.old.entries event.new.entries }
{
    let kept = event.withdraw(id);
    (kept, event.next_waker())
}

// An entry asks for its notification. One that waits keeps a waker of the task of `cx`, which registers with `source`.
#[inline(always)]
pub(crate) fn ask(
    event: &mut Event<Waker>,
    id: EntryId,
    source: &Source,
    cx: &mut Context<'_>,
) -> Heard
    ensures answer { ByHeard result (is_waiting_at (has_id id) event.old.entries ≡ false) (λ _. is_waiting_at (has_id id) event.old.entries ≡ true) }
    ensures asked { ByHeard result (Becomes (Leaves id.number) event.old.entries event.new.entries) (λ _. Becomes Stays event.old.entries event.new.entries × IsSameSize event.old.entries event.new.entries) }
    ensures waits { ByHeard result (cx.new ≡ cx.old) (λ whose. KeepsAt id whose event.new.entries × IsReceipt source.now.id cx.new whose) }
    ensures kept { Keeps cx.old cx.new }
{
    if let Some(slot) = event.waker_mut(id) {
        let _: Poll<()> = cx.register(source, slot);
        return Heard::Waits(Whose::of(slot));
    }
    Heard::Told(told(event, id))
}

// An entry that doesn't wait leaves the list, if it is there: what it kept.
#[inline(never)]
fn told(event: &mut Event<Waker>, id: EntryId) -> Option<Waker>
    requires { is_waiting_at (has_id id) event.old.entries ≡ false }
    ensures { Becomes (Leaves id.number) event.old.entries event.new.entries }
{
    match event.ask(id, None) {
        Asked::Notified { kept, .. } => kept,
        Asked::Unlisted { .. } => None,
        Asked::Waiting { .. } => unreachable!(),
    }
}
