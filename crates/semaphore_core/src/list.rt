//! What is done to the list's entries while the list is out.

ghost use Rattle.std.specs.Prelude.{◌≡◌, ⊤, true, false, IfOk, OnErr, MatchBool};
ghost use Rattle.futures.specs.Task.{Keeps};
ghost use Rattle.lock_event.specs.Lists.{is_marked_at, is_waiting_at};
ghost use Rattle.lock_event.specs.Slots.{has_id};
ghost use Rattle.lock_queue.specs.Asking.{ByHeard};
ghost use Rattle.semaphore_core.specs.Entries.{HasJoined, HasLeft, IsGone, IsUnchanged, IsTold};
ghost use Rattle.lock_queue.specs.Receipts.{IsReceipt};
ghost use Rattle.semaphore_core.specs.Receipts.{KeepsAt};

use futures::task::{Context, Poll, Source, Waker};
use lock_event::{Asked, EntryId, Memory};
use lock_queue::{Heard, Whose};
use weighted_event::WeightedEvent;

// An entry joins at the back for so many permits, with no waker.
pub(crate) fn join(event: &mut WeightedEvent<Waker>, permits: u64) -> Result<EntryId, Memory>
    ensures joined { IfOk result (λ id. HasJoined event.old.entries event.new.entries id.number permits) }
    ensures refused { OnErr result (event.new.entries ≡ event.old.entries) }
{
    event.listen(permits)
}

// An entry joins at the back for so many permits, with a waker of the task of `cx`, which registers with `source`.
#[inline(always)]
pub(crate) fn join_waking(
    event: &mut WeightedEvent<Waker>,
    permits: u64,
    source: &Source,
    cx: &mut Context<'_>,
) -> Result<(EntryId, Whose), Memory>
    ensures joined { IfOk result (λ joined. HasJoined event.old.entries event.new.entries joined.0.number permits) }
    ensures refused { OnErr result (event.new.entries ≡ event.old.entries) }
    ensures keeps { IfOk result (λ joined. KeepsAt joined.0 joined.1 event.new.entries × IsReceipt source.now.id cx.new joined.1) }
    ensures kept { Keeps cx.old cx.new }
{
    let id = event.listen(permits)?;
    if let Some(slot) = event.waker_mut(id) {
        let _: Poll<()> = cx.register(source, slot);
        return Ok((id, Whose::of(slot)));
    }
    Ok((id, keep(event, id, source, cx)))
}

// The same, of an entry that has joined and whose waker can't be written where it lies.
#[cold]
#[inline(never)]
fn keep(
    event: &mut WeightedEvent<Waker>,
    id: EntryId,
    source: &Source,
    cx: &mut Context<'_>,
) -> Whose
    requires { is_waiting_at (has_id id) event.old.entries ≡ true }
    ensures same { IsUnchanged event.old.entries event.new.entries }
    ensures keeps { KeepsAt id result event.new.entries × IsReceipt source.now.id cx.new result }
    ensures kept { Keeps cx.old cx.new }
{
    let mut made = None;
    let _: Poll<()> = cx.register(source, &mut made);
    let whose = Whose::of(&made);
    match event.ask(id, made) {
        Asked::Waiting { .. } => whose,
        Asked::Notified { .. } => unreachable!(),
        Asked::Unlisted { .. } => unreachable!(),
    }
}

// Notifies the first whom so many are enough for, unless one is notified: the waker that is due.
pub(crate) fn fit(event: &mut WeightedEvent<Waker>, available: u64) -> Option<Waker>
    ensures { IsTold event.old.entries event.new.entries available }
{
    event.fit(available);
    event.next_waker()
}

// An entry leaves: whether it was notified, and what it kept. One that isn't there counts as not notified.
pub(crate) fn remove(event: &mut WeightedEvent<Waker>, id: EntryId) -> (bool, Option<Waker>)
    ensures { MatchBool result.0 (IsGone event.old.entries event.new.entries id.number) (HasLeft event.old.entries event.new.entries id.number) }
{
    let (was_notified, kept) = event.withdraw(id);
    (was_notified, kept)
}

// An entry asks for its notification. One that waits keeps a waker of the task of `cx`, which registers with `source`.
#[inline(always)]
pub(crate) fn ask(
    event: &mut WeightedEvent<Waker>,
    id: EntryId,
    source: &Source,
    cx: &mut Context<'_>,
) -> Heard
    ensures answer { ByHeard result ⊤ (λ _. is_marked_at (has_id id) event.old.entries ≡ false) }
    ensures asked { ByHeard result (IsGone event.old.entries event.new.entries id.number) (λ _. IsUnchanged event.old.entries event.new.entries) }
    ensures waits { ByHeard result (cx.new ≡ cx.old) (λ whose. KeepsAt id whose event.new.entries × IsReceipt source.now.id cx.new whose) }
    ensures kept { Keeps cx.old cx.new }
{
    if let Some(slot) = event.waker_mut(id) {
        let _: Poll<()> = cx.register(source, slot);
        return Heard::Waits(Whose::of(slot));
    }
    ask_apart(event, id, source, cx)
}

// The same, of an entry that was told, or whose waker can't be written where it lies.
#[inline(never)]
fn ask_apart(
    event: &mut WeightedEvent<Waker>,
    id: EntryId,
    source: &Source,
    cx: &mut Context<'_>,
) -> Heard
    ensures answer { ByHeard result ⊤ (λ _. is_marked_at (has_id id) event.old.entries ≡ false) }
    ensures asked { ByHeard result (IsGone event.old.entries event.new.entries id.number) (λ _. IsUnchanged event.old.entries event.new.entries) }
    ensures waits { ByHeard result (cx.new ≡ cx.old) (λ whose. KeepsAt id whose event.new.entries × IsReceipt source.now.id cx.new whose) }
    ensures kept { Keeps cx.old cx.new }
{
    let mut waker = match event.ask(id, None) {
        Asked::Waiting { kept } => kept,
        Asked::Notified { kept, .. } => return Heard::Told(kept),
        Asked::Unlisted { .. } => return Heard::Told(None),
    };
    let _: Poll<()> = cx.register(source, &mut waker);
    let whose = Whose::of(&waker);
    match event.ask(id, waker) {
        Asked::Waiting { .. } => Heard::Waits(whose),
        Asked::Notified { .. } => unreachable!(),
        Asked::Unlisted { .. } => unreachable!(),
    }
}
