//! What lies in the slot of a semaphore's table.

ghost use Rattle.std.specs.Prelude.{◌≡◌, ◌%◌, [], IfOk, IsSome, None, OnOk, OnErr, MatchBool, ⊤, true, false};
ghost use Rattle.futures.specs.Task.{Keeps};
ghost use Rattle.lock_event.specs.Lists.{is_marked_at};
ghost use Rattle.lock_event.specs.Slots.{has_id};
ghost use Rattle.lock_queue.specs.Asking.{ByHeard};
ghost use Rattle.semaphore_core.specs.Entries.{HasJoined, HasLeft, IsGone, IsUnchanged, IsTold, waiters_in};
ghost use Rattle.semaphore_core.specs.Queues.{entries_of};
ghost use Rattle.lock_queue.specs.Receipts.{IsReceipt};
ghost use Rattle.semaphore_core.specs.Receipts.{KeepsAt};
ghost use Rattle.words_permits.specs.Steps.{Says};

use crate::list;
use futures::task::{Context, Source, Waker};
use lock_event::{EntryId, Memory};
use lock_queue::{Due, Heard, Whose};
use std::alloc::Global;
use weighted_event::WeightedEvent;
use words_permits::Content;
use words_permits::steps::{ENTRIES, NOTIFICATION};

// How many notifications a list's word counts at most.
pub(crate) const MOST: u64 = 2_305_843_009_213_693_951;

/// A semaphore's waiting list, which is made when somebody first joins.
pub struct Queue {
    pub(crate) entries: Option<Box<WeightedEvent<Waker>>>,
}

impl Drop for Queue {
    fn drop(self) {
        let Queue { entries: _ } = self;
    }
}

impl Content for Queue {
    ghost use Rattle.semaphore_core.specs.Queues.{queue_waiters, queue_marked};

    ghost waiters = { queue_waiters };

    ghost marked = { queue_marked };
}

impl Queue {
    // A list that nobody has joined.
    pub(crate) fn new() -> Queue
        ensures { entries_of result ≡ [] }
    {
        Queue { entries: None }
    }

    // Makes the list, if nobody has joined before.
    #[inline(always)]
    fn make(&mut self, alloc: Global) -> Result<(), Memory>
        ensures same { entries_of self.new ≡ entries_of self.old }
        ensures made { OnOk result (IsSome self.new.entries) }
    {
        if self.entries.is_some() {
            Ok(())
        } else {
            self.make_new(alloc)
        }
    }

    // Makes the list, which nobody has joined before.
    #[cold]
    #[inline(never)]
    fn make_new(&mut self, alloc: Global) -> Result<(), Memory>
        requires { self.old.entries ≡ None }
        ensures same { entries_of self.new ≡ entries_of self.old }
        ensures made { OnOk result (IsSome self.new.entries) }
    {
        let Ok(made) = Box::new(alloc, WeightedEvent::new(alloc)) else {
            return Err(Memory);
        };
        self.entries = Some(made);
        Ok(())
    }

    fn join_made(&mut self, permits: u64) -> Result<EntryId, Memory>
        requires { IsSome self.old.entries }
        ensures joined { IfOk result (λ id. HasJoined (entries_of self.old) (entries_of self.new) id.number permits) }
        ensures refused { OnErr result (entries_of self.new ≡ entries_of self.old) }
    {
        match &mut self.entries {
            Some(event) => list::join(event, permits),
            None => unreachable!(),
        }
    }

    // An entry joins at the back for so many permits, with no waker.
    pub(crate) fn join(&mut self, alloc: Global, permits: u64) -> Result<EntryId, Memory>
        ensures joined { IfOk result (λ id. HasJoined (entries_of self.old) (entries_of self.new) id.number permits) }
        ensures refused { OnErr result (IsUnchanged (entries_of self.old) (entries_of self.new)) }
    {
        match self.make(alloc) {
            Ok(()) => self.join_made(permits),
            Err(memory) => Err(memory),
        }
    }

    fn join_waking_made(
        &mut self,
        permits: u64,
        source: &Source,
        cx: &mut Context<'_>,
    ) -> Result<(EntryId, Whose), Memory>
        requires { IsSome self.old.entries }
        ensures joined { IfOk result (λ joined. HasJoined (entries_of self.old) (entries_of self.new) joined.0.number permits) }
        ensures refused { OnErr result (entries_of self.new ≡ entries_of self.old) }
        ensures keeps { IfOk result (λ joined. KeepsAt joined.0 joined.1 (entries_of self.new) × IsReceipt source.now.id cx.new joined.1) }
        ensures kept { Keeps cx.old cx.new }
    {
        match &mut self.entries {
            Some(event) => list::join_waking(event, permits, source, cx),
            None => unreachable!(),
        }
    }

    // The same, with a waker of the task of `cx`, which registers with `source`.
    pub(crate) fn join_waking(
        &mut self,
        alloc: Global,
        permits: u64,
        source: &Source,
        cx: &mut Context<'_>,
    ) -> Result<(EntryId, Whose), Memory>
        ensures joined { IfOk result (λ joined. HasJoined (entries_of self.old) (entries_of self.new) joined.0.number permits) }
        ensures refused { OnErr result (IsUnchanged (entries_of self.old) (entries_of self.new)) }
        ensures keeps { IfOk result (λ joined. KeepsAt joined.0 joined.1 (entries_of self.new) × IsReceipt source.now.id cx.new joined.1) }
        ensures kept { Keeps cx.old cx.new }
    {
        match self.make(alloc) {
            Ok(()) => self.join_waking_made(permits, source, cx),
            Err(memory) => Err(memory),
        }
    }

    // Notifies the first whom so many are enough for, unless one is notified: the waker that is due.
    pub(crate) fn fit(&mut self, available: u64) -> Due
        ensures { IsTold (entries_of self.old) (entries_of self.new) available }
    {
        let due = match &mut self.entries {
            Some(event) => list::fit(event, available),
            None => None,
        };
        Due::of(due)
    }

    // An entry leaves: whether it was notified, and what it kept.
    pub(crate) fn remove(&mut self, id: EntryId) -> (bool, Option<Waker>)
        ensures { MatchBool result.0 (IsGone (entries_of self.old) (entries_of self.new) id.number) (HasLeft (entries_of self.old) (entries_of self.new) id.number) }
    {
        match &mut self.entries {
            Some(event) => list::remove(event, id),
            None => (false, None),
        }
    }

    // An entry asks for its notification. One that waits keeps a waker of the task of `cx`, which registers with `source`.
    pub(crate) fn ask(&mut self, id: EntryId, source: &Source, cx: &mut Context<'_>) -> Heard
        ensures answer { ByHeard result ⊤ (λ _. is_marked_at (has_id id) (entries_of self.old) ≡ false) }
        ensures asked { ByHeard result (IsGone (entries_of self.old) (entries_of self.new) id.number) (λ _. IsUnchanged (entries_of self.old) (entries_of self.new)) }
        ensures waits { ByHeard result (cx.new ≡ cx.old) (λ whose. KeepsAt id whose (entries_of self.new) × IsReceipt source.now.id cx.new whose) }
        ensures kept { Keeps cx.old cx.new }
    {
        match &mut self.entries {
            Some(event) => list::ask(event, id, source, cx),
            None => Heard::Told(None),
        }
    }

    // How many entries the list has.
    pub(crate) fn len(&self) -> usize {
        match &self.entries {
            Some(event) => event.len(),
            None => 0,
        }
    }

    fn is_empty(&self) -> bool
        ensures { result ≡ true → waiters_in (entries_of self.now) ≡ [] }
    {
        match &self.entries {
            Some(event) => event.len() == 0,
            None => true,
        }
    }

    // Whether the entry of this id is notified.
    pub(crate) fn is_notified(&self, id: EntryId) -> bool {
        match &self.entries {
            Some(event) => event.contains(id) && event.is_notified(id),
            None => false,
        }
    }

    // What is to stand in the list's word, in which `found` stood: whether it has entries, and one notification more if it `tells`.
    // Where the count can't grow any more it stays.
    pub(crate) fn says(&self, found: u64, tells: bool) -> u64
        ensures { Says (waiters_in (entries_of self.now)) result }
    {
        let told = found / NOTIFICATION;
        let told = if tells && told < MOST { told + 1 } else { told };
        if self.is_empty() {
            told * NOTIFICATION
        } else {
            told * NOTIFICATION + ENTRIES
        }
    }
}
