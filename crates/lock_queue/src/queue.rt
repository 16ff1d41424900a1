//! A list that is made when somebody first joins.

ghost use Rattle.std.specs.Prelude.{◌≡◌, [], IfOk, IsSome, OnOk, OnErr, true, false};
ghost use Rattle.futures.specs.Task.{Keeps};
ghost use Rattle.lock_event.specs.Lists.{is_waiting_at};
ghost use Rattle.lock_event.specs.Slots.{has_id};
ghost use Rattle.lock_queue.specs.Asking.{ByHeard};
ghost use Rattle.lock_queue.specs.Queues.{entries_of, listed_in};
ghost use Rattle.lock_queue.specs.Receipts.{KeepsAt, IsReceipt};
ghost use Rattle.lock_queue.specs.Sizes.{IsOneMore, IsOneNotified, IsSameSize, StaysNotified};
ghost use Rattle.words_base.specs.Lists.{HandsOn, Joins, Leaves, Pays, PaysAll, Stays};

use crate::due::{AllDue, Due};
use crate::heard::Heard;
use crate::list;
use crate::whose::Whose;
use futures::task::{Context, Source, Waker};
use lock_event::{EntryId, Event, Mark, Memory};
use std::alloc::Global;

/// A waiting list, which is made when somebody first joins.
pub struct Queue {
    pub(crate) entries: Option<Box<Event<Waker>>>,
}

impl Drop for Queue {
    fn drop(self) {
        let Queue { entries: _ } = self;
    }
}

impl Queue {
    /// A list that nobody has joined.
    pub fn new() -> Queue
        ensures { entries_of result ≡ [] }
    {
        Queue { entries: None }
    }

    // Makes the list, if nobody has joined before.
    fn make(&mut self, alloc: Global) -> Result<(), Memory>
        ensures same { entries_of self.new ≡ entries_of self.old }
        ensures made { OnOk result (IsSome self.new.entries) }
    {
        if self.entries.is_some() {
            return Ok(());
        }
        let Ok(made) = Box::new(alloc, Event::new(alloc)) else {
            return Err(Memory);
        };
        self.entries = Some(made);
        Ok(())
    }

    fn join_made(&mut self) -> Result<EntryId, Memory>
        requires { IsSome self.old.entries }
        ensures joined { IfOk result (λ id. Joins id.number (listed_in self.old) (listed_in self.new) × IsOneMore (entries_of self.old) (entries_of self.new)) }
        ensures refused { OnErr result (entries_of self.new ≡ entries_of self.old) }
    {
        match &mut self.entries {
            Some(event) => list::join(event),
            None => unreachable!(),
        }
    }

    /// An entry joins at the back, with no waker.
    pub fn join(&mut self, alloc: Global) -> Result<EntryId, Memory>
        ensures joined { IfOk result (λ id. Joins id.number (listed_in self.old) (listed_in self.new) × IsOneMore (entries_of self.old) (entries_of self.new)) }
        ensures refused { OnErr result (entries_of self.new ≡ entries_of self.old) }
    {
        match self.make(alloc) {
            Ok(()) => self.join_made(),
            Err(memory) => Err(memory),
        }
    }

    fn join_made_waking(
        &mut self,
        source: &Source,
        cx: &mut Context<'_>,
    ) -> Result<(EntryId, Whose), Memory>
        requires { IsSome self.old.entries }
        ensures joined { IfOk result (λ joined. Joins joined.0.number (listed_in self.old) (listed_in self.new) × IsOneMore (entries_of self.old) (entries_of self.new)) }
        ensures refused { OnErr result (entries_of self.new ≡ entries_of self.old) }
        ensures keeps { IfOk result (λ joined. KeepsAt joined.0 joined.1 (entries_of self.new) × IsReceipt source.now.id cx.new joined.1) }
        ensures kept { Keeps cx.old cx.new }
    {
        match &mut self.entries {
            Some(event) => list::join_waking(event, source, cx),
            None => unreachable!(),
        }
    }

    /// The same, with a waker of the task of `cx`, which registers with `source`.
    pub fn join_waking(
        &mut self,
        alloc: Global,
        source: &Source,
        cx: &mut Context<'_>,
    ) -> Result<(EntryId, Whose), Memory>
        ensures joined { IfOk result (λ joined. Joins joined.0.number (listed_in self.old) (listed_in self.new) × IsOneMore (entries_of self.old) (entries_of self.new)) }
        ensures refused { OnErr result (entries_of self.new ≡ entries_of self.old) }
        ensures keeps { IfOk result (λ joined. KeepsAt joined.0 joined.1 (entries_of self.new) × IsReceipt source.now.id cx.new joined.1) }
        ensures kept { Keeps cx.old cx.new }
    {
        match self.make(alloc) {
            Ok(()) => self.join_made_waking(source, cx),
            Err(memory) => Err(memory),
        }
    }

    /// Notifies the first who waits, unless one is notified: the waker that is due.
    pub fn notify(&mut self) -> Due
        ensures { Pays (listed_in self.old) (listed_in self.new) × IsOneNotified (entries_of self.old) (entries_of self.new) }
    {
        match &mut self.entries {
            Some(event) => Due::of(list::notify(event)),
            None => Due::of(None),
        }
    }

    /// Notifies all who wait: the wakers that are due.
    pub fn notify_all(&mut self, alloc: Global) -> AllDue
        ensures { PaysAll (listed_in self.old) (listed_in self.new) }
    {
        match &mut self.entries {
            Some(event) => list::notify_all(event, alloc),
            None => AllDue::none(alloc),
        }
    }

    /// The same, by plain notifications: one that goes on as its entry leaves goes on only where no entry is notified.
    pub fn notify_each(&mut self, alloc: Global) -> AllDue
        ensures { PaysAll (listed_in self.old) (listed_in self.new) }
    {
        match &mut self.entries {
            Some(event) => list::notify_each(event, alloc),
            None => AllDue::none(alloc),
        }
    }

    /// The next waker that is due.
    pub fn next_due(&mut self) -> Option<Waker>
        ensures { Stays (listed_in self.old) (listed_in self.new) × IsSameSize (entries_of self.old) (entries_of self.new) }
    {
        match &mut self.entries {
            Some(event) => list::next_due(event),
            None => None,
        }
    }

    /// An entry leaves: what it kept, and the waker that is due.
    pub fn leave(&mut self, id: EntryId) -> (Option<Waker>, Due)
        ensures { HandsOn id.number (listed_in self.old) (listed_in self.new) × StaysNotified (entries_of self.old) (entries_of self.new) }
    {
        match &mut self.entries {
            Some(event) => {
                let (kept, due) = list::leave(event, id);
                (kept, Due::of(due))
            }
            None => (None, Due::of(None)),
        }
    }

    /// An entry asks for its notification. One that waits keeps a waker of the task of `cx`, which registers with `source`.
    pub fn ask(&mut self, id: EntryId, source: &Source, cx: &mut Context<'_>) -> Heard
        ensures answer { ByHeard result (is_waiting_at (has_id id) (entries_of self.old) ≡ false) (λ _. is_waiting_at (has_id id) (entries_of self.old) ≡ true) }
        ensures asked { ByHeard result (Leaves id.number (listed_in self.old) (listed_in self.new)) (λ _. Stays (listed_in self.old) (listed_in self.new) × IsSameSize (entries_of self.old) (entries_of self.new)) }
        ensures waits { ByHeard result (cx.new ≡ cx.old) (λ whose. KeepsAt id whose (entries_of self.new) × IsReceipt source.now.id cx.new whose) }
        ensures kept { Keeps cx.old cx.new }
    {
        match &mut self.entries {
            Some(event) => list::ask(event, id, source, cx),
            None => Heard::Told(None),
        }
    }

    /// Whether nobody stands in it.
    pub fn is_empty(&self) -> bool
        ensures { result ≡ true → entries_of self.now ≡ [] }
    {
        match &self.entries {
            Some(event) => event.is_empty(),
            None => true,
        }
    }

    /// Whether an entry is notified.
    pub fn is_notified(&self) -> bool {
        match &self.entries {
            Some(event) => event.marked() > 0,
            None => false,
        }
    }

    /// The entry at this index, counted from the front, with its mark.
    pub fn entry(&self, index: usize) -> Option<(EntryId, Mark)> {
        match &self.entries {
            Some(event) if index < event.len() => {
                let entry = event.entry(index);
                Some((entry.key.id, entry.mark))
            }
            _ => None,
        }
    }
}
