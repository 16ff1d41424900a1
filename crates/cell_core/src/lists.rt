//! What lies in the slot of a cell's table: its two lists.

ghost use Rattle.std.specs.Prelude.{◌≡◌, IfOk, OnErr};
ghost use Rattle.words_base.specs.Lists.{HandsOn, Joins, Leaves, Pays, PaysAll, nobody};
ghost use Rattle.futures.specs.Task.{Keeps};
ghost use Rattle.lock_queue.specs.Asking.{ByHeard};
ghost use Rattle.cell_core.specs.Contents.{active_of, passive_of, Says, AreKept, Changes};
ghost use Rattle.lock_queue.specs.Receipts.{IsReceipt};

use atomic_table::Seat as TableSeat;
use futures::task::{Context, Source, Waker};
use lock_event::{EntryId, Mark, Memory};
use lock_queue::{AllDue, Due, Heard, Queue, Whose};
use std::alloc::Global;
use sync_program::once_cell::ListName;
use words_cell::steps::{ENTRIES, NOTIFICATION, Ruled};
use words_cell::{Content, View};

// How many notifications the lists' word counts at most.
pub(crate) const MOST: u64 = 2_305_843_009_213_693_951;

// The tables of cells.
pub(crate) type Listing = Ruled<Lists>;

// The seats of those tables.
pub(crate) type Lister = TableSeat<Lists, View>;

/// A cell's two lists.
pub struct Lists {
    /// Of those that would make the value.
    pub(crate) active: Queue,
    /// Of those that only wait for it.
    pub(crate) passive: Queue,
}

impl Drop for Lists {
    fn drop(self) {
        let Lists {
            active: _,
            passive: _,
        } = self;
    }
}

impl Content for Lists {
    ghost use Rattle.lock_queue.specs.Queues.{listed_in};

    ghost active = { λ lists. listed_in lists.active };

    ghost passive = { λ lists. listed_in lists.passive };
}

impl Lists {
    // Lists that nobody has joined.
    pub(crate) fn new() -> Lists
        ensures { (active_of result ≡ nobody) × (passive_of result ≡ nobody) }
    {
        Lists {
            active: Queue::new(),
            passive: Queue::new(),
        }
    }

    // What is to stand in their word, in which `found` stood: whether one of them has entries, and one notification more if one of them was
    // notified. Where the count can't grow any more it stays.
    pub(crate) fn says(&self, found: u64, tells: bool) -> u64
        ensures { Says self.now result }
    {
        let told = found / NOTIFICATION;
        let told = if tells && told < MOST { told + 1 } else { told };
        if self.active.is_empty() && self.passive.is_empty() {
            told * NOTIFICATION
        } else {
            told * NOTIFICATION + ENTRIES
        }
    }

    // An entry joins this list at the back, with a waker of the task of `cx`, which registers with `source`.
    pub(crate) fn join(
        &mut self,
        list: ListName,
        alloc: Global,
        source: &Source,
        cx: &mut Context<'_>,
    ) -> Result<(EntryId, Whose), Memory>
        ensures joined { IfOk result (λ joined. Changes (Joins joined.0.number) list self.old self.new) }
        ensures refused { OnErr result (AreKept self.old self.new) }
        ensures keeps { IfOk result (λ joined. IsReceipt source.now.id cx.new joined.1) }
        ensures kept { Keeps cx.old cx.new }
    {
        match list {
            ListName::Active => self.active.join_waking(alloc, source, cx),
            ListName::Passive => self.passive.join_waking(alloc, source, cx),
        }
    }

    pub(crate) fn ask(
        &mut self,
        list: ListName,
        id: EntryId,
        source: &Source,
        cx: &mut Context<'_>,
    ) -> Heard
        ensures asked { ByHeard result (Changes (Leaves id.number) list self.old self.new) (λ _. AreKept self.old self.new) }
        ensures waits { ByHeard result (cx.new ≡ cx.old) (IsReceipt source.now.id cx.new) }
        ensures kept { Keeps cx.old cx.new }
    {
        match list {
            ListName::Active => self.active.ask(id, source, cx),
            ListName::Passive => self.passive.ask(id, source, cx),
        }
    }

    pub(crate) fn leave(&mut self, list: ListName, id: EntryId) -> (Option<Waker>, Due)
        ensures { Changes (HandsOn id.number) list self.old self.new }
    {
        match list {
            ListName::Active => self.active.leave(id),
            ListName::Passive => self.passive.leave(id),
        }
    }

    pub(crate) fn notify(&mut self, list: ListName) -> Due
        ensures { Changes Pays list self.old self.new }
    {
        match list {
            ListName::Active => self.active.notify(),
            ListName::Passive => self.passive.notify(),
        }
    }

    pub(crate) fn notify_all(&mut self, list: ListName, alloc: Global) -> AllDue
        ensures { Changes PaysAll list self.old self.new }
    {
        match list {
            ListName::Active => self.active.notify_all(alloc),
            ListName::Passive => self.passive.notify_all(alloc),
        }
    }

    // The next waker that is due, of either list.
    pub(crate) fn next_due(&mut self) -> Due
        ensures { AreKept self.old self.new }
    {
        match self.active.next_due() {
            Some(waker) => Due::of(Some(waker)),
            None => Due::of(self.passive.next_due()),
        }
    }

    // The entry at this index of a list.
    pub(crate) fn entry(&self, list: ListName, index: usize) -> Option<(EntryId, Mark)> {
        match list {
            ListName::Active => self.active.entry(index),
            ListName::Passive => self.passive.entry(index),
        }
    }
}
