//! What lies in the slot of a lock's table: its two lists.

ghost use Rattle.std.specs.Prelude.{◌≡◌, IfOk, OnErr};
ghost use Rattle.futures.specs.Task.{Keeps};
ghost use Rattle.words_base.specs.Lists.{nobody, Stays, Pays, Joins, Leaves, HandsOn};
ghost use Rattle.lock_queue.specs.Asking.{ByHeard};
ghost use Rattle.lock_queue.specs.Receipts.{IsReceipt};
ghost use Rattle.access_core.specs.Contents.{readers_of, writer_of, Says, Changes};

use atomic_table::Seat as TableSeat;
use futures::task::{Context, Source, Waker};
use lock_event::{EntryId, Mark, Memory};
use lock_queue::{Due, Heard, Queue, Whose};
use std::alloc::Global;
use words_access::steps::{ENTRIES, NOTIFICATION, Ruled};
use words_access::{Content, View};

// How many notifications the lists' word counts at most.
pub(crate) const MOST: u64 = 2_305_843_009_213_693_951;

// The tables of locks' states.
pub(crate) type Listing = Ruled<Lists>;

// The seats of those tables.
pub(crate) type Lister = TableSeat<Lists, View>;

/// One of a lock's two lists, by its name.
#[derive(Clone, Copy, PartialEq, Eq)]
pub enum Side {
    /// That of those that wait until the writer's bit is clear.
    Readers,
    /// That of who waits until no reader is inside.
    Writer,
}

/// A lock's two lists.
pub struct Lists {
    /// Of those that wait until the writer's bit is clear.
    pub(crate) readers: Queue,
    /// Of who waits until no reader is inside.
    pub(crate) writer: Queue,
}

impl Drop for Lists {
    fn drop(self) {
        let Lists {
            readers: _,
            writer: _,
        } = self;
    }
}

impl Content for Lists {
    ghost use Rattle.lock_queue.specs.Queues.{listed_in};

    ghost readers = { λ lists. listed_in lists.readers };

    ghost writer = { λ lists. listed_in lists.writer };
}

impl Lists {
    // Lists that nobody has joined.
    pub(crate) fn new() -> Lists
        ensures { (readers_of result ≡ nobody) × (writer_of result ≡ nobody) }
    {
        Lists {
            readers: Queue::new(),
            writer: Queue::new(),
        }
    }

    // What is to stand in their word, in which `found` stood: whether one of them has entries, and one notification more if one `tells`.
    // Where the count can't grow any more it stays.
    pub(crate) fn says(&self, found: u64, tells: bool) -> u64
        ensures { Says self.now result }
    {
        let told = found / NOTIFICATION;
        let told = if tells && told < MOST { told + 1 } else { told };
        if self.readers.is_empty() && self.writer.is_empty() {
            told * NOTIFICATION
        } else {
            told * NOTIFICATION + ENTRIES
        }
    }

    pub(crate) fn join(&mut self, side: Side, alloc: Global) -> Result<EntryId, Memory>
        ensures joined { IfOk result (λ id. Changes (Joins id.number) side self.old self.new) }
        ensures refused { OnErr result (Changes Stays side self.old self.new) }
    {
        match side {
            Side::Readers => self.readers.join(alloc),
            Side::Writer => self.writer.join(alloc),
        }
    }

    pub(crate) fn join_waking(
        &mut self,
        side: Side,
        alloc: Global,
        source: &Source,
        cx: &mut Context<'_>,
    ) -> Result<(EntryId, Whose), Memory>
        ensures joined { IfOk result (λ joined. Changes (Joins joined.0.number) side self.old self.new) }
        ensures refused { OnErr result (Changes Stays side self.old self.new) }
        ensures keeps { IfOk result (λ joined. IsReceipt source.now.id cx.new joined.1) }
        ensures kept { Keeps cx.old cx.new }
    {
        match side {
            Side::Readers => self.readers.join_waking(alloc, source, cx),
            Side::Writer => self.writer.join_waking(alloc, source, cx),
        }
    }

    pub(crate) fn ask(
        &mut self,
        side: Side,
        id: EntryId,
        source: &Source,
        cx: &mut Context<'_>,
    ) -> Heard
        ensures asked { ByHeard result (Changes (Leaves id.number) side self.old self.new) (λ _. Changes Stays side self.old self.new) }
        ensures waits { ByHeard result (cx.new ≡ cx.old) (IsReceipt source.now.id cx.new) }
        ensures kept { Keeps cx.old cx.new }
    {
        match side {
            Side::Readers => self.readers.ask(id, source, cx),
            Side::Writer => self.writer.ask(id, source, cx),
        }
    }

    pub(crate) fn leave(&mut self, side: Side, id: EntryId) -> (Option<Waker>, Due)
        ensures { Changes (HandsOn id.number) side self.old self.new }
    {
        match side {
            Side::Readers => self.readers.leave(id),
            Side::Writer => self.writer.leave(id),
        }
    }

    pub(crate) fn notify(&mut self, side: Side) -> Due
        ensures { Changes Pays side self.old self.new }
    {
        match side {
            Side::Readers => self.readers.notify(),
            Side::Writer => self.writer.notify(),
        }
    }

    // The entry at this index of a list.
    pub(crate) fn entry(&self, side: Side, index: usize) -> Option<(EntryId, Mark)> {
        match side {
            Side::Readers => self.readers.entry(index),
            Side::Writer => self.writer.entry(index),
        }
    }
}
