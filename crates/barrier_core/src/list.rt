//! What lies in the slot of a barrier's table: its list.

ghost use Rattle.std.specs.Prelude.{◌≡◌, []};
ghost use Rattle.lock_queue.specs.Queues.{entries_of};
ghost use Rattle.barrier_core.specs.Lists.{Says};

use atomic_table::Seat as TableSeat;
use lock_queue::Queue;
use words_barrier::steps::{ENTRIES, NOTIFICATION, Ruled};
use words_barrier::{Content, View};

// How many notifications a list's word counts at most.
pub(crate) const MOST: u64 = 2_305_843_009_213_693_951;

// The tables of barriers.
pub(crate) type Listing = Ruled<Entries>;

// The seats of those tables.
pub(crate) type Lister = TableSeat<Entries, View>;

/// The entries of those that wait at a barrier.
pub struct Entries {
    pub(crate) queue: Queue,
}

impl Drop for Entries {
    fn drop(self) {
        let Entries { queue: _ } = self;
    }
}

impl Content for Entries {
    ghost use Rattle.lock_queue.specs.Queues.{listed_in};

    ghost listed = { λ list. listed_in list.queue };
}

impl Entries {
    // A list that nobody has joined.
    pub(crate) fn new() -> Entries
        ensures { entries_of result.queue ≡ [] }
    {
        Entries {
            queue: Queue::new(),
        }
    }

    // What is to stand in the list's word, in which `found` stood: whether it has entries, and one notification more if it `tells`.
    // Where the count can't grow any more it stays.
    pub(crate) fn says(&self, found: u64, tells: bool) -> u64
        ensures { Says self.now result }
    {
        let told = found / NOTIFICATION;
        let told = if tells && told < MOST { told + 1 } else { told };
        if self.queue.is_empty() {
            told * NOTIFICATION
        } else {
            told * NOTIFICATION + ENTRIES
        }
    }
}
