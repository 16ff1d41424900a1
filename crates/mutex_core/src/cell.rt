//! What lies in a slot of a mutex's table.

ghost use Rattle.std.specs.Prelude.{◌≡◌, ◌%◌, []};
ghost use Rattle.mutex_core.specs.Cells.{entries_of, cell_entries};
ghost use Rattle.words_mutex.specs.Rule.{SaysEmpty};

use atomic_table::Seat as TableSeat;
use lock_place::{Rested, Spare};
use lock_queue::Queue;
use std::mem;
use words_mutex::steps::{ENTRIES, NOTIFICATION, Ruled};
use words_mutex::{Content, View};

// How many notifications a list's word counts at most.
pub(crate) const MOST: u64 = 2_305_843_009_213_693_951;

// The tables of mutexes over a `T`.
pub(crate) type Listing<T> = Ruled<T, Cell<T>>;

// The seats of those tables.
pub(crate) type Lister<T> = TableSeat<Cell<T>, View>;

/// What lies in a slot of a mutex's table: its waiting list, or the right to its value. One of the two is nothing.
pub struct Cell<T> {
    pub(crate) right: Rested<T>,
    pub(crate) queue: Queue,
}

impl<T> Drop for Cell<T> {
    fn drop(self) {
        let Cell { right: _, queue: _ } = self;
    }
}

impl<T> Content for Cell<T> {
    ghost use Rattle.lock_event.specs.Lists.{marked_count};
    ghost use Rattle.lock_place.specs.Rested.{IsRight};
    ghost use Rattle.lock_queue.specs.Entries.{numbers_in};
    ghost use Rattle.mutex_core.specs.Cells.{entries_of};

    ghost entries = { λ cell. numbers_in (entries_of cell) };

    ghost marked = { λ cell. marked_count (entries_of cell) };

    ghost is_right = { λ room deed cell. IsRight room deed cell.right };
}

impl<T> Cell<T> {
    // A list that nobody has joined.
    pub(crate) fn list(spare: &Spare<T>) -> Cell<T>
        ensures { entries_of result ≡ [] }
    {
        Cell {
            right: Rested::nothing(spare),
            queue: Queue::new(),
        }
    }

    // Where the right rests.
    pub(crate) fn of(right: Rested<T>) -> Cell<T>
        ensures { result.right ≡ right }
    {
        Cell {
            right,
            queue: Queue::new(),
        }
    }

    // Another right comes to rest there: the one before. A right has no bytes, so no memory is read or written.
    #[inline]
    pub(crate) fn put_right(&mut self, right: Rested<T>) -> Rested<T>
        ensures before { result ≡ self.old.right }
        ensures now { self.new.right ≡ right }
    {
        mem::replace(&mut self.right, right)
    }

    // What is to stand in the list's word, in which `found` stood: whether it has entries, and one notification more if it `tells`.
    // Where the count can't grow any more it stays.
    pub(crate) fn says(&self, found: u64, tells: bool) -> u64
        ensures { (result % 4 ≡ 0) × (SaysEmpty result → cell_entries self.now ≡ []) }
    {
        let told = found / NOTIFICATION;
        let told = if tells && told < MOST { told + 1 } else { told };
        if self.queue.is_empty() {
            told * NOTIFICATION
        } else {
            told * NOTIFICATION + ENTRIES
        }
    }
}
