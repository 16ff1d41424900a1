//! What tests see of a barrier.

ghost use Rattle.std.specs.Prelude.{◌≡◌};

use crate::raw::RawBarrier;
use lock_event::{EntryId, Mark};
use std::sync::Wait;
use words_barrier::steps::{ENTRIES, LIST, LIST_SLOT, WORD, give_same};
use words_barrier::{take_out, wake_next};

impl RawBarrier {
    /// Returns how many generations were finished at some moment of the call. It is for tests.
    pub fn finished(&self) -> u64 {
        self.table.shared.peek(WORD)
    }

    /// Returns whether the list's word said at some moment of the call that the list may have entries. It is for tests.
    pub fn is_listed(&self) -> bool {
        self.table.shared.peek(LIST) % 8 >= ENTRIES
    }

    /// Returns the entry at this index of the list, counted from the front, with its mark. It is for tests.
    pub fn entry<R: Wait>(&self, rt: &R, index: usize) -> Option<(EntryId, Mark)> {
        let mut seat = self.sit_apart();
        let shared = &self.table.shared;
        let found = take_out(shared, rt, &mut seat.inner);
        let list = seat.inner.slot_mut(shared, LIST_SLOT);
        let entry = list.queue.entry(index);
        let word = list.says(found, false);
        let found = give_same(shared, &mut seat.inner, word);
        wake_next(shared, found);
        seat.rise();
        entry
    }
}
