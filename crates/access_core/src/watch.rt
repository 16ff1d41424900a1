//! What a test sees of the lists.

use crate::access::Access;
use crate::lists::Side;
use lock_event::{EntryId, Mark};
use std::sync::Wait;
use words_access::steps::{LIST_SLOT, give_same};
use words_access::{take_out, wake_next};

impl Access {
    /// Returns the entry at this index of a list, counted from the front, with its mark. It is for tests.
    pub fn entry<R: Wait>(&self, rt: &R, side: Side, index: usize) -> Option<(EntryId, Mark)> {
        let mut seat = self.sit();
        let shared = &self.table.shared;
        let found = take_out(shared, rt, &mut seat.inner);
        let lists = seat.inner.slot_mut(shared, LIST_SLOT);
        let entry = lists.entry(side, index);
        let word = lists.says(found, false);
        let found = give_same(shared, &mut seat.inner, word);
        wake_next(shared, found);
        seat.rise();
        entry
    }
}
