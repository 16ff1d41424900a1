//! A list of a cell, for tests that look into it.

ghost use Rattle.std.specs.Prelude.{◌≡◌};

use crate::cell::RawCell;
use lock_event::{EntryId, Mark};
use std::sync::Wait;
use sync_program::once_cell::ListName;
use words_cell::steps::{ENTRIES, LIST, LIST_SLOT, give_same};
use words_cell::{take_out, wake_next};

/// A list of a cell. It is for tests.
pub struct Watched<'a, T> {
    cell: &'a RawCell<T>,
    list: ListName,
}

impl<T> Drop for Watched<'_, T> {
    fn drop(self) {
        let Self { cell: _, list: _ } = self;
    }
}

impl<T> RawCell<T> {
    /// Who waits in this list. It is for tests.
    pub fn list(&self, list: ListName) -> Watched<'_, T> {
        Watched { cell: self, list }
    }
}

impl<T> Watched<'_, T> {
    /// Returns whether the list has entries.
    pub fn is_listed<R: Wait>(&self, rt: &R) -> bool {
        self.entry(rt, 0).is_some()
    }

    /// Returns whether one of the cell's lists may have entries: one load.
    pub fn may_have_entries(&self) -> bool {
        let cell = self.cell;
        cell.words.table.shared.peek(LIST) % 8 >= ENTRIES
    }

    /// Returns the entry at this index, counted from the front, with its mark.
    pub fn entry<R: Wait>(&self, rt: &R, index: usize) -> Option<(EntryId, Mark)> {
        let cell = self.cell;
        let mut seat = cell.sit();
        let shared = &cell.words.table.shared;
        let found = take_out(shared, rt, &mut seat.inner);
        let lists = seat.inner.slot_mut(shared, LIST_SLOT);
        let entry = lists.entry(self.list, index);
        let word = lists.says(found, false);
        let found = give_same(shared, &mut seat.inner, word);
        wake_next(shared, found);
        seat.rise();
        entry
    }
}
