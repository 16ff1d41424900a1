//! A once-cell without its runtime: its words, its lists and its value, and each single action on them.

ghost use Rattle.std.specs.Prelude.{◌≡◌, ◌+◌, true, false, IfNone, IfOk, IfSome};
ghost use Rattle.cell_core.specs.Cells.{IsAt, IsOf, IsToNotify, OnState, goes, with_seen, with_full, with_claim, with_miss, with_late, with_filled, with_emptied, with_ease};
ghost use Rattle.cell_core.specs.Courses.{IsOutside};
ghost use Rattle.sync_program.specs.declared.once_cell.Action.TheVariants as act;
ghost use Rattle.sync_program.specs.declared.once_cell.Found.TheVariants as finds;

use crate::lists::Lists;
use crate::seat::Seat;
use crate::state::State;
use crate::stored::{Begins, Stored, Taken};
use atomic_table::Table;
use futures::task::Source;
use std::alloc::{AllocError, Global};
use std::marker::Model;
use std::sync::{OnceToken, Wait};
use sync_program::once_cell::{Found, Place};
use words_cell::steps::{
    EMPTY, ENTRIES, FULL, LIST, MAKING, WORD, claim, empty, fill, look, peek, take,
};
use words_cell::{CellRule, View};

/// A cell's words and lists.
pub(crate) struct Words {
    pub(crate) table: Table<Lists, View, bool, CellRule, Global>,
    // Whether the cell began with a value.
    begins: Begins,
    ghost sizes: { (table.shared.table_id.words ≡ 2) × (table.shared.table_id.slots ≡ 1) },
    ghost start: { table.shared.key ≡ begins.is_full },
}

impl Drop for Words {
    fn drop(self) {
        let Words {
            table: _,
            begins: _,
        } = self;
    }
}

/// A once-cell without its runtime: whether it is empty, being made, or full, its value, and who waits.
///
/// Contracts see: its table, whether it began full, where its value lies (`word`), and the source that waiting tasks register with.
pub struct RawCell<T> {
    pub(crate) words: Words,
    pub(crate) stored: Stored<T>,
    // What tasks register with that wait.
    pub(crate) source: Source,
    // Where a list is made when somebody first joins, and where wakers lie that are due.
    pub(crate) alloc: Global,
}

// By hand, so that a drop is one call to prove, and not all of its parts again.
impl<T: Drop> Drop for RawCell<T> {
    fn drop(self) {
        let RawCell {
            words: _,
            stored: _,
            source: _,
            alloc: _,
        } = self;
    }
}

impl<T> Model for RawCell<T> {
    ghost use Rattle.cell_core.specs.Cells.{Cell, cell_coded};

    ghost Value = { Cell };

    ghost coded = { cell_coded };

    ghost view = { λ c. record { word = record { table = c.words.table.shared.table_id; start = c.words.table.shared.key; store = c.stored.lock.id }; source = c.source.id } };
}

// The table of an empty cell.
fn empty_table(alloc: Global) -> Result<Table<Lists, View, bool, CellRule, Global>, AllocError>
    ensures sizes { IfOk result (λ table. (table.shared.table_id.words ≡ 2) × (table.shared.table_id.slots ≡ 1)) }
    ensures key { IfOk result (λ table. table.shared.key ≡ false) }
{
    let mut slots = Vec::with_capacity(alloc, 1)?;
    slots.push_reserved(Lists::new());
    match Table::new(alloc, &[EMPTY, 0], slots, &false) {
        Ok((table, _first)) => Ok(table),
        Err(_) => Err(AllocError),
    }
}

// The table of a full cell.
fn full_table(alloc: Global) -> Result<Table<Lists, View, bool, CellRule, Global>, AllocError>
    ensures sizes { IfOk result (λ table. (table.shared.table_id.words ≡ 2) × (table.shared.table_id.slots ≡ 1)) }
    ensures key { IfOk result (λ table. table.shared.key ≡ true) }
{
    let mut slots = Vec::with_capacity(alloc, 1)?;
    slots.push_reserved(Lists::new());
    match Table::new(alloc, &[FULL, 0], slots, &true) {
        Ok((table, _first)) => Ok(table),
        Err(_) => Err(AllocError),
    }
}

impl<T: Drop> RawCell<T> {
    /// Makes an empty cell. It fails only if memory is refused.
    pub fn new(alloc: Global) -> Result<RawCell<T>, AllocError>
        ensures { IfOk result (λ cell. cell.word.start ≡ false) }
    {
        let table = empty_table(alloc)?;
        let (stored, begins) = Stored::nothing();
        Ok(RawCell {
            words: Words { table, begins },
            stored,
            source: Source::new(),
            alloc,
        })
    }

    /// Makes a full cell. If memory is refused, the value is dropped.
    pub fn with_value(alloc: Global, value: T) -> Result<RawCell<T>, AllocError>
        ensures { IfOk result (λ cell. cell.word.start ≡ true) }
    {
        let table = full_table(alloc)?;
        let (stored, begins) = Stored::with(value);
        Ok(RawCell {
            words: Words { table, begins },
            stored,
            source: Source::new(),
            alloc,
        })
    }
}

impl<T> RawCell<T> {
    /// Returns whether the cell was full at some moment of the call. It needs no seat and waits for nobody.
    #[inline]
    pub fn is_full(&self) -> bool {
        self.words.table.shared.peek(WORD) == FULL
    }

    /// Returns the value of a full cell. It needs no seat and waits for nobody.
    #[inline]
    pub fn get(&self) -> Option<&T> {
        if self.is_full() {
            self.stored.get()
        } else {
            None
        }
    }

    /// Returns what shows the value of a full cell, by which [`RawCell::value`] reads it. It needs no seat and waits for nobody.
    ///
    /// What shows a value of a cell shows the same as any other of that cell (`OnceToken::agrees`).
    pub fn witness(&self) -> Option<OnceToken<'_, T>>
        ensures { IfSome result (λ token. token.of ≡ self.now.word.store) }
    {
        if self.is_full() {
            self.stored.witness()
        } else {
            None
        }
    }

    /// Returns the value that this shows. It waits for nobody.
    pub fn value<'a>(&'a self, shown: &OnceToken<'a, T>) -> &'a T
        requires { shown.now.of ≡ self.now.word.store }
        ensures { result.now ≡ shown.now.value }
    {
        self.stored.value(shown)
    }

    /// Returns the value, or waits until there is one. It stands there before the word says so: so who knows that the cell was full
    /// doesn't wait.
    pub fn made<R: Wait>(&self, rt: &R) -> &T {
        self.stored.wait(rt)
    }

    /// Returns the value, for a seat that found the cell full. The value stands there before the word says so, and so the call
    /// doesn't wait.
    pub fn lend<R: Wait>(&self, rt: &R, seat: &Seat) -> &T
        requires of { IsOf self.now seat.now }
        requires full { seat.now.found ≡ 2 }
    {
        let _ = seat;
        self.made(rt)
    }

    /// Returns what the cell was at some moment of the call: one load, which waits for nobody.
    pub fn state(&self) -> State {
        match self.words.table.shared.peek(WORD) {
            EMPTY => State::Empty,
            MAKING => State::Making,
            _ => State::Full,
        }
    }

    /// Returns the value to be written.
    pub fn get_mut(&mut self) -> Option<&mut T> {
        self.stored.get_mut()
    }

    /// Takes the value out of a full cell, which is empty then: by who has the cell alone. It waits for nobody and takes no memory.
    pub fn take(&mut self) -> Option<T> {
        let mut seat = self.sit();
        if !self.empty_full(&mut seat) {
            seat.rise();
            return None;
        }
        let taken = Taken::by(&seat);
        seat.rise();
        self.stored.take(taken)
    }

    /// Returns the value that the cell has. It waits for nobody and takes no memory.
    pub fn into_inner(self) -> Option<T> {
        let RawCell {
            words,
            stored,
            source,
            alloc: _,
        } = self;
        drop(words);
        drop(source);
        stored.into_inner()
    }

    /// Looks at the cell, by a seat that doesn't wait to make: one load.
    #[inline]
    pub fn look(&self, seat: &mut Seat, at: Place<()>) -> State
        requires of { IsOf self.now seat.old }
        requires course { IsAt at act.Look seat.old }
        requires away { seat.old.in_active ≡ false }
        ensures { OnState result (seat.new ≡ goes at finds.Empty (with_seen 0 seat.old)) (seat.new ≡ goes at finds.BeingMade (with_seen 1 seat.old)) (seat.new ≡ goes at (finds.Full tt) (with_full seat.old)) }
    {
        match look(&self.words.table.shared, &mut seat.inner) {
            EMPTY => {
                seat.go(at, Found::Empty);
                State::Empty
            }
            MAKING => {
                seat.go(at, Found::BeingMade);
                State::Making
            }
            _ => {
                seat.go(at, Found::Full(()));
                State::Full
            }
        }
    }

    /// Takes the right to make the value, if the cell is empty: one exchange. Returns what the cell was before.
    #[inline]
    pub fn claim(&self, seat: &mut Seat, at: Place<()>) -> State
        requires of { IsOf self.now seat.old }
        requires course { IsAt at act.Claim seat.old }
        ensures { OnState result (seat.new ≡ goes at finds.Empty (with_claim seat.old)) (seat.new ≡ goes at finds.BeingMade (with_miss seat.old)) (seat.new ≡ goes at (finds.Full tt) (with_late seat.old)) }
    {
        match claim(&self.words.table.shared, &mut seat.inner) {
            EMPTY => {
                seat.go(at, Found::Empty);
                State::Empty
            }
            FULL => {
                seat.go(at, Found::Full(()));
                State::Full
            }
            _ => {
                seat.go(at, Found::BeingMade);
                State::Making
            }
        }
    }

    /// Puts a value in, by the seat that has the right to make: what shows the cell's value, and this value back where another
    /// stands there already. It is the first half of the action by which a value enters the cell, and [`RawCell::fill`] is the other.
    ///
    /// Nobody else puts one in meanwhile, since one seat at most has that right. So the call doesn't wait for another thread.
    pub fn put<R: Wait>(
        &self,
        rt: &R,
        seat: &Seat,
        value: T,
        at: Place<()>,
    ) -> (OnceToken<'_, T>, Option<T>)
        requires of { IsOf self.now seat.now }
        requires course { IsAt at (act.Fill tt) seat.now }
        requires makes { seat.now.makes ≡ true }
        ensures shown { result.0.of ≡ self.now.word.store }
        ensures set { IfNone result.1 (result.0.value ≡ value) }
        ensures back { IfSome result.1 (λ back. back ≡ value) }
    {
        self.stored.put(rt, seat.right(at), value)
    }

    /// Makes the cell full, by the seat that has the right to make: one step. Its value has been set before, as the token shows.
    /// The seat owes a notification of all in both lists.
    pub fn fill(&self, seat: &mut Seat, set: &OnceToken<'_, T>, at: Place<()>)
        requires of { IsOf self.now seat.old }
        requires course { IsAt at (act.Fill tt) seat.old }
        requires makes { seat.old.makes ≡ true }
        requires set { set.now.of ≡ self.now.word.store }
        ensures { seat.new ≡ goes at finds.Done (with_filled seat.old) }
    {
        let _ = set;
        fill(&self.words.table.shared, &mut seat.inner);
        seat.go(at, Found::Done);
    }

    /// Makes the cell empty again, by the seat that has the right to make: one step. The seat owes a notification of one that would
    /// make the value.
    pub fn empty(&self, seat: &mut Seat, at: Place<()>)
        requires of { IsOf self.now seat.old }
        requires course { IsAt at act.Empty seat.old }
        requires makes { seat.old.makes ≡ true }
        ensures { seat.new ≡ goes at finds.Done (with_emptied seat.old) }
    {
        empty(&self.words.table.shared, &mut seat.inner);
        seat.go(at, Found::Done);
    }

    /// Makes a full cell empty, for whoever takes its value out: one exchange, outside every call of a program. Returns whether it was full.
    pub fn empty_full(&self, seat: &mut Seat) -> bool
        requires of { IsOf self.now seat.old }
        requires course { IsOutside seat.old.course }
        ensures took { result ≡ true → seat.new ≡ record seat.old { found = 2; taken = seat.old.taken + 1 } }
        ensures not { result ≡ false → seat.new ≡ record seat.old { found = seat.new.found } }
    {
        take(&self.words.table.shared, &mut seat.inner) == FULL
    }

    /// Returns whether one of the lists may have entries: one load. If not, there is nobody to notify, so that was done, and the seat owes
    /// nothing any more.
    #[inline]
    pub fn may_have_entries(&self, seat: &mut Seat, at: Place<()>) -> bool
        requires of { IsOf self.now seat.old }
        requires course { IsToNotify at seat.old }
        ensures some { result ≡ true → seat.new ≡ seat.old }
        ensures none { result ≡ false → seat.new ≡ goes at finds.Done (with_ease seat.old) }
    {
        if peek(&self.words.table.shared, &mut seat.inner) % 8 >= ENTRIES {
            return true;
        }
        seat.go(at, Found::Done);
        false
    }
}
