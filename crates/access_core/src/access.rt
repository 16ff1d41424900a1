//! A read-write lock's state and its two lists: each single action on the state.

ghost use Rattle.std.specs.Prelude.{◌≡◌, ◌≢◌, ◌<◌, ◌≤◌, ◌%◌, ◌/◌, true, false, min, IfOk, MatchBool};
ghost use Rattle.access_core.specs.Accesses.{IsOf, IsInCall, IsIdle, IsReading, IsWriting, IsMarking, with_found, with_saw_writer, with_saw_readers, with_reading, with_left, with_last_left, with_writing, with_mark, with_down, with_unmarked, with_ease};
ghost use Rattle.access_core.specs.Found.{OnReading, OnEntering, OnReaders, OnLeft, OnMarking};

use crate::found::{Entering, Left, Marking, Readers, Reading};
use crate::lists::Lists;
use crate::seat::Seat;
use atomic_table::Table;
use futures::task::Source;
use std::alloc::{AllocError, Global};
use std::marker::Model;
use std::sync::Wait;
use words_access::steps::{
    ENTRIES, FREE, MARK, READER, READERS_LIMIT, STATE, down, enter, leave, look, look_left, mark,
    peek, try_upgrade, try_write, unmark, upgrade,
};
use words_access::{AccessRule, View};

/// A read-write lock's state and its two lists, without its turn and its value: the writer's bit, who reads, and who waits.
///
/// Contracts see: its table, the source with which its waiters register, and how many may read.
pub struct Access {
    pub(crate) table: Table<Lists, View, (), AccessRule, Global>,
    // How many may read.
    limit: u64,
    // What tasks register with that wait.
    pub(crate) source: Source,
    // Where a list is made when somebody first joins.
    pub(crate) alloc: Global,
}

// By hand, so that a drop is one call to prove.
impl Drop for Access {
    fn drop(self) {
        let Access {
            table: _,
            limit: _,
            source: _,
            alloc: _,
        } = self;
    }
}

impl Model for Access {
    ghost use Rattle.access_core.specs.Accesses.{Lock, lock_coded};

    ghost Value = { Lock };

    ghost coded = { lock_coded };

    ghost use Rattle.std.specs.Prelude.{◌≡◌, ◌≤◌};

    ghost view = { λ a. record { table = a.table.shared.table_id; source = a.source.id; limit = a.limit } };

    ghost invariant = { λ a. (a.limit ≤ 1073741823) × (a.table.shared.table_id.words ≡ 2) × (a.table.shared.table_id.slots ≡ 1) };
}

// The table of a free lock, whose lists nobody has joined.
fn free_table(alloc: Global) -> Result<Table<Lists, View, (), AccessRule, Global>, AllocError>
    ensures { IfOk result (λ table. (table.shared.table_id.words ≡ 2) × (table.shared.table_id.slots ≡ 1)) }
{
    let mut slots = Vec::with_capacity(alloc, 1)?;
    slots.push_reserved(Lists::new());
    match Table::new(alloc, &[FREE, FREE], slots, &()) {
        Ok((table, _first)) => Ok(table),
        Err(_) => Err(AllocError),
    }
}

impl Access {
    /// Makes the state of a free lock, whose lists nobody has joined, with at most so many readers. A larger number stands for the greatest
    /// limit. It fails only if memory is refused.
    pub fn with_limit(alloc: Global, limit: u64) -> Result<Access, AllocError>
        ensures { IfOk result (λ access. access.limit ≡ min limit 1073741823) }
    {
        let table = free_table(alloc)?;
        Ok(Access {
            table,
            limit: limit.min(READERS_LIMIT),
            source: Source::new(),
            alloc,
        })
    }

    /// Returns whether the writer's bit was set at some moment of the call. It needs no seat, as the next one.
    pub fn is_marked(&self) -> bool {
        self.table.shared.peek(STATE) % READER == MARK
    }

    /// Returns how many read at some moment of the call.
    pub fn readers(&self) -> u64 {
        self.table.shared.peek(STATE) / READER
    }

    /// Reads, if the writer's bit is clear and fewer read than may: a look, and one exchange where it found so. A seat that finds the
    /// bit set has looked, and owes the readers nothing any more.
    #[inline]
    pub fn read(&self, seat: &mut Seat) -> Reading
        requires of { IsOf self.now seat.old }
        requires idle { (seat.old.reads ≡ false) × (seat.old.in_writer ≡ false) }
        ensures { OnReading result ((seat.new ≡ with_reading seat.new.found seat.old) × (seat.new.found / 2 < self.now.limit)) ((seat.new ≡ with_saw_writer seat.new.found seat.old) × (seat.new.found % 2 ≡ 1)) ((seat.new ≡ with_found seat.new.found seat.old) × (self.now.limit ≤ seat.new.found / 2)) (seat.new ≡ with_found seat.new.found seat.old) }
    {
        let shared = &self.table.shared;
        let seen = look(shared, &mut seat.inner);
        if seen % READER == MARK {
            return Reading::Writer;
        }
        if seen / READER >= self.limit {
            return Reading::Full;
        }
        if enter(shared, &mut seat.inner, seen) == seen {
            Reading::Reads
        } else {
            Reading::Changed
        }
    }

    /// Reads, if the state is what somebody has `seen` there, with the writer's bit clear and below the limit: one exchange, with no look of
    /// its own. Returns whether it reads; then the seat has found what was seen.
    #[inline]
    pub fn read_from(&self, seat: &mut Seat, seen: u64) -> bool
        requires of { IsOf self.now seat.old }
        requires idle { seat.old.reads ≡ false }
        ensures { MatchBool result ((seat.new ≡ with_reading seen seat.old) × (seen / 2 < self.now.limit)) (seat.new ≡ with_found seat.new.found seat.old) }
    {
        if seen % READER == MARK || seen / READER >= self.limit {
            return false;
        }
        enter(&self.table.shared, &mut seat.inner, seen) == seen
    }

    /// Reads no more: one step. Where no reader is left, and the writer's bit is set, the seat owes the writer a notification.
    #[inline]
    pub fn off(&self, seat: &mut Seat) -> Left
        requires of { IsOf self.now seat.old }
        requires reads { seat.old.reads ≡ true }
        ensures { OnLeft result ((seat.new ≡ with_left seat.new.found seat.old) × (3 < seat.new.found)) ((seat.new ≡ with_left seat.new.found seat.old) × (seat.new.found ≡ 2)) ((seat.new ≡ with_last_left seat.new.found seat.old) × (seat.new.found ≡ 3)) }
    {
        let found = leave(&self.table.shared, &mut seat.inner);
        if found == READER {
            Left::Nobody
        } else if found == READER + MARK {
            Left::Writer
        } else {
            Left::Readers
        }
    }

    /// Sets the writer's bit: one step. If nobody is inside the seat writes at once, else it waits to. If another had set the bit, nothing has
    /// changed: but whoever has the turn finds it clear.
    #[inline]
    pub fn mark(&self, seat: &mut Seat) -> Marking
        requires of { IsOf self.now seat.old }
        ensures { OnMarking result (seat.new ≡ with_writing seat.old) (seat.new ≡ with_mark seat.old) (seat.new ≡ with_found seat.new.found seat.old) }
    {
        let found = mark(&self.table.shared, &mut seat.inner);
        if found == FREE {
            Marking::Writes
        } else if found % READER == MARK {
            Marking::WasSet
        } else {
            Marking::Waits
        }
    }

    /// Sets the writer's bit and writes, if nobody is inside: one exchange. Returns whether it writes.
    #[inline]
    pub fn try_write(&self, seat: &mut Seat) -> bool
        requires of { IsOf self.now seat.old }
        ensures { MatchBool result (seat.new ≡ with_writing seat.old) ((seat.new ≡ with_found seat.new.found seat.old) × (seat.new.found ≢ 0)) }
    {
        try_write(&self.table.shared, &mut seat.inner) == FREE
    }

    /// Looks whether readers are left, by the seat that has set the writer's bit: one load. If none is, it writes. Else it has looked, and
    /// owes the writer's list nothing any more.
    #[inline]
    pub fn look_left(&self, seat: &mut Seat) -> Readers
        requires of { IsOf self.now seat.old }
        requires waits { (seat.old.marks ≡ true) × (seat.old.in_readers ≡ false) }
        ensures { OnReaders result (seat.new ≡ with_writing seat.old) ((seat.new ≡ with_saw_readers seat.new.found seat.old) × (1 < seat.new.found)) }
    {
        if look_left(&self.table.shared, &mut seat.inner) == MARK {
            Readers::NoneLeft
        } else {
            Readers::SomeLeft
        }
    }

    /// Writes in place of reading, by the reader that is alone: one exchange. Returns whether it writes. If not, it has found another reader,
    /// or the writer's bit.
    #[inline]
    pub fn try_upgrade(&self, seat: &mut Seat) -> bool
        requires of { IsOf self.now seat.old }
        requires reads { seat.old.reads ≡ true }
        ensures { MatchBool result (seat.new ≡ with_writing seat.old) ((seat.new ≡ with_found seat.new.found seat.old) × (2 < seat.new.found)) }
    {
        try_upgrade(&self.table.shared, &mut seat.inner) == READER
    }

    /// Sets the writer's bit in place of reading: one step of the same seat, however often others come and go before it. Where nobody else reads the
    /// seat writes at once, else it waits to.
    pub fn upgrade<R: Wait>(&self, rt: &R, seat: &mut Seat) -> Readers
        requires of { IsOf self.now seat.old }
        requires reads { IsReading seat.old }
        ensures same { IsInCall seat.old seat.new }
        ensures step { OnReaders result (IsWriting seat.new) (IsMarking seat.new) }
    {
        let shared = &self.table.shared;
        for _ in rt.forever() {
            if self.try_upgrade(seat) {
                return Readers::NoneLeft;
            }
            let seen = look(shared, &mut seat.inner);
            if seen % READER == FREE
                && seen > READER
                && upgrade(shared, &mut seat.inner, seen) == seen
            {
                return Readers::SomeLeft;
            }
        }
        unreachable!()
    }

    /// Reads in place of writing: one step. The seat owes the readers a notification.
    pub fn down(&self, seat: &mut Seat)
        requires of { IsOf self.now seat.old }
        requires writes { (seat.old.writes ≡ true) × (seat.old.in_writer ≡ false) }
        ensures { seat.new ≡ with_down seat.old }
    {
        down(&self.table.shared, &mut seat.inner);
    }

    /// Clears the writer's bit: one step. The seat has left the writer's list before. It owes the readers a notification.
    #[inline]
    pub fn unmark(&self, seat: &mut Seat)
        requires of { IsOf self.now seat.old }
        requires marks { (seat.old.marks ≡ true) × (seat.old.in_writer ≡ false) }
        ensures { seat.new ≡ with_unmarked seat.old }
    {
        unmark(&self.table.shared, &mut seat.inner);
    }

    /// Reads, if the writer's bit is clear and fewer read than may be, however often the state changes meanwhile. Whoever it lets in has found
    /// fewer readers than the lock's own limit.
    #[inline]
    pub fn enter<R: Wait>(&self, rt: &R, seat: &mut Seat) -> Entering
        requires of { IsOf self.now seat.old }
        requires idle { (seat.old.reads ≡ false) × (seat.old.in_writer ≡ false) }
        ensures { OnEntering result ((seat.new ≡ with_reading seat.new.found seat.old) × (seat.new.found / 2 < self.now.limit)) ((seat.new ≡ with_saw_writer seat.new.found seat.old) × (seat.new.found % 2 ≡ 1)) ((seat.new ≡ with_found seat.new.found seat.old) × (self.now.limit ≤ seat.new.found / 2)) }
    {
        for _ in rt.forever() {
            match self.read(seat) {
                Reading::Reads => return Entering::Reads,
                Reading::Writer => return Entering::Writer,
                Reading::Full => return Entering::Full,
                Reading::Changed => {}
            }
        }
        unreachable!()
    }

    /// Reads, by a party that has the turn, if fewer read than may. No writer's bit is set then: the call would look again until it is clear.
    /// Whoever it lets in has found fewer readers than the lock's own limit.
    #[inline]
    pub fn add<R: Wait>(&self, rt: &R, seat: &mut Seat) -> bool
        requires of { IsOf self.now seat.old }
        requires idle { IsIdle seat.old }
        ensures same { IsInCall seat.old seat.new }
        ensures step { MatchBool result (IsReading seat.new × (seat.new.found / 2 < self.now.limit)) (IsIdle seat.new × (self.now.limit ≤ seat.new.found / 2)) }
    {
        for _ in rt.forever() {
            match self.read(seat) {
                Reading::Reads => return true,
                Reading::Full => return false,
                Reading::Writer => {}
                Reading::Changed => {}
            }
        }
        unreachable!()
    }

    /// Sets the writer's bit, by a party that has the turn. Another has not set it then: the call would look again until it is clear.
    #[inline]
    pub fn mark_until<R: Wait>(&self, rt: &R, seat: &mut Seat) -> Readers
        requires of { IsOf self.now seat.old }
        requires idle { IsIdle seat.old }
        ensures same { IsInCall seat.old seat.new }
        ensures step { OnReaders result (IsWriting seat.new) (IsMarking seat.new) }
    {
        for _ in rt.forever() {
            match self.mark(seat) {
                Marking::Writes => return Readers::NoneLeft,
                Marking::Waits => return Readers::SomeLeft,
                Marking::WasSet => {}
            }
        }
        unreachable!()
    }

    /// Returns whether one of the lists may have entries: one load. If not, the seat owes nothing any more.
    #[inline]
    pub fn may_have_entries(&self, seat: &mut Seat) -> bool
        requires of { IsOf self.now seat.old }
        ensures some { result ≡ true → seat.new ≡ seat.old }
        ensures none { result ≡ false → seat.new ≡ with_ease seat.old }
    {
        peek(&self.table.shared, &mut seat.inner) % 8 >= ENTRIES
    }
}
