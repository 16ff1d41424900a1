//! The words of a mutex, its list and the right to its value, and the tries on the words.

ghost use Rattle.std.specs.Prelude.{◌≡◌, ◌≤◌, ◌%◌, true, false, [], ◌∷◌, IfErr, IfOk, IsSome, OnOk, OnErr};
ghost use Rattle.atomic_table.specs.Table.{rest};
ghost use Rattle.lock_place.specs.Rested.{IsRight};
ghost use Rattle.lock_program.specs.declared.mutex.Action.TheVariants as act;
ghost use Rattle.lock_program.specs.declared.mutex.Found.TheVariants as finds;
ghost use Rattle.mutex_core.specs.Locks.{FindsHeld, FindsStarved, HasSlots, IsAt, IsOf, TakesFrom, entering, goes, with_found, with_held, with_look, with_cleared, with_paid, with_count, with_count_owing, with_uncounted};
ghost use Rattle.mutex_core.specs.Outcomes.{IsRightOf};
ghost use Rattle.words_base.specs.Tries.{OnTaking, OnAlone, OnSetting};

use crate::cell::{Cell, Lister, Listing};
use crate::left::WasHeld;
use crate::seat::Seat;
use atomic_table::Table;
use futures::task::Source;
use lock_place::{Hold, Place as ValuePlace, Rested, Room, Spare, Ticket};
use lock_program::mutex::{Found, Place};
use std::alloc::{AllocError, Global};
use std::marker::Model;
use std::sync::Wait;
use words_base::{Setting, Taking, TakingAlone};
use words_mutex::steps::{
    ALONE, COUNT, ENTRIES, FREE, HELD, RIGHT_SLOT, WORD, clear, exchange, exchange_alone, lift,
    look, peek, uncount,
};
use words_mutex::{Full, MutexRule, View, tally, tally_listed};

/// The greatest number of seats that are counted as starved at once.
pub const STARVED_LIMIT: u64 = 1_073_741_823;

/// A mutex: its words, its waiting list, the right to its value, and the value.
///
/// Contracts see: its table, the right to its value as the lock was made, where the value lies now (`room`), the source with which its
/// waiters register, how many of them may be starved, and whether a forgotten seat left it held, and its value was lent past that
/// seat (`is_left`).
pub struct Words<T> {
    pub(crate) table: Table<Cell<T>, View, Spare<T>, MutexRule, Global>,
    pub(crate) place: ValuePlace<T, Global>,
    pub(crate) spare: Spare<T>,
    // A forgotten seat left the lock held, and the value has been lent past it. The lock stays held then, and the right that the seat
    // had is worth nothing.
    pub(crate) left: Option<WasHeld>,
    // How many may be starved. Only a count reads it.
    limit: u64,
    // What tasks register with that wait.
    pub(crate) source: Source,
    // Where the list is made when somebody first joins.
    pub(crate) alloc: Global,
}

// By hand, so that a drop is one call to prove.
impl<T: Drop> Drop for Words<T> {
    // In line, as in `with_limit`.
    #[inline(always)]
    fn drop(self) {
        let Words {
            table: _,
            place: _,
            spare: _,
            left: _,
            limit: _,
            source: _,
            alloc: _,
        } = self;
    }
}

impl<T> Model for Words<T> {
    ghost use Rattle.mutex_core.specs.Locks.{Lock, lock_coded};

    ghost Value = { Lock };

    ghost coded = { lock_coded };

    ghost use Rattle.std.specs.Prelude.{◌≡◌, ◌≤◌, false, IsSome, is_some};

    ghost view = { λ w. record { table = w.table.shared.table_id; right = record { room = w.table.shared.key.room_id; deed = w.table.shared.key.deed }; room = w.place.room.room_id; source = w.source.id; limit = w.limit; is_left = is_some w.left } };

    ghost invariant = { λ w. (w.limit ≤ 1073741823) × (w.table.shared.table_id.words ≡ 2) × (w.table.shared.table_id.slots ≡ 2) × (w.spare.room_id ≡ w.place.room.room_id) × (is_some w.left ≡ false → (w.table.shared.key.room_id ≡ w.place.room.room_id) × (w.table.shared.key.deed ≡ w.spare.deed) × IsSome w.spare.value) };
}

impl<T> Words<T> {
    /// Creates a free lock over a value, with an empty list. If memory is refused, the value is dropped.
    pub fn new(alloc: Global, value: T) -> Result<Words<T>, AllocError>
    where
        T: Drop,
        ensures is_left { IfOk result (λ words. words.is_left ≡ false) }
        ensures limit { IfOk result (λ words. words.limit ≡ 1073741823) }
    {
        Words::with_limit(alloc, value, STARVED_LIMIT)
    }

    /// Creates a free lock as [`Words::new`] does, where fewer may be starved. It is for tests.
    // In line, as all that makes a lock: so it isn't copied from one place to the next.
    #[inline(always)]
    pub fn with_limit(alloc: Global, value: T, limit: u64) -> Result<Words<T>, AllocError>
    where
        T: Drop,
        requires { limit ≤ 1073741823 }
        ensures is_left { IfOk result (λ words. words.is_left ≡ false) }
        ensures limit { IfOk result (λ words. words.limit ≡ limit) }
    {
        let Ok((place, hold)) = ValuePlace::new(alloc, value) else {
            return Err(AllocError);
        };
        let (mut spare, ticket) = Spare::new(&place.room);
        spare.lend(hold, &place);
        match free_table(alloc, &spare, ticket) {
            Ok(table) => Ok(Words {
                table,
                place,
                spare,
                left: None,
                limit,
                source: Source::new(),
                alloc,
            }),
            Err(error) => Err(error),
        }
    }

    /// Returns the value, whatever became of the seats and the rights. It takes no memory, and waits for nobody.
    pub fn into_inner(self) -> T {
        let Words {
            table,
            place,
            spare,
            left: _,
            limit: _,
            source,
            alloc: _,
        } = self;
        drop(source);
        drop(table);
        drop(spare);
        place.into_inner()
    }

    /// Returns where the value lies. [`Hold::get`] and [`Hold::get_mut`] lend it to whoever has its right.
    pub fn room(&self) -> &Room<T>
        ensures { result.now.room_id ≡ self.now.room }
    {
        &self.place.room
    }

    /// Returns what tasks register with that wait for the lock.
    pub fn source(&self) -> &Source
        ensures { result.now.id ≡ self.now.source }
    {
        &self.source
    }

    /// Returns whether the lock was held at some moment of the call.
    pub fn is_locked(&self) -> bool {
        self.table.shared.peek(WORD) % COUNT == HELD
    }

    /// Returns a new seat, with nothing: one load.
    #[inline]
    pub fn sit(&self) -> Seat<T>
        ensures { result ≡ entering self.now result.id }
    {
        Seat::sit(&self.table.shared)
    }

    /// Finds a lock held that was left so, without a step.
    #[inline]
    pub fn find_left(&self, seat: &mut Seat<T>, at: Place)
        requires course { IsAt at act.Take seat.old }
        requires left { self.now.is_left ≡ true }
        ensures { seat.new ≡ goes at (finds.Held false) seat.old }
    {
        seat.go(at, Found::Held { starving: false });
    }

    /// Takes the lock if it is free and nobody is starved: a look, and one exchange where it found so. A seat that finds the lock held
    /// owes nothing any more. Whatever it finds, it has looked, and its answer is what it found (`found`).
    #[inline]
    pub fn take(&self, seat: &mut Seat<T>, at: Place) -> Taking<Hold<T>>
        requires of { IsOf self.now seat.old }
        requires course { IsAt at act.Take seat.old }
        requires left { self.now.is_left ≡ false }
        requires idle { seat.old.holds ≡ false }
        requires stands { seat.old.starved ≡ true → seat.old.listed ≡ true }
        ensures { OnTaking result (λ hold. TakesFrom self.now at seat.old seat.new 0 × IsRightOf self.now hold) (FindsHeld self.now at seat.old seat.new false) (FindsStarved self.now at seat.old seat.new) }
    {
        let shared = &self.table.shared;
        let seen = look(shared, &mut seat.inner);
        let found = if seen == FREE {
            exchange(shared, &mut seat.inner)
        } else {
            seen
        };
        if found == FREE {
            let hold = take_right(shared, &self.spare, &mut seat.inner);
            seat.go(at, Found::Free);
            return Taking::Got(hold);
        }
        if found == HELD {
            seat.go(at, Found::Held { starving: false });
            Taking::Held
        } else {
            seat.go(at, Found::SomeStarved);
            Taking::Starved
        }
    }

    /// Takes the lock if it is free and no other seat is starved: one exchange, by a starved seat with an entry. A seat that finds the lock
    /// held owes nothing any more. Whatever it finds, it has looked.
    pub fn take_alone(&self, seat: &mut Seat<T>, at: Place) -> TakingAlone<Hold<T>>
        requires of { IsOf self.now seat.old }
        requires course { IsAt at act.TakeAlone seat.old }
        requires idle { seat.old.holds ≡ false }
        requires left { self.now.is_left ≡ false }
        requires stands { (seat.old.starved ≡ true) × (seat.old.listed ≡ true) }
        ensures { OnAlone result (λ hold. TakesFrom self.now at seat.old seat.new 2 × IsRightOf self.now hold) ((seat.new ≡ goes at (finds.Held false) (with_held seat.new.found seat.old)) × (seat.new.found % 2 ≡ 1)) ((seat.new ≡ goes at finds.SomeStarved (with_look seat.new.found seat.old)) × (seat.new.found % 2 ≡ 0)) }
    {
        let shared = &self.table.shared;
        let found = exchange_alone(shared, &mut seat.inner);
        if found == ALONE {
            let hold = take_right(shared, &self.spare, &mut seat.inner);
            seat.go(at, Found::Free);
            return TakingAlone::Got(hold);
        }
        if found % COUNT == HELD {
            seat.go(at, Found::Held { starving: false });
            TakingAlone::Held
        } else {
            seat.go(at, Found::SomeStarved);
            TakingAlone::FreeWithOthers
        }
    }

    /// Makes the lock held, and takes it if it was free, whoever is starved: one step.
    pub fn set(&self, seat: &mut Seat<T>, at: Place) -> Setting<Hold<T>>
        requires of { IsOf self.now seat.old }
        requires course { IsAt at act.Set seat.old }
        requires idle { seat.old.holds ≡ false }
        ensures { OnSetting result (λ hold. TakesFrom self.now at seat.old seat.new seat.new.found × IsRightOf self.now hold) ((seat.new ≡ goes at (finds.Held false) (with_found seat.new.found seat.old)) × (self.now.is_left ≡ false → seat.new.found % 2 ≡ 1)) }
    {
        if self.left.is_some() {
            seat.go(at, Found::Held { starving: false });
            return Setting::WasSet;
        }
        let shared = &self.table.shared;
        if lift(shared, &mut seat.inner) % COUNT == HELD {
            seat.go(at, Found::Held { starving: false });
            return Setting::WasSet;
        }
        let hold = take_right(shared, &self.spare, &mut seat.inner);
        seat.go(at, Found::Free);
        Setting::Got(hold)
    }

    /// Counts a seat as starved that has an entry and has looked. It tries again where others came between. [`Full`] comes where as many
    /// are starved as may be (`limit`), and nothing has changed then.
    pub fn count_listed<R: Wait>(&self, rt: &R, seat: &mut Seat<T>, at: Place) -> Result<(), Full>
        requires of { IsOf self.now seat.old }
        requires course { IsAt at act.Count seat.old }
        requires waits { (seat.old.starved ≡ false) × (seat.old.listed ≡ true) × (seat.old.fresh ≡ false) }
        ensures counted { OnOk result (seat.new ≡ goes at finds.Done (with_count seat.old)) }
        ensures not { OnErr result (seat.new ≡ goes at finds.AtLimit seat.old) }
        ensures limit { IfErr result (λ full. self.now.limit ≤ full.starved) }
    {
        match tally_listed(&self.table.shared, rt, &mut seat.inner, self.limit) {
            Ok(()) => {
                seat.go(at, Found::Done);
                Ok(())
            }
            Err(full) => {
                seat.go(at, Found::AtLimit);
                Err(full)
            }
        }
    }

    /// Counts a seat as starved, as [`Words::count_listed`]. The seat may have no entry, and owes a look then.
    pub fn count<R: Wait>(&self, rt: &R, seat: &mut Seat<T>, at: Place) -> Result<(), Full>
        requires of { IsOf self.now seat.old }
        requires course { IsAt at act.Count seat.old }
        requires one { seat.old.starved ≡ false }
        ensures counted { OnOk result (seat.new ≡ goes at finds.Done (with_count_owing seat.old)) }
        ensures not { OnErr result (seat.new ≡ goes at finds.AtLimit seat.old) }
        ensures limit { IfErr result (λ full. self.now.limit ≤ full.starved) }
    {
        match tally(&self.table.shared, rt, &mut seat.inner, self.limit) {
            Ok(()) => {
                seat.go(at, Found::Done);
                Ok(())
            }
            Err(full) => {
                seat.go(at, Found::AtLimit);
                Err(full)
            }
        }
    }

    /// Takes a seat's count off: one step.
    pub fn uncount(&self, seat: &mut Seat<T>, at: Place)
        requires of { IsOf self.now seat.old }
        requires course { IsAt at act.Uncount seat.old }
        requires starved { seat.old.starved ≡ true }
        ensures { seat.new ≡ goes at finds.Done (with_uncounted seat.old) }
    {
        uncount(&self.table.shared, &mut seat.inner);
        seat.go(at, Found::Done);
    }

    /// Gives the lock back, and the right with it: one step. The seat owes a notification then.
    #[inline]
    pub fn clear(&self, seat: &mut Seat<T>, hold: Hold<T>, at: Place)
        requires of { IsOf self.now seat.old }
        requires course { IsAt at act.Clear seat.old }
        requires holds { seat.old.holds ≡ true }
        requires right { IsRightOf self.now hold }
        ensures { seat.new ≡ goes at finds.Done (with_cleared seat.old) }
    {
        let shared = &self.table.shared;
        let place = seat.inner.slot_mut(shared, RIGHT_SLOT);
        drop(place.put_right(hold.park().rest()));
        clear(shared, &mut seat.inner);
        seat.go(at, Found::Done);
    }

    /// Returns whether the list may have entries: one load. If not, there is nobody to notify, so that was done, and the seat owes nothing any more.
    #[inline]
    pub fn may_have_entries(&self, seat: &mut Seat<T>, at: Place) -> bool
        requires of { IsOf self.now seat.old }
        requires course { IsAt at act.Notify seat.old }
        requires calm { seat.old.starved ≡ false }
        ensures some { result ≡ true → seat.new ≡ seat.old }
        ensures none { result ≡ false → seat.new ≡ goes at finds.Done (with_paid seat.old) }
    {
        if peek(&self.table.shared, &mut seat.inner) % 8 >= ENTRIES {
            return true;
        }
        seat.go(at, Found::Done);
        false
    }
}

// The table of a free lock: nobody has joined its list, and a ticket of its spare lies in the right's slot. In line, as `Words::with_limit`.
#[inline(always)]
fn free_table<T>(
    alloc: Global,
    spare: &Spare<T>,
    ticket: Ticket,
) -> Result<Table<Cell<T>, View, Spare<T>, MutexRule, Global>, AllocError>
    requires { ticket.deed ≡ spare.now.deed }
    ensures sizes { IfOk result (λ table. (table.shared.table_id.words ≡ 2) × (table.shared.table_id.slots ≡ 2)) }
    ensures key { IfOk result (λ table. table.shared.key ≡ spare.now) }
{
    let mut slots = Vec::with_capacity(alloc, 2)?;
    slots.push_reserved(Cell::list(spare));
    slots.push_reserved(Cell::of(ticket.rest()));
    match Table::new(alloc, &[FREE, FREE], slots, spare) {
        Ok((table, _first)) => Ok(table),
        Err(_) => Err(AllocError),
    }
}

// Takes the right out of its slot, which has come to the seat with the lock.
#[inline]
pub(crate) fn take_right<T>(shared: &Listing<T>, spare: &Spare<T>, inner: &mut Lister<T>) -> Hold<T>
    requires table { inner.old.table_id ≡ shared.now.table_id }
    requires right { (right : Cell T) × (inner.old.me.1 ≡ (1, right) ∷ []) × IsRight spare.now.room_id spare.now.deed right.right }
    requires spare { IsSome spare.now.value }
    ensures hold { result.room_id ≡ spare.now.room_id }
    ensures seat { (inner.new.table_id ≡ inner.old.table_id) × (inner.new.id ≡ inner.old.id) × (inner.new.me.0 ≡ inner.old.me.0) × HasSlots true inner.new.me.1 }
{
    let place = inner.slot_mut(shared, RIGHT_SLOT);
    place.put_right(Rested::nothing(spare)).into_hold(spare)
}
