//! A semaphore without its runtime, and each action on its two numbers.
//!
//! An action names its place in the table of `sync_program`, and asks that the seat's call has come to it.

ghost use Rattle.std.specs.Prelude.{◌≡◌, ℕ, ◌+◌, ◌<◌, ◌≤◌, ⊤, true, false, IfOk};
ghost use Rattle.semaphore_core.specs.Semaphores.{IsAt, IsOf, goes, with_look, with_taken, with_given, with_given_new, with_lowered, with_limit, with_raised, with_paid};
ghost use Rattle.sync_program.specs.declared.permits.Action.TheVariants as act;
ghost use Rattle.sync_program.specs.declared.permits.Found.TheVariants as finds;
ghost use Rattle.words_permits.specs.Tries.{OnTaking, OnRaising};

use crate::queue::Queue;
use crate::receipts::Given;
use crate::seat::Seat;
use atomic_table::Table;
use futures::task::Source;
use std::alloc::{AllocError, Global};
use std::marker::Model;
use sync_program::permits::{Found, Place};
use words_permits::steps::{AVAILABLE, ENTRIES, give, give_new, look, lower, peek, raise, take};
use words_permits::{PermitRule, Raising, Taking, View};

/// A semaphore without its runtime: its permits, its limit, and who waits.
///
/// Contracts see which semaphore it is and with how many permits it began (`word`), and the source that waiting tasks register with.
pub struct RawSemaphore {
    pub(crate) table: Table<Queue, View, u64, PermitRule, Global>,
    // What tasks register with that wait.
    pub(crate) source: Source,
    // Where the list is made when somebody first joins.
    pub(crate) alloc: Global,
}

// By hand, so that a drop is one call to prove.
impl Drop for RawSemaphore {
    fn drop(self) {
        let RawSemaphore {
            table: _,
            source: _,
            alloc: _,
        } = self;
    }
}

impl Model for RawSemaphore {
    ghost use Rattle.semaphore_core.specs.Semaphores.{Semaphore, semaphore_coded};

    ghost Value = { Semaphore };

    ghost coded = { semaphore_coded };

    ghost use Rattle.std.specs.Prelude.{◌≡◌};

    ghost view = { λ r. record { word = record { table = r.table.shared.table_id; start = r.table.shared.key }; source = r.source.id } };

    ghost invariant = { λ r. (r.table.shared.table_id.words ≡ 3) × (r.table.shared.table_id.slots ≡ 1) };
}

impl RawSemaphore {
    /// Makes a semaphore of this many permits, all of them available, with an empty list. It fails only if memory is refused.
    pub fn new(alloc: Global, permits: u64) -> Result<RawSemaphore, AllocError>
        ensures { IfOk result (λ raw. raw.word.start ≡ permits) }
    {
        match full_table(alloc, permits) {
            Ok(table) => Ok(RawSemaphore {
                table,
                source: Source::new(),
                alloc,
            }),
            Err(error) => Err(error),
        }
    }

    /// Returns how many permits were available at some moment of the call. It waits for nobody.
    #[inline]
    pub fn available(&self) -> u64 {
        self.table.shared.peek(AVAILABLE)
    }

    /// Sees how many permits are available: one step. If none are, the seat owes nothing any more (`ends`).
    #[inline]
    pub fn load(&self, seat: &mut Seat, at: Place) -> u64
        requires of { IsOf self.now seat.old }
        requires course { IsAt at act.Load seat.old }
        ensures step { seat.new ≡ goes at (finds.Available result) (with_look result seat.old) }
        ensures ends { result ≡ 0 → seat.new.owes ≡ false }
    {
        let available = look(&self.table.shared, &mut seat.inner);
        seat.go(at, Found::Available(available));
        available
    }

    /// Takes this many permits if as many are available: one look, and one exchange. A seat for whose entry the look found too few is
    /// fresh no more (`stale`), and one that took the last permit, or found none, owes nothing (`ends`). Where the word changed meanwhile the call stays at its
    /// place.
    #[inline]
    pub fn take(&self, seat: &mut Seat, permits: u64, at: Place) -> Taking
        requires of { IsOf self.now seat.old }
        requires course { IsAt at (act.Take permits) seat.old }
        ensures step { OnTaking result (λ a. seat.new ≡ goes at (finds.Left a) (with_taken permits a (with_look (a + permits) seat.old))) (λ a. (a < permits) × (seat.new ≡ goes at (finds.Short a) (with_look a seat.old))) (seat.new ≡ with_look seat.new.found seat.old) }
        ensures stale { OnTaking result (λ _. ⊤) (λ _. permits ≤ seat.old.weight → seat.new.fresh ≡ false) ⊤ }
        ensures ends { OnTaking result (λ a. a ≡ 0 → seat.new.owes ≡ false) (λ a. a ≡ 0 → seat.new.owes ≡ false) ⊤ }
    {
        let found = look(&self.table.shared, &mut seat.inner);
        self.take_from(seat, found, permits, at)
    }

    /// Takes this many permits, if as many were available when the seat looked last, and if as many are still: one exchange, with no look
    /// of its own.
    #[inline]
    pub fn take_from(&self, seat: &mut Seat, found: u64, permits: u64, at: Place) -> Taking
        requires of { IsOf self.now seat.old }
        requires course { IsAt at (act.Take permits) seat.old }
        requires found { found ≡ seat.old.found }
        ensures step { OnTaking result (λ a. (found ≡ a + permits) × (seat.new ≡ goes at (finds.Left a) (with_taken permits a seat.old))) (λ a. (a < permits) × (a ≡ found) × (seat.new ≡ goes at (finds.Short a) seat.old)) (seat.new ≡ seat.old) }
    {
        if found < permits {
            seat.go(at, Found::Short(found));
            return Taking::Short(found);
        }
        let left = found - permits;
        if take(&self.table.shared, &mut seat.inner, found, left) == found {
            seat.go(at, Found::Left(left));
            Taking::Left(left)
        } else {
            Taking::Changed
        }
    }

    /// Gives this many of the seat's permits back: one step. The seat owes a notification then.
    #[inline]
    pub fn give_back(&self, seat: &mut Seat, permits: u64, at: Place) -> Given
        requires of { IsOf self.now seat.old }
        requires course { IsAt at (act.GiveBack permits) seat.old }
        requires has { permits ≤ seat.old.permits }
        ensures step { seat.new ≡ goes at (finds.Available result.available) (with_given permits result.available seat.old) }
        ensures given { result.permits ≡ permits }
    {
        let available = give(&self.table.shared, &mut seat.inner, permits);
        seat.go(at, Found::Available(available));
        Given { permits, available }
    }

    /// Gives this many new permits that the seat has under way: one step, which answers how many are then available. The seat owes a
    /// notification then.
    #[inline]
    pub fn give_new(&self, seat: &mut Seat, permits: u64, at: Place) -> u64
        requires of { IsOf self.now seat.old }
        requires course { IsAt at (act.Give permits) seat.old }
        requires has { permits ≤ seat.old.under_way }
        ensures { seat.new ≡ goes at (finds.Available result) (with_given_new permits result seat.old) }
    {
        let available = give_new(&self.table.shared, &mut seat.inner, permits);
        seat.go(at, Found::Available(available));
        available
    }

    /// Raises the limit by this many permits if it stays a number of 64 bits: one try, after a look. The seat has the new permits under
    /// way. It is refused only where its look found that the limit would pass its greatest value. Where the word changed meanwhile the call
    /// stays at its place.
    pub fn raise(&self, seat: &mut Seat, permits: u64, at: Place) -> Raising
        requires of { IsOf self.now seat.old }
        requires course { IsAt at (act.Raise permits) seat.old }
        ensures { OnRaising result (seat.new ≡ goes at finds.Done (with_raised permits seat.new.limit seat.old)) ((18446744073709551615 < seat.new.limit + permits) × (seat.new ≡ goes at finds.PastLimit (with_limit seat.new.limit seat.old))) (seat.new ≡ with_limit seat.new.limit seat.old) }
    {
        let raising = raise(&self.table.shared, &mut seat.inner, permits);
        match raising {
            Raising::Raised => seat.go(at, Found::Done),
            Raising::PastLimit => seat.go(at, Found::PastLimit),
            Raising::Changed => {}
        }
        raising
    }

    /// Lowers the limit by this many of the seat's permits, which never come back: one step.
    #[inline]
    pub fn lower(&self, seat: &mut Seat, permits: u64, at: Place)
        requires of { IsOf self.now seat.old }
        requires course { IsAt at (act.Lower permits) seat.old }
        requires has { permits ≤ seat.old.permits }
        ensures { seat.new ≡ goes at finds.Done (with_lowered permits seat.old) }
    {
        lower(&self.table.shared, &mut seat.inner, permits);
        seat.go(at, Found::Done);
    }

    /// Returns whether the list may have entries, for a seat that has to notify of so many permits: one load. If not, there is nobody to
    /// notify, so that was done, and the seat owes nothing any more.
    #[inline]
    pub fn may_have_entries(&self, seat: &mut Seat, available: u64, at: Place) -> bool
        requires of { IsOf self.now seat.old }
        requires course { IsAt at (act.Fit available) seat.old }
        ensures some { result ≡ true → seat.new ≡ seat.old }
        ensures none { result ≡ false → seat.new ≡ goes at finds.Done (with_paid seat.old) }
    {
        let _ = available;
        if peek(&self.table.shared, &mut seat.inner) % 8 >= ENTRIES {
            return true;
        }
        seat.go(at, Found::Done);
        false
    }
}

// The table of a semaphore whose permits are all available: nobody has joined its list.
fn full_table(
    alloc: Global,
    permits: u64,
) -> Result<Table<Queue, View, u64, PermitRule, Global>, AllocError>
    ensures sizes { IfOk result (λ table. (table.shared.table_id.words ≡ 3) × (table.shared.table_id.slots ≡ 1)) }
    ensures key { IfOk result (λ table. table.shared.key ≡ permits) }
{
    let mut slots = Vec::with_capacity(alloc, 1)?;
    slots.push_reserved(Queue::new());
    match Table::new(alloc, &[permits, 0, permits], slots, &permits) {
        Ok((table, _first)) => Ok(table),
        Err(_) => Err(AllocError),
    }
}
