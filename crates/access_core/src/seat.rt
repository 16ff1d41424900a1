//! What a party steps with.

ghost use Rattle.std.specs.Prelude.{◌≡◌, true, false, [], ◌∷◌};
ghost use Rattle.access_core.specs.Accesses.{IsIdle, IsOf, entering, owing, seated, with_call, with_relief};
ghost use Rattle.words_access.specs.declared.view.View.{View as SeatView};

use crate::access::Access;
use crate::count::Count;
use crate::lists::{Listing, Lists};
use atomic_table::{Badge, Seat as TableSeat};
use std::marker::Model;
use words_access::steps::{STATE, split_duty};
use words_access::{Keep, View, never_beside};

/// A party's place at a lock's state, with which it steps there. It has no bytes, and borrows nothing.
///
/// Contracts see: the table and which of its seats it is, whether it has set the writer's bit, reads, and writes, whether it owes the readers
/// or the writer a notification or a look, in which list it has an entry and of which number, whether it has not looked since it
/// joined, or found its right free, what its last look found, and how many calls it has begun. It has no `Drop`: only [`Seat::rise`] ends it,
/// once it has no right, stands in no list, and owes nothing. This file alone makes one and takes one apart.
pub struct Seat {
    pub(crate) inner: TableSeat<Lists, View>,
    pub(crate) calls: Count,
    // Nobody else can name it, nor so let the seat go.
    seal: (),
}

impl Model for Seat {
    ghost use Rattle.access_core.specs.Accesses.{Seated, seated_coded};

    ghost Value = { Seated };

    ghost coded = { seated_coded };

    ghost use Rattle.std.specs.Prelude.{◌≡◌, false, []};
    ghost use Rattle.access_core.specs.Accesses.{seated};

    ghost view = { λ s. seated s.inner.table_id s.inner.id s.inner.me.0 s.calls.number };

    ghost invariant = { λ s. (s.inner.me.1 ≡ []) × (s.inner.me.0.has_lists ≡ false) };
}

impl Access {
    /// Returns a new seat, with nothing: one load.
    #[inline]
    pub fn sit(&self) -> Seat
        ensures { result ≡ entering self.now result.id }
    {
        self.sit_and_look().0
    }

    /// Returns a new seat as [`Access::sit`] does, with what its one load found in the state.
    #[inline]
    pub fn sit_and_look(&self) -> (Seat, u64)
        ensures { result.0 ≡ entering self.now result.0.id }
    {
        let (seen, inner) = self.table.shared.load_new_seat::<Keep>(STATE);
        let seat = Seat {
            inner,
            calls: Count::none(),
            seal: (),
        };
        (seat, seen)
    }

    /// Splits a seat's duty to the readers off to a new seat, which has nothing else: one load. All else that the seat has stays with it. So it
    /// may go into pledge while the readers are still to be notified.
    #[inline]
    pub fn split_duty(&self, seat: &mut Seat) -> Seat
        requires of { IsOf self.now seat.old }
        requires owes { seat.old.owes_readers ≡ true }
        ensures same { seat.new ≡ with_relief seat.old }
        ensures duty { result ≡ owing self.now result.id }
    {
        let inner = split_duty(&self.table.shared, &mut seat.inner);
        Seat {
            inner,
            calls: Count::none(),
            seal: (),
        }
    }
}

impl Seat {
    /// Begins a call: nothing is done, but that it is counted.
    #[inline(always)]
    pub fn begin(&mut self)
        ensures { self.new ≡ with_call self.old }
    {
        self.calls = self.calls.and_one();
    }

    /// Ends a seat that has no right and no entry in a list, and owes nothing.
    pub fn rise(self)
        requires { IsIdle self }
    {
        let Self {
            inner,
            calls: _,
            seal: (),
        } = self;
        drop(inner);
    }

    // Two seats, of which one writes and the other reads, are absurd.
    pub(crate) fn never_beside(self, reader: Seat, shared: &Listing)
        requires table { (self.table ≡ shared.now.table_id) × (reader.table ≡ shared.now.table_id) × (shared.now.table_id.words ≡ 2) }
        requires writes { self.writes ≡ true }
        requires reads { reader.reads ≡ true }
        ensures { ⊥ }
    {
        let Self {
            inner,
            calls: _,
            seal: (),
        } = self;
        let Self {
            inner: other,
            calls: _,
            seal: (),
        } = reader;
        never_beside(shared, inner, other);
    }

    // What stands for the seat while its view is lent on, and how many calls it has begun.
    #[inline(always)]
    pub(crate) fn into_badge(self) -> (Badge<View>, Count)
        ensures table { (result.0.table_id ≡ self.table) × (result.0.id ≡ self.id) }
        ensures view { (v : SeatView) × (result.0.views ≡ v ∷ []) × (v.has_lists ≡ false) × (seated self.table self.id v result.1.number ≡ self) }
    {
        let Self {
            inner,
            calls,
            seal: (),
        } = self;
        (inner.into_badge(), calls)
    }

    // The seat again.
    #[inline(always)]
    pub(crate) fn of_badge(badge: Badge<View>, calls: Count) -> Seat
        requires { (v : SeatView) × (badge.views ≡ v ∷ []) × (v.has_lists ≡ false) }
        ensures { (v : SeatView) → badge.views ≡ v ∷ [] → result ≡ seated badge.table_id badge.id v calls.number }
    {
        Seat {
            inner: badge.into_seat(),
            calls,
            seal: (),
        }
    }
}
