//! A lock that a forgotten seat left held: what it lends, and what a party finds there.

ghost use Rattle.std.specs.Prelude.{◌≡◌, ◌%◌, ◌∷◌, [], true, false, IfOk, IsSome};
ghost use Rattle.atomic_table.specs.Table.{rest};
ghost use Rattle.mutex_core.specs.Cells.{cell_entries, cell_marked, HasRightOf};
ghost use Rattle.lock_program.specs.declared.mutex.Action.TheVariants as act;
ghost use Rattle.lock_program.specs.declared.mutex.Found.TheVariants as finds;
ghost use Rattle.mutex_core.specs.Courses.{IsOutside};
ghost use Rattle.mutex_core.specs.Locks.{FindsHeld, FindsStarved, IsAt, IsOf, TakesFrom, goes, with_held, with_look};
ghost use Rattle.mutex_core.specs.Outcomes.{IsRightOf};
ghost use Rattle.mutex_core.specs.declared.cell.Cell.{Cell};
ghost use Rattle.words_mutex.specs.Seats.{cleared_of, paid_of, saw_held_of};
ghost use Rattle.words_mutex.specs.Steps.{IsHeld};
ghost use Rattle.words_base.specs.Tries.{OnAlone, OnTaking};

use crate::cell::{Lister, Listing};
use crate::seat::Seat;
use crate::words::{Words, take_right};
use lock_place::{Hold, Place as ValuePlace, Spare};
use lock_program::mutex::{Found, Place};
use std::alloc::Global;
use std::sync::Wait;
use words_base::{Taking, TakingAlone};
use words_mutex::steps::{COUNT, HELD, LIST_SLOT, RIGHT_SLOT, clear, give_paid, grab, lift, look};
use words_mutex::wake_next;

/// A lock is held for good: a step found it held where nobody is left who could give it back.
#[derive(Drop)]
pub struct WasHeld {
    seal: (),
}

impl WasHeld {
    // A step found it held.
    fn found(word: u64) -> WasHeld
        requires { word % 2 ≡ 1 }
    {
        let _ = word;
        WasHeld { seal: () }
    }

    // This seat holds it, outside every call, and is forgotten.
    fn by<T>(seat: Seat<T>) -> WasHeld
        requires course { IsOutside seat.course }
        requires holds { seat.holds ≡ true }
    {
        seat.stay();
        WasHeld { seal: () }
    }
}

impl<T> Words<T> {
    /// Returns the value, whatever became of the seats and the rights. It waits for nobody and takes no memory.
    ///
    /// A free lock is free afterwards. A lock that a forgotten seat left held stays held for good, as in the
    /// Rust crate, and only this call and [`Words::into_inner`] reach its value.
    pub fn get_mut(&mut self) -> &mut T {
        let hold = if self.left.is_some() {
            renew(&mut self.spare, &mut self.place)
        } else {
            let table = &self.table;
            match regain(&table.shared, &mut self.spare, &mut self.place) {
                Ok(hold) => hold,
                Err(held) => {
                    self.left = Some(held);
                    renew(&mut self.spare, &mut self.place)
                }
            }
        };
        let place = &self.place;
        self.spare.lend(hold, place)
    }

    /// Looks at the lock inside a poll, and takes it if it is free and nobody is starved, as [`Words::take`]. A lock that was left held is
    /// found held.
    #[inline]
    pub fn look<R: Wait>(&self, rt: &R, seat: &mut Seat<T>, at: Place) -> Taking<Hold<T>>
        requires of { IsOf self.now seat.old }
        requires course { IsAt at act.Take seat.old }
        requires idle { seat.old.holds ≡ false }
        requires stands { seat.old.starved ≡ true → seat.old.listed ≡ true }
        ensures { OnTaking result (λ hold. TakesFrom self.now at seat.old seat.new 0 × IsRightOf self.now hold) (FindsHeld self.now at seat.old seat.new false) (FindsStarved self.now at seat.old seat.new) }
    {
        if self.left.is_some() {
            find_held(&self.table.shared, rt, &mut seat.inner);
            seat.go(at, Found::Held { starving: false });
            return Taking::Held;
        }
        self.take(seat, at)
    }

    /// The same, by the only one who is starved, as [`Words::take_alone`].
    pub fn look_alone<R: Wait>(&self, rt: &R, seat: &mut Seat<T>, at: Place) -> TakingAlone<Hold<T>>
        requires of { IsOf self.now seat.old }
        requires course { IsAt at act.TakeAlone seat.old }
        requires idle { seat.old.holds ≡ false }
        requires stands { (seat.old.starved ≡ true) × (seat.old.listed ≡ true) }
        ensures { OnAlone result (λ hold. TakesFrom self.now at seat.old seat.new 2 × IsRightOf self.now hold) ((seat.new ≡ goes at (finds.Held false) (with_held seat.new.found seat.old)) × (seat.new.found % 2 ≡ 1)) ((seat.new ≡ goes at finds.SomeStarved (with_look seat.new.found seat.old)) × (seat.new.found % 2 ≡ 0)) }
    {
        if self.left.is_some() {
            find_held(&self.table.shared, rt, &mut seat.inner);
            seat.go(at, Found::Held { starving: false });
            return TakingAlone::Held;
        }
        self.take_alone(seat, at)
    }
}

// Looks at a lock that was left held, until it is found so: mostly once.
#[cold]
#[inline(never)]
fn find_held<T, R: Wait>(shared: &Listing<T>, rt: &R, inner: &mut Lister<T>)
    requires table { (inner.old.table_id ≡ shared.now.table_id) × (shared.now.table_id.words ≡ 2) }
    requires seen { inner.old.me.0.starved ≡ true → inner.old.me.0.listed ≡ true }
    ensures seat { (inner.new.table_id ≡ inner.old.table_id) × (inner.new.id ≡ inner.old.id) }
    ensures step { inner.new.me ≡ (saw_held_of inner.new.me.0.found inner.old.me.0, inner.old.me.1) }
    ensures found { inner.new.me.0.found % 2 ≡ 1 }
{
    for _ in rt.forever() {
        if look(shared, inner) % COUNT == HELD {
            return;
        }
    }
    unreachable!()
}

// A new right, past a forgotten seat's, and a new spare for it.
fn renew<T>(spare: &mut Spare<T>, place: &mut ValuePlace<T, Global>) -> Hold<T>
    ensures hold { result.room_id ≡ place.new.room.room_id }
    ensures spare { spare.new.room_id ≡ place.new.room.room_id }
{
    let hold = place.renew();
    *spare = Spare::new(&place.room).0;
    hold
}

// Takes the right of a free lock, whoever is starved, and leaves a ticket of the spare in its stead. A lock whose list somebody was
// forgotten with stays held.
fn regain<T>(
    shared: &Listing<T>,
    spare: &mut Spare<T>,
    place: &mut ValuePlace<T, Global>,
) -> Result<Hold<T>, WasHeld>
    requires size { (shared.now.table_id.words ≡ 2) × (shared.now.table_id.slots ≡ 2) }
    requires key { (shared.now.key.room_id ≡ place.old.room.room_id) × (shared.now.key.deed ≡ spare.old.deed) × (spare.old.room_id ≡ place.old.room.room_id) × IsSome spare.old.value }
    ensures same { (place.new.room.room_id ≡ place.old.room.room_id) × (spare.new.room_id ≡ spare.old.room_id) × (spare.new.deed ≡ spare.old.deed) }
    ensures hold { IfOk result (λ hold. hold.room_id ≡ place.old.room.room_id) }
{
    let mut seat = Seat::sit(shared);
    let word = lift(shared, &mut seat.inner);
    if word % COUNT == HELD {
        seat.rise();
        return Err(WasHeld::found(word));
    }
    let hold = take_right(shared, spare, &mut seat.inner);
    let (hold, ticket) = spare.reissue(hold, place);
    let place = seat.inner.slot_mut(shared, RIGHT_SLOT);
    drop(place.put_right(ticket.rest()));
    let found = grab(shared, &mut seat.inner);
    if found % 2 != 0 {
        drop(hold.park());
        return Err(WasHeld::by(seat));
    }
    give_all_back(shared, &mut seat.inner, found);
    seat.rise();
    Ok(hold)
}

// Gives the lock back with the list in hand, and pays for it.
fn give_all_back<T>(shared: &Listing<T>, inner: &mut Lister<T>, found: u64)
    requires table { (inner.old.table_id ≡ shared.now.table_id) × (shared.now.table_id.words ≡ 2) × (shared.now.table_id.slots ≡ 2) }
    requires holds { (inner.old.me.0.holds ≡ true) × (inner.old.me.0.starved ≡ false) × (inner.old.me.0.listed ≡ false) × (inner.old.me.0.fresh ≡ false) }
    requires list { IsHeld cell_entries cell_marked inner.old.me }
    requires right { (right : Cell T) × (rest inner.old.me.1 ≡ (1, right) ∷ []) × HasRightOf inner.old.me.0.room inner.old.me.0.deed right }
    ensures seat { (inner.new.table_id ≡ inner.old.table_id) × (inner.new.id ≡ inner.old.id) }
    ensures step { inner.new.me ≡ (paid_of (cleared_of inner.old.me.0), []) }
{
    inner.turn();
    clear(shared, inner);
    let list = inner.slot_mut(shared, LIST_SLOT);
    let due = list.queue.notify();
    let word = list.says(found, true);
    let found = give_paid(shared, inner, word);
    wake_next(shared, found);
    drop(due.pay());
}
