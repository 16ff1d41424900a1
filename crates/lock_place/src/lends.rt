//! What lends the value through a `&mut` has a file of its own: its clause names the row of the lender, which
//! the file that declares the lender cannot import.

ghost use Rattle.std.specs.Prelude.{◌≡◌, None, IsSome};
ghost use types.Logic.{sem};
ghost use denote.Follow.{follows};
ghost use Rattle.lock_place.specs.contracts.room.Hold.{the_row};
ghost use Rattle.lock_place.specs.contracts.spare.Spare.{the_row as spare_row};
ghost use Rattle.lock_place.specs.Lent.{hold_with, spare_with};

use crate::owned::Place;
use crate::room::{Hold, Room};
use crate::spare::{Spare, Ticket};
use std::alloc::Allocator;

impl<T> Hold<T> {
    /// The value, to write. It requires the hold of this very room. When the borrow ends, the hold has what
    /// was written through it.
    pub fn get_mut<'a>(&'a mut self, room: &'a Room<T>) -> &'a mut T
        requires { self.old.room_id ≡ room.now.room_id }
        ensures* writes_back { sem 𝓛 (follows (the_row T.row) T.row self.entry.ghost_name result.ghost_name (hold_with self.old)) }
        ensures value { result.now ≡ self.old.value }
    {
        unsafe { &mut *room.at }
    }
}

impl<T> Spare<T> {
    /// The value, to write, lent for as long as the spare is. When the borrow ends, the hold waits here, with
    /// what was written through it. What was here before is lost: a ticket is taken out first, by
    /// [`Spare::reissue`].
    pub fn lend<'a, A: Allocator>(&'a mut self, hold: Hold<T>, place: &'a Place<T, A>) -> &'a mut T
        requires { (hold.room_id ≡ place.now.room.room_id) × (self.old.room_id ≡ place.now.room.room_id) }
        ensures* writes_back { sem 𝓛 (follows (spare_row T.row) T.row self.entry.ghost_name result.ghost_name (spare_with self.old)) }
        ensures value { result.now ≡ hold.value }
    {
        Hold::lend(self, hold, &place.room)
    }

    /// Takes out the ticket that was redeemed here, so that it can be given out again. Only whoever has the
    /// hold can: there is one hold, so none waits here. Nothing waits here then, until the next
    /// [`Spare::lend`].
    pub fn reissue<A: Allocator>(
        &mut self,
        hold: Hold<T>,
        place: &mut Place<T, A>,
    ) -> (Hold<T>, Ticket)
        requires { (hold.room_id ≡ place.old.room.room_id) × (self.old.room_id ≡ place.old.room.room_id) × IsSome self.old.value }
        ensures place { place.new.room ≡ place.old.room }
        ensures hold { (result.0.room_id ≡ hold.room_id) × (result.0.value ≡ hold.value) }
        ensures spare { (self.new.room_id ≡ self.old.room_id) × (self.new.deed ≡ self.old.deed) × (self.new.value ≡ None) }
        ensures ticket { result.1.deed ≡ self.old.deed }
    {
        self.reissue_in(hold, &mut place.room)
    }
}
