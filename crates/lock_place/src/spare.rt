//! A hold that waits for a ticket. A `&mut` to where it waits lends the value for as long as that borrow
//! lasts, and a `&` is enough to take the hold out.

ghost use Rattle.std.specs.Prelude.{◌≡◌, ℕ, Option, Some, None, true, IsSome};
ghost use Rattle.std.specs.Coded.{coded_option};
ghost use Rattle.lock_place.specs.Held.{RoomId, room_id_coded};
ghost use Rattle.lock_place.specs.Spared.{spare_owns, spare_shares, ticket_owns};

use crate::rested::Rested;
use crate::room::{Hold, Room};
use std::marker::{Model, PhantomData};

/// Where a hold of one room waits. It has no bytes.
///
/// A clause names its `room_id`, its `deed`, which ties it to its ticket, and its `value`: what the value was
/// when the hold came here or was lent last, or none where no hold came here.
pub struct Spare<T> {
    pub(crate) marker: PhantomData<T>,
    pub ghost room_id: { RoomId } by { room_id_coded },
    pub ghost deed: { ℕ },
    pub ghost value: { Option T } by { coded_option T.code },
}

impl<T> Model for Spare<T> {
    ghost also_owns = { λ s. spare_owns T.row s.room_id s.deed s.value };

    ghost also_shares = { λ s _ κ. spare_shares T.row s.room_id s.deed s.value κ };
}

/// The right to the hold that waits in the spare of the same deed. It has no bytes and no lifetime.
pub struct Ticket {
    marker: PhantomData<()>,
    pub ghost deed: { ℕ },
}

impl Model for Ticket {
    ghost also_owns = { λ t. ticket_owns t.deed };
}

impl<T> Spare<T> {
    /// A spare of a room with its ticket. No hold waits here yet: [`Spare::lend`] brings one.
    pub fn new(room: &Room<T>) -> (Spare<T>, Ticket)
        ensures { (result.0.room_id ≡ room.now.room_id) × (result.1.deed ≡ result.0.deed) }
    {
        let _ = room;
        (
            Spare {
                marker: PhantomData,
            },
            Ticket {
                marker: PhantomData,
            },
        )
    }
}

impl<T> Spare<T> {
    // The ticket that was redeemed here comes out, to whoever has the hold.
    pub(crate) fn reissue_in<'a>(
        &'a mut self,
        hold: Hold<T>,
        room: &'a mut Room<T>,
    ) -> (Hold<T>, Ticket)
        requires { (hold.room_id ≡ room.old.room_id) × (self.old.room_id ≡ room.old.room_id) × IsSome self.old.value }
        ensures { (room.new ≡ room.old) × (result.0.room_id ≡ hold.room_id) × (result.0.value ≡ hold.value) × (self.new.room_id ≡ self.old.room_id) × (self.new.deed ≡ self.old.deed) × (self.new.value ≡ None) × (result.1.deed ≡ self.old.deed) }
    {
        let _ = room;
        (
            hold,
            Ticket {
                marker: PhantomData,
            },
        )
    }
}

impl Ticket {
    /// The hold that waits there. The ticket stays there in its stead.
    pub fn redeem<T>(self, spare: &Spare<T>) -> Hold<T>
        requires { (self.deed ≡ spare.now.deed) × IsSome spare.now.value }
        ensures { (result.room_id ≡ spare.now.room_id) × (Some result.value ≡ spare.now.value) }
    {
        let _ = spare;
        let Self { marker: _ } = self;
        Hold {
            marker: PhantomData,
        }
    }
}

impl Ticket {
    /// The ticket, where a right rests.
    pub fn rest<T>(self) -> Rested<T>
        ensures { (result.value ≡ None) × (result.deed ≡ self.deed) × (result.is_ticket ≡ true) }
    {
        let Self { marker: _ } = self;
        Rested {
            marker: PhantomData,
        }
    }
}

impl<T> Drop for Spare<T> {
    fn drop(self) {
        let Self { marker: _ } = self;
    }
}

impl Drop for Ticket {
    fn drop(self) {
        let Self { marker: _ } = self;
    }
}

unsafe impl<T: Send> Send for Spare<T> {}

unsafe impl<T: Send> Sync for Spare<T> {}

unsafe impl Send for Ticket {}

unsafe impl Sync for Ticket {}
