//! A right to write a value, where it rests.

ghost use Rattle.std.specs.Prelude.{◌≡◌, ℕ, Bool, Option, Some, None, true, false, IsSome};
ghost use Rattle.std.specs.Coded.{coded_option};
ghost use Rattle.lock_place.specs.Held.{RoomId, room_id_coded};

use crate::room::Hold;
use crate::spare::Spare;
use std::marker::{Model, PhantomData};

/// What a place to rest in has: a parked hold ([`Parked::rest`](crate::Parked::rest)), or a ticket for the hold that waits in a spare
/// ([`Ticket::rest`](crate::Ticket::rest)), or nothing. It has no bytes: which of the three it is contracts alone see.
///
/// A clause names the `value` of a parked hold with its `room_id`, or the `deed` of a ticket where `is_ticket` is true.
pub struct Rested<T> {
    pub(crate) marker: PhantomData<T>,
    pub ghost room_id: { RoomId } by { room_id_coded },
    pub ghost value: { Option T } by { coded_option T.code },
    pub ghost deed: { ℕ },
    pub ghost is_ticket: { Bool },
}

impl<T> Model for Rested<T> {
    ghost use Rattle.lock_place.specs.Rests.{rested_owns};

    ghost also_owns = { λ r. rested_owns T.row r.room_id r.value r.deed r.is_ticket };
}

impl<T> Rested<T> {
    ghost use Rattle.lock_place.specs.Rested.{IsRight};

    /// Nothing, of a place where what is redeemed in this spare may rest.
    pub fn nothing(spare: &Spare<T>) -> Rested<T>
        ensures { (result.value ≡ None) × (result.is_ticket ≡ false) }
    {
        let _ = spare;
        Rested {
            marker: PhantomData,
        }
    }

    /// The hold: the parked one, or the one that waits in the spare of the ticket. The ticket stays there in its stead.
    pub fn into_hold(self, spare: &Spare<T>) -> Hold<T>
        requires { IsRight spare.now.room_id spare.now.deed self × IsSome spare.now.value }
        ensures { result.room_id ≡ spare.now.room_id }
    {
        let _ = spare;
        let Self { marker: _ } = self;
        Hold {
            marker: PhantomData,
        }
    }
}

impl<T> Drop for Rested<T> {
    fn drop(self) {
        let Self { marker: _ } = self;
    }
}

unsafe impl<T: Send> Send for Rested<T> {}

unsafe impl<T: Send> Sync for Rested<T> {}
