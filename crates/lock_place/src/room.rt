//! Where a value lies, the rights to it, and what they lend.
ghost use Rattle.core.specs.Prelude.{◌≡◌, [], ◌∷◌, length};
ghost use Rattle.std.specs.Prelude.{Some};
ghost use Rattle.lock_place.specs.Held.{RoomId, room_id_coded, room_owns, room_shares, hold_owns, hold_shares};

use crate::rested::Rested;
use crate::spare::Spare;
use crate::strip::Strip;
use std::marker::{Model, PhantomData};

/// Where the value lies. It shows no value by itself, so that threads may share it.
///
/// A clause names its `room_id`, which is another one in each age: see [`Room::renew`].
pub struct Room<T> {
    pub(crate) at: *mut T,
    pub ghost room_id: { RoomId } by { room_id_coded },
}

impl<T> Model for Room<T> {
    ghost also_owns = { λ r. room_owns T.row r.at r.room_id };

    ghost also_shares = { λ r _ κ. room_shares T.row r.at r.room_id κ };
}

/// The right to write the value of a room, and to read it. There is one in each age of the room. It has no
/// bytes and no lifetime, and may go to another thread.
///
/// A clause names its `room_id`, and the `value`, which is what the room holds.
pub struct Hold<T> {
    pub(crate) marker: PhantomData<T>,
    pub ghost room_id: { RoomId } by { room_id_coded },
    pub ghost value: { T },
}

impl<T> Model for Hold<T> {
    ghost also_owns = { λ h. hold_owns T.row h.room_id h.value };

    ghost also_shares = { λ h _ κ. hold_shares T.row h.room_id h.value κ };
}

/// A hold at rest, as [`Hold::park`] makes it. It shows no value, and so threads may share it.
pub struct Parked<T> {
    marker: PhantomData<T>,
    pub ghost room_id: { RoomId } by { room_id_coded },
    pub ghost value: { T },
}

impl<T> Model for Parked<T> {
    ghost also_owns = { λ h. hold_owns T.row h.room_id h.value };
}

impl<T> Room<T> {
    // A room's first age, and its right.
    pub(crate) fn deal(strip: Strip<T>) -> (Room<T>, Hold<T>)
        requires { length strip.items ≡ 1 }
        ensures { (result.0.at ≡ strip.ptr) × (result.1.room_id ≡ result.0.room_id) × (strip.items ≡ result.1.value ∷ []) }
    {
        let Strip { ptr: at } = strip;
        (
            Room { at },
            Hold {
                marker: PhantomData,
            },
        )
    }

    /// Another age begins: the room has a new id, the rights that were given out are worth nothing from now
    /// on, and a new one is made. It takes no memory.
    pub fn renew(&mut self) -> Hold<T>
        ensures { (self.new.room_id ≡ result.room_id) × (self.new.at ≡ self.old.at) }
    {
        Hold {
            marker: PhantomData,
        }
    }

    // The room's age ends, and what it lent comes back, whatever became of the rights.
    pub(crate) fn gather(self) -> Strip<T>
        ensures { (result.ptr ≡ self.at) × (length result.items ≡ 1) }
    {
        let Room { at } = self;
        Strip { ptr: at }
    }
}

impl<T> Parked<T> {
    /// The hold, where a right rests.
    pub fn rest(self) -> Rested<T>
        ensures { (result.room_id ≡ self.room_id) × (result.value ≡ Some self.value) }
    {
        let Parked { marker } = self;
        Rested { marker }
    }
}

impl<T> Hold<T> {
    /// Lays the hold to rest.
    pub fn park(self) -> Parked<T>
        ensures { (result.room_id ≡ self.room_id) × (result.value ≡ self.value) }
    {
        let Hold { marker } = self;
        Parked { marker }
    }

    /// The value, to read. It requires the hold of this very room.
    pub fn get<'a>(&'a self, room: &'a Room<T>) -> &'a T
        requires { self.now.room_id ≡ room.now.room_id }
        ensures { result.now ≡ self.now.value }
    {
        unsafe { &*room.at }
    }
}

impl<T> Hold<T> {
    ghost use types.Logic.{sem};
    ghost use denote.Follow.{follows};
    ghost use Rattle.lock_place.specs.contracts.spare.Spare.{the_row};
    ghost use Rattle.lock_place.specs.Lent.{spare_with};

    // The value, lent through the spare. When the borrow ends, the hold waits there, with what was written.
    pub(crate) fn lend<'a>(spare: &'a mut Spare<T>, hold: Hold<T>, room: &'a Room<T>) -> &'a mut T
        requires { (hold.room_id ≡ room.now.room_id) × (spare.old.room_id ≡ room.now.room_id) }
        ensures* writes_back { sem 𝓛 (follows (the_row T.row) T.row spare.entry.ghost_name result.ghost_name (spare_with spare.old)) }
        ensures value { result.now ≡ hold.value }
    {
        let _ = spare;
        let Hold { marker: _ } = hold;
        unsafe { &mut *room.at }
    }
}

impl<T> Drop for Parked<T> {
    fn drop(self) {
        let Self { marker: _ } = self;
    }
}

unsafe impl<T: Send> Send for Room<T> {}

unsafe impl<T: Send> Sync for Room<T> {}

unsafe impl<T: Send> Send for Hold<T> {}

unsafe impl<T: Send> Send for Parked<T> {}

unsafe impl<T: Send> Sync for Parked<T> {}
