//! A place: a room with its memory.

ghost use Rattle.std.specs.Prelude.{◌≡◌, ℕ, ◌<◌, [], ◌∷◌, length, IfOk, IfErr, IsTrue};
ghost use Rattle.core.specs.Mem.Slots.{slots_items, slots_filled, slots_ptr, slots_len, lease_ptr, lease_len, lease_heap, IsFull};

use crate::room::{Hold, Room};
use crate::send_lease::SendLease;
use crate::strip::Strip;
use core::slots::{Lease, Slots, release, reserve};
use std::alloc::{AllocError, Allocator};
use std::{array, mem};

/// The memory of one value, with the value in it. Dropped, it drops the value, whatever became of the rights.
pub struct Place<T, A: Allocator> {
    /// Where the value lies: what the rights are tied to.
    pub room: Room<T>,
    lease: SendLease<T, A>,
    heap: A,
    ghost leased: { (lease_ptr lease.lease ≡ room.at) × (lease_len lease.lease ≡ 1) × (lease_heap lease.lease ≡ heap) },
}

/// There was no memory. The value comes back.
#[derive(Drop)]
pub struct Refused<T> {
    pub value: T,
}

// A row of one place, as large as the value.
pub fn room_for<T, A: Allocator>(
    alloc: &A,
    value: T,
) -> Result<((Slots<T>, Lease<T, A>), T), Refused<T>>
    ensures ok { IfOk result (λ r. (slots_len r.0.0 ≡ 1) × (lease_ptr r.0.1 ≡ slots_ptr r.0.0) × (lease_len r.0.1 ≡ 1) × (lease_heap r.0.1 ≡ alloc.now) × (r.1 ≡ value)) }
    ensures err { IfErr result (λ r. r.value ≡ value) }
{
    // No memory has room for such a value.
    if mem::size_of_val(&value) >= 1 << 63 {
        return Err(Refused { value });
    }
    let reserved = unsafe { reserve(alloc, array::from_ref(&value)) };
    match reserved {
        Ok(reserved) => Ok((reserved, value)),
        Err(AllocError) => Err(Refused { value }),
    }
}

impl<T, A: Allocator> Place<T, A> {
    /// A place of the value, with the right to write it. Refused for memory, the value comes back.
    #[tactic(auto, using(crate::proofs::Items::put_one))]
    pub fn new(alloc: A, value: T) -> Result<(Place<T, A>, Hold<T>), Refused<T>>
        ensures ok { IfOk result (λ r. (r.1.room_id ≡ r.0.room.room_id) × (r.1.value ≡ value)) }
        ensures err { IfErr result (λ r. r.value ≡ value) }
    {
        let (reserved, value) = room_for(&alloc, value)?;
        let (mut row, lease) = reserved;
        row.put(0, value);
        let (room, hold) = Room::deal(Strip::of(row));
        let place = Place {
            room,
            lease: SendLease::new(lease),
            heap: alloc,
        };
        Ok((place, hold))
    }

    /// The value, whatever became of the rights. The memory is given back.
    pub fn into_inner(self) -> T {
        let Place { room, lease, heap } = self;
        let mut row = room.gather().into_slots(1);
        let value = row.take(0);
        release(&heap, row, lease.into_lease());
        value
    }

    /// Another age begins: the rights that were given out are worth nothing from now on, and a new one is
    /// made. It takes no memory.
    pub fn renew(&mut self) -> Hold<T>
        ensures { result.room_id ≡ self.new.room.room_id }
    {
        self.room.renew()
    }
}

impl<T: Drop, A: Allocator + Drop> Drop for Place<T, A> {
    fn drop(self) {
        drop(self.into_inner());
    }
}
