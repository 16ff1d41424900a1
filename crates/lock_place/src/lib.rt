//! A value in place on the heap, lent against rights that have no lifetime.
//!
//! A [`Place`] owns the memory of one value. A [`Hold`] is the right to read and write the value. It has no
//! bytes and borrows nothing, so that a guard that owns its lock can keep one, and it is tied to its place by
//! an id that contracts see (`room_id`). Nothing is lent without its right: [`Hold::get`] and
//! [`Hold::get_mut`] require that the ids are one.
//!
//! A right rests as a [`Parked`], which threads may share, or waits in a [`Spare`] for the [`Ticket`] of the
//! same deed. What became of the rights never matters to the place itself: [`Place::into_inner`] gives the
//! value, and [`Place::renew`] a new right, though the old one was forgotten.
#![tactic(auto)]

mod lends;
mod owned;
mod rested;
mod room;
mod send_lease;
mod spare;
mod strip;

pub use owned::{Place, Refused, room_for};
pub use rested::Rested;
pub use room::{Hold, Parked, Room};
pub use send_lease::SendLease;
pub use spare::{Spare, Ticket};
pub use strip::Strip;
