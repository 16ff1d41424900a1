//! A barrier whose count of finished generations and waiting list stand under one rule: no wake-up is lost.
//!
//! [`RawBarrier`] is the barrier: an inner lock, in which the count of arrivals lies, and an atomic table with how many generations are
//! finished, and with the list in its slot. Its whole calls ([`RawBarrier::poll`] and the others) are the barrier's program. What always
//! holds between any two atomic steps of any number of threads is [`BarrierRule`] of `words_barrier`, and [`no_lost_wakeup`] is what it
//! says of who waits.
#![tactic(auto)]

mod actions;
mod arrivals;
mod calls;
mod ended_by;
mod list;
mod locking;
mod polls;
mod raw;
mod seat;
mod standing;
mod turn;
mod watch;

pub use arrivals::{Arrivals, Looked};
pub use calls::Joined;
pub use ended_by::EndedBy;
pub use list::Entries;
pub use lock_queue::Whose;
pub use raw::RawBarrier;
pub use seat::{Course, Ended, Seat};
pub use turn::{Aim, Arrival, Followed, Led, Outcome, Resting, Verdict, Waiting};
pub use words_barrier::{BarrierRule, Content, View, no_lost_wakeup};
