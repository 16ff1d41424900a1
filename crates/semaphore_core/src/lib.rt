//! A semaphore whose permits, limit and waiting list stand under one rule: no wake-up is lost.
//!
//! [`RawSemaphore`] is the semaphore: an atomic table with three words, and the list in its slot. Each action of its program is a call of
//! one seat ([`RawSemaphore::take`], [`RawSemaphore::fit`] and the others), and its whole calls ([`RawSemaphore::poll_first`],
//! [`RawSemaphore::give`] and the others) are the program. What always holds between any two atomic steps of any number of threads is
//! [`PermitRule`] of `words_permits`, and [`no_lost_wakeup`] is what it says of who waits.
#![tactic(auto)]

mod actions;
mod calls;
mod course;
mod giving_back;
mod list;
mod polls;
mod queue;
mod raw;
mod receipts;
mod seat;
mod turn;

pub use actions::Joined;
pub use queue::Queue;
pub use raw::RawSemaphore;
pub use receipts::{Added, Given, Lowered};
pub use seat::{Ended, Seat};
pub use sync_program::permits::{Place, SemaphoreCall};
pub use turn::{Notifies, Outcome, Tried, Waiting};
pub use words_permits::{Content, PermitRule, Raising, Taking, View, no_lost_wakeup};
