//! A mutex whose word, waiting list and right to the value stand under one rule: no wake-up is lost.
//!
//! [`Words`] is the mutex: an atomic table with two words, the list in one slot and the right to the value in another. Its whole calls
//! ([`Words::poll_first`], [`Words::release`] and the others) are the mutex's program. What always holds between any two atomic steps
//! of any number of threads is [`MutexRule`] of `words_mutex`, and [`no_lost_wakeup`] is what it says of a free lock.
#![tactic(auto)]

mod alone;
mod calls;
mod cell;
mod course;
mod left;
mod mutex;
mod patience;
mod seat;
mod turn;
mod watch;
mod words;

pub use calls::Joined;
pub use cell::Cell;
pub use left::WasHeld;
pub use lock_place::{Hold, Room};
pub use seat::{GaveUp, Seat};
pub use turn::{Held, Outcome, Vain, Waiting};
pub use words::{STARVED_LIMIT, Words};
pub use words_mutex::{Content, Full, MutexRule, View, no_lost_wakeup};
