//! A read-write lock's state and its two lists, under one rule: each single action on them.
//!
//! [`Access`] is the state, the writer's bit and who reads, with the list of those that wait until the bit is clear and the list of who waits until no
//! reader is inside. What always holds between any two atomic steps of any number of threads is [`AccessRule`] of `words_access`.
#![tactic(auto)]

mod access;
mod alone;
mod calls;
mod count;
mod found;
mod giving_back;
mod lists;
mod pledge;
mod seat;
mod watch;

pub use access::Access;
pub use calls::Joined;
pub use count::Count;
pub use found::{Entering, Left, Marking, Readers, Reading};
pub use lists::{Lists, Side};
pub use pledge::Pledge;
pub use seat::Seat;
pub use words_access::steps::READERS_LIMIT;
pub use words_access::{AccessRule, Content, View, exclusion, no_lost_wakeup};
