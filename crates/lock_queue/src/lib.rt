//! The waiting list of a lock that has the list in its table, and the wakers that the list owes.
//!
//! A [`Queue`] is an event list that is made when somebody first joins. Its calls are for whoever has taken it out of its place: they say
//! which entries wait then, by their numbers. A waker that is due is a [`Due`], which has no `Drop`: only the call of the waker ends it.
#![tactic(auto)]

mod due;
mod heard;
mod joining;
mod list;
mod queue;
mod whose;

pub use due::{AllDue, Called, Due};
pub use heard::Heard;
pub use joining::Joining;
pub use queue::Queue;
pub use whose::Whose;
