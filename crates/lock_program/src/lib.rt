//! The program of the calls on a mutex, and what every program of this library shares.
//!
//! A program is a pure table of places: [`mutex`] says what is done at each place, and what comes next by what it
//! finds ([`Next`]). [`End`] says how a call ends, and [`Refusal`] why it gave up. The table names no list, no runtime and no model
//! of parties, so that a lock for threads and the model that it is proved by carry out the very same one.
#![tactic(auto)]

mod end;
pub mod mutex;
mod refusal;

pub use end::{End, Next};
pub use refusal::Refusal;
