//! What the running types of all locks share: what a poll answers, and how a thread waits for it.
//!
//! [`Turn`] is what a poll answers, [`Settled`] makes a lock's future a `Future`, and [`wait_for`] waits for it in the calling thread.
//! [`Stage`] says how far a future is of a lock that is borrowed or shared. [`Runtime`] has what the locks ask of the runtime. [`put`] and [`nothing`] are for options whose values have no `Drop`.
#![tactic(auto)]

mod empty;
mod runtime;
mod settled;
mod stage;
mod turn;
mod wait;

pub use empty::{nothing, put};
pub use runtime::Runtime;
pub use settled::{Polled, Settled};
pub use stage::{Look, Stage, first, no_share};
pub use turn::Turn;
pub use wait::wait_for;
