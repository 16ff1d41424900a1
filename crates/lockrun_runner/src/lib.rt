//! The program's whole run, from its arguments to its status, over any reader and writers; and the [`workers`] that its threads are.
#![tactic(auto)]

mod program;
pub mod workers;

pub use lockrun_play::fault::Fault;
pub use lockrun_play::script::{LIMIT, report};
pub use lockrun_play::task::arguments;
pub use program::{Open, run, threads};
