//! The World of a mutex: its parties, their calls, and every interleaving of their steps.
//!
//! [`program`] carries out one action on the mutex's word and list, [`machine`] goes by the table of places, and [`World`] is what
//! callers see of both.
#![tactic(auto)]

mod guarded;
pub mod machine;
pub mod program;
mod world;

pub use world::{MOST_STARVED, World};
