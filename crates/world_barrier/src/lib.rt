//! The World of a barrier: its parties, their waits, and every interleaving of their steps.
//!
//! [`program`] carries out one action on the barrier's words, list and inner lock, [`machine`] goes by the table of places, and
//! [`World`] is what callers see of both.
#![tactic(auto)]

pub mod machine;
pub mod program;
mod world;

pub use world::{ListName, MOST_STARVED, World};
