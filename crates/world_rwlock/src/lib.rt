//! The World of a read-write lock with upgradable reads: its parties, their calls, and every interleaving
//! of their steps.
//!
//! [`program`] carries out one action on the lock's word, lists and turn, [`machine`] goes by the table of places, and [`World`] is
//! what callers see of both.
#![tactic(auto)]

mod guarded;
pub mod machine;
pub mod program;
mod world;

pub use world::{MOST_READERS, MOST_STARVED_FOR_THE_TURN, World};
