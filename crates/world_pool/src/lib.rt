//! The World of a pool: its parties, their takes, leases and gives, and every interleaving of their steps.
//!
//! [`program`] has the table of places; [`machine`] carries out one action on the items, on the semaphore or on the list's lock; and
//! [`World`] is what callers see of both.
#![tactic(auto)]

pub mod machine;
pub mod program;
mod world;

pub use world::{ListName, MOST_STARVED, World};
