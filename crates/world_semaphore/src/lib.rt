//! The World of a semaphore: its parties, their calls, and every interleaving of their steps.
//!
//! [`machine`] carries the semaphore's programs out, and [`World`] is what callers see of it.
#![tactic(auto)]

pub mod machine;
mod world;

pub use world::World;
