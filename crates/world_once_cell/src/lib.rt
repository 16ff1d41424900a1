//! The World of a once-cell: its parties, their calls, and every interleaving of their steps.
//!
//! [`program`] carries out one action on the cell's words and lists, [`machine`] goes by the table of places, and [`World`] is what
//! callers see of both.
#![tactic(auto)]

pub mod machine;
pub mod program;
mod world;

pub use world::World;
