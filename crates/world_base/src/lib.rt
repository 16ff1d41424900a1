//! What the Worlds of all locks stand on.
//!
//! A World is a table of parties over one lock, each of which moves one step at a time. [`Move`], [`Answer`] and [`standing`] are the
//! words in which every World's contracts are said. [`AnyWorld`] is what every World has, with the runs and whole calls that are written
//! and proved once for all of them. [`queue`] is a waiting list of numbered parties, and [`table`] a table of parties over any machine.
#![tactic(auto)]

mod any_world;
mod moves;
pub mod queue;
pub mod standing;
pub mod table;

pub use any_world::AnyWorld;
pub use moves::{Answer, Call, Got, Inputs, Made, Move, What};
