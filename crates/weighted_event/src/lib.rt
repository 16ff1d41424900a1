//! A list whose entries have weights, of which at most one is notified at a time, and the row of weights by which the first that is small
//! enough is found without looking at them all.
#![tactic(auto)]

mod row;
mod tree;
mod weighted;

pub use weighted::{Load, WeightedEvent};
