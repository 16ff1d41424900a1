//! What the words of several locks share: a table that has no slots, sums over what all seats have, and the lemmas of
//! both, and what the tries on a mutex's word find. There is no code here.
#![tactic(auto)]

mod found;
mod numbered;

pub use found::{Setting, Taking, TakingAlone};
pub use numbered::Numbered;

/// What the slots of a table have that has none.
#[derive(Drop)]
pub struct Nothing {}
