//! What a line of a script asks for.
//!
//! [`line`], [`verbs`] and [`inputs`] read the words of a line, and [`command`] says what each line asks for. [`limits`] are those of a
//! new World.
#![tactic(auto)]

pub mod command;
pub mod inputs;
pub mod limits;
pub mod line;
pub mod verbs;
