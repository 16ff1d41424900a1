//! A script's whole run.
//!
//! [`script`] is a script's whole run, over any reader and writers. [`world`] is the World that it is played on, [`played`] what a request
//! does to a World of any lock, and [`answer`] and [`states`] are the texts of each answer, list and state. [`task`] is what the
//! program's arguments ask for, and [`fault`] what ends a run.
#![tactic(auto)]

pub mod answer;
pub mod fault;
pub mod played;
pub mod script;
pub mod states;
pub mod task;
pub mod world;
