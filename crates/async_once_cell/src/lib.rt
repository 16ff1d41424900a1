//! A once-cell for tasks: a value that is made once, by one task, while the others wait as pending futures.
#![tactic(auto)]

mod blocking;
mod cell;
mod faults;
mod fills;
mod init;
mod makers;
mod set;
mod task;
mod wait;

/// The once-cell's futures.
pub mod lock_futures {
    pub use crate::init::{GetOrInit, GetOrTryInit};
    pub use crate::set::Set;
    pub use crate::wait::Wait;
}

pub use async_driver::{Polled, Runtime, Settled, Turn, wait_for};
pub use cell::OnceCell;
pub use faults::{InitFault, SetFault};
pub use fills::Fills;
pub use lock_program::Refusal;
pub use makers::{Given, Makes, Making, Trying};
