//! A barrier for tasks: so many tasks wait for each other, and one of them leads.
//!
//! [`Barrier`] stands on `barrier_core`, where no wake-up is lost by a rule that is proved.
#![tactic(auto)]

mod barrier;
mod result;
mod wait;

/// The barrier's future.
pub mod lock_futures {
    pub use crate::wait::BarrierWait;
}

pub use async_driver::{Polled, Runtime, Settled, Turn, wait_for};
pub use barrier::Barrier;
pub use lock_program::Refusal;
pub use result::BarrierWaitResult;
