//! Waiting for a future in the calling thread.
ghost use Rattle.std.specs.Prelude.{IfOk, IfErr};
ghost use Rattle.async_driver.specs.Waited.{RefusesOrMemory};

use crate::settled::{Polled, Settled};
use futures::executor::block_on;
use lock_program::Refusal;
use std::alloc::AllocGlobal;
use std::random::RandomSource;
use std::sync::Wait;
use std::time::Clock;

/// Waits in the calling thread until a future of one of the locks is ready, and returns what it is for.
///
/// If the future refuses, so does this, under the same name. Any error of the executor is [`Refusal::Memory`], and then the future is
/// dropped: it has left its list, and has passed a notification on. What it gives, and how it refuses, is what the future's type promises (`got`, `refused`).
///
/// It asks to wait, for the clock, for random numbers and for memory. Don't call it in an async context: it blocks the thread that runs
/// the other tasks, and may deadlock. The Rust crate has no such call.
pub fn wait_for<F, R>(rt: &R, future: F) -> Result<F::Got, Refusal>
where
    F: Polled,
    R: Wait + Clock + RandomSource + AllocGlobal,
    requires { F.can_poll future }
    ensures got { IfOk result (F.gives future) }
    ensures refused { IfErr result (RefusesOrMemory (F.refuses future)) }
{
    match block_on(rt, Settled(future)) {
        Ok(settled) => settled,
        Err(_) => Err(Refusal::Memory),
    }
}
