//! The barrier as its users meet it: threads that meet at it, and a wait on an executor. The program runs both, and prints a
//! line for each.

mod executor;
mod threads;

use async_lock::{Refusal, Runtime};
use std::thread::Threads;

fn run_all<R>(rt: R) -> Result<(u64, bool), Refusal>
where
    R: Runtime + Threads + Sync + Copy,
{
    let leaders = threads::run(rt)?;
    let leads = executor::leads(rt)?;
    Ok((leaders, leads))
}

/// Runs each example, and prints a line for each. Returns whether each was run and printed.
pub(crate) fn print_all<R>(rt: R) -> bool
where
    R: Runtime + Threads + Print + Sync + Copy,
{
    let Ok((leaders, leads)) = run_all(rt) else {
        return false;
    };
    match println!(rt; "barrier:\nleaders: {leaders}\nexecutor: {leads}") {
        Ok(()) => true,
        Err(_) => false,
    }
}
