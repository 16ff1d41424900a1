//! The semaphore as its users meet it: a limit on how many threads work at a time, permits that are acquired several at once, and an item that is
//! lent with a permit. The program prints a line for each example.

mod at_most_two;
mod leased;
mod several_at_once;

use async_lock::{Refusal, Runtime};
use std::alloc::AllocGlobal;
use std::thread::Threads;

fn run_all<R>(rt: R) -> Result<(u64, bool, usize, bool), Refusal>
where
    R: Runtime + Threads + Sync + Copy,
{
    let most = at_most_two::run(rt)?;
    let (three_more, left) = several_at_once::run(rt)?;
    let is_lent = leased::run(rt)?;
    Ok((most, three_more, left, is_lent))
}

/// Runs each example, and prints a line for each. Returns whether each was run and printed.
pub(crate) fn print_all<R>(rt: R) -> bool
where
    R: Runtime + Threads + Print + Sync + Copy,
{
    let Ok((most, three_more, left, is_lent)) = run_all(rt) else {
        return false;
    };
    match println!(rt;
        "semaphore:\nat most two: {}\nthree more: {three_more}\nleft of five: {left}\nlent with a permit: {is_lent}",
        most <= 2
    ) {
        Ok(()) => true,
        Err(_) => false,
    }
}
