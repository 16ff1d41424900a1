//! The once-cell as its users meet it: a value that the first thread makes and all others read. The program prints a line for
//! each example, that of `user_proofs` among them.

mod made_once;
mod set_once;

use async_lock::{Refusal, Runtime};
use std::alloc::AllocGlobal;
use std::thread::Threads;

/// What the examples found.
#[derive(Drop)]
struct Found {
    sum: u64,
    is_first: bool,
    read: Option<u64>,
}

fn run_all<R>(rt: R) -> Result<Found, Refusal>
where
    R: Runtime + Threads + Sync + Copy,
{
    let sum = made_once::run(rt)?;
    let is_first = set_once::is_first_kept(rt)?;
    let read = user_proofs::once_cell::run(rt)?;
    Ok(Found {
        sum,
        is_first,
        read,
    })
}

/// Runs each example, and prints a line for each. Returns whether each was run and printed.
pub(crate) fn print_all<R>(rt: R) -> bool
where
    R: Runtime + Threads + Print + Sync + Copy,
{
    let Ok(found) = run_all(rt) else {
        return false;
    };
    let Some(read) = found.read else {
        return false;
    };
    let (sum, is_first) = (found.sum, found.is_first);
    match println!(rt;
        "once-cell:\nmade once: {sum}\nthe first is kept: {is_first}\nread again: {read}"
    ) {
        Ok(()) => true,
        Err(_) => false,
    }
}
