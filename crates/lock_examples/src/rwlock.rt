//! The read-write lock as its users meet it: read by two threads at a time, upgraded without letting a writer in between, owned by
//! its guard, and round a cache that one refreshes. Each module is one example. The program runs them all and the one of
//! `user_proofs`, and prints a line for each.

mod cache;
mod owned;
mod two_readers;
mod upgraded;

use async_lock::{Refusal, Runtime, RwLock};
use std::alloc::AllocGlobal;
use std::thread::Threads;

// What each example returns, in order.
struct Results {
    sum: u64,
    upgraded: u64,
    owned: u64,
    degrees: u64,
    asked: u64,
    read_again: u64,
}

fn run_all<R>(rt: R) -> Result<Results, Refusal>
where
    R: Runtime + Threads + Sync + Copy,
{
    let sum = two_readers::run(rt)?;
    let lock = RwLock::new(rt, 40_u64)?;
    let first = upgraded::add_if_even(&lock, 1)?;
    let second = upgraded::add_if_even(&lock, 1)?;
    let owned = owned::read(rt, 9)?;
    let (degrees, asked) = cache::run(rt)?;
    let read_again = user_proofs::rwlock::run(rt, 5)?;
    Ok(Results {
        sum,
        upgraded: first.saturating_add(second),
        owned: *owned,
        degrees,
        asked,
        read_again,
    })
}

/// Runs each example, and prints a line for each. Returns whether each was run and printed.
pub(crate) fn print_all<R>(rt: R) -> bool
where
    R: Runtime + Threads + Print + Sync + Copy,
{
    let Ok(
        Results {
            sum,
            upgraded,
            owned,
            degrees,
            asked,
            read_again,
        },
    ) = run_all(rt)
    else {
        return false;
    };
    match println!(rt;
        "read-write lock:\ntwo readers: {sum}\nupgraded: {upgraded}\nowned: {owned}\ncache: {degrees}, refreshed {asked} time\nread again: {read_again}"
    ) {
        Ok(()) => true,
        Err(_) => false,
    }
}
