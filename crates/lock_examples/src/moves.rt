//! Locks are shared by threads, and locks, guards and futures go to another thread: each does so here, by both forms of owners. A type
//! that may not has no proof.

mod barrier;
mod moved;
mod mutex;
mod once_cell;
mod rwlock;
mod semaphore;

use async_lock::{Refusal, Runtime};
use std::thread::Threads;

fn all<R: Runtime + Threads + Send + Sync + Copy>(rt: R) -> Result<bool, Refusal> {
    Ok(
        mutex::all(rt)?
            && rwlock::all(rt)?
            && semaphore::all(rt)?
            && once_cell::all(rt)?
            && barrier::all(rt)?,
    )
}

/// Moves and shares all, and prints a line. Returns whether all were moved and shared, and the line was printed.
pub(crate) fn print_all<R: Runtime + Threads + Send + Sync + Copy + Print>(rt: R) -> bool {
    match all(rt) {
        Ok(is_done) => println!(rt; "moved and shared: {is_done}").is_ok() && is_done,
        Err(_) => false,
    }
}
