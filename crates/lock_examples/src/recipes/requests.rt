//! A limit on how many requests run at a time. A request that comes beyond the limit is turned away, or waits.

use async_lock::{Refusal, Runtime, Semaphore};

/// What became of a request.
#[derive(Debug, Drop, PartialEq)]
enum Reply {
    Done,
    Busy,
}

// Runs a request if fewer run than the limit. The guard is dropped at the end of the request.
fn now<R: Runtime>(limit: &Semaphore<R>) -> Reply {
    match limit.try_acquire() {
        Some(_permit) => Reply::Done,
        None => Reply::Busy,
    }
}

// Runs a large request, which counts as three.
fn large<R: Runtime>(limit: &Semaphore<R>) -> Result<Reply, Refusal> {
    let _permits = limit.acquire_many_blocking(3)?;
    // While it runs, only one more may.
    let beside = limit.try_acquire();
    let third = now(limit);
    drop(beside);
    Ok(third)
}

/// Whether the limit of four lets one run, turns one away beside a large one and another, and lets it run afterwards.
pub(crate) fn run<R>(rt: R) -> Result<bool, Refusal>
where
    R: Runtime + Copy,
{
    let limit = Semaphore::new(rt, 4)?;
    let before = now(&limit);
    let beside = large(&limit)?;
    let after = now(&limit);
    Ok(before == Reply::Done && beside == Reply::Busy && after == Reply::Done)
}
