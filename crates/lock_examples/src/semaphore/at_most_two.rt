//! Four threads work, of which two at a time may.

use async_lock::{Refusal, Runtime, Semaphore};
use std::alloc::AllocGlobal;
use std::sync::atomic::{AtomicU64, Ordering};
use std::thread::{self, Threads};

// Works with a permit: how many were at work then.
fn work<R>(semaphore: &Semaphore<R>, at_work: &AtomicU64) -> Result<u64, Refusal>
where
    R: Runtime,
{
    let permit = semaphore.acquire_blocking()?;
    let others = at_work.fetch_add(1, Ordering::SeqCst);
    thread::yield_now();
    at_work.fetch_sub(1, Ordering::SeqCst);
    drop(permit);
    Ok(others.saturating_add(1))
}

// The threads are started in a function of their own, which is handed the semaphore: a semaphore that is made in the function
// that starts them gets no proof.
fn in_four_threads<'a, R>(
    rt: &'a R,
    semaphore: &'a Semaphore<R>,
    at_work: &'a AtomicU64,
) -> Result<u64, Refusal>
where
    R: Runtime + Threads + Sync,
{
    let works = || work(semaphore, at_work);
    let two = || thread::join(rt, &works, &works);
    let ((one, other), (third, fourth)) = thread::join(rt, &two, &two);
    Ok(one?.max(other?).max(third?).max(fourth?))
}

/// The most that were at work at a time.
pub(crate) fn run<R>(rt: R) -> Result<u64, Refusal>
where
    R: Runtime + Threads + Sync + Copy,
{
    let semaphore = Semaphore::new(rt, 2)?;
    let at_work = AtomicU64::new(0);
    in_four_threads(&rt, &semaphore, &at_work)
}
