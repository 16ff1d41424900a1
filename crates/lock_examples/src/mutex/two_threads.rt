//! Two threads share a mutex by reference.

use async_lock::{Mutex, Refusal, Runtime};
use std::alloc::AllocGlobal;
use std::thread::{self, Threads};

// What each thread does: it waits for the mutex, and adds one.
fn add<R: Runtime>(mutex: &Mutex<u64, R>) -> Result<(), Refusal> {
    let mut guard = mutex.lock_blocking()?;
    *guard = guard.saturating_add(1);
    Ok(())
}

// The threads are started in a function of their own, which is handed the mutex: a mutex that is made in the function
// that starts them gets no proof.
fn add_in_two_threads<'a, R>(rt: &'a R, mutex: &'a Mutex<u64, R>) -> Result<(), Refusal>
where
    R: Runtime + Threads + Sync,
{
    let (one, two) = thread::join(rt, || add(mutex), || add(mutex));
    one?;
    two
}

/// Adds one in each of two threads, and returns the sum.
pub(crate) fn run<R>(rt: R) -> Result<u64, Refusal>
where
    R: Runtime + Threads + Sync + Copy,
{
    let mutex = Mutex::new(rt, 0_u64)?;
    add_in_two_threads(&rt, &mutex)?;
    Ok(mutex.into_inner())
}
