//! Two threads that read the same value.

use async_lock::{Refusal, Runtime, RwLock};
use std::alloc::AllocGlobal;
use std::thread::{self, Threads};

// What one thread reads.
fn read<R: Runtime>(lock: &RwLock<u64, R>) -> Result<u64, Refusal> {
    let guard = lock.read_blocking()?;
    Ok(*guard)
}

// The threads are started in a function of their own, which is handed the lock: a lock that is made in the function that
// starts them gets no proof.
fn read_in_two_threads<'a, R>(rt: &'a R, lock: &'a RwLock<u64, R>) -> Result<u64, Refusal>
where
    R: Runtime + Threads + Sync,
{
    let (one, two) = thread::join(rt, || read(lock), || read(lock));
    Ok(one?.saturating_add(two?))
}

/// Returns the sum of what two threads read.
pub(crate) fn run<R>(rt: R) -> Result<u64, Refusal>
where
    R: Runtime + Threads + Sync + Copy,
{
    let lock = RwLock::new(rt, 21_u64)?;
    read_in_two_threads(&rt, &lock)
}
