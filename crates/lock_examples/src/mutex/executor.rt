//! A lock's future on an executor.

use async_lock::{Mutex, Refusal, Runtime, Settled};
use futures::executor::block_on;
use std::alloc::AllocGlobal;

/// Acquires the mutex by its future, and returns the value that it finds.
///
/// `Settled` makes a `Future` of any future of this library. Its output is the guard, or why it was refused.
pub(crate) fn read<R>(rt: &R, mutex: &Mutex<u64, R>) -> Result<u64, Refusal>
where
    R: Runtime,
{
    match block_on(rt, Settled(mutex.lock())) {
        Ok(settled) => {
            let guard = settled?;
            Ok(*guard)
        }
        Err(_) => Err(Refusal::Memory),
    }
}
