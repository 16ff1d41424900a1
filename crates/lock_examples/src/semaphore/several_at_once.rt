//! Permits that are acquired several at once, given back, and forgotten.

use async_lock::{Refusal, Runtime, Semaphore};
use std::alloc::AllocGlobal;

/// Whether three more of five permits could be had beside three, and how many are left in the end.
pub(crate) fn run<R>(rt: R) -> Result<(bool, usize), Refusal>
where
    R: Runtime,
{
    let semaphore = Semaphore::new(rt, 5)?;
    let three = semaphore.acquire_many_blocking(3)?;
    // Two are left, too few for three more.
    let three_more = semaphore.try_acquire_many(3).is_some();
    drop(three);
    // One permit is taken away for good.
    semaphore.acquire_blocking()?.forget();
    Ok((three_more, semaphore.available_permits()))
}
