//! Waits in the calling thread: by a future, and by the call that blocks.

use async_lock::{Barrier, Refusal, Runtime, wait_for};
use std::alloc::AllocGlobal;

/// Waits at a barrier for one, where each wait leads, and says whether both did.
pub(crate) fn leads<R>(rt: R) -> Result<bool, Refusal>
where
    R: Runtime + Copy,
{
    let barrier = Barrier::new(rt, 1)?;
    let result = wait_for(&rt, barrier.wait())?;
    let first = barrier.wait_blocking()?.is_leader();
    Ok(result.is_leader() && first)
}
