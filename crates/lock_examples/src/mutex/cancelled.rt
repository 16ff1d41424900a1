//! A lock that is cancelled: its future is dropped while it waits.

use async_lock::{Mutex, MutexGuard, Refusal, Settled};
use futures::task::Poll;
use futures::test::MockTask;
use std::sync::Wait;
use std::time::Clock;

/// Gives up the first of two waits for a held mutex, and returns whether the second one then gets it.
///
/// The first future waits at the head of the list, and is notified when the guard is dropped. Dropping it forwards
/// the notification to the second.
pub(crate) fn second_gets_it<R: Wait + Clock>(
    mutex: &Mutex<u64, R>,
    guard: MutexGuard<'_, u64, R>,
    task: &MockTask,
) -> Result<bool, Refusal> {
    let mut first = Settled(mutex.lock());
    let mut second = Settled(mutex.lock());
    let waits = is_pending(task.poll(&mut first))? && is_pending(task.poll(&mut second))?;
    drop(guard);
    drop(first);
    Ok(waits && !is_pending(task.poll(&mut second))?)
}

// Whether a poll is pending. If it got a guard, that is dropped.
fn is_pending<R: Wait>(
    poll: Poll<Result<MutexGuard<'_, u64, R>, Refusal>>,
) -> Result<bool, Refusal> {
    match poll {
        Poll::Pending => Ok(true),
        Poll::Ready(Ok(_guard)) => Ok(false),
        Poll::Ready(Err(refusal)) => Err(refusal),
    }
}
