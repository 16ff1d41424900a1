//! A lock that is waited for until a deadline.

use async_lock::{Mutex, Refusal, Runtime, Settled};
use futures::channel::oneshot;
use futures::executor::block_on;
use futures::future::{self, Either};
use std::thread::{self, Threads};
use std::time::Duration;

// Waits for the mutex until something comes from the channel. Whichever future isn't ready is dropped: the lock leaves its list, and
// passes on a notification that it had.
fn value_before<R: Runtime>(
    rt: &R,
    mutex: &Mutex<u64, R>,
    deadline: oneshot::Receiver<()>,
) -> Result<Option<u64>, Refusal> {
    match block_on(rt, future::select(Settled(mutex.lock()), deadline)) {
        Ok(Either::Left((guard, _))) => {
            let guard = guard?;
            Ok(Some(*guard))
        }
        Ok(Either::Right(_)) => Ok(None),
        Err(_) => Err(Refusal::Memory),
    }
}

// A thread sleeps, and then says so.
fn in_two_threads<'a, R>(
    rt: &'a R,
    mutex: &'a Mutex<u64, R>,
    after: Duration,
) -> Result<Option<u64>, Refusal>
where
    R: Runtime + Threads + Sync,
{
    let (sender, deadline) = oneshot::channel(rt.alloc())?;
    let (value, ()) = thread::join(
        rt,
        move || value_before(rt, mutex, deadline),
        move || {
            thread::sleep(rt, after);
            let _ = sender.send(());
        },
    );
    value
}

// While a guard is held, the deadline comes; without one, the lock does.
fn both<R>(rt: &R, mutex: &Mutex<u64, R>) -> Result<bool, Refusal>
where
    R: Runtime + Threads + Sync,
{
    let after = Duration::from_millis(5);
    let guard = mutex.lock_blocking()?;
    let held = in_two_threads(rt, mutex, after)?;
    drop(guard);
    let free = in_two_threads(rt, mutex, after)?;
    Ok(held.is_none() && free == Some(7))
}

/// Whether a lock that is held isn't had by the deadline, and a free one is.
pub(crate) fn run<R>(rt: R) -> Result<bool, Refusal>
where
    R: Runtime + Threads + Sync + Copy,
{
    let mutex = Mutex::new(rt, 7_u64)?;
    both(&rt, &mutex)
}
