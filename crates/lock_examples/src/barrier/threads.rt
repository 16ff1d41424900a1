//! Two threads meet twice at a barrier.

use async_lock::{Barrier, Refusal, Runtime};
use std::alloc::AllocGlobal;
use std::thread::{self, Threads};

// Meets the other thread, and says whether it led. Who is refused memory at once wasn't counted, and the other would wait for ever: so it tries
// once more.
fn leads<R: Runtime>(barrier: &Barrier<R>) -> Result<bool, Refusal> {
    let first = barrier.wait_blocking();
    let result = if let Err(Refusal::Memory) = first {
        barrier.wait_blocking()?
    } else {
        first?
    };
    Ok(result.is_leader())
}

// What each thread does: it meets the other one, does its part of the second round, and meets it again. How often it led.
fn meet_twice<R>(barrier: &Barrier<R>) -> Result<u64, Refusal>
where
    R: Runtime,
{
    let first = leads(barrier)?;
    let second = leads(barrier)?;
    Ok(u64::from(first) + u64::from(second))
}

// The threads are started in a function of their own, which is handed the barrier.
fn meet_in_two_threads<'a, R>(rt: &'a R, barrier: &'a Barrier<R>) -> Result<u64, Refusal>
where
    R: Runtime + Threads + Sync,
{
    let (one, two) = thread::join(rt, || meet_twice(barrier), || meet_twice(barrier));
    Ok(one?.saturating_add(two?))
}

/// How many leaders there were in two rounds.
pub(crate) fn run<R>(rt: R) -> Result<u64, Refusal>
where
    R: Runtime + Threads + Sync + Copy,
{
    let barrier = Barrier::new(rt, 2)?;
    meet_in_two_threads(&rt, &barrier)
}
