//! Work in phases: nobody begins a phase before all are through with the one before.

use async_lock::{Barrier, Refusal, Runtime, Settled};
use futures::executor::block_on;
use std::sync::atomic::{AtomicU64, Ordering};
use std::thread::{self, Threads};

// Waits for the others. Those that wait for a thread that is refused would wait for ever, so it polls again: the same future, since it may
// have been counted already.
fn meet<R: Runtime>(rt: &R, barrier: &Barrier<R>) -> Result<(), Refusal> {
    let mut wait = Settled(barrier.wait());
    let mut last = Refusal::Memory;
    for _ in 0..1000_u64 {
        match block_on(rt, &mut wait) {
            Ok(Ok(_)) => return Ok(()),
            Ok(Err(refusal)) => last = refusal,
            Err(_) => last = Refusal::Memory,
        }
        thread::yield_now();
    }
    Err(last)
}

// Ten phases. Returns in how many of them it found one begun before both were through with the last.
fn work<R: Runtime>(rt: &R, barrier: &Barrier<R>, done: &AtomicU64) -> Result<u64, Refusal> {
    let mut early = 0_u64;
    for phase in 0..10_u64 {
        if done.load(Ordering::SeqCst) < phase.saturating_mul(2) {
            early = early.saturating_add(1);
        }
        done.fetch_add(1, Ordering::SeqCst);
        meet(rt, barrier)?;
    }
    Ok(early)
}

fn in_two_threads<'a, R>(
    rt: &'a R,
    barrier: &'a Barrier<R>,
    done: &'a AtomicU64,
) -> Result<u64, Refusal>
where
    R: Runtime + Threads + Sync,
{
    let (one, two) = thread::join(rt, || work(rt, barrier, done), || work(rt, barrier, done));
    Ok(one?.saturating_add(two?))
}

/// In how many phases a thread found that the other wasn't through.
pub(crate) fn run<R>(rt: R) -> Result<u64, Refusal>
where
    R: Runtime + Threads + Sync + Copy,
{
    let barrier = Barrier::new(rt, 2)?;
    let done = AtomicU64::new(0);
    in_two_threads(&rt, &barrier, &done)
}
