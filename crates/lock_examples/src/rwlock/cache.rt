//! A cache that many read, and that one refreshes.

use async_lock::{Refusal, Runtime, RwLock, RwLockUpgradableReadGuard, RwLockWriteGuard};
use std::alloc::AllocGlobal;
use std::sync::atomic::{AtomicU64, Ordering};
use std::thread::{self, Threads};

/// What is kept, and of which day it is.
#[derive(Clone, Copy, Drop)]
struct Entry {
    day: u64,
    degrees: u64,
}

// Asks how warm it is on this day, and counts that.
fn ask(day: u64, asked: &AtomicU64) -> Entry {
    asked.fetch_add(1, Ordering::SeqCst);
    Entry { day, degrees: 21 }
}

// What is kept. The guard is dropped here: a task that still had a read guard while it upgrades would wait for that guard,
// which it holds itself.
fn kept<R: Runtime>(cache: &RwLock<Entry, R>) -> Result<Entry, Refusal> {
    let guard = cache.read_blocking()?;
    Ok(*guard)
}

// How warm it is on this day. Whoever finds an entry of another day looks again with the right to upgrade, which one has at a
// time: the next one finds it refreshed.
fn degrees<R>(cache: &RwLock<Entry, R>, day: u64, asked: &AtomicU64) -> Result<u64, Refusal>
where
    R: Runtime,
{
    let entry = kept(cache)?;
    if entry.day == day {
        return Ok(entry.degrees);
    }
    let guard = cache.upgradable_read_blocking()?;
    let entry = *guard;
    if entry.day == day {
        return Ok(entry.degrees);
    }
    let mut guard = RwLockUpgradableReadGuard::upgrade_blocking(guard)?;
    *guard = ask(day, asked);
    let guard = RwLockWriteGuard::downgrade(guard);
    let entry = *guard;
    Ok(entry.degrees)
}

// The threads are started in a function of their own, which is handed the cache: a cache that is made in the function that
// starts them gets no proof.
fn in_four_threads<'a, R>(
    rt: &'a R,
    cache: &'a RwLock<Entry, R>,
    asked: &'a AtomicU64,
) -> Result<u64, Refusal>
where
    R: Runtime + Threads + Sync,
{
    let reads = || degrees(cache, 2, asked);
    let two = || thread::join(rt, &reads, &reads);
    let ((one, other), (third, fourth)) = thread::join(rt, &two, &two);
    Ok(one?.max(other?).max(third?).max(fourth?))
}

/// Four threads read a cache that is a day old. Returns what they read, and how often that was asked for.
pub(crate) fn run<R>(rt: R) -> Result<(u64, u64), Refusal>
where
    R: Runtime + Threads + Sync + Copy,
{
    let old = Entry {
        day: 1,
        degrees: 17,
    };
    let cache = RwLock::new(rt, old)?;
    let asked = AtomicU64::new(0);
    let degrees = in_four_threads(&rt, &cache, &asked)?;
    Ok((degrees, asked.load(Ordering::SeqCst)))
}
