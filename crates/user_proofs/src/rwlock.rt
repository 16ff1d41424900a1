//! What a user can prove of the values that guards lend, and of the locks that guards and futures are of.
//!
//! While a guard reads nobody writes, so that two reads agree, by one guard or by two; and what the writer writes it reads again, also once it
//! has stepped down to a reader.
//! Each function's contract is about values or locks, and no file of proofs stands beside it.

ghost use Rattle.std.specs.Prelude.{◌≡◌, true, false, IfOk, IfSome};
ghost use Rattle.std.specs.Arc.{arc_value};
ghost use Rattle.async_driver.specs.Stages.{IsFor};

use async_lock::lock_futures::ReadArc;
use async_lock::{
    Refusal, Releases, RwLock, RwLockReadGuard, RwLockUpgradableReadGuard, RwLockWriteGuard,
};
use std::alloc::AllocGlobal;
use std::random::RandomSource;
use std::sync::{Arc, Wait};
use std::time::Clock;

/// Reads the value twice, and says whether both are the same: they are.
fn reads_agree<R: Wait>(guard: &RwLockReadGuard<'_, u64, R>) -> bool
    ensures { result ≡ true }
{
    **guard == **guard
}

/// As [`reads_agree`], by a guard that may be upgraded.
fn upgradable_reads_agree<R: Wait>(guard: &RwLockUpgradableReadGuard<'_, u64, R>) -> bool
    ensures { result ≡ true }
{
    **guard == **guard
}

/// As [`reads_agree`], where the right to upgrade is given up in between.
fn downgraded_reads_agree<R: Wait>(guard: RwLockUpgradableReadGuard<'_, u64, R>) -> bool
    ensures { result ≡ true }
{
    let before = *guard;
    let reader = RwLockUpgradableReadGuard::downgrade(guard);
    before == *reader
}

/// As [`reads_agree`], where the right is upgraded in between, or is tried to be.
fn tried_reads_agree<R: Wait>(guard: RwLockUpgradableReadGuard<'_, u64, R>) -> bool
    ensures { result ≡ true }
{
    let before = *guard;
    match RwLockUpgradableReadGuard::try_upgrade(guard) {
        Ok(writer) => before == *writer,
        Err(reader) => before == *reader,
    }
}

/// As [`reads_agree`], where the right is upgraded in between, once nobody else reads.
fn upgraded_reads_agree<R: Wait + Clock + RandomSource + AllocGlobal>(
    guard: RwLockUpgradableReadGuard<'_, u64, R>,
) -> Result<bool, Refusal>
    ensures { IfOk result (λ same. same ≡ true) }
{
    let before = *guard;
    let writer = RwLockUpgradableReadGuard::upgrade_blocking(guard)?;
    Ok(before == *writer)
}

/// What a writer has written is read by it after it stepped down to a reader that may be upgraded.
fn stepped_down_reads_agree<R: Wait>(guard: RwLockWriteGuard<'_, u64, R>) -> bool
    ensures { result ≡ true }
{
    let before = *guard;
    let reader = RwLockWriteGuard::downgrade_to_upgradable(guard);
    before == *reader
}

/// As [`reads_agree`], by the writer.
fn writers_reads_agree<R: Wait>(guard: &RwLockWriteGuard<'_, u64, R>) -> bool
    ensures { result ≡ true }
{
    **guard == **guard
}

/// Writes a number and reads it again.
fn written<R: Wait>(guard: &mut RwLockWriteGuard<'_, u64, R>, number: u64) -> u64
    ensures { result ≡ number }
{
    **guard = number;
    **guard
}

/// Writes a number under the lock and reads it again, if the lock is free.
fn exchanged<R: Wait>(lock: &RwLock<u64, R>, number: u64) -> Option<u64>
    ensures { IfSome result (λ read. read ≡ number) }
{
    let mut guard = lock.try_write()?;
    Some(written(&mut guard, number))
}

/// Reads the first of two, and waits for it in this thread: the guard is of that one.
fn first_to_read<'a, R: Wait + Clock + RandomSource + AllocGlobal>(
    first: &'a RwLock<u64, R>,
    second: &'a RwLock<u64, R>,
) -> Result<RwLockReadGuard<'a, u64, R>, Refusal>
    ensures { IfOk result (λ guard. guard.lock ≡ first.now) }
{
    let _ = second;
    first.read_blocking()
}

/// As [`first_to_read`], with the right to upgrade.
fn first_to_read_upgradably<'a, R: Wait + Clock + RandomSource + AllocGlobal>(
    first: &'a RwLock<u64, R>,
    second: &'a RwLock<u64, R>,
) -> Result<RwLockUpgradableReadGuard<'a, u64, R>, Refusal>
    ensures { IfOk result (λ guard. guard.lock ≡ first.now) }
{
    let _ = second;
    first.upgradable_read_blocking()
}

/// As [`first_to_read`], to write.
fn first_to_write<'a, R: Wait + Clock + RandomSource + AllocGlobal>(
    first: &'a RwLock<u64, R>,
    second: &'a RwLock<u64, R>,
) -> Result<RwLockWriteGuard<'a, u64, R>, Refusal>
    ensures { IfOk result (λ guard. guard.lock ≡ first.now) }
{
    let _ = second;
    first.write_blocking()
}

/// A future that owns the first of two, and is for that one: if it has a share of a lock, it is that one's.
fn future_of_first<R: Wait + Drop>(
    first: &Arc<RwLock<u64, R>>,
    second: &Arc<RwLock<u64, R>>,
) -> ReadArc<u64, R>
    ensures { IsFor arc_value result.stage (arc_value first.now) }
{
    let _ = second;
    RwLock::read_arc(first)
}

// Whether two reads agree by each kind of guard.
fn all_agree<'a, R>(first: &'a RwLock<u64, R>, second: &'a RwLock<u64, R>) -> Result<bool, Refusal>
where
    R: Wait + Clock + RandomSource + AllocGlobal,
{
    let reader = first_to_read(first, second)?;
    let upgradable = first_to_read_upgradably(first, second)?;
    let readers_agree = reads_agree(&reader) && upgradable_reads_agree(&upgradable);
    drop(reader);
    let downgraded_agree = downgraded_reads_agree(upgradable);
    let tried_agree = tried_reads_agree(first_to_read_upgradably(first, second)?);
    let upgraded_agree = upgraded_reads_agree(first_to_read_upgradably(first, second)?)?;
    let writer = first_to_write(first, second)?;
    let writers_agree = writers_reads_agree(&writer) && stepped_down_reads_agree(writer);
    Ok(readers_agree && downgraded_agree && tried_agree && upgraded_agree && writers_agree)
}

fn owned<R>(rt: R, number: u64) -> Result<Arc<RwLock<u64, R>>, Refusal>
where
    R: AllocGlobal + Copy + Drop,
{
    match Arc::new(rt.alloc(), RwLock::new(rt, number)?) {
        Ok(lock) => Ok(lock),
        Err(_) => Err(Refusal::Memory),
    }
}

/// Returns what is read again after it was written, or 0 if two reads differ.
pub fn run<R>(rt: R, number: u64) -> Result<u64, Refusal>
where
    R: Wait + Clock + RandomSource + AllocGlobal + Copy + Drop,
{
    let first = owned(rt, 0)?;
    let second = owned(rt, 1)?;
    drop(future_of_first(&first, &second));
    if !all_agree(&first, &second)? {
        return Ok(0);
    }
    Ok(exchanged(&first, number).unwrap_or(0))
}

/// Whether two write under one lock: never.
pub fn is_written_twice<R: Releases>(lock: &RwLock<u64, R>) -> bool
    ensures { result ≡ false }
{
    let (Some(first), Some(second)) = (lock.try_write(), lock.try_write()) else {
        return false;
    };
    RwLockWriteGuard::never_two(first, second);
    true
}

/// Whether two may upgrade under one lock: never.
pub fn is_upgradable_twice<R: Releases>(lock: &RwLock<u64, R>) -> bool
    ensures { result ≡ false }
{
    let (Some(first), Some(second)) = (lock.try_upgradable_read(), lock.try_upgradable_read())
    else {
        return false;
    };
    RwLockUpgradableReadGuard::never_two(first, second);
    true
}

/// Whether one writes beside one that may upgrade: never.
pub fn is_written_beside<R: Releases>(lock: &RwLock<u64, R>) -> bool
    ensures { result ≡ false }
{
    let (Some(writer), Some(upgradable)) = (lock.try_write(), lock.try_upgradable_read()) else {
        return false;
    };
    RwLockWriteGuard::never_beside_upgradable(writer, upgradable);
    true
}

/// Whether one writes beside one that reads: never.
pub fn is_written_beside_a_reader<R: Releases>(lock: &RwLock<u64, R>) -> bool
    ensures { result ≡ false }
{
    let (Some(writer), Some(reader)) = (lock.try_write(), lock.try_read()) else {
        return false;
    };
    RwLockWriteGuard::never_beside(writer, reader);
    true
}

/// What a writer of a cache reads that has put a number there, and then reads in place of writing: that number.
pub fn put_and_read<R: Releases>(cache: &RwLock<u64, R>, number: u64) -> Option<u64>
    ensures { IfSome result (λ read. read ≡ number) }
{
    let mut writer = cache.try_write()?;
    *writer = number;
    let reader = RwLockWriteGuard::downgrade(writer);
    Some(*reader)
}

/// What two readers of a cache find: the same.
pub fn found_by_two<R: Releases>(cache: &RwLock<u64, R>) -> Option<(u64, u64)>
    ensures { IfSome result (λ found. found.0 ≡ found.1) }
{
    let (mut first, mut second) = (cache.try_read()?, cache.try_read()?);
    RwLockReadGuard::agrees(&mut first, &mut second);
    Some((*first, *second))
}

/// As [`found_by_two`], where one of the two may upgrade.
pub fn found_beside_upgradable<R: Releases>(cache: &RwLock<u64, R>) -> Option<(u64, u64)>
    ensures { IfSome result (λ found. found.0 ≡ found.1) }
{
    let (mut upgradable, mut reader) = (cache.try_upgradable_read()?, cache.try_read()?);
    RwLockUpgradableReadGuard::agrees(&mut upgradable, &mut reader);
    Some((*upgradable, *reader))
}
