//! What a user can prove of the value that a guard lends: two reads agree, and what is written is read again.
//!
//! Each function's contract is about values, and no file of proofs stands beside it. While a guard lives nobody else writes the
//! value, so that what was read once is known.

ghost use Rattle.std.specs.Prelude.{◌≡◌, ◌%◌, true, false, IfOk, IfSome};

use async_lock::{Mutex, MutexGuard, MutexGuardArc, Refusal, Releases};
use std::alloc::AllocGlobal;
use std::random::RandomSource;
use std::sync::{Arc, Wait};
use std::time::Clock;

/// Reads the value twice, and says whether both are the same: they are.
pub fn reads_agree<R: Wait>(guard: &MutexGuard<'_, u64, R>) -> bool
    ensures { result ≡ true }
{
    **guard == **guard
}

/// As [`reads_agree`], of an owned guard.
pub fn owned_reads_agree<R: Wait + Drop>(guard: &MutexGuardArc<u64, R>) -> bool
    ensures { result ≡ true }
{
    **guard == **guard
}

/// Writes a number and reads it again.
pub fn written<R: Wait>(guard: &mut MutexGuard<'_, u64, R>, number: u64) -> u64
    ensures { result ≡ number }
{
    **guard = number;
    **guard
}

/// As [`written`], by an owned guard.
pub fn owned_written<R: Wait + Drop>(guard: &mut MutexGuardArc<u64, R>, number: u64) -> u64
    ensures { result ≡ number }
{
    **guard = number;
    **guard
}

/// Writes a number under the lock and reads it again, if the lock is free.
pub fn exchanged<R: Wait>(mutex: &Mutex<u64, R>, number: u64) -> Option<u64>
    ensures { IfSome result (λ read. read ≡ number) }
{
    let mut guard = mutex.try_lock()?;
    Some(written(&mut guard, number))
}

/// As [`exchanged`], by an owned guard.
pub fn owned_exchanged<R: Wait + Drop>(mutex: &Arc<Mutex<u64, R>>, number: u64) -> Option<u64>
    ensures { IfSome result (λ read. read ≡ number) }
{
    let mut guard = Mutex::try_lock_arc(mutex)?;
    Some(owned_written(&mut guard, number))
}

/// Locks the first of two, and waits for it in this thread: the guard is of that one.
pub fn first_of_two<'a, R: Wait + Clock + RandomSource + AllocGlobal>(
    first: &'a Mutex<u64, R>,
    second: &'a Mutex<u64, R>,
) -> Result<MutexGuard<'a, u64, R>, Refusal>
    ensures { IfOk result (λ guard. guard.mutex ≡ first.now) }
{
    let _ = second;
    first.lock_blocking()
}

/// Whether two hold one mutex: never.
pub fn is_held_twice<R: Releases>(mutex: &Mutex<u64, R>) -> bool
    ensures { result ≡ false }
{
    let (Some(first), Some(second)) = (mutex.try_lock(), mutex.try_lock()) else {
        return false;
    };
    MutexGuard::never_two(first, second);
    true
}

/// A count that is even.
#[derive(Drop)]
pub struct Even {
    count: u64,
    ghost even: { count % 2 ≡ 0 },
}

impl Even {
    /// None.
    pub fn none() -> Even {
        Even { count: 0 }
    }

    // Two more, or none past the greatest.
    fn two_more(&self) -> Even {
        if self.count > u64::MAX - 2 {
            return Even::none();
        }
        Even {
            count: self.count + 2,
        }
    }
}

/// Counts on by two under the mutex, if it is free.
pub fn count_on<R: Releases>(mutex: &Mutex<Even, R>) {
    if let Some(mut guard) = mutex.try_lock() {
        *guard = guard.two_more();
    }
}

/// Reads the count under the mutex, if it is free: it is even, whoever counted.
pub fn counted<R: Releases>(mutex: &Mutex<Even, R>) -> Option<u64>
    ensures { IfSome result (λ count. count % 2 ≡ 0) }
{
    let guard = mutex.try_lock()?;
    Some(guard.count)
}
