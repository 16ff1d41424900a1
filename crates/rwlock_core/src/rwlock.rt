//! A read-write lock without its value and its runtime.

ghost use Rattle.std.specs.Prelude.{◌≡◌, min, IfOk};

use access_core::Access;
use mutex_core::{STARVED_LIMIT, Words as Mutex};
use std::alloc::{AllocError, Global};

/// A read-write lock without its value and its runtime: its state with the two lists, and its turn, which upgradable readers and writers take
/// first.
pub struct RawRwLock {
    /// The writer's bit, who reads, and who waits.
    pub access: Access,
    /// The turn: a mutex with no value.
    pub turn: Mutex<()>,
}

// By hand, so that a drop is one call to prove, and not all of its parts again.
impl Drop for RawRwLock {
    fn drop(self) {
        let RawRwLock { access: _, turn: _ } = self;
    }
}

impl RawRwLock {
    /// Creates a free lock whose turn counts at most so many waiters as starved, and that has at most so many readers. A larger number stands
    /// for the greatest limit. It fails only if memory is refused.
    pub fn with_limits(alloc: Global, starved: u64, readers: u64) -> Result<RawRwLock, AllocError>
        ensures { IfOk result (λ raw. (raw.turn.limit ≡ min starved 1073741823) × (raw.access.limit ≡ min readers 1073741823)) }
    {
        let turn = match Mutex::with_limit(alloc, (), starved.min(STARVED_LIMIT)) {
            Ok(turn) => turn,
            Err(error) => return Err(error),
        };
        match Access::with_limit(alloc, readers) {
            Ok(access) => Ok(RawRwLock { access, turn }),
            Err(error) => Err(error),
        }
    }
}
