//! The read-write lock.

ghost use Rattle.std.specs.Prelude.{◌≡◌, IfErr, IfOk, min};
ghost use Rattle.core.specs.Mem.Slots.{lease_ptr, lease_len, lease_heap};
ghost use Rattle.lock_program.specs.declared.refusal.Refusal.{Refusal};

use access_vault::Vault;
use core::slots::release;
use lock_place::{SendLease, Strip, room_for};
use lock_program::Refusal;
use rwlock_core::{READERS_LIMIT, RawRwLock, STARVED_LIMIT};
use std::alloc::{AllocGlobal, Global};

/// A value that many tasks read at a time, or one writes.
///
/// `R` is the runtime that the lock was made with and keeps.
pub struct RwLock<T, R> {
    pub(crate) raw: RawRwLock,
    pub(crate) vault: Vault<T>,
    lease: SendLease<T, Global>,
    heap: Global,
    pub(crate) rt: R,
    ghost tied: { (vault.vault_id.table ≡ raw.access.table) × (vault.vault_id.turn ≡ raw.turn.room) },
    ghost leased: { (lease_ptr lease.lease ≡ vault.at) × (lease_len lease.lease ≡ 1) × (lease_heap lease.lease ≡ heap) },
}

impl<T: Drop, R: AllocGlobal + Drop> RwLock<T, R> {
    /// Creates a free lock over a value. If memory is refused, it returns [`Refusal::Memory`] and drops the value.
    ///
    /// By the contract it has the greatest limits (`limits`), and no other refusal is returned (`memory`).
    ///
    /// ```
    /// let lock = RwLock::new(rt, 1_u64)?;
    /// ```
    pub fn new(rt: R, value: T) -> Result<RwLock<T, R>, Refusal>
        ensures memory { IfErr result (λ refusal. refusal ≡ Refusal.Memory) }
        ensures limits { IfOk result (λ lock. (lock.raw.turn.limit ≡ 1073741823) × (lock.raw.access.limit ≡ 1073741823)) }
    {
        RwLock::with_limits(rt, value, STARVED_LIMIT, READERS_LIMIT)
    }

    /// Creates a free lock as [`RwLock::new`] does, where at most `starved` waiters may be starved for the writer lock, and at most
    /// `readers` may read at once. A larger number stands for the greatest limit. It is for tests.
    pub fn with_limits(rt: R, value: T, starved: u64, readers: u64) -> Result<RwLock<T, R>, Refusal>
        ensures memory { IfErr result (λ refusal. refusal ≡ Refusal.Memory) }
        ensures limits { IfOk result (λ lock. (lock.raw.turn.limit ≡ min starved 1073741823) × (lock.raw.access.limit ≡ min readers 1073741823)) }
    {
        let heap = rt.alloc();
        let Ok(raw) = RawRwLock::with_limits(heap, starved, readers) else {
            return Err(Refusal::Memory);
        };
        let Ok((reserved, value)) = room_for(&heap, value) else {
            return Err(Refusal::Memory);
        };
        let (mut row, lease) = reserved;
        row.put(0, value);
        let vault = Vault::deal(Strip::of(row), raw.access.shared(), raw.turn.room());
        Ok(RwLock {
            raw,
            vault,
            lease: SendLease::new(lease),
            heap,
            rt,
        })
    }
}

impl<T, R> RwLock<T, R> {
    /// Returns the value, whatever became of the guards. It waits for nobody and takes no memory.
    ///
    /// ```
    /// Ok(lock.into_inner() == 2)
    /// ```
    pub fn into_inner(self) -> T
    where
        R: Drop,
    {
        let RwLock {
            raw: _,
            vault,
            lease,
            heap,
            rt,
        } = self;
        drop(rt);
        let mut row = vault.gather().into_slots(1);
        let value = row.take(0);
        release(&heap, row, lease.into_lease());
        value
    }

    /// Returns the value, to write, whatever became of the guards: a forgotten one stays counted. It waits for nobody and takes
    /// no memory.
    ///
    /// ```
    /// let value = lock.get_mut();
    /// *value = value.saturating_add(1);
    /// ```
    pub fn get_mut(&mut self) -> &mut T {
        let renewal = self.vault.next_age();
        self.vault.get_mut(renewal)
    }
}

impl<T: Drop, R: Drop> Drop for RwLock<T, R> {
    fn drop(self) {
        drop(self.into_inner());
    }
}
