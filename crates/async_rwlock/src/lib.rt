//! A read-write lock for tasks: a task that finds it taken waits as a pending future, and blocks no thread.
//!
//! Many tasks read the value of a [`RwLock`] at a time, or one writes it. One reader at a time may be upgradable: it can become
//! the writer without letting another in between. The lock is made with a runtime, which it keeps, and its guards and
//! futures reach the runtime through it. A future is polled for a [`Turn`]; [`Settled`] makes it a `Future` of the
//! kit's `futures`, and the blocking forms wait in the calling thread.
//!
//! Each guard and future is one type for both kinds of user: one that borrows the lock, and one that has a share of it
//! ([`Owns`]). The names of the Rust crate stand for the two.
#![tactic(auto)]

mod acquired;
mod calls;
mod future;
mod lending;
mod lends;
mod noted;
mod owns;
mod read_guard;
mod releases;
mod rwlock;
mod upgradable_guard;
mod upgrade;
mod write_guard;

use std::sync::Arc;

/// The futures of the lock.
pub mod lock_futures {
    pub use crate::future::GuardFuture;
    use crate::rwlock::RwLock;
    pub use crate::upgrade::UpgradeFuture;
    use crate::{ReadGuard, UpgradableGuard, WriteGuard};
    use std::sync::Arc;

    /// A future of a right to read. Dropping it while it waits takes its entry out of the list; a notification that the entry had goes on
    /// to the next.
    pub type ReadFuture<T, R, O> = GuardFuture<T, R, O, ReadGuard<T, R, O>>;

    /// A future of a right to read that can become a right to write. Dropping it while it waits gives back what it has: its entry, a
    /// notification that the entry had, and its count as starved.
    pub type UpgradableFuture<T, R, O> = GuardFuture<T, R, O, UpgradableGuard<T, R, O>>;

    /// A future of the right to write. It waits for those who may write before it, and then until no reader is left; meanwhile nobody
    /// begins to read. Dropping it while it waits gives back what it has: its entry and a notification that the entry had, its count
    /// as starved, and, once it waits for readers, the right to be next, with readers and writers notified.
    pub type WriteFuture<T, R, O> = GuardFuture<T, R, O, WriteGuard<T, R, O>>;

    /// The future of [`RwLock::read`].
    pub type Read<'a, T, R> = ReadFuture<T, R, &'a RwLock<T, R>>;

    /// The future of [`RwLock::read_arc`].
    pub type ReadArc<T, R> = ReadFuture<T, R, Arc<RwLock<T, R>>>;

    /// The future of [`RwLock::upgradable_read`].
    pub type UpgradableRead<'a, T, R> = UpgradableFuture<T, R, &'a RwLock<T, R>>;

    /// The future of [`RwLock::upgradable_read_arc`].
    pub type UpgradableReadArc<T, R> = UpgradableFuture<T, R, Arc<RwLock<T, R>>>;

    /// The future of [`RwLock::write`].
    pub type Write<'a, T, R> = WriteFuture<T, R, &'a RwLock<T, R>>;

    /// The future of [`RwLock::write_arc`].
    pub type WriteArc<T, R> = WriteFuture<T, R, Arc<RwLock<T, R>>>;

    /// The future of an upgrade.
    pub type Upgrade<'a, T, R> = UpgradeFuture<T, R, &'a RwLock<T, R>>;

    /// The future of an upgrade of a guard that has a share of its lock.
    pub type UpgradeArc<T, R> = UpgradeFuture<T, R, Arc<RwLock<T, R>>>;
}

/// A right to read.
pub type RwLockReadGuard<'a, T, R> = ReadGuard<T, R, &'a RwLock<T, R>>;

/// A right to read, with a share of the lock.
pub type RwLockReadGuardArc<T, R> = ReadGuard<T, R, Arc<RwLock<T, R>>>;

/// The right to read that can become a right to write.
pub type RwLockUpgradableReadGuard<'a, T, R> = UpgradableGuard<T, R, &'a RwLock<T, R>>;

/// The right to read that can become a right to write, with a share of the lock.
pub type RwLockUpgradableReadGuardArc<T, R> = UpgradableGuard<T, R, Arc<RwLock<T, R>>>;

/// The right to write.
pub type RwLockWriteGuard<'a, T, R> = WriteGuard<T, R, &'a RwLock<T, R>>;

/// The right to write, with a share of the lock.
pub type RwLockWriteGuardArc<T, R> = WriteGuard<T, R, Arc<RwLock<T, R>>>;

pub use async_driver::{Polled, Runtime, Settled, Turn, wait_for};
pub use lock_program::Refusal;
pub use owns::Owns;
pub use read_guard::ReadGuard;
pub use releases::Releases;
pub use rwlock::RwLock;
pub use upgradable_guard::UpgradableGuard;
pub use write_guard::WriteGuard;
