//! Locks for tasks: a task that finds its lock taken waits as a pending future, and holds up no thread.
//!
//! [`Mutex`] guards a value for one task at a time, [`RwLock`] for many that read it or one that writes it; a [`Semaphore`] has
//! permits, of which a task acquires one or several; a [`OnceCell`] gets a value once; at a [`Barrier`] tasks wait for each other.
//! Each is made with a runtime ([`Runtime`]), which it keeps. A future is polled for a [`Turn`]; [`Settled`] makes it a `Future` of the
//! kit's `futures`, [`wait_for`] waits for it in the calling thread, and so do the blocking forms.
//!
//! This crate hands the types on: who wants one lock alone names `async_mutex`, `async_rwlock`, `async_semaphore`,
//! `async_once_cell` or `async_barrier`. None stands on the models of which all interleavings are proved (`lock_core`).
#![tactic(auto)]

mod releases;

/// The futures of the locks.
pub mod lock_futures {
    pub use async_barrier::lock_futures::BarrierWait;
    pub use async_mutex::lock_futures::{Lock, LockArc};
    pub use async_once_cell::lock_futures::{GetOrInit, GetOrTryInit, Set, Wait};
    pub use async_rwlock::lock_futures::{
        Read, ReadArc, UpgradableRead, UpgradableReadArc, Upgrade, UpgradeArc, Write, WriteArc,
    };
    pub use async_semaphore::lock_futures::{Acquire, AcquireArc};
}

pub use async_barrier::{Barrier, BarrierWaitResult};
pub use async_mutex::{
    Mutex, MutexGuard, MutexGuardArc, Polled, Refusal, Runtime, Settled, Turn, wait_for,
};
pub use async_once_cell::{Fills, InitFault, Makes, OnceCell, SetFault};
pub use async_rwlock::{
    RwLock, RwLockReadGuard, RwLockReadGuardArc, RwLockUpgradableReadGuard,
    RwLockUpgradableReadGuardArc, RwLockWriteGuard, RwLockWriteGuardArc,
};
pub use async_semaphore::{Added, Lowered, Semaphore, SemaphoreGuard, SemaphoreGuardArc};
pub use releases::Releases;
