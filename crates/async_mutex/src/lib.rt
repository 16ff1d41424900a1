//! A mutex for tasks: a task that finds it taken waits as a pending future, and holds up no thread.
//!
//! [`Mutex`] guards a value for one task at a time. It is made with a runtime, which it keeps, and its guards and
//! futures reach the runtime through it. A future is polled for a [`Turn`]; [`Settled`] makes it a `Future` of the
//! kit's `futures`, and the blocking forms wait in the calling thread. It stands on `mutex_core`, where no
//! wake-up is lost by a law of its table, and the crate `async_lock` hands it on.
//!
//! The guard and the future are one type each for both kinds of user: one that borrows the mutex, and one that has a share of it
//! ([`Owns`]). The names of the Rust crate stand for the two.
#![tactic(auto)]

mod guard;
mod lends;
mod lock;
mod mutex;
mod owns;
mod releases;
mod stage;

use std::sync::Arc;

/// The mutex's futures.
pub mod lock_futures {
    pub use crate::lock::LockFuture;
    use crate::mutex::Mutex;
    use std::sync::Arc;

    /// The future of [`Mutex::lock`].
    pub type Lock<'a, T, R> = LockFuture<T, R, &'a Mutex<T, R>>;

    /// The future of [`Mutex::lock_arc`], which owns its share of the mutex and borrows nothing.
    pub type LockArc<T, R> = LockFuture<T, R, Arc<Mutex<T, R>>>;
}

/// A guard that borrows its mutex.
pub type MutexGuard<'a, T, R> = Guard<T, R, &'a Mutex<T, R>>;

/// A guard that owns its share of the mutex, and borrows nothing.
pub type MutexGuardArc<T, R> = Guard<T, R, Arc<Mutex<T, R>>>;

pub use async_driver::{Polled, Runtime, Settled, Turn, wait_for};
pub use guard::Guard;
pub use lock_program::Refusal;
pub use mutex::Mutex;
pub use owns::Owns;
pub use releases::Releases;
