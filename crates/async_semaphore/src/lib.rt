//! A semaphore for tasks: a task that finds too few permits waits as a pending future, and blocks no thread.
//!
//! A [`Semaphore`] has a number of permits, of which a task acquires one or several. It is made with a runtime, which it keeps, and
//! its guards and futures reach the runtime through it. A future is polled for a [`Turn`]; [`Settled`] makes it a `Future` of
//! the kit's `futures`, and the blocking forms wait in the calling thread.
//!
//! The guard and the future are one type each for both kinds of user: one that borrows the semaphore, and one that has a share of
//! it ([`Owns`]). The names of the Rust crate stand for the two.
#![tactic(auto)]

mod acquire;
mod calls;
mod guard;
mod owns;
mod releases;
mod semaphore;
mod stage;

use std::sync::Arc;

/// The futures of the semaphore.
pub mod lock_futures {
    pub use crate::acquire::AcquireFuture;
    use crate::semaphore::Semaphore;
    use std::sync::Arc;

    /// The future of [`Semaphore::acquire`] and [`Semaphore::acquire_many`].
    pub type Acquire<'a, R> = AcquireFuture<R, &'a Semaphore<R>>;

    /// The future of [`Semaphore::acquire_arc`] and [`Semaphore::acquire_many_arc`].
    pub type AcquireArc<R> = AcquireFuture<R, Arc<Semaphore<R>>>;
}

/// Permits of a semaphore.
pub type SemaphoreGuard<'a, R> = PermitGuard<R, &'a Semaphore<R>>;

/// Permits of a semaphore, with a share of the semaphore.
pub type SemaphoreGuardArc<R> = PermitGuard<R, Arc<Semaphore<R>>>;

pub use async_driver::{Polled, Runtime, Settled, Turn, wait_for};
pub use guard::PermitGuard;
pub use lock_program::Refusal;
pub use owns::Owns;
pub use releases::Releases;
pub use semaphore::Semaphore;
pub use semaphore_core::{Added, Lowered};
