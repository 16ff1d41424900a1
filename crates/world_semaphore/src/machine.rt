//! The machine of a semaphore: the words and the list that carry its programs out.
//!
//! The programs themselves are the table `sync_program::permits`; [`Semaphore`] is the words, the list and where each party
//! stands, and a semaphore's World stands on it. [`Permits`] is the same machine for those who build on a semaphore and know none of its
//! places.

mod calls;
mod permits;
mod semaphore;
mod words;

pub use permits::Permits;
pub use semaphore::Semaphore;
pub use words::may_begin_with;
