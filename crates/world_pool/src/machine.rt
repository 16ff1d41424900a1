//! The machine of a pool: the list of items, the leases, the semaphore and the list's lock that go by its programs.
//!
//! The semaphore and the lock are machines of their own, known by their contracts alone.

mod pool;

pub use pool::Pool;
