//! The machine of a mutex: the lock that goes by its programs.
//!
//! The programs, the word and what one action does stand in the module `program`; [`Lock`] is the word, the list and each
//! party's place, and a mutex's World stands on it. [`Mutex`] is the same machine for those who build on
//! a mutex and know none of its places: the turn of a read-write lock, and the inner lock of a barrier.

mod lock;
mod mutex;

pub use lock::Lock;
pub use mutex::Mutex;
