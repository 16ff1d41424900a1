//! The machine of a barrier: the count, the list and the inner lock that go by its programs.
//!
//! The programs, the words and what one action does stand in the module `program`; [`Barrier`] is the count, the list,
//! the inner lock and where each party stands. The inner lock is a mutex machine of its own, known by its contracts alone.

mod barrier;

pub use barrier::Barrier;
