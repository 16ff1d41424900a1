//! The machine of a read-write lock with upgradable reads: the lock that goes by its programs.
//!
//! The programs, the word and what one action does stand in the module `program`; [`RwLock`] is the word, the two lists, the
//! turn and each party's place. The turn is a mutex machine of its own, known by its contracts alone.

mod machine;

pub use machine::RwLock;
