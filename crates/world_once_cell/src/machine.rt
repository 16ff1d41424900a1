//! The machine of a once-cell: the words and the lists that go by its programs.
//!
//! The programs, the words and what one action does stand in the module `program`; [`OnceCell`] is the words, the lists
//! and where each party stands.

mod cell;

pub use cell::OnceCell;
