//! An audit of the locks' Worlds: a book that records each move with its answer, and whose history
//! replays from the World's opening to the World; and such a book under one lock, for any number of threads,
//! whose numbers are at its close the sums of what each of them counted.
#![tactic(auto)]

mod audited;
mod book;
mod ledgers;
mod tokens;

pub use audited::{Audited, Share};
pub use book::Book;
pub use ledgers::{Blanks, Ledgers};
