//! The words of a once-cell, what one action does, and which calls are asked of its programs.
//!
//! The programs themselves are the table `sync_program::once_cell`, with a number as its value. [`words`] are what a cell has in it;
//! [`effects`] carries out one action on them and on the lists; and [`calls`] says which call of the programs a move of a party is, and
//! what a call leaves its party with. The module `machine` keeps the positions of all parties.

pub mod calls;
pub mod effects;
pub mod words;

pub use words::Content;
