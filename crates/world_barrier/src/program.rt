//! The words of a barrier, what one action does, and which calls are asked of its programs.
//!
//! The programs themselves are the table `sync_program::barrier`. [`words`] say how far a barrier is, and what an arrival has to do;
//! [`effects`] carries out one action on them, on the list and on the inner lock; and [`calls`] says which call of the programs a move
//! of a party is, and what a call leaves its party with. The module `machine` keeps the positions of all parties.

pub mod calls;
pub mod effects;
pub mod words;

pub use words::Progress;
