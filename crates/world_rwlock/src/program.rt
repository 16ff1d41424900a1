//! A read-write lock's word, what one action does, and which calls are asked of its programs.
//!
//! The programs themselves are the table `sync_program::rwlock`. [`word`] is what a lock has in it beside its lists and its turn;
//! [`effects`] carries out one action on all of them; [`calls`] says which call of the programs a move of a party is; and [`led`] what a
//! step leads to by the table. The module `machine` keeps the places of all parties.

pub mod calls;
pub mod effects;
pub mod led;
pub mod word;
