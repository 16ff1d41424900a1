//! A mutex's word, what one action does, and what a step of the mutex's machine leads to.
//!
//! The programs themselves are the table `lock_program::mutex`. [`word`] is what a mutex has in it beside its list; [`effects`] carries
//! out one action on both; and [`led`] says what a step leads to by the table. The module `machine` keeps the places of all
//! parties.

pub mod effects;
pub mod led;
pub mod word;
