//! The programs of the calls on a read-write lock, on a semaphore, on a once-cell and on a barrier.
//!
//! A program is a pure table of places: [`rwlock`], [`permits`], [`once_cell`] and [`barrier`] say what is done at each place, and what comes
//! next by what it finds (`lock_program::Next`). The tables name no list, no runtime and no model of parties, so that a primitive for
//! threads and the model that it is proved by carry out the very same ones.
#![tactic(auto)]

pub mod barrier;
pub mod once_cell;
pub mod permits;
pub mod rwlock;
