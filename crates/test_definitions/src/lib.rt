//! Tests of the definitions. Each of them is a run, or a whole call, that no user of a lock would accept,
//! and a proof that the clauses which steps and whole calls promise don't allow it. The functions do nothing:
//! their contracts are the tests. There is nothing else here, and no crate stands on it.
#![tactic(auto)]

mod barrier;
mod cell;
mod mutex;
mod pool;
mod rwlock;
mod semaphore;
