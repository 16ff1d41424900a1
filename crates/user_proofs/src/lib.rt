//! What a user of the locks can prove: of the values that guards and cells lend, and of the locks that guards and futures are of. Each
//! lock has a module. The contracts are about values or locks, and no file of proofs stands beside them.
//!
//! `lock_examples` runs what has a `run`. The rest is only proved.
#![tactic(auto)]

pub mod mutex;
pub mod once_cell;
pub mod rwlock;
pub mod semaphore;
