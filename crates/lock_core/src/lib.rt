//! The cores of the locks: Worlds whose every call is a program of places, one action a step.
//!
//! Each primitive's World has a crate of its own and is handed on here as a module. What all of them
//! share comes from `world_base`, and is handed on too.
#![tactic(auto)]

/// A mutex, from the crate `world_mutex`.
pub mod mutex {
    pub use world_mutex::{MOST_STARVED, World};
}

/// A read-write lock with upgradable reads, from the crate `world_rwlock`.
pub mod rwlock {
    pub use world_rwlock::{MOST_READERS, MOST_STARVED_FOR_THE_TURN, World};
}

/// A semaphore, from the crate `world_semaphore`.
pub mod semaphore {
    pub use world_semaphore::World;
}

/// A once-cell, from the crate `world_once_cell`.
pub mod cell {
    pub use sync_program::once_cell::ListName;
    pub use world_once_cell::World;
    pub use world_once_cell::program::Content;
}

/// A barrier, from the crate `world_barrier`.
pub mod barrier {
    pub use world_barrier::{ListName, World};
}

/// A pool of items, from the crate `world_pool`.
pub mod pool {
    pub use world_pool::{ListName, World};
}

pub use lock_event::{Entry, Mark, Memory};
pub use lock_program::Refusal;
pub use world_base::{Answer, AnyWorld, Call, Got, Inputs, Made, Move, What};
