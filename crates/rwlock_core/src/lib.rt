//! A read-write lock without its value, whose state and two waiting lists stand under one rule, and whose turn is a mutex: no wake-up is lost.
//!
//! [`RawRwLock`] is the state with its lists ([`Access`] of `access_core`), and the turn, a mutex (`mutex_core`) that upgradable readers and
//! writers take first. Its whole calls are the lock's program, action by action.
#![tactic(auto)]

mod awaiting;
mod course;
mod party;
mod read;
mod rwlock;
mod steps;
mod upgrade;
mod write;

pub use access_core::{Access, Pledge, READERS_LIMIT, Seat, exclusion, no_lost_wakeup};
pub use mutex_core::STARVED_LIMIT;
pub use party::{
    Awaited, Begun, Downgrading, InVain, Outcome, Reader, Turn, Upgradable, Upgraded, Upgrading,
    WaitsFor, WaitsToRead, WaitsToWrite, Writer,
};
pub use rwlock::RawRwLock;
