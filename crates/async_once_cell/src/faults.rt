//! Why a blocking call on a cell gave up.

use lock_program::Refusal;

/// Why an initialisation by a closure that may fail gave no value. The Rust crate's call fails as its closure does, and is never
/// refused.
#[derive(Debug, Drop, PartialEq, Eq)]
pub enum InitFault<E> {
    /// The closure failed with this.
    Closure(E),
    /// The call was refused, and the closure wasn't called.
    Refused(Refusal),
}

/// Why a set gave its value back. The Rust crate's call gives back the value alone, and is never refused.
#[derive(Debug, Drop, PartialEq, Eq)]
pub enum SetFault<T> {
    /// The cell had a value already.
    Taken(T),
    /// The call was refused.
    Refused(T, Refusal),
}
