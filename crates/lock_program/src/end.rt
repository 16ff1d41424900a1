//! What a program does next, and how its call ends.

use crate::refusal::Refusal;

/// How a call ended, as its program says it.
#[derive(Clone, Copy)]
pub enum End {
    /// A poll got what its future is for, or a mutex's try got the lock.
    Got,
    /// A try got its right, or another call did at once what it was for.
    Granted,
    /// The future waits in a list.
    Pending,
    /// The call began a future, which is to be polled.
    Waiting,
    /// A try found that its right couldn't be had at once.
    NotFree,
    /// The party gave back what it had.
    GivenBack,
    /// The call gave up.
    Refused(Refusal),
}

/// What a program does next: `P` is a place of it, and `R` how it leaves its party.
#[derive(Clone, Copy)]
pub enum Next<P, R> {
    /// The action of this place.
    Do(P),
    /// The call is over, and leaves its party so.
    End(End, R),
}
