//! What a poll answers.

use lock_program::Refusal;

/// What a poll of a lock's future answers.
#[derive(Debug, Drop, PartialEq, Eq)]
pub enum Turn<G> {
    /// Not yet: the task will be woken.
    Pending,
    /// What the future is for. Another poll is refused as [`Refusal::Finished`].
    Ready(G),
    /// The poll gave up, and says why.
    Refused(Refusal),
}
