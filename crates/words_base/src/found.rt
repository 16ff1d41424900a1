//! What the tries on a mutex's word find.

/// What a try to take the lock found, which no starved seat makes.
pub enum Taking<R> {
    /// The lock was free and nobody was starved. The seat holds it now, with this right.
    Got(R),
    /// The lock was held, and nobody was starved.
    Held,
    /// Somebody was starved, whether the lock was held or not.
    Starved,
}

/// What a starved seat's try to take the lock found.
pub enum TakingAlone<R> {
    /// The lock was free and one seat was starved. The seat holds it now, with this right.
    Got(R),
    /// The lock was held.
    Held,
    /// The lock was free, and the number of the starved was not one.
    FreeWithOthers,
}

/// What setting the lock's bit found, whoever is starved.
pub enum Setting<R> {
    /// The lock was free. The seat holds it now, with this right.
    Got(R),
    /// The lock was held.
    WasSet,
}
