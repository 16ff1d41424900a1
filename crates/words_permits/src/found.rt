//! What the tries find.

/// What a try to take permits found.
#[derive(Clone, Copy, Debug, PartialEq, Eq)]
pub enum Taking {
    /// The seat has the permits now, and this many are left.
    Left(u64),
    /// This many are available, fewer than were asked for.
    Short(u64),
    /// The word changed meanwhile: try again.
    Changed,
}

/// What a try to raise the limit found.
#[derive(Clone, Copy, Debug, PartialEq, Eq)]
pub enum Raising {
    /// The limit is raised, and the seat has the new permits under way.
    Raised,
    /// The limit would pass its greatest value.
    PastLimit,
    /// The word changed meanwhile: try again.
    Changed,
}
