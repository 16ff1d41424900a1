//! What the steps find.

/// What a try to read found.
#[derive(Clone, Copy, PartialEq, Eq)]
pub enum Reading {
    /// The seat reads now.
    Reads,
    /// The writer's bit is set.
    Writer,
    /// As many read as may.
    Full,
    /// The state changed meanwhile: try again.
    Changed,
}

/// Whether readers are inside.
#[derive(Clone, Copy, PartialEq, Eq)]
pub enum Readers {
    /// Nobody reads: the seat writes now.
    NoneLeft,
    /// Somebody reads.
    SomeLeft,
}

/// Whom a reader that went left behind.
#[derive(Clone, Copy, PartialEq, Eq)]
pub enum Left {
    /// Other readers.
    Readers,
    /// Nobody.
    Nobody,
    /// No reader, and the writer's bit is set: the seat owes the writer a notification.
    Writer,
}

/// What the step that sets the writer's bit found.
#[derive(Clone, Copy, PartialEq, Eq)]
pub enum Marking {
    /// Nobody was inside: the seat writes now.
    Writes,
    /// Readers are inside: the seat has set the bit, and waits.
    Waits,
    /// Another had set the bit. Nothing has changed.
    WasSet,
}

/// What a try to read found that was made until nobody came between.
#[derive(Clone, Copy, PartialEq, Eq)]
pub enum Entering {
    /// The seat reads now.
    Reads,
    /// The writer's bit is set.
    Writer,
    /// As many read as may.
    Full,
}
