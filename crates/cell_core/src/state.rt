//! What a step finds.

/// What a cell is.
#[derive(Clone, Copy, Debug, PartialEq, Eq)]
pub enum State {
    /// It has no value, and nobody makes one.
    Empty,
    /// One seat has the right to make its value.
    Making,
    /// It has a value.
    Full,
}
