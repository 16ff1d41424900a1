//! The number of an entry.

ghost use Rattle.std.specs.Prelude.{ℕ};

/// What has the number of an entry of a waiting list, by which the rules of tables name it.
pub trait Numbered {
    /// The number.
    ghost number: { Self → ℕ };
}
