//! The rule of the table.

ghost use Rattle.words_base.specs.Lists.{Listed};

use crate::view::View;
use atomic_table::TableRule;

/// What lies in the slot of a read-write lock's table: its two waiting lists.
pub trait Content {
    /// The list of those that wait until the writer's bit is clear.
    ghost readers: { Self → Listed };

    /// The list of who waits until no reader is inside.
    ghost writer: { Self → Listed };
}

/// What always holds of the table of a read-write lock's state and lists.
pub struct AccessRule;

impl<S: Content> TableRule<S, View, ()> for AccessRule {
    ghost use Rattle.words_access.specs.Rule.{Ruled, first_view};

    ghost holds = { λ _. Ruled S.readers S.writer };

    ghost first = { λ _. first_view };
}
