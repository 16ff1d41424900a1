//! The rule of the table.

ghost use Rattle.words_base.specs.Lists.{Listed};

use crate::view::View;
use atomic_table::TableRule;

/// What lies in the slot of a cell's table: its two waiting lists.
pub trait Content {
    /// The list of those that would make the value.
    ghost active: { Self → Listed };

    /// The list of those that only wait for it.
    ghost passive: { Self → Listed };
}

/// What always holds of the table of a cell. It is told once whether the cell begins with a value.
pub struct CellRule;

impl<S: Content> TableRule<S, View, bool> for CellRule {
    ghost use Rattle.words_cell.specs.Rule.{Ruled, first_view};

    ghost holds = { λ start. Ruled S.active S.passive start };

    ghost first = { λ _. first_view };
}
