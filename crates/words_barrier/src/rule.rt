//! The rule of the table.

ghost use Rattle.words_base.specs.Lists.{Listed};

use crate::view::View;
use atomic_table::TableRule;

/// What lies in the slot of a barrier's table: its waiting list.
pub trait Content {
    /// What the rule sees of it.
    ghost listed: { Self → Listed };
}

/// What always holds of the table of a barrier.
pub struct BarrierRule;

impl<S: Content> TableRule<S, View, ()> for BarrierRule {
    ghost use Rattle.words_barrier.specs.Rule.{Ruled, first_view};

    ghost holds = { λ _. Ruled S.listed };

    ghost first = { λ _. first_view };
}
