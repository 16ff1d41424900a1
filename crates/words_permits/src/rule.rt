//! The rule of the table.

ghost use Rattle.std.specs.Prelude.{ℕ, List};
ghost use Rattle.words_permits.specs.Waiters.{Waiter};

use crate::view::View;
use atomic_table::TableRule;

/// What lies in the slot of a semaphore's table: its waiting list.
pub trait Content {
    /// Who stands in the list, in order of joining, and for how many permits.
    ghost waiters: { Self → List Waiter };

    /// How many of them are notified.
    ghost marked: { Self → ℕ };
}

/// What always holds of the table of a semaphore. Its key is the number of permits at the start.
pub struct PermitRule;

impl<S: Content> TableRule<S, View, u64> for PermitRule {
    ghost use Rattle.words_permits.specs.Rule.{Ruled};
    ghost use Rattle.words_permits.specs.Seats.{first_view};

    ghost holds = { λ start. Ruled S.waiters S.marked start };

    ghost first = { λ _. first_view };
}
