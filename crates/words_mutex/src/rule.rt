//! The rule of the table.

ghost use Rattle.std.specs.Prelude.{ℕ, List};
ghost use Rattle.lock_place.specs.Held.{RoomId};

use crate::view::View;
use atomic_table::TableRule;
use lock_place::Spare;

/// What lies in a slot of a mutex's table: its waiting list, or the right to its value.
pub trait Content {
    /// The numbers of the list's entries, notified or not, from the front.
    ghost entries: { Self → List ℕ };

    /// How many of them are notified.
    ghost marked: { Self → ℕ };

    /// It has the right to the value that lay there, or the ticket of that deed.
    ghost is_right: { RoomId → ℕ → Self → Type 0 };
}

/// What always holds of the table of a mutex. It is told the lock's spare, once.
pub struct MutexRule;

impl<T, S: Content> TableRule<S, View, Spare<T>> for MutexRule {
    ghost use Rattle.words_mutex.specs.Rule.{Ruled, first_view};

    ghost holds = { λ spare. Ruled S.entries S.marked S.is_right spare.room_id spare.deed };

    ghost first = { λ spare. first_view spare.room_id spare.deed };
}
