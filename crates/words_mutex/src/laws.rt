//! What the rule says of a free lock.

ghost use Rattle.std.specs.Prelude.{ℕ, ◌<◌, ◌⊎◌, length};
ghost use Rattle.lock_place.specs.Held.{RoomId};
ghost use Rattle.atomic_table.specs.Table.{State};
ghost use Rattle.words_mutex.specs.Rule.{Ruled, IsEntryOf};
ghost use Rattle.words_base.specs.Waiting.{Matched};
ghost use Rattle.words_mutex.specs.Laws.{IsFree, IsListHome, Lies, SomeOwes, ManyAreToLook, IsAtRest};
ghost use Rattle.words_mutex.specs.declared.view.View.{View};

use crate::rule::Content;

/// No wake-up is lost, in any state that the rule of the table allows.
///
/// While nobody holds the lock and nobody has the list out, an entry is notified, or some seat owes a notification or a look, or each
/// entry may be of a seat that has joined and not looked yet. At rest, when no seat is inside a call, a free lock's list is empty, or
/// an entry of it is notified. Each entry of the list, notified or not, is of a seat that stands in it, each seat that stands there has
/// its entry in it, and no two have one. The call does nothing: its clauses are the law.
pub fn no_lost_wakeup<S: Content>()
    ensures running { (room : RoomId) (deed : ℕ) (s : State S View) → Ruled S.entries S.marked S.is_right room deed s → IsFree s → IsListHome s → (list : S) × Lies s list × ((0 < S.marked list) ⊎ (SomeOwes s ⊎ ManyAreToLook s (length (S.entries list)))) }
    ensures at_rest { (room : RoomId) (deed : ℕ) (s : State S View) → Ruled S.entries S.marked S.is_right room deed s → IsFree s → IsAtRest s → (list : S) × Lies s list × (0 < length (S.entries list) → 0 < S.marked list) }
    ensures standing { (room : RoomId) (deed : ℕ) (s : State S View) → Ruled S.entries S.marked S.is_right room deed s → IsListHome s → (list : S) × Lies s list × Matched IsEntryOf (S.entries list) s.views }
{}
