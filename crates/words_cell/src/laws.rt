//! What the rule says of an empty and of a full cell.

ghost use Rattle.std.specs.Prelude.{Bool, ◌<◌, ◌⊎◌};
ghost use Rattle.atomic_table.specs.Table.{State};
ghost use Rattle.words_base.specs.Waiting.{NoneWaits, Matched};
ghost use Rattle.words_cell.specs.Rule.{Ruled, IsActiveEntryOf, IsPassiveEntryOf, LosesNoneEmpty, LosesNoneFull};
ghost use Rattle.words_cell.specs.Laws.{IsEmpty, IsFull, AreListsHome, Lie, IsAtRest};
ghost use Rattle.words_cell.specs.declared.view.View.{View};

use crate::rule::Content;

/// No wake-up is lost, in any state that the rule of the table allows.
///
/// While the cell is empty and nobody has the lists out, one that would make the value is notified, or some seat owes a notification or
/// a claim, or each entry that isn't notified is of a seat that has joined and not looked yet. While it is full, the same holds of each of
/// both lists, where the seat owes a notification of all. At rest, when no seat is inside a call: of an empty cell nobody waits to make the
/// value, or one that would is notified; of a full cell each entry of both lists is notified. Each entry of both lists, notified or not, is
/// of a seat that stands in its list, each seat that stands there has its entry in it, and no two seats have one. The call does nothing: its
/// clauses are the law.
pub fn no_lost_wakeup<S: Content>()
    ensures empty { (start : Bool) (s : State S View) → Ruled S.active S.passive start s → IsEmpty s → AreListsHome s → (lists : S) × Lie s lists × LosesNoneEmpty (S.active lists) s.views }
    ensures full { (start : Bool) (s : State S View) → Ruled S.active S.passive start s → IsFull s → AreListsHome s → (lists : S) × Lie s lists × LosesNoneFull (S.active lists) (S.passive lists) s.views }
    ensures empty_at_rest { (start : Bool) (s : State S View) → Ruled S.active S.passive start s → IsEmpty s → IsAtRest s → (lists : S) × Lie s lists × ((0 < (S.active lists).notified) ⊎ NoneWaits (S.active lists).waiting) }
    ensures full_at_rest { (start : Bool) (s : State S View) → Ruled S.active S.passive start s → IsFull s → IsAtRest s → (lists : S) × Lie s lists × NoneWaits (S.active lists).waiting × NoneWaits (S.passive lists).waiting }
    ensures standing { (start : Bool) (s : State S View) → Ruled S.active S.passive start s → AreListsHome s → (lists : S) × Lie s lists × Matched IsActiveEntryOf (S.active lists).entries s.views × Matched IsPassiveEntryOf (S.passive lists).entries s.views }
{}
