//! What the rule says of who waits for a generation.

ghost use Rattle.atomic_table.specs.Table.{State};
ghost use Rattle.words_base.specs.Waiting.{AreOf, Matched};
ghost use Rattle.words_barrier.specs.Rule.{Ruled, LosesNone, IsEntryOf};
ghost use Rattle.words_barrier.specs.Laws.{finished, IsListHome, Lies, IsOfThis, IsAtRest};
ghost use Rattle.words_barrier.specs.declared.view.View.{View};

use crate::rule::Content;

/// No wake-up is lost, in any state that the rule of the table allows.
///
/// While nobody has the list out, some seat that has finished a generation owes the whole list a notification, or each entry that isn't
/// notified is of a seat that has found, since it joined, as many generations finished as there are, or has not looked yet since it
/// joined. At rest, when no seat is inside a call, each entry that isn't notified is, by its number, of a seat that has found so, and so of
/// the generation that is under way. Each entry, notified or not, is of a seat that stands in the list, each seat that stands there has
/// its entry in it, and no two have one. The call does nothing: its clauses are the law.
pub fn no_lost_wakeup<S: Content>()
    ensures running { (s : State S View) → Ruled S.listed s → IsListHome s → (list : S) × Lies s list × LosesNone (finished s) (S.listed list).waiting s.views }
    ensures at_rest { (s : State S View) → Ruled S.listed s → IsAtRest s → (list : S) × Lies s list × AreOf (IsOfThis s) (S.listed list).waiting s.views }
    ensures standing { (s : State S View) → Ruled S.listed s → IsListHome s → (list : S) × Lies s list × Matched IsEntryOf (S.listed list).entries s.views }
{}
