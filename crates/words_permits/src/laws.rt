//! What the rule says of who waits.

ghost use Rattle.std.specs.Prelude.{◌≡◌, ℕ, ◌<◌, ◌≤◌, ◌⊎◌, true};
ghost use Rattle.atomic_table.specs.Table.{State};
ghost use Rattle.words_base.specs.Waiting.{Matched};
ghost use Rattle.words_permits.specs.Rule.{Ruled, SomeSeat, IsFreshIn, IsNumberOf, AreOfSeats};
ghost use Rattle.words_permits.specs.Laws.{available, IsListHome, Lies, IsAtRest};
ghost use Rattle.words_permits.specs.Waiters.{Waiter, StandsIn, numbers};
ghost use Rattle.words_permits.specs.declared.view.View.{View};

use crate::rule::Content;

/// No wake-up is lost, in any state that the rule of the table allows.
///
/// While nobody has the list out, an entry is notified, or some seat owes a notification, or each entry that the available permits are
/// enough for is of a seat that has joined and found no fewer since. At rest, when no seat is inside a call, an entry is notified, or the
/// available permits are enough for none. Each entry of the list, notified or not, is of a seat that stands in it for as many permits, each
/// seat that stands there has its entry in it, and no two have one. The call does nothing: its clauses are the law.
pub fn no_lost_wakeup<S: Content>()
    ensures running { (start : ℕ) (s : State S View) → Ruled S.waiters S.marked start s → IsListHome s → (list : S) × Lies s list × ((0 < S.marked list) ⊎ (SomeSeat s.views (λ v. v.owes ≡ true) ⊎ ((w : Waiter) → StandsIn (S.waiters list) w → w.weight ≤ available s → SomeSeat s.views (IsFreshIn w)))) }
    ensures at_rest { (start : ℕ) (s : State S View) → Ruled S.waiters S.marked start s → IsAtRest s → (list : S) × Lies s list × ((w : Waiter) → StandsIn (S.waiters list) w → w.weight ≤ available s → 0 < S.marked list) }
    ensures standing { (start : ℕ) (s : State S View) → Ruled S.waiters S.marked start s → IsListHome s → (list : S) × Lies s list × AreOfSeats s.views (S.waiters list) × Matched IsNumberOf (numbers (S.waiters list)) s.views }
{}
