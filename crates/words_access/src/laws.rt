//! What the rule says of the lists, and of who is inside.

ghost use Rattle.atomic_table.specs.Table.{State};
ghost use Rattle.words_base.specs.Lists.{IsSettled};
ghost use Rattle.words_base.specs.Waiting.{Matched};
ghost use Rattle.words_access.specs.Rule.{Ruled, LosesNone, OwesReaders, IsEntryOfReaders, IsEntryOfWriter, IsFreshReader, IsFreshWriter};
ghost use Rattle.words_access.specs.Laws.{IsBitClear, AreReadersGone, NobodyWrites, AreListsHome, Lie, IsAtRest, NobodyWaitsToWrite, IsAlone, OwesWriter};
ghost use Rattle.words_access.specs.declared.view.View.{View};

use crate::rule::Content;

/// No wake-up is lost, in any state that the rule of the table allows.
///
/// While nobody has the lists out, each entry of a list, notified or not, is of a seat that stands in it, each seat that stands there
/// has its entry in it, and no two seats have one.
///
/// While the writer's bit is clear and nobody has the lists out, an entry of the readers' list is notified, or some seat owes it a notification
/// or a look, or each entry that isn't notified is of a seat that has joined and not looked yet; and no seat stands in the writer's list. While the bit
/// is set, no reader is inside and nobody writes, the same holds of the writer's list. At rest, when no seat is inside a call, that list
/// has nobody who waits, or an entry of it is notified. The call does nothing: its clauses are the law.
pub fn no_lost_wakeup<S: Content>()
    ensures standing { (s : State S View) → Ruled S.readers S.writer s → AreListsHome s → (lists : S) × Lie s lists × Matched IsEntryOfReaders (S.readers lists).entries s.views × Matched IsEntryOfWriter (S.writer lists).entries s.views }
    ensures readers { (s : State S View) → Ruled S.readers S.writer s → IsBitClear s → AreListsHome s → (lists : S) × Lie s lists × LosesNone OwesReaders IsFreshReader (S.readers lists) s.views }
    ensures writer { (s : State S View) → Ruled S.readers S.writer s → AreReadersGone s → NobodyWrites s → AreListsHome s → (lists : S) × Lie s lists × LosesNone OwesWriter IsFreshWriter (S.writer lists) s.views }
    ensures nobody_else { (s : State S View) → Ruled S.readers S.writer s → IsBitClear s → NobodyWaitsToWrite s }
    ensures readers_at_rest { (s : State S View) → Ruled S.readers S.writer s → IsBitClear s → IsAtRest s → (lists : S) × Lie s lists × IsSettled (S.readers lists) }
    ensures writer_at_rest { (s : State S View) → Ruled S.readers S.writer s → AreReadersGone s → NobodyWrites s → IsAtRest s → (lists : S) × Lie s lists × IsSettled (S.writer lists) }
{}

/// While a seat writes, no other seat reads or writes, in any state that the rule of the table allows. The call does nothing: its clause
/// is the law.
pub fn exclusion<S: Content>()
    ensures { (s : State S View) → Ruled S.readers S.writer s → IsAlone s }
{}
