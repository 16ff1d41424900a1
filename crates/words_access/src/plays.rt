//! What each step tells the seat that makes it.

use crate::rule::Content;
use crate::view::View;
use atomic_table::{Join, Play, Split};

/// Nothing changes for the seat.
pub struct Keep;

impl<S> Play<S, View> for Keep {
    ghost use Rattle.words_access.specs.Steps.{Kept};

    ghost then = { λ _ m _ m'. Kept m m' };
}

// A look at the state.
pub(crate) struct Looks;

impl<S> Play<S, View> for Looks {
    ghost use Rattle.words_access.specs.Steps.{Looked};

    ghost then = { λ _ m r m'. Looked m r m' };
}

// A look by who has set the bit: whether readers are left.
pub(crate) struct LooksLeft;

impl<S> Play<S, View> for LooksLeft {
    ghost use Rattle.words_access.specs.Steps.{LookedLeft};

    ghost then = { λ _ m r m'. LookedLeft m r m' };
}

// The step into the readers, from the word that was seen.
pub(crate) struct Enters;

impl<S> Play<S, View> for Enters {
    ghost use Rattle.words_access.specs.Steps.{Entered};

    ghost then = { λ step m r m'. Entered step.first m r m' };
}

// The step out of the readers.
pub(crate) struct Leaves;

impl<S> Play<S, View> for Leaves {
    ghost use Rattle.words_access.specs.Steps.{Left};

    ghost then = { λ _ m r m'. Left m r m' };
}

// The step that sets the bit.
pub(crate) struct Marks;

impl<S> Play<S, View> for Marks {
    ghost use Rattle.words_access.specs.Steps.{Marked};

    ghost then = { λ _ m r m'. Marked m r m' };
}

// The step that gets to write, from the word that was expected.
pub(crate) struct Wins;

impl<S> Play<S, View> for Wins {
    ghost use Rattle.words_access.specs.Steps.{Won};

    ghost then = { λ step m r m'. Won step.first m r m' };
}

// The step that gets to write in place of reading, by the reader that is alone.
pub(crate) struct Raises;

impl<S> Play<S, View> for Raises {
    ghost use Rattle.words_access.specs.Steps.{Raised};

    ghost then = { λ _ m r m'. Raised m r m' };
}

// The step that sets the bit in place of one reader, beside others, from the word that was seen.
pub(crate) struct Upgrades;

impl<S> Play<S, View> for Upgrades {
    ghost use Rattle.words_access.specs.Steps.{Upgraded};

    ghost then = { λ step m r m'. Upgraded step.first m r m' };
}

// The step from writing to reading: the seat owes the readers.
pub(crate) struct Downs;

impl<S> Play<S, View> for Downs {
    ghost use Rattle.std.specs.Prelude.{◌≡◌};
    ghost use Rattle.words_access.specs.Seats.{down_of};

    ghost then = { λ _ m _ m'. m' ≡ (down_of m.0, m.1) };
}

// The step that clears the bit: the seat owes the readers.
pub(crate) struct Unmarks;

impl<S> Play<S, View> for Unmarks {
    ghost use Rattle.std.specs.Prelude.{◌≡◌};
    ghost use Rattle.words_access.specs.Seats.{unmarked_of};

    ghost then = { λ _ m _ m'. m' ≡ (unmarked_of m.0, m.1) };
}

// A look at the word of the lists: who finds them empty owes nothing any more.
pub(crate) struct Peeks;

impl<S> Play<S, View> for Peeks {
    ghost use Rattle.words_access.specs.Steps.{Peeked};

    ghost then = { λ _ m r m'. Peeked m r m' };
}

// The step that takes the lists out, where nobody has them.
pub(crate) struct Grabs;

impl<S: Content> Play<S, View> for Grabs {
    ghost use Rattle.words_access.specs.Steps.{Grabbed};

    ghost then = { λ _ m r m'. Grabbed S.readers S.writer m r m' };
}

// The step that gives the lists back, where the entry that has joined stands last of the readers.
pub(crate) struct JoinsReaders;

impl<S: Content> Play<S, View> for JoinsReaders {
    ghost use Rattle.std.specs.Prelude.{◌≡◌, ◌∷◌};
    ghost use Rattle.atomic_table.specs.Table.{rest};
    ghost use Rattle.words_base.specs.Waiting.{last_of};
    ghost use Rattle.words_access.specs.Seats.{joined_readers_of};

    ghost then = { λ _ m _ m'. (lists : S) × (m.1 ≡ (0, lists) ∷ rest m.1) × (m' ≡ (joined_readers_of (last_of (S.readers lists).entries) m.0, rest m.1)) };
}

// The same, of the writer's list.
pub(crate) struct JoinsWriter;

impl<S: Content> Play<S, View> for JoinsWriter {
    ghost use Rattle.std.specs.Prelude.{◌≡◌, ◌∷◌};
    ghost use Rattle.atomic_table.specs.Table.{rest};
    ghost use Rattle.words_base.specs.Waiting.{last_of};
    ghost use Rattle.words_access.specs.Seats.{joined_writer_of};

    ghost then = { λ _ m _ m'. (lists : S) × (m.1 ≡ (0, lists) ∷ rest m.1) × (m' ≡ (joined_writer_of (last_of (S.writer lists).entries) m.0, rest m.1)) };
}

// The same, where its entry was notified, and has left the readers: the seat owes.
pub(crate) struct HearsReader;

impl<S> Play<S, View> for HearsReader {
    ghost use Rattle.std.specs.Prelude.{◌≡◌};
    ghost use Rattle.atomic_table.specs.Table.{rest};
    ghost use Rattle.words_access.specs.Seats.{told_reader_of};

    ghost then = { λ _ m _ m'. m' ≡ (told_reader_of m.0, rest m.1) };
}

// The same, of the writer's list.
pub(crate) struct HearsWriter;

impl<S> Play<S, View> for HearsWriter {
    ghost use Rattle.std.specs.Prelude.{◌≡◌};
    ghost use Rattle.atomic_table.specs.Table.{rest};
    ghost use Rattle.words_access.specs.Seats.{told_writer_of};

    ghost then = { λ _ m _ m'. m' ≡ (told_writer_of m.0, rest m.1) };
}

// The same, where its entry has left the readers.
pub(crate) struct LeavesReaders;

impl<S> Play<S, View> for LeavesReaders {
    ghost use Rattle.std.specs.Prelude.{◌≡◌};
    ghost use Rattle.atomic_table.specs.Table.{rest};
    ghost use Rattle.words_access.specs.Seats.{gone_reader_of};

    ghost then = { λ _ m _ m'. m' ≡ (gone_reader_of m.0, rest m.1) };
}

// The same, of the writer's list.
pub(crate) struct LeavesWriter;

impl<S> Play<S, View> for LeavesWriter {
    ghost use Rattle.std.specs.Prelude.{◌≡◌};
    ghost use Rattle.atomic_table.specs.Table.{rest};
    ghost use Rattle.words_access.specs.Seats.{gone_writer_of};

    ghost then = { λ _ m _ m'. m' ≡ (gone_writer_of m.0, rest m.1) };
}

// The same, and a reader is notified.
pub(crate) struct PaysReaders;

impl<S> Play<S, View> for PaysReaders {
    ghost use Rattle.std.specs.Prelude.{◌≡◌};
    ghost use Rattle.atomic_table.specs.Table.{rest};
    ghost use Rattle.words_access.specs.Seats.{paid_readers_of};

    ghost then = { λ _ m _ m'. m' ≡ (paid_readers_of m.0, rest m.1) };
}

// The same, and who waits to write is.
pub(crate) struct PaysWriter;

impl<S> Play<S, View> for PaysWriter {
    ghost use Rattle.std.specs.Prelude.{◌≡◌};
    ghost use Rattle.atomic_table.specs.Table.{rest};
    ghost use Rattle.words_access.specs.Seats.{paid_writer_of};

    ghost then = { λ _ m _ m'. m' ≡ (paid_writer_of m.0, rest m.1) };
}

// The same, and nothing changes for the seat.
pub(crate) struct Stays;

impl<S> Play<S, View> for Stays {
    ghost use Rattle.std.specs.Prelude.{◌≡◌};
    ghost use Rattle.atomic_table.specs.Table.{rest};
    ghost use Rattle.words_access.specs.Seats.{back};

    ghost then = { λ _ m _ m'. m' ≡ (back m.0, rest m.1) };
}

// A seat without its duty to the readers, and a new one that has it and nothing else.
pub(crate) struct DutyApart;

impl Split<View> for DutyApart {
    ghost use Rattle.words_access.specs.Seats.{duty_view, relieved_of};

    ghost left = { relieved_of };

    ghost right = { λ _. duty_view };
}

// A seat that writes and one that reads, which the rule shuts out, as one.
pub(crate) struct WriterAndReader;

impl Join<View> for WriterAndReader {
    ghost use Rattle.words_access.specs.Rule.{first_view};
    ghost use Rattle.words_access.specs.Seats.{both_of};

    ghost both = { both_of };

    ghost spent = { first_view };
}

// A step that no seat makes.
pub(crate) struct NoStep;

impl<S> Play<S, View> for NoStep {
    ghost then = { λ _ _ _ _. ⊥ };
}
