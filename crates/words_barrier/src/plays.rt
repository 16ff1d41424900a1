//! What each step tells the seat that makes it.

use crate::rule::Content;
use crate::view::View;
use atomic_table::Play;

/// A look at how many generations are finished.
pub struct Looks;

impl<S> Play<S, View> for Looks {
    ghost use Rattle.words_barrier.specs.Steps.{Looked};

    ghost then = { λ _ m r m'. Looked m r m' };
}

// A look by which the seat's arrival is counted in the generation that is under way.
pub(crate) struct Counts;

impl<S> Play<S, View> for Counts {
    ghost use Rattle.words_barrier.specs.Steps.{Counted};

    ghost then = { λ _ m r m'. Counted m r m' };
}

// The step that finishes a generation: the seat owes the whole list a notification.
pub(crate) struct Finishes;

impl<S> Play<S, View> for Finishes {
    ghost use Rattle.words_barrier.specs.Steps.{Finished};

    ghost then = { λ st m _ m'. Finished m st.first m' };
}

// A look at the list's word: who finds the list empty owes nothing any more.
pub(crate) struct Peeks;

impl<S> Play<S, View> for Peeks {
    ghost use Rattle.words_barrier.specs.Steps.{Peeked};

    ghost then = { λ _ m r m'. Peeked m r m' };
}

// The step that takes the list out, where nobody has it.
pub(crate) struct Grabs;

impl<S: Content> Play<S, View> for Grabs {
    ghost use Rattle.words_barrier.specs.Steps.{Grabbed};

    ghost then = { λ _ m r m'. Grabbed S.listed m r m' };
}

// The step that gives the list back, where its entry stands last of those that wait.
pub(crate) struct Joins;

impl<S: Content> Play<S, View> for Joins {
    ghost use Rattle.std.specs.Prelude.{◌≡◌, ◌∷◌};
    ghost use Rattle.atomic_table.specs.Table.{rest};
    ghost use Rattle.words_barrier.specs.Seats.{joined_of};
    ghost use Rattle.words_base.specs.Waiting.{last_of};

    ghost then = { λ _ m _ m'. (list : S) × (m.1 ≡ (0, list) ∷ rest m.1) × (m' ≡ (joined_of (last_of (S.listed list).entries) m.0, rest m.1)) };
}

// The same, which its entry has left.
pub(crate) struct Leaves;

impl<S> Play<S, View> for Leaves {
    ghost use Rattle.std.specs.Prelude.{◌≡◌};
    ghost use Rattle.atomic_table.specs.Table.{rest};
    ghost use Rattle.words_barrier.specs.Seats.{gone_of};

    ghost then = { λ _ m _ m'. m' ≡ (gone_of m.0, rest m.1) };
}

// The same, and all are notified.
pub(crate) struct Pays;

impl<S> Play<S, View> for Pays {
    ghost use Rattle.std.specs.Prelude.{◌≡◌};
    ghost use Rattle.atomic_table.specs.Table.{rest};
    ghost use Rattle.words_barrier.specs.Seats.{paid_of};

    ghost then = { λ _ m _ m'. m' ≡ (paid_of m.0, rest m.1) };
}

// The same, and nothing changes for the seat.
pub(crate) struct Stays;

impl<S> Play<S, View> for Stays {
    ghost use Rattle.std.specs.Prelude.{◌≡◌};
    ghost use Rattle.atomic_table.specs.Table.{rest};
    ghost use Rattle.words_barrier.specs.Seats.{back};

    ghost then = { λ _ m _ m'. m' ≡ (back m.0, rest m.1) };
}
