//! What each step tells the seat that makes it.

use crate::rule::Content;
use crate::view::View;
use atomic_table::{Join, Play};

/// Nothing changes for the seat.
pub struct Keep;

impl<S> Play<S, View> for Keep {
    ghost use Rattle.words_mutex.specs.Steps.{Kept};

    ghost then = { λ _ m _ m'. Kept m m' };
}

// A look at the mutex's word.
pub(crate) struct Looks;

impl<S> Play<S, View> for Looks {
    ghost use Rattle.words_mutex.specs.Steps.{Looked};

    ghost then = { λ _ m r m'. Looked m r m' };
}

// The step by which a seat gets the lock from the word that it expects: else it has looked.
pub(crate) struct Takes;

impl<S: Content> Play<S, View> for Takes {
    ghost use Rattle.std.specs.Prelude.{◌≡◌, ◌≢◌};
    ghost use Rattle.words_mutex.specs.Steps.{Got, Looked};

    ghost then = { λ st m r m'. (r ≡ st.first → Got S.is_right st.first m m') × (r ≢ st.first → Looked m r m') };
}

// A seat is counted as starved, with an entry in the list.
pub(crate) struct CountsListed;

impl<S> Play<S, View> for CountsListed {
    ghost use Rattle.std.specs.Prelude.{◌≡◌, ◌≢◌};
    ghost use Rattle.words_mutex.specs.Seats.{counted_listed_of};

    ghost then = { λ st m r m'. (r ≡ st.first → m' ≡ (counted_listed_of m.0, m.1)) × (r ≢ st.first → m' ≡ m) };
}

// A seat is counted as starved, and owes a look.
pub(crate) struct CountsUnlisted;

impl<S> Play<S, View> for CountsUnlisted {
    ghost use Rattle.std.specs.Prelude.{◌≡◌, ◌≢◌};
    ghost use Rattle.words_mutex.specs.Seats.{counted_unlisted_of};

    ghost then = { λ st m r m'. (r ≡ st.first → m' ≡ (counted_unlisted_of m.0, m.1)) × (r ≢ st.first → m' ≡ m) };
}

// A seat's count goes off.
pub(crate) struct Uncounts;

impl<S> Play<S, View> for Uncounts {
    ghost use Rattle.std.specs.Prelude.{◌≡◌};
    ghost use Rattle.words_mutex.specs.Seats.{uncounted_of};

    ghost then = { λ _ m _ m'. m' ≡ (uncounted_of m.0, m.1) };
}

// The step that gives the lock back: the seat owes a notification.
pub(crate) struct Clears;

impl<S> Play<S, View> for Clears {
    ghost use Rattle.std.specs.Prelude.{◌≡◌};
    ghost use Rattle.atomic_table.specs.Table.{rest};
    ghost use Rattle.words_mutex.specs.Seats.{cleared_of};

    ghost then = { λ _ m _ m'. m' ≡ (cleared_of m.0, rest m.1) };
}

// A look at the list's word: who finds the list empty owes nothing any more.
pub(crate) struct Peeks;

impl<S> Play<S, View> for Peeks {
    ghost use Rattle.std.specs.Prelude.{◌≡◌};
    ghost use Rattle.words_mutex.specs.Seats.{peeking};

    ghost then = { λ _ m r m'. m' ≡ (peeking r m.0, m.1) };
}

// The step that takes the list's lock, where it was free.
pub(crate) struct Grabs;

impl<S: Content> Play<S, View> for Grabs {
    ghost use Rattle.words_mutex.specs.Steps.{Grabbed};

    ghost then = { λ _ m r m'. Grabbed S.entries S.marked m r m' };
}

// The step that gives the list back, in which its entry stands last now.
pub(crate) struct Joined;

impl<S: Content> Play<S, View> for Joined {
    ghost use Rattle.std.specs.Prelude.{◌≡◌, ◌∷◌};
    ghost use Rattle.atomic_table.specs.Table.{rest};
    ghost use Rattle.words_base.specs.Waiting.{last_of};
    ghost use Rattle.words_mutex.specs.Seats.{joined_of};

    ghost then = { λ _ m _ m'. (list : S) × (m.1 ≡ (0, list) ∷ rest m.1) × (m' ≡ (joined_of (last_of (S.entries list)) m.0, rest m.1)) };
}

// The same, which its entry has left, notified: the seat owes.
pub(crate) struct Told;

impl<S> Play<S, View> for Told {
    ghost use Rattle.std.specs.Prelude.{◌≡◌};
    ghost use Rattle.atomic_table.specs.Table.{rest};
    ghost use Rattle.words_mutex.specs.Seats.{told_of};

    ghost then = { λ _ m _ m'. m' ≡ (told_of m.0, rest m.1) };
}

// The same, and the seat has notified.
pub(crate) struct Paid;

impl<S> Play<S, View> for Paid {
    ghost use Rattle.std.specs.Prelude.{◌≡◌};
    ghost use Rattle.atomic_table.specs.Table.{rest};
    ghost use Rattle.words_mutex.specs.Seats.{paid_of};

    ghost then = { λ _ m _ m'. m' ≡ (paid_of m.0, rest m.1) };
}

// The same, which its entry has left.
pub(crate) struct Gone;

impl<S> Play<S, View> for Gone {
    ghost use Rattle.std.specs.Prelude.{◌≡◌};
    ghost use Rattle.atomic_table.specs.Table.{rest};
    ghost use Rattle.words_mutex.specs.Seats.{gone_of};

    ghost then = { λ _ m _ m'. m' ≡ (gone_of m.0, rest m.1) };
}

// The same, unchanged.
pub(crate) struct Same;

impl<S> Play<S, View> for Same {
    ghost use Rattle.std.specs.Prelude.{◌≡◌};
    ghost use Rattle.atomic_table.specs.Table.{rest};
    ghost use Rattle.words_mutex.specs.Seats.{back};

    ghost then = { λ _ m _ m'. m' ≡ (back m.0, rest m.1) };
}

// The step by which the only one who is starved gets the lock: else it has looked, and found its own count.
pub(crate) struct TakesAlone;

impl<S: Content> Play<S, View> for TakesAlone {
    ghost use Rattle.std.specs.Prelude.{◌≡◌, ◌≢◌};
    ghost use Rattle.words_mutex.specs.Steps.{Got, Looked};

    ghost then = { λ st m r m'. (r ≡ st.first → Got S.is_right st.first m m') × (r ≢ st.first → Looked m r m') × (r ≢ 0) };
}

// The step by which a seat gets the lock, whoever is starved.
pub(crate) struct Lifts;

impl<S: Content> Play<S, View> for Lifts {
    ghost use Rattle.std.specs.Prelude.{◌≡◌, ◌≢◌, ◌%◌};
    ghost use Rattle.words_mutex.specs.Seats.{saw_of};
    ghost use Rattle.words_mutex.specs.Steps.{Got};

    ghost then = { λ _ m r m'. (r % 2 ≡ 0 → Got S.is_right r m m') × (r % 2 ≢ 0 → m' ≡ (saw_of r m.0, m.1)) };
}

// The right is laid down in its slot while the seat holds the lock.
pub(crate) struct LaysDown;

impl<S> Play<S, View> for LaysDown {
    ghost use Rattle.std.specs.Prelude.{◌≡◌};
    ghost use Rattle.atomic_table.specs.Table.{rest};

    ghost then = { λ _ m _ m'. m' ≡ (m.0, rest m.1) };
}

// Two seats that both hold the lock, which the rule shuts out, as one.
pub(crate) struct Twins;

impl Join<View> for Twins {
    ghost use Rattle.words_mutex.specs.Seats.{both_of, spent as is_spent};

    ghost both = { both_of };

    ghost spent = { is_spent };
}

// A step that no seat makes.
pub(crate) struct NoStep;

impl<S> Play<S, View> for NoStep {
    ghost then = { λ _ _ _ _. ⊥ };
}
