//! What each step tells the seat that makes it.

ghost use Rattle.std.specs.Prelude.{◌≡◌};
ghost use Rattle.atomic_table.specs.Table.{rest};

use crate::rule::Content;
use crate::view::View;
use atomic_table::Play;

/// Nothing changes for the seat.
pub struct Keep;

impl<S> Play<S, View> for Keep {
    ghost then = { λ _ m _ m'. m' ≡ m };
}

/// A look at the available permits.
pub struct Sees;

impl<S> Play<S, View> for Sees {
    ghost use Rattle.words_permits.specs.Seats.{looking};

    ghost then = { λ _ m r m'. m' ≡ (looking r m.0, m.1) };
}

// The step by which a seat takes permits from the word that it expects.
pub(crate) struct TakesStep;

impl<S> Play<S, View> for TakesStep {
    ghost use Rattle.words_permits.specs.Steps.{Takes};

    ghost then = { Takes };
}

// The step by which a seat gives its permits back: it owes a notification.
pub(crate) struct GivesStep;

impl<S> Play<S, View> for GivesStep {
    ghost use Rattle.words_permits.specs.Steps.{Gives};

    ghost then = { Gives };
}

// The same, of new ones.
pub(crate) struct GivesNewStep;

impl<S> Play<S, View> for GivesNewStep {
    ghost use Rattle.words_permits.specs.Steps.{GivesNew};

    ghost then = { GivesNew };
}

// A look at the limit.
pub(crate) struct SeesLimit;

impl<S> Play<S, View> for SeesLimit {
    ghost use Rattle.words_permits.specs.Seats.{having_found_limit};

    ghost then = { λ _ m r m'. m' ≡ (having_found_limit r m.0, m.1) };
}

// The step that raises the limit from the one that the seat expects.
pub(crate) struct RaisesStep;

impl<S> Play<S, View> for RaisesStep {
    ghost use Rattle.words_permits.specs.Steps.{Raises};

    ghost then = { Raises };
}

// The step that lowers the limit.
pub(crate) struct LowersStep;

impl<S> Play<S, View> for LowersStep {
    ghost use Rattle.words_permits.specs.Seats.{having_lowered};

    ghost then = { λ st m _ m'. m' ≡ (having_lowered st.first m.0, m.1) };
}

// A look at the list's word: who finds the list empty owes nothing any more.
pub(crate) struct Peeks;

impl<S> Play<S, View> for Peeks {
    ghost use Rattle.words_permits.specs.Seats.{peeking};

    ghost then = { λ _ m r m'. m' ≡ (peeking r m.0, m.1) };
}

// The step that takes the list's lock, where it was free.
pub(crate) struct Grabs;

impl<S: Content> Play<S, View> for Grabs {
    ghost use Rattle.words_permits.specs.Steps.{Grabbed};

    ghost then = { λ _ m r m'. Grabbed S.waiters S.marked m r m' };
}

// The step that gives the list back, in which its entry stands now.
pub(crate) struct Joined;

impl<S: Content> Play<S, View> for Joined {
    ghost use Rattle.words_permits.specs.Seats.{joined_of};
    ghost use Rattle.words_permits.specs.Steps.{newest};

    ghost then = { λ _ m _ m'. m' ≡ (joined_of (newest S.waiters m.1) m.0, rest m.1) };
}

// The same, which its entry has left, notified: the seat owes.
pub(crate) struct Told;

impl<S> Play<S, View> for Told {
    ghost use Rattle.words_permits.specs.Seats.{told_of};

    ghost then = { λ _ m _ m'. m' ≡ (told_of m.0, rest m.1) };
}

// The same, which its entry has left that was not notified.
pub(crate) struct Gone;

impl<S> Play<S, View> for Gone {
    ghost use Rattle.words_permits.specs.Seats.{gone_of};

    ghost then = { λ _ m _ m'. m' ≡ (gone_of m.0, rest m.1) };
}

// The same, and the seat has notified.
pub(crate) struct Paid;

impl<S> Play<S, View> for Paid {
    ghost use Rattle.words_permits.specs.Seats.{paid_of};

    ghost then = { λ _ m _ m'. m' ≡ (paid_of m.0, rest m.1) };
}

// The same, unchanged.
pub(crate) struct Same;

impl<S> Play<S, View> for Same {
    ghost use Rattle.words_permits.specs.Seats.{back};

    ghost then = { λ _ m _ m'. m' ≡ (back m.0, rest m.1) };
}
