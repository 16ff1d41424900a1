//! What each step tells the seat that makes it.

use crate::rule::Content;
use crate::view::View;
use atomic_table::Play;

/// Nothing changes for the seat.
pub struct Keep;

impl<S> Play<S, View> for Keep {
    ghost use Rattle.words_cell.specs.Steps.{Kept};

    ghost then = { λ _ m _ m'. Kept m m' };
}

// A look at the cell.
pub(crate) struct Looks;

impl<S> Play<S, View> for Looks {
    ghost use Rattle.words_cell.specs.Steps.{Looked};

    ghost then = { λ _ m r m'. Looked m r m' };
}

// The step that takes the right to make, where the cell is empty.
pub(crate) struct Claims;

impl<S> Play<S, View> for Claims {
    ghost use Rattle.words_cell.specs.Steps.{Claimed};

    ghost then = { λ _ m r m'. Claimed m r m' };
}

// The step that makes the cell full: the seat owes all of both lists.
pub(crate) struct Fills;

impl<S> Play<S, View> for Fills {
    ghost use Rattle.std.specs.Prelude.{◌≡◌};
    ghost use Rattle.words_cell.specs.Seats.{filled_by};

    ghost then = { λ _ m _ m'. m' ≡ (filled_by m.0, m.1) };
}

// The step that gives the right to make back: the seat owes.
pub(crate) struct Empties;

impl<S> Play<S, View> for Empties {
    ghost use Rattle.std.specs.Prelude.{◌≡◌};
    ghost use Rattle.words_cell.specs.Seats.{emptied_by};

    ghost then = { λ _ m _ m'. m' ≡ (emptied_by m.0, m.1) };
}

// The step that empties the full cell.
pub(crate) struct Takes;

impl<S> Play<S, View> for Takes {
    ghost use Rattle.words_cell.specs.Steps.{Took};

    ghost then = { λ _ m r m'. Took m r m' };
}

// A look at the word of the lists: who finds them empty owes nothing any more.
pub(crate) struct Peeks;

impl<S> Play<S, View> for Peeks {
    ghost use Rattle.words_cell.specs.Steps.{Peeked};

    ghost then = { λ _ m r m'. Peeked m r m' };
}

// The step that takes the lists out, where nobody has them.
pub(crate) struct Grabs;

impl<S: Content> Play<S, View> for Grabs {
    ghost use Rattle.words_cell.specs.Steps.{Grabbed};

    ghost then = { λ _ m r m'. Grabbed S.active S.passive m r m' };
}

// The step that gives the lists back, where its entry stands last of those that would make.
pub(crate) struct JoinsActive;

impl<S: Content> Play<S, View> for JoinsActive {
    ghost use Rattle.std.specs.Prelude.{◌≡◌, ◌∷◌};
    ghost use Rattle.atomic_table.specs.Table.{rest};
    ghost use Rattle.words_base.specs.Waiting.{last_of};
    ghost use Rattle.words_cell.specs.Seats.{joined_active_of};

    ghost then = { λ _ m _ m'. (lists : S) × (m.1 ≡ (0, lists) ∷ rest m.1) × (m' ≡ (joined_active_of (last_of (S.active lists).entries) m.0, rest m.1)) };
}

// The same, of those that wait.
pub(crate) struct JoinsPassive;

impl<S: Content> Play<S, View> for JoinsPassive {
    ghost use Rattle.std.specs.Prelude.{◌≡◌, ◌∷◌};
    ghost use Rattle.atomic_table.specs.Table.{rest};
    ghost use Rattle.words_base.specs.Waiting.{last_of};
    ghost use Rattle.words_cell.specs.Seats.{joined_passive_of};

    ghost then = { λ _ m _ m'. (lists : S) × (m.1 ≡ (0, lists) ∷ rest m.1) × (m' ≡ (joined_passive_of (last_of (S.passive lists).entries) m.0, rest m.1)) };
}

// The same, where its entry was notified, and has left those that would make: the seat owes.
pub(crate) struct Hears;

impl<S> Play<S, View> for Hears {
    ghost use Rattle.std.specs.Prelude.{◌≡◌};
    ghost use Rattle.atomic_table.specs.Table.{rest};
    ghost use Rattle.words_cell.specs.Seats.{told_of};

    ghost then = { λ _ m _ m'. m' ≡ (told_of m.0, rest m.1) };
}

// The same, where its entry has left.
pub(crate) struct Leaves;

impl<S> Play<S, View> for Leaves {
    ghost use Rattle.std.specs.Prelude.{◌≡◌};
    ghost use Rattle.atomic_table.specs.Table.{rest};
    ghost use Rattle.words_cell.specs.Seats.{gone_of};

    ghost then = { λ _ m _ m'. m' ≡ (gone_of m.0, rest m.1) };
}

// The same, and one that would make is notified.
pub(crate) struct Pays;

impl<S> Play<S, View> for Pays {
    ghost use Rattle.std.specs.Prelude.{◌≡◌};
    ghost use Rattle.atomic_table.specs.Table.{rest};
    ghost use Rattle.words_cell.specs.Seats.{paid_of};

    ghost then = { λ _ m _ m'. m' ≡ (paid_of m.0, rest m.1) };
}

// The same, and all that would make are.
pub(crate) struct PaysActive;

impl<S> Play<S, View> for PaysActive {
    ghost use Rattle.std.specs.Prelude.{◌≡◌};
    ghost use Rattle.atomic_table.specs.Table.{rest};
    ghost use Rattle.words_cell.specs.Seats.{paid_active_of};

    ghost then = { λ _ m _ m'. m' ≡ (paid_active_of m.0, rest m.1) };
}

// The same, and all that wait are.
pub(crate) struct PaysPassive;

impl<S> Play<S, View> for PaysPassive {
    ghost use Rattle.std.specs.Prelude.{◌≡◌};
    ghost use Rattle.atomic_table.specs.Table.{rest};
    ghost use Rattle.words_cell.specs.Seats.{paid_passive_of};

    ghost then = { λ _ m _ m'. m' ≡ (paid_passive_of m.0, rest m.1) };
}

// The same, and nothing changes for the seat.
pub(crate) struct Stays;

impl<S> Play<S, View> for Stays {
    ghost use Rattle.std.specs.Prelude.{◌≡◌};
    ghost use Rattle.atomic_table.specs.Table.{rest};
    ghost use Rattle.words_cell.specs.Seats.{back};

    ghost then = { λ _ m _ m'. m' ≡ (back m.0, rest m.1) };
}
