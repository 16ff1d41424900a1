//! What the rule says of two seats.

ghost use Rattle.std.specs.Prelude.{◌≡◌, [], ◌∷◌, true};

use crate::plays::{LaysDown, NoStep, Twins};
use crate::rule::Content;
use crate::steps::{Ruled, WORD};
use crate::view::View;
use atomic_table::Seat as TableSeat;

/// Two seats never both hold one lock: no run comes here, and what would follow may be anything.
pub fn never_two<T, S: Content>(
    shared: &Ruled<T, S>,
    inner: TableSeat<S, View>,
    other: TableSeat<S, View>,
)
    requires table { (inner.table_id ≡ shared.now.table_id) × (other.table_id ≡ shared.now.table_id) × (shared.now.table_id.words ≡ 2) }
    requires deed { inner.me.0.deed ≡ shared.now.key.deed }
    requires hold { (inner.me.0.holds ≡ true) × (other.me.0.holds ≡ true) }
    requires right { (right : S) × (other.me.1 ≡ (1, right) ∷ []) }
    ensures { ⊥ }
{
    let mut inner = inner;
    let mut other = other;
    shared.load::<LaysDown>(&mut other, WORD);
    shared.join_seat::<Twins>(&mut inner, other);
    shared.load::<NoStep>(&mut inner, WORD);
}
