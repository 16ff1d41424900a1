//! A seat in pledge, while what its view says is lent on.

ghost use Rattle.std.specs.Prelude.{◌≡◌, false, [], ◌∷◌};
ghost use Rattle.access_core.specs.Accesses.{IsOf, seated};
ghost use Rattle.words_access.specs.declared.view.View.{View as SeatView};

use crate::access::Access;
use crate::count::Count;
use crate::lists::Lists;
use crate::seat::Seat;
use atomic_table::{Badge, Shared};
use words_access::{AccessRule, View};

/// A seat in pledge, while what its view says is lent on. It takes no bytes.
///
/// It is not `Drop`: [`Access::redeem`] alone ends it, which gives the seat back.
pub struct Pledge {
    /// The seat, as a badge. It is blank while the seat's view is lent on.
    pub badge: Badge<View>,
    /// How many calls the seat has begun.
    pub calls: Count,
    // Keeps a pledge from being taken apart outside of this crate.
    seal: (),
}

impl Access {
    /// Lends the table, against which a value is lent to the seats' views.
    pub fn shared(&self) -> &Shared<Lists, View, (), AccessRule>
        ensures { result.now.table_id ≡ self.now.table }
    {
        &self.table.shared
    }

    /// Puts a seat in pledge.
    pub fn pledge(&self, seat: Seat) -> Pledge
        requires { IsOf self.now seat }
        ensures table { (result.badge.table_id ≡ seat.table) × (result.badge.id ≡ seat.id) }
        ensures view { (v : SeatView) × (result.badge.views ≡ v ∷ []) × (v.has_lists ≡ false) × (seated seat.table seat.id v result.calls.number ≡ seat) }
    {
        let (badge, calls) = seat.into_badge();
        Pledge {
            badge,
            calls,
            seal: (),
        }
    }

    /// Gives the seat back that was in pledge, with the view that it had, and the calls that it has begun.
    pub fn redeem(&self, pledge: Pledge) -> Seat
        requires table { pledge.badge.table_id ≡ self.now.table }
        requires whole { (v : SeatView) × (pledge.badge.views ≡ v ∷ []) × (v.has_lists ≡ false) }
        ensures { (v : SeatView) → pledge.badge.views ≡ v ∷ [] → result ≡ seated pledge.badge.table_id pledge.badge.id v pledge.calls.number }
    {
        let Pledge {
            badge,
            calls,
            seal: (),
        } = pledge;
        Seat::of_badge(badge, calls)
    }
}
