//! Two parties never both hold a lock.

ghost use Rattle.std.specs.Prelude.{◌≡◌};
ghost use Rattle.mutex_core.specs.Outcomes.{IsHeldOf};

use crate::turn::Held;
use crate::words::Words;

impl<T> Words<T> {
    /// Two parties never both hold the lock: no run comes here, and what would follow may be anything.
    pub fn never_two(&self, one: Held<T>, other: Held<T>)
        requires one { IsHeldOf self.now one }
        requires other { IsHeldOf self.now other }
        ensures { ⊥ }
    {
        let Held { seat, hold } = one;
        let Held {
            seat: twin,
            hold: right,
        } = other;
        drop(hold.park());
        drop(right.park());
        seat.never_two(twin, &self.table.shared);
    }
}
