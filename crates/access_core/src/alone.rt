//! No seat reads beside one that writes.

ghost use Rattle.std.specs.Prelude.{◌≡◌, true};
ghost use Rattle.access_core.specs.Accesses.{IsOf};

use crate::access::Access;
use crate::seat::Seat;

impl Access {
    /// A seat that writes, and another that reads, are absurd: no run comes here, and what would follow may be anything.
    pub fn never_beside(&self, writer: Seat, reader: Seat)
        requires of { IsOf self.now writer × IsOf self.now reader }
        requires writes { writer.writes ≡ true }
        requires reads { reader.reads ≡ true }
        ensures { ⊥ }
    {
        writer.never_beside(reader, &self.table.shared);
    }
}
