//! What the rule says of a seat that writes and one that reads.

ghost use Rattle.std.specs.Prelude.{◌≡◌, [], true};

use crate::plays::{NoStep, WriterAndReader};
use crate::rule::Content;
use crate::steps::{Ruled, STATE};
use crate::view::View;
use atomic_table::Seat as TableSeat;

/// One seat never writes while another reads: no run comes here, and what would follow may be anything.
pub fn never_beside<S: Content>(
    shared: &Ruled<S>,
    writer: TableSeat<S, View>,
    reader: TableSeat<S, View>,
)
    requires table { (writer.table_id ≡ shared.now.table_id) × (reader.table_id ≡ shared.now.table_id) × (shared.now.table_id.words ≡ 2) }
    requires empty { reader.me.1 ≡ [] }
    requires writes { writer.me.0.writes ≡ true }
    requires reads { reader.me.0.reads ≡ true }
    ensures { ⊥ }
{
    let mut writer = writer;
    shared.join_seat::<WriterAndReader>(&mut writer, reader);
    shared.load::<NoStep>(&mut writer, STATE);
}
