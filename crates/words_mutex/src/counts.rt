//! Counts of starved seats, tried until nobody comes between.

ghost use Rattle.std.specs.Prelude.{◌≡◌, ◌≤◌, true, false, IfErr, OnErr, OnOk};
ghost use Rattle.words_mutex.specs.Seats.{counted_listed_of, counted_unlisted_of};

use crate::rule::Content;
use crate::steps::{COUNT, Ruled, count_listed, count_unlisted, read};
use crate::view::View;
use atomic_table::Seat as TableSeat;
use std::sync::Wait;

/// A look found as many starved as may be. It is made of such a look alone.
#[derive(Clone, Copy, PartialEq, Eq)]
pub struct Full {
    starved: u64,
}

impl Full {
    /// Returns how many the look found.
    pub fn starved(self) -> u64
        ensures { result ≡ self.starved }
    {
        self.starved
    }
}

/// Counts a seat as starved that has an entry and has looked.
pub fn tally_listed<T, S: Content, R: Wait>(
    shared: &Ruled<T, S>,
    rt: &R,
    inner: &mut TableSeat<S, View>,
    limit: u64,
) -> Result<(), Full>
    requires table { (inner.old.table_id ≡ shared.now.table_id) × (shared.now.table_id.words ≡ 2) }
    requires limit { limit ≤ 1073741823 }
    requires waits { (inner.old.me.0.starved ≡ false) × (inner.old.me.0.listed ≡ true) × (inner.old.me.0.fresh ≡ false) }
    ensures seat { (inner.new.table_id ≡ inner.old.table_id) × (inner.new.id ≡ inner.old.id) }
    ensures counted { OnOk result (inner.new.me ≡ (counted_listed_of inner.old.me.0, inner.old.me.1)) }
    ensures not { OnErr result (inner.new.me ≡ inner.old.me) }
    ensures limit { IfErr result (λ full. limit ≤ full.starved) }
{
    for _ in rt.forever() {
        let found = read(shared, inner);
        let starved = found / COUNT;
        if starved >= limit {
            return Err(Full { starved });
        }
        if count_listed(shared, inner, found) == found {
            return Ok(());
        }
    }
    unreachable!()
}

/// The same, by any seat: it owes a look then.
pub fn tally<T, S: Content, R: Wait>(
    shared: &Ruled<T, S>,
    rt: &R,
    inner: &mut TableSeat<S, View>,
    limit: u64,
) -> Result<(), Full>
    requires table { (inner.old.table_id ≡ shared.now.table_id) × (shared.now.table_id.words ≡ 2) }
    requires limit { limit ≤ 1073741823 }
    requires waits { inner.old.me.0.starved ≡ false }
    ensures seat { (inner.new.table_id ≡ inner.old.table_id) × (inner.new.id ≡ inner.old.id) }
    ensures counted { OnOk result (inner.new.me ≡ (counted_unlisted_of inner.old.me.0, inner.old.me.1)) }
    ensures not { OnErr result (inner.new.me ≡ inner.old.me) }
    ensures limit { IfErr result (λ full. limit ≤ full.starved) }
{
    for _ in rt.forever() {
        let found = read(shared, inner);
        let starved = found / COUNT;
        if limit <= starved {
            return Err(Full { starved });
        }
        if count_unlisted(shared, inner, found) == found {
            return Ok(());
        }
    }
    unreachable!()
}
