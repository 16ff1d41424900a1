//! The lists, taken out of their place by a step on their word.

ghost use Rattle.std.specs.Prelude.{◌≡◌};
ghost use Rattle.atomic_table.specs.Table.{rest};
ghost use Rattle.words_cell.specs.Steps.{IsHeld, IsSame};

use crate::rule::Content;
use crate::steps::{ASLEEP, ENTRIES, LIST, OUT, Ruled, grab, grab_asleep};
use crate::view::View;
use atomic_table::Seat as TableSeat;
use std::sync::Wait;

/// Takes the lists out, and waits while another has them. What is returned is the word that was found.
#[inline]
pub fn take_out<S: Content, R: Wait>(
    shared: &Ruled<S>,
    rt: &R,
    inner: &mut TableSeat<S, View>,
) -> u64
    requires table { (inner.old.table_id ≡ shared.now.table_id) × (shared.now.table_id.words ≡ 2) }
    ensures seat { (inner.new.table_id ≡ inner.old.table_id) × (inner.new.id ≡ inner.old.id) }
    ensures held { IsHeld S.active S.passive inner.new.me }
    ensures same { IsSame inner.old.me.0 inner.new.me.0 }
    ensures others { rest inner.new.me.1 ≡ inner.old.me.1 }
{
    let found = grab(shared, inner);
    if found % 2 == 0 {
        return found;
    }
    take_out_asleep(shared, rt, inner)
}

// The same, where another has the lists. It stands apart, since hardly ever two parties want the lists at once.
#[cold]
#[inline(never)]
fn take_out_asleep<S: Content, R: Wait>(
    shared: &Ruled<S>,
    rt: &R,
    inner: &mut TableSeat<S, View>,
) -> u64
    requires table { (inner.old.table_id ≡ shared.now.table_id) × (shared.now.table_id.words ≡ 2) }
    ensures seat { (inner.new.table_id ≡ inner.old.table_id) × (inner.new.id ≡ inner.old.id) }
    ensures held { IsHeld S.active S.passive inner.new.me }
    ensures same { IsSame inner.old.me.0 inner.new.me.0 }
    ensures others { rest inner.new.me.1 ≡ inner.old.me.1 }
{
    for _ in rt.forever() {
        let found = grab_asleep(shared, inner);
        if found % 2 == 0 {
            return found;
        }
        shared.park(rt, LIST, low_half(found - found % ENTRIES + (OUT + ASLEEP)));
    }
    unreachable!()
}

// A thread sleeps while the lower half of a word is this.
fn low_half(word: u64) -> u32 {
    (word % 4_294_967_296) as u32
}

/// Wakes one that sleeps for the lists, if the word said that somebody may.
#[inline]
pub fn wake_next<S: Content>(shared: &Ruled<S>, found: u64)
    requires { shared.now.table_id.words ≡ 2 }
{
    if found % ENTRIES >= ASLEEP {
        shared.wake_one(LIST);
    }
}
