//! The calls of one party on a list.

ghost use Rattle.std.specs.Prelude.{◌≡◌, ℕ, ◌<◌, ◌≤◌, ◌^◌, true, false, None, length, IsTrue};
ghost use Rattle.world_base.specs.queue.Seats.{IsSeated, Joins, Departs, Asked, seat_of};
ghost use Rattle.lock_event.specs.Lists.{without, left};

use lock_event::{EntryId, Event};

/// The party joins the list, for which there is room.
pub(crate) fn join(list: &mut Event<u32>, seat: &mut Option<EntryId>, party: u32)
    requires { length list.old.entries < list.old.room }
    ensures list { Joins party (seat_of list.old.entries seat.old) (seat_of list.new.entries seat.new) }
    ensures room { list.old.room ≤ list.new.room }
{
    match list.listen() {
        Ok(id) => {
            list.poll_entry(id, party);
            *seat = Some(id);
        }
        Err(_) => unreachable!(),
    }
}

/// The party asks for its notification, and has it or waits on.
pub(crate) fn ask(list: &mut Event<u32>, seat: &mut Option<EntryId>, party: u32) -> bool
    requires { IsSeated party (seat_of list.old.entries seat.old) }
    ensures asked { Asked (seat_of list.old.entries seat.old) result }
    ensures told { IsTrue result → Departs (seat_of list.old.entries seat.old) (seat_of list.new.entries seat.new) without }
    ensures waiting { result ≡ false → seat_of list.new.entries seat.new ≡ seat_of list.old.entries seat.old }
    ensures room { list.old.room ≤ list.new.room }
{
    match *seat {
        Some(id) => {
            if list.poll_entry(id, party) {
                *seat = None;
                true
            } else {
                false
            }
        }
        None => unreachable!(),
    }
}

/// The party leaves the list, and what it was told goes on.
pub(crate) fn leave(list: &mut Event<u32>, seat: &mut Option<EntryId>, party: u32)
    requires { IsSeated party (seat_of list.old.entries seat.old) }
    ensures list { Departs (seat_of list.old.entries seat.old) (seat_of list.new.entries seat.new) left }
    ensures room { list.old.room ≤ list.new.room }
{
    match *seat {
        Some(id) => {
            list.leave(id);
            *seat = None;
        }
        None => unreachable!(),
    }
}
