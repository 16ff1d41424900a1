//! The calls of one party on a list of weighted entries.

ghost use Rattle.std.specs.Prelude.{◌≡◌, ℕ, ◌<◌, ◌≤◌, true, false, length, IsTrue};
ghost use Rattle.world_base.specs.queue.Weighted.{weighted_seat, IsListedSeat, JoinsWeighted, DepartsWeighted, AskedWeighted};

use lock_event::EntryId;
use weighted_event::WeightedEvent;

/// The party joins the list, for which there is room.
pub(crate) fn join(
    list: &mut WeightedEvent<u32>,
    seat: &mut Option<EntryId>,
    party: u32,
    weight: u64,
)
    requires { length list.old.entries < list.old.room }
    ensures list { JoinsWeighted party weight (weighted_seat list.old.entries seat.old) (weighted_seat list.new.entries seat.new) }
    ensures room { list.old.room ≤ list.new.room }
{
    match list.listen(weight) {
        Ok(id) => {
            list.poll_entry(id, party);
            *seat = Some(id);
        }
        Err(_) => unreachable!(),
    }
}

/// The party's entry is gone if it was marked, and else it waits on.
pub(crate) fn ask(list: &mut WeightedEvent<u32>, seat: &mut Option<EntryId>) -> bool
    requires { IsListedSeat (weighted_seat list.old.entries seat.old) }
    ensures asked { AskedWeighted (weighted_seat list.old.entries seat.old) result }
    ensures told { IsTrue result → DepartsWeighted (weighted_seat list.old.entries seat.old) (weighted_seat list.new.entries seat.new) }
    ensures waiting { result ≡ false → weighted_seat list.new.entries seat.new ≡ weighted_seat list.old.entries seat.old }
    ensures room { list.old.room ≤ list.new.room }
{
    match *seat {
        Some(id) => {
            if list.is_notified(id) {
                list.remove(id);
                *seat = None;
                true
            } else {
                false
            }
        }
        None => unreachable!(),
    }
}

/// The party's entry is gone; the answer says whether it was marked.
pub(crate) fn remove(list: &mut WeightedEvent<u32>, seat: &mut Option<EntryId>) -> bool
    requires { IsListedSeat (weighted_seat list.old.entries seat.old) }
    ensures asked { AskedWeighted (weighted_seat list.old.entries seat.old) result }
    ensures gone { DepartsWeighted (weighted_seat list.old.entries seat.old) (weighted_seat list.new.entries seat.new) }
    ensures room { list.old.room ≤ list.new.room }
{
    match *seat {
        Some(id) => {
            let marked = list.remove(id);
            *seat = None;
            marked
        }
        None => unreachable!(),
    }
}
