//! A waiting list of numbered parties.

ghost use Rattle.std.specs.Prelude.{◌≡◌, ℕ, ◌<◌, ◌≤◌, ◌↔◌, true, false, [], IfOk, IsTrue, length, slice_get};
ghost use Rattle.lock_event.specs.Lists.{joined, notified, notified_additionally, without, left, is_marked_at};
ghost use Rattle.world_base.specs.queue.Parties.{entries_of, is_party, party_of};
ghost use Rattle.world_base.specs.queue.Queues.{queue, IsQueue};

use crate::queue::seat::{ask, join, leave};
use lock_event::{Entry, EntryId, Event, Slot};
use std::alloc::{AllocError, Global};
use std::marker::Model;

/// A waiting list in which each of so many parties has at most one entry.
///
/// Parties are numbered from 0, and each entry's key is its party's number. Contracts see the number
/// of parties, which never changes, and the entries in order of joining. The room for all parties
/// is there from [`WaitQueue::new`] on, so that no other call takes memory or can be refused.
pub struct WaitQueue {
    list: Event<u32>,
    seats: Vec<Option<EntryId>>,
}

// By hand, so that a drop is one call to prove, and not all of its parts again.
impl Drop for WaitQueue {
    fn drop(self) {
        let WaitQueue { list: _, seats: _ } = self;
    }
}

impl Model for WaitQueue {
    ghost use Rattle.std.specs.Prelude.{length};
    ghost use Rattle.world_base.specs.queue.Queues.{Queue, IsWaiting};
    ghost use Rattle.world_base.specs.queue.Parties.{by_party};

    ghost Value = { Queue };

    ghost view = { λ w. record { parties = length w.seats.items; entries = by_party w.list.entries } };

    ghost invariant = { λ w. IsWaiting w.seats.items w.list.entries w.list.room };
}

impl WaitQueue {
    /// The empty list of so many parties.
    ///
    /// [`AllocError`] comes only where memory for the parties' seats or entries was refused.
    pub fn new(alloc: Global, parties: u32) -> Result<WaitQueue, AllocError>
        ensures { IfOk result (λ w. w ≡ queue parties []) }
    {
        let mut seats = Vec::new(alloc);
        seats.resize(parties as usize, None)?;
        let mut list = Event::new(alloc);
        match list.reserve(parties as usize) {
            Ok(()) => Ok(WaitQueue { list, seats }),
            Err(_) => Err(AllocError),
        }
    }

    /// How many entries the list has.
    pub fn len(&self) -> usize
        ensures { result ≡ length self.now.entries }
    {
        self.list.len()
    }

    /// Whether the list has no entry.
    pub fn is_empty(&self) -> bool
        ensures { IsTrue result ↔ (self.now.entries ≡ []) }
    {
        self.len() == 0
    }

    /// The entry at this place, counted from the front: its party's number and what it has been told.
    /// `None` past the last entry.
    pub fn entry(&self, index: usize) -> Option<Entry<u32>>
        ensures { result ≡ slice_get self.now.entries index }
    {
        if index < self.len() {
            let entry = self.list.entry(index);
            Some(Entry {
                key: party(&entry.key),
                mark: entry.mark,
            })
        } else {
            None
        }
    }

    /// The party joins the list at the back, to wait. It has to be one of the parties (`known`) that
    /// has no entry yet (`out`).
    pub fn join(&mut self, party: u32)
        requires known { party < self.old.parties }
        requires out { entries_of party self.old.entries ≡ 0 }
        ensures { self.new ≡ queue self.old.parties (joined self.old.entries party) }
    {
        let at = party as usize;
        let mut seat = self.seats[at];
        join(&mut self.list, &mut seat, party);
        self.seats[at] = seat;
    }

    /// The party, which has an entry (`listed`), asks for its notification. If it has one, of either
    /// kind, its entry leaves the list with it (`answer`, `told`). If not, it waits on at its place,
    /// and its entry still bears its number (`waiting`).
    pub fn ask(&mut self, party: u32) -> bool
        requires known { party < self.old.parties }
        requires listed { 0 < entries_of party self.old.entries }
        ensures answer { result ≡ is_marked_at (is_party party) self.old.entries }
        ensures told { IsTrue result → self.new ≡ queue self.old.parties (without (is_party party) self.old.entries) }
        ensures waiting { result ≡ false → self.new ≡ self.old }
    {
        let at = party as usize;
        let mut seat = self.seats[at];
        let told = ask(&mut self.list, &mut seat, party);
        self.seats[at] = seat;
        told
    }

    /// The party, which has an entry (`listed`), leaves the list without asking. A notification that
    /// it had goes on, as one of the same kind: to the next waiting entry, or where it was a plain
    /// one, to none if another entry is marked.
    pub fn leave(&mut self, party: u32)
        requires known { party < self.old.parties }
        requires listed { 0 < entries_of party self.old.entries }
        ensures { self.new ≡ queue self.old.parties (left (is_party party) self.old.entries) }
    {
        let at = party as usize;
        let mut seat = self.seats[at];
        leave(&mut self.list, &mut seat, party);
        self.seats[at] = seat;
    }

    /// Waiting entries, from the front on, are notified until `n` entries are marked or none waits.
    /// Those marked before count, of either kind.
    pub fn notify(&mut self, n: usize)
        ensures { self.new ≡ queue self.old.parties (notified self.old.entries n) }
    {
        self.list.notify(n);
    }

    /// The first `n` waiting entries are notified additionally, or all where fewer wait. Those
    /// marked before don't count.
    pub fn notify_additional(&mut self, n: usize)
        ensures { self.new ≡ queue self.old.parties (notified_additionally self.old.entries n) }
    {
        self.list.notify_additional(n);
    }

    /// What always holds of such a list: no party has two entries, none past the last party has
    /// one, and marked entries stand before waiting ones. The call does nothing: its clause hands a
    /// caller's proof these facts.
    pub fn laws(&self)
        ensures { IsQueue self.now }
    {
        self.list.in_order();
    }
}

/// The party that stands in an entry.
fn party(slot: &Slot<u32>) -> u32
    ensures { result ≡ party_of slot.now }
{
    slot.waker.unwrap_or(0)
}
