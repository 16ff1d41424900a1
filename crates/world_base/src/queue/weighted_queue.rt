//! A waiting list of numbered parties, each with a weight.

ghost use Rattle.std.specs.Prelude.{◌≡◌, ℕ, ◌<◌, ◌≤◌, ◌↔◌, true, false, [], IfOk, IsTrue, length, slice_get, slice_set, replicate};
ghost use Rattle.lock_event.specs.Lists.{joined, without, is_marked_at};
ghost use Rattle.weighted_event.specs.Weights.{fitted};
ghost use Rattle.weighted_event.specs.Loads.{waker_in};
ghost use Rattle.world_base.specs.queue.Parties.{entries_of, is_party, party_of};
ghost use Rattle.world_base.specs.queue.Weighted.{weighted_queue, weight_in, unladen, IsWeightedQueue};

use crate::queue::weighted_seat::{ask, join, remove};
use lock_event::{Entry, EntryId, Slot};
use std::alloc::{AllocError, Global};
use std::marker::Model;
use weighted_event::{Load, WeightedEvent};

/// A waiting list in which each of so many parties has at most one entry, each entry has a weight, and at
/// most one entry is marked at a time.
///
/// It is a [`crate::queue::WaitQueue`] over `lock_event`'s `WeightedEvent`. Contracts see the number of
/// parties, which never changes, the entries in order of joining, and the weight with which each party
/// joined last. The room for all parties is there from [`WeightedQueue::new`] on, so that no other call
/// takes memory or can be refused.
pub struct WeightedQueue {
    list: WeightedEvent<u32>,
    seats: Vec<Option<EntryId>>,
    weights: Vec<u64>,
}

// By hand, so that a drop is one call to prove, and not all of its parts again.
impl Drop for WeightedQueue {
    fn drop(self) {
        let WeightedQueue {
            list: _,
            seats: _,
            weights: _,
        } = self;
    }
}

impl Model for WeightedQueue {
    ghost use Rattle.std.specs.Prelude.{length};
    ghost use Rattle.world_base.specs.queue.Weighted.{WeightedQueue, IsWeightedWaiting, unweighed};
    ghost use Rattle.world_base.specs.queue.Parties.{by_party};

    ghost Value = { WeightedQueue };

    ghost view = { λ w. record { parties = length w.seats.items; entries = by_party (unweighed w.list.entries); weights = w.weights.items } };

    ghost invariant = { λ w. IsWeightedWaiting w.seats.items w.weights.items w.list.entries w.list.room };
}

impl WeightedQueue {
    /// The empty list of so many parties, each of weight 0.
    ///
    /// [`AllocError`] comes only where memory for the parties' seats, weights or entries was refused.
    pub fn new(alloc: Global, parties: u32) -> Result<WeightedQueue, AllocError>
        ensures { IfOk result (λ w. w ≡ weighted_queue parties [] (replicate parties 0)) }
    {
        let mut seats = Vec::new(alloc);
        seats.resize(parties as usize, None)?;
        let mut weights = Vec::new(alloc);
        weights.resize(parties as usize, 0)?;
        let mut list = WeightedEvent::new(alloc);
        match list.reserve(parties as usize) {
            Ok(()) => Ok(WeightedQueue {
                list,
                seats,
                weights,
            }),
            Err(_) => Err(AllocError),
        }
    }

    /// How many entries the list has.
    pub fn len(&self) -> usize
        ensures { result ≡ length self.now.entries }
    {
        self.list.len()
    }

    /// Whether the list has no entry.
    pub fn is_empty(&self) -> bool
        ensures { IsTrue result ↔ (self.now.entries ≡ []) }
    {
        self.len() == 0
    }

    /// The entry at this place, counted from the front: its party's number and what it has been told.
    /// `None` past the last entry.
    pub fn entry(&self, index: usize) -> Option<Entry<u32>>
        ensures { result ≡ slice_get self.now.entries index }
    {
        if index < self.len() {
            let entry = self.list.entry(index);
            Some(Entry {
                key: party(&entry.key),
                mark: entry.mark,
            })
        } else {
            None
        }
    }

    /// The party joins the list at the back, to wait, with this weight. It has to be one of the parties
    /// (`known`) that has no entry yet (`out`).
    pub fn join(&mut self, party: u32, weight: u64)
        requires known { party < self.old.parties }
        requires out { entries_of party self.old.entries ≡ 0 }
        ensures { self.new ≡ weighted_queue self.old.parties (joined self.old.entries party) (slice_set self.old.weights party weight) }
    {
        let at = party as usize;
        let mut seat = self.seats[at];
        join(&mut self.list, &mut seat, party, weight);
        self.seats[at] = seat;
        self.weights[at] = weight;
    }

    /// The party, which has an entry (`listed`), asks for its notification. If it has one, its entry leaves
    /// the list with it (`answer`, `told`). If not, it waits on at its place (`waiting`).
    pub fn ask(&mut self, party: u32) -> bool
        requires known { party < self.old.parties }
        requires listed { 0 < entries_of party self.old.entries }
        ensures answer { result ≡ is_marked_at (is_party party) self.old.entries }
        ensures told { IsTrue result → self.new ≡ weighted_queue self.old.parties (without (is_party party) self.old.entries) self.old.weights }
        ensures waiting { result ≡ false → self.new ≡ self.old }
    {
        let at = party as usize;
        let mut seat = self.seats[at];
        let told = ask(&mut self.list, &mut seat);
        self.seats[at] = seat;
        told
    }

    /// The party, which has an entry (`listed`), leaves the list without asking. The answer says whether it
    /// was notified (`answer`), and nobody else is in its place: that is the caller's to do, by
    /// [`WeightedQueue::fit`].
    pub fn remove(&mut self, party: u32) -> bool
        requires known { party < self.old.parties }
        requires listed { 0 < entries_of party self.old.entries }
        ensures answer { result ≡ is_marked_at (is_party party) self.old.entries }
        ensures gone { self.new ≡ weighted_queue self.old.parties (without (is_party party) self.old.entries) self.old.weights }
    {
        let at = party as usize;
        let mut seat = self.seats[at];
        let told = remove(&mut self.list, &mut seat);
        self.seats[at] = seat;
        told
    }

    /// If no entry is marked, the first one of weight at most `a` is notified, if there is one.
    pub fn fit(&mut self, a: u64)
        ensures { self.new ≡ weighted_queue self.old.parties (fitted (weight_in self.old.weights) a self.old.entries) self.old.weights }
    {
        self.list.fit(a);
    }

    /// What always holds of such a list: no party has two entries, none past the last party has one, and at
    /// most one entry is marked. The call does nothing: its clause hands a caller's proof these facts.
    pub fn laws(&self)
        ensures { IsWeightedQueue self.now }
    {
        self.list.at_most_one();
    }
}

/// The party that stands in an entry.
fn party(slot: &Slot<Load<u32>>) -> u32
    ensures { result ≡ party_of (unladen slot.now) }
{
    match &slot.waker {
        Some(load) => load.waker.unwrap_or(0),
        None => 0,
    }
}
