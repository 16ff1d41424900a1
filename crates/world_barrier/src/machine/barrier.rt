//! The barrier's machine: how far it is, its list, the inner lock, and where each party stands in its program.

ghost use Rattle.std.specs.Prelude.{◌≡◌, ◌<◌, length, slice_get, replicate, IfOk};
ghost use Rattle.world_barrier.specs.program.Program.{place_for as place_for_lem, position_after};
ghost use Rattle.sync_program.specs.declared.barrier.Position.TheVariants.{Out};
ghost use Rattle.world_barrier.specs.program.Words.{progress};
ghost use Rattle.world_barrier.specs.machine.Machine.{new_barrier, IsBarrier, answer_by, position_at, arrival_at};
ghost use Rattle.world_barrier.specs.machine.Waits.{is_counted, wait_of, wait_at};

use crate::program::calls::{got_left, position_left, start};
use crate::program::effects::carry_out;
use crate::program::words::{Progress, Words};
use lock_event::Entry;
use lock_program::Next;
use std::alloc::{AllocError, Global};
use std::marker::Model;
use sync_program::barrier::{Aim, Ending, Left, Place, Position, action_at, decide};
use world_base::queue::WaitQueue;
use world_base::standing::{Rest, Within};
use world_base::table::{Machine, answer};
use world_base::{Answer, Call, Inputs, What};
use world_mutex::machine::Mutex;

/// A barrier, and where each of its parties stands.
///
/// The Rust crate keeps the count and the generation in its mutex, and the list in an event; a waiting party
/// remembers its generation. Here one step is one call, and each party's last arrival is kept.
pub struct Barrier {
    words: Words,
    positions: Vec<Position>,
    arrivals: Vec<Progress>,
    list: WaitQueue,
    lock: Mutex,
}

// By hand, so that a drop is one call to prove, and not all of its parts again.
impl Drop for Barrier {
    fn drop(self) {
        let Barrier {
            words: _,
            positions: _,
            arrivals: _,
            list: _,
            lock: _,
        } = self;
    }
}

impl Model for Barrier {
    ghost use Rattle.std.specs.Coded.{codes};
    ghost use Rattle.world_mutex.specs.machine.Behind.{behind_coded};
    ghost use Rattle.world_barrier.specs.machine.Machine.{Barrier, IsKept};

    ghost Value = { Barrier };

    ghost coded = { Prim.hlevel (codes, behind_coded) };

    ghost view = { λ s. record { words = s.words; positions = s.positions.items; arrivals = s.arrivals.items; entries = s.list.entries; lock = s.lock } };

    ghost invariant = { λ s. IsKept s.words s.positions.items s.arrivals.items s.list s.lock };
}

/// Where a party stands after this.
fn after(next: Next<Place, Left>) -> Position
    ensures { result ≡ position_after next }
{
    match next {
        Next::Do(place) => Position::At(place),
        Next::End(_, left) => position_left(left),
    }
}

/// Whether the wait of a party that stands there is counted.
fn counted(at: Position) -> bool
    ensures { result ≡ is_counted (wait_at at 0) }
{
    match at {
        Position::Out => false,
        Position::Made(aim) | Position::Locking(aim) => aim == Aim::Check,
        Position::Waiting => true,
        Position::At(place) => counted_at(place),
    }
}

/// As [`counted`], inside a call.
fn counted_at(place: Place) -> bool
    ensures { result ≡ is_counted (wait_of place 0) }
{
    match place {
        Place::EnterLock(aim) | Place::WaitLock(aim) | Place::TakeLock(aim) => aim == Aim::Check,
        Place::ReleaseLock(ending) | Place::ReleasingLock(ending) => match ending {
            Ending::RefuseGenerations => false,
            Ending::RefuseMemory(aim) => aim == Aim::Check,
            _ => true,
        },
        Place::NotifyAll | Place::Check | Place::JoinAgain | Place::Ask => true,
        _ => false,
    }
}

/// The place whose action a move carries out.
fn place_for(what: What, at: Position) -> Option<Place>
    ensures { result ≡ place_for_lem what at }
{
    match what {
        What::Begin(call, _) => start(call, at),
        What::Go(_) => match at {
            Position::At(place) => Some(place),
            _ => None,
        },
    }
}

/// So many parties, each of which is out.
fn all_out(alloc: Global, parties: u32) -> Result<Vec<Position>, AllocError>
    ensures { IfOk result (λ v. v.items ≡ replicate parties Out) }
{
    let mut positions = Vec::new(alloc);
    positions.resize(parties as usize, Position::Out)?;
    Ok(positions)
}

/// So many parties, none of which has arrived.
fn none_arrived(alloc: Global, parties: u32) -> Result<Vec<Progress>, AllocError>
    ensures { IfOk result (λ v. v.items ≡ replicate parties (progress 0 0)) }
{
    let mut arrivals = Vec::new(alloc);
    arrivals.resize(
        parties as usize,
        Progress {
            generation: 0,
            count: 0,
        },
    )?;
    Ok(arrivals)
}

impl Barrier {
    /// A barrier that waits for `size` parties, for so many parties, numbered from 0, none of which has called
    /// yet; at most `starved` of them may be starved for its inner lock at a time, and it finishes at most
    /// `most` generations. Refused for memory alone; afterwards no step needs any.
    pub fn new(
        alloc: Global,
        parties: u32,
        size: u64,
        starved: u32,
        most: u64,
    ) -> Result<Barrier, AllocError>
        ensures { IfOk result (λ s. s ≡ new_barrier parties size starved most) }
    {
        let positions = all_out(alloc, parties)?;
        let arrivals = none_arrived(alloc, parties)?;
        let list = WaitQueue::new(alloc, parties)?;
        let lock = Mutex::new(alloc, parties, starved)?;
        Ok(Barrier {
            words: Words::new(size, most),
            positions,
            arrivals,
            list,
            lock,
        })
    }

    /// For how many parties it waits.
    pub fn size(&self) -> u64
        ensures { result ≡ self.now.words.size }
    {
        self.words.size
    }

    /// How many generations are finished, and how many arrivals are counted towards the next one.
    pub fn progress(&self) -> Progress
        ensures { result ≡ self.now.words.progress }
    {
        self.words.progress
    }

    /// How far the barrier was just after the party's last arrival: that arrival's number. All 0 before the
    /// first, and for a party past the last.
    pub fn arrival(&self, party: u32) -> Progress
        ensures { result ≡ arrival_at self.now.arrivals party }
    {
        match self.arrivals.get(party as usize) {
            Some(arrival) => *arrival,
            None => Progress {
                generation: 0,
                count: 0,
            },
        }
    }

    /// Whether the party has a wait whose arrival is counted. No party past the last has.
    pub fn is_counted(&self, party: u32) -> bool
        ensures { result ≡ is_counted (wait_at (position_at self.now.positions party) 0) }
    {
        match self.positions.get(party as usize) {
            Some(position) => counted(*position),
            None => false,
        }
    }

    /// Where a party stands in its program; None past the last.
    pub fn position_of(&self, party: u32) -> Option<Position>
        ensures { result ≡ slice_get self.now.positions party }
    {
        self.positions.get(party as usize).copied()
    }

    /// The inner lock.
    pub fn lock(&self) -> &Mutex
        ensures { result.now ≡ self.now.lock }
    {
        &self.lock
    }

    /// How many entries the barrier's list has.
    pub fn waiting(&self) -> usize
        ensures { result ≡ length self.now.entries }
    {
        self.list.len()
    }

    /// The entry at this place of the barrier's list, counted from the front: the party, and what it has been
    /// told. None past the last.
    pub fn entry(&self, index: usize) -> Option<Entry<u32>>
        ensures { result ≡ slice_get self.now.entries index }
    {
        self.list.entry(index)
    }

    /// What always holds of a barrier. It does nothing.
    pub fn laws(&self)
        ensures { IsBarrier self.now }
    {
        self.lock.laws();
        self.list.laws();
    }
}

/// What a call's next is answered.
fn answer_to(next: Next<Place, Left>) -> Answer
    ensures { result ≡ answer_by next }
{
    match next {
        Next::Do(_) => Answer::Stepped,
        Next::End(end, left) => answer(end, got_left(left)),
    }
}

impl Machine for Barrier {
    ghost use Rattle.std.specs.Prelude.{length};
    ghost use Rattle.world_barrier.specs.machine.Machine as machine;
    ghost use Rattle.world_base.specs.declared.standing.Rest.TheVariants.{Finished};

    ghost parties = { λ s. length s.positions };

    ghost knows = { λ s p. machine.knows };

    ghost ready = { Finished };

    ghost stands = { machine.Stands };

    ghost acts = { machine.Moves };

    fn knows(&self, _party: u32, call: Call) -> bool {
        matches!(call, Call::Wait | Call::Poll | Call::Drop)
    }

    fn ready(&self) -> Rest {
        Rest::Finished
    }

    fn act(&mut self, party: u32, _within: Within, what: What) -> Answer {
        let at = party as usize;
        let Some(from) = place_for(what, self.positions[at]) else {
            unreachable!()
        };
        self.lock.laws();
        let mut arrival = self.arrivals[at];
        let found = carry_out(
            &mut self.words,
            &mut arrival,
            &mut self.list,
            &mut self.lock,
            party,
            action_at(from),
            what.inputs(),
        );
        let next = decide(from, found);
        self.positions[at] = after(next);
        self.arrivals[at] = arrival;
        answer_to(next)
    }
}
