//! The machine of a read-write lock: its word, its two lists, the turn, and where each party stands in
//! its program.
//!
//! A World stands on it. What it may rest on is said by the contracts alone: every step is one of the
//! programs' (specs/machine/Acts), [`RwLock::laws`] says what always holds, and a call that its party carries
//! out alone ends in time (specs/machine/Ranks). The turn is a mutex machine, of which this one uses no more
//! than its contracts say.

ghost use Rattle.std.specs.Prelude.{◌≡◌, ◌<◌, length, slice_get, replicate, IfOk, IsSome, IsSomeAnd};
ghost use Rattle.world_mutex.specs.machine.Mutex.{TakenFairly};
ghost use Rattle.sync_program.specs.declared.rwlock.Place.TheVariants as place;
ghost use Rattle.world_rwlock.specs.program.Program.{start_of, place_after};
ghost use Rattle.world_rwlock.specs.machine.Roles.{bit};
ghost use Rattle.world_rwlock.specs.machine.Machine.{SameRoles, place_at, new_rwlock};
ghost use Rattle.world_rwlock.specs.machine.Acts.{Acts, IsRwLock, readers as readers_lem, marked};
ghost use Rattle.world_rwlock.specs.machine.Solo.{SoloPolls};
ghost use Rattle.world_rwlock.specs.machine.Ranks.{left_from, left_after, steps_left, most_steps};

use crate::program::calls::start;
use crate::program::effects::carry_out;
use crate::program::led::{Next, led};
use crate::program::word::Word;
use lock_event::Entry;
use std::alloc::{AllocError, Global};
use std::marker::Model;
use sync_program::rwlock::{Place, action_at, decide};
use world_base::Call;
use world_base::queue::WaitQueue;
use world_mutex::machine::Mutex;

/// A read-write lock without a value, and the place of each of its parties.
pub struct RwLock {
    word: Word,
    places: Vec<Place>,
    no_writer: WaitQueue,
    no_readers: WaitQueue,
    turn: Mutex,
}

// By hand, so that a drop is one call to prove, and not all of its parts again.
impl Drop for RwLock {
    fn drop(self) {
        let RwLock {
            word: _,
            places: _,
            no_writer: _,
            no_readers: _,
            turn: _,
        } = self;
    }
}

impl Model for RwLock {
    ghost use Rattle.std.specs.Coded.{codes};
    ghost use Rattle.world_mutex.specs.machine.Behind.{behind_coded};
    ghost use Rattle.world_rwlock.specs.machine.Machine.{RwLock, IsMachine};

    ghost Value = { RwLock };

    ghost coded = { Prim.hlevel (codes, behind_coded) };

    ghost view = { λ m. record { places = m.places.items; no_writer = m.no_writer.entries; no_readers = m.no_readers.entries; turn = m.turn; limit = m.word.limit } };

    ghost invariant = { λ m. IsMachine m.word m.places.items m.no_writer m.no_readers m.turn };
}

/// So many parties, each of which is out.
fn all_out(alloc: Global, parties: u32) -> Result<Vec<Place>, AllocError>
    ensures { IfOk result (λ v. v.items ≡ replicate parties place.Out) }
{
    let mut places = Vec::new(alloc);
    places.resize(parties as usize, Place::Out)?;
    Ok(places)
}

impl RwLock {
    /// A free lock for so many parties, numbered from 0, none of which has called yet; at most `starved`
    /// of them may be starved for the turn at a time, and at most `readers` may read. Refused for memory
    /// alone; afterwards no step needs any.
    pub fn new(
        alloc: Global,
        parties: u32,
        starved: u32,
        readers: u32,
    ) -> Result<RwLock, AllocError>
        ensures { IfOk result (λ l. l ≡ new_rwlock parties starved readers) }
    {
        let places = all_out(alloc, parties)?;
        let no_writer = WaitQueue::new(alloc, parties)?;
        let no_readers = WaitQueue::new(alloc, parties)?;
        let turn = Mutex::new(alloc, parties, starved)?;
        Ok(RwLock {
            word: Word::new(readers),
            places,
            no_writer,
            no_readers,
            turn,
        })
    }

    /// Begins a call of a party with its first action. `memory` says whether a join finds memory,
    /// `starving` whether the party has waited for the turn for too long. The caller begins a call only
    /// where the party's place allows it. If only this party moves until the call ends, it has at most
    /// so many steps as `bounded` says.
    pub fn begin(&mut self, party: u32, call: Call, memory: bool, starving: bool) -> Next
        requires known { party < length self.old.places }
        requires can { IsSome (start_of call (place_at self.old.places party)) }
        ensures acts { IsSomeAnd (start_of call (place_at self.old.places party)) (λ from. Acts memory starving party from result self.old self.new) }
        ensures fair { TakenFairly self.old.turn self.new.turn }
        ensures bounded { left_after result self.new party < most_steps call }
    {
        match start(call, self.place(party)) {
            Some(from) => self.act(party, from, memory, starving),
            None => unreachable!(),
        }
    }

    /// Goes on with a call of a party, by one action, with the inputs as [`RwLock::begin`] takes them. It
    /// leaves fewer steps to do (`falls`), so that a party that moves alone ends its call, whatever the
    /// others were about.
    pub fn go(&mut self, party: u32, memory: bool, starving: bool) -> Next
        requires known { party < length self.old.places }
        ensures acts { Acts memory starving party (place_at self.old.places party) result self.old self.new }
        ensures fair { TakenFairly self.old.turn self.new.turn }
        ensures falls { left_after result self.new party < steps_left self.old party }
    {
        self.act(party, self.place(party), memory, starving)
    }

    /// How many parties there are.
    pub fn parties(&self) -> usize
        ensures { result ≡ length self.now.places }
    {
        self.places.len()
    }

    /// Where a party stands in its program.
    pub fn place(&self, party: u32) -> Place
        requires { party < length self.now.places }
        ensures { result ≡ place_at self.now.places party }
    {
        self.places[party as usize]
    }

    /// As [`RwLock::place`], of any number: None past the last party.
    pub fn place_of(&self, party: u32) -> Option<Place>
        ensures { result ≡ slice_get self.now.places party }
    {
        self.places.get(party as usize).copied()
    }

    /// Whether the writer's bit is set.
    pub fn is_writer_marked(&self) -> bool
        ensures { bit result ≡ marked self.now }
    {
        self.word.writer
    }

    /// How many readers there are.
    pub fn readers(&self) -> u32
        ensures { result ≡ readers_lem self.now }
    {
        self.word.readers
    }

    /// The mutex that is the turn.
    pub fn turn(&self) -> &Mutex
        ensures { result.now ≡ self.now.turn }
    {
        &self.turn
    }

    /// How many entries the list has of those that wait for no writer.
    pub fn no_writer_len(&self) -> usize
        ensures { result ≡ length self.now.no_writer }
    {
        self.no_writer.len()
    }

    /// The entry at this place of that list, counted from the front: the party, and what it has been
    /// told. None past the last.
    pub fn no_writer_entry(&self, index: usize) -> Option<Entry<u32>>
        ensures { result ≡ slice_get self.now.no_writer index }
    {
        self.no_writer.entry(index)
    }

    /// How many entries the list has of those that wait for no readers.
    pub fn no_readers_len(&self) -> usize
        ensures { result ≡ length self.now.no_readers }
    {
        self.no_readers.len()
    }

    /// The entry at this place of that list, as [`RwLock::no_writer_entry`] gives one.
    pub fn no_readers_entry(&self, index: usize) -> Option<Entry<u32>>
        ensures { result ≡ slice_get self.now.no_readers index }
    {
        self.no_readers.entry(index)
    }

    /// What always holds of a read-write lock. It does nothing.
    pub fn laws(&self)
        ensures { IsRwLock self.now }
    {
        self.turn.laws();
        self.no_writer.laws();
        self.no_readers.laws();
    }

    /// What a poll does that is carried out alone where the lock is free for it: a notified reader reads,
    /// one that waits for readers writes, and one that was notified for the turn takes it or gives way to
    /// a party that is starved for it. It does nothing.
    pub fn solo_polls(&self)
        ensures { SoloPolls self.now }
    {
        self.laws();
    }

    /// One action of a party's program, whose place was `from`.
    fn act(&mut self, party: u32, from: Place, memory: bool, starving: bool) -> Next
        requires known { party < length self.old.places }
        requires begins { SameRoles from (place_at self.old.places party) }
        ensures acts { Acts memory starving party from result self.old self.new }
        ensures fair { TakenFairly self.old.turn self.new.turn }
        ensures falls { left_after result self.new party < left_from from self.old party }
    {
        let at = party as usize;
        self.turn.laws();
        let found = carry_out(
            &mut self.word,
            &mut self.no_writer,
            &mut self.no_readers,
            &mut self.turn,
            party,
            action_at(from),
            memory,
            starving,
        );
        let next = led(decide(from, found));
        self.places[at] = after(next);
        next
    }
}

/// Where a party stands after this.
fn after(next: Next) -> Place
    ensures { result ≡ place_after next }
{
    match next {
        Next::Do(_, place) | Next::End(_, place) | Next::Wait(place) => place,
    }
}
