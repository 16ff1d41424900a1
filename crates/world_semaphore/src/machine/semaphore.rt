//! The semaphore's machine: its words, its list, and where each party stands in its program.

ghost use Rattle.std.specs.Prelude.{◌≡◌, ℕ, ◌<◌, ◌≤◌, length, slice_get, replicate, IfOk};
ghost use Rattle.world_base.specs.declared.standing.Stage.TheVariants.{Outside};
ghost use Rattle.world_base.specs.declared.standing.Rest.TheVariants.{Idle};
ghost use Rattle.sync_program.specs.declared.permits.Position.TheVariants.{Out};
ghost use Rattle.world_semaphore.specs.machine.Program.{place_for as place_for_lem, position_after};
ghost use Rattle.world_semaphore.specs.machine.Effects.{CanDo, told_by};
ghost use Rattle.world_semaphore.specs.machine.Carried.{Carried};
ghost use Rattle.world_semaphore.specs.machine.Machine.{new_semaphore, position_at, IsSemaphore, StandsAt, ActsSo, answer_by};

use crate::machine::calls::start;
use crate::machine::words::Words;
use lock_event::Entry;
use lock_program::Next;
use std::alloc::{AllocError, Global};
use std::marker::Model;
use sync_program::permits::{Action, Found, Place, Position, action_at, decide};
use world_base::queue::WeightedQueue;
use world_base::standing::{Rest, Within};
use world_base::table::{Machine, answer};
use world_base::{Answer, Call, Got, What};

/// A semaphore, and where each of its parties stands.
///
/// The Rust crate keeps the permits in an atomic word and the list in an event; it has no word for the limit,
/// so that added permits may wrap. Here one step is one call.
pub struct Semaphore {
    words: Words,
    list: WeightedQueue,
    positions: Vec<Position>,
}

// By hand, so that a drop is one call to prove, and not all of its parts again.
impl Drop for Semaphore {
    fn drop(self) {
        let Semaphore {
            words: _,
            list: _,
            positions: _,
        } = self;
    }
}

impl Model for Semaphore {
    ghost use Rattle.world_semaphore.specs.machine.Machine.{Semaphore, IsKept};

    ghost Value = { Semaphore };

    ghost view = { λ s. record { words = s.words; positions = s.positions.items; entries = s.list.entries } };

    ghost invariant = { λ s. IsKept s.words s.positions.items s.list };
}

/// Carries out one action for a party.
fn carry_out(
    words: &mut Words,
    list: &mut WeightedQueue,
    party: u32,
    action: Action,
    memory: bool,
) -> Found
    requires { CanDo party action words.old list.old }
    ensures { Carried memory party action result words.old list.old words.new list.new }
{
    match action {
        Action::Nothing => Found::Done,
        Action::Take(k) => words.take(k),
        Action::GiveBack(k) => words.give(k),
        Action::Give(n) => words.give(n),
        Action::Raise(n) => words.raise(n),
        Action::Lower(k) => {
            words.lower(k);
            Found::Done
        }
        Action::Load => words.load(),
        Action::Join(k) => {
            if memory {
                list.join(party, k);
                Found::Done
            } else {
                Found::NoMemory
            }
        }
        Action::Ask => told(list.ask(party)),
        Action::Remove => told(list.remove(party)),
        Action::Fit(a) => {
            list.fit(a);
            Found::Done
        }
    }
}

/// Whether a party found that its entry was notified.
fn told(marked: bool) -> Found
    ensures { result ≡ told_by marked }
{
    if marked { Found::Yes } else { Found::No }
}

/// Where a party stands after this.
fn after(next: Next<Place, Position>) -> Position
    ensures { result ≡ position_after next }
{
    match next {
        Next::Do(place) => Position::At(place),
        Next::End(_, position) => position,
    }
}

/// The place whose action a move carries out.
fn place_for(what: What, at: Position) -> Option<Place>
    ensures { result ≡ place_for_lem what at }
{
    match what {
        What::Begin(call, _) => start(call, at),
        What::Go(_) => match at {
            Position::At(place) => Some(place),
            _ => None,
        },
    }
}

/// So many parties, each of which is out.
fn all_out(alloc: Global, parties: u32) -> Result<Vec<Position>, AllocError>
    ensures { IfOk result (λ v. v.items ≡ replicate parties Out) }
{
    let mut positions = Vec::new(alloc);
    positions.resize(parties as usize, Position::Out)?;
    Ok(positions)
}

impl Semaphore {
    /// A semaphore with so many permits, for so many parties, numbered from 0, none of which has called yet.
    /// Its limit never passes `most`, which is at least the number of permits. Refused for memory alone;
    /// afterwards no step needs any.
    pub fn new(
        alloc: Global,
        parties: u32,
        permits: u64,
        most: u64,
    ) -> Result<Semaphore, AllocError>
        requires { permits ≤ most }
        ensures { IfOk result (λ s. s ≡ new_semaphore parties permits most) }
    {
        let positions = all_out(alloc, parties)?;
        let list = WeightedQueue::new(alloc, parties)?;
        Ok(Semaphore {
            words: Words {
                available: permits,
                limit: permits,
                most,
            },
            list,
            positions,
        })
    }

    /// Where a party stands in its program.
    pub(crate) fn position(&self, party: u32) -> Position
        requires { party < length self.now.positions }
        ensures { result ≡ position_at self.now.positions party }
    {
        self.positions[party as usize]
    }

    /// As `position`, of any number: None past the last party.
    pub fn position_of(&self, party: u32) -> Option<Position>
        ensures { result ≡ slice_get self.now.positions party }
    {
        self.positions.get(party as usize).copied()
    }

    /// How many permits are available.
    pub fn available(&self) -> u64
        ensures { result ≡ self.now.words.available }
    {
        self.words.available
    }

    /// How many permits there are: those available, those that parties have, and those under way.
    pub fn limit(&self) -> u64
        ensures { result ≡ self.now.words.limit }
    {
        self.words.limit
    }

    /// How many entries its list has.
    pub fn waiting(&self) -> usize
        ensures { result ≡ length self.now.entries }
    {
        self.list.len()
    }

    /// The entry at this place of its list, counted from the front: the party, and what it has been
    /// told. None past the last.
    pub fn entry(&self, index: usize) -> Option<Entry<u32>>
        ensures { result ≡ slice_get self.now.entries index }
    {
        self.list.entry(index)
    }

    /// One action of a party's program, whose place is `from`. `memory` says whether a join finds memory.
    pub(crate) fn take_step(
        &mut self,
        party: u32,
        from: Place,
        memory: bool,
    ) -> Next<Place, Position>
        requires known { party < length self.old.positions }
        requires stands { StandsAt from (position_at self.old.positions party) }
        ensures { ActsSo memory party from result self.old self.new }
    {
        let at = party as usize;
        let found = carry_out(
            &mut self.words,
            &mut self.list,
            party,
            action_at(from),
            memory,
        );
        let next = decide(from, found);
        self.positions[at] = after(next);
        next
    }

    /// What always holds of a semaphore. It does nothing.
    pub fn laws(&self)
        ensures { IsSemaphore self.now }
    {
        self.list.laws();
    }
}

/// What a call's next is answered.
fn answer_to(next: Next<Place, Position>) -> Answer
    ensures { result ≡ answer_by next }
{
    match next {
        Next::Do(_) => Answer::Stepped,
        Next::End(end, _) => answer(end, Got::Plain),
    }
}

impl Machine for Semaphore {
    ghost use Rattle.std.specs.Prelude.{length};
    ghost use Rattle.world_semaphore.specs.machine.Machine as machine;
    ghost use Rattle.world_base.specs.declared.standing.Rest.TheVariants.{Holding};

    ghost parties = { λ s. length s.positions };

    ghost knows = { λ s p. machine.knows };

    ghost ready = { Holding };

    ghost stands = { machine.Stands };

    ghost acts = { machine.Moves };

    fn knows(&self, _party: u32, call: Call) -> bool {
        matches!(
            call,
            Call::Acquire(_)
                | Call::TryAcquire(_)
                | Call::AddPermits(_)
                | Call::Poll
                | Call::Drop
                | Call::Forget
        )
    }

    fn ready(&self) -> Rest {
        Rest::Holding
    }

    fn act(&mut self, party: u32, _within: Within, what: What) -> Answer {
        let at = party as usize;
        let Some(from) = place_for(what, self.positions[at]) else {
            unreachable!()
        };
        answer_to(self.take_step(party, from, what.inputs().memory))
    }
}
