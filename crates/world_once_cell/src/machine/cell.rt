//! The once-cell's machine: what is in it, its lists, and where each party stands in its program.

ghost use Rattle.std.specs.Prelude.{◌≡◌, ◌<◌, length, slice_get, replicate, IfOk};
ghost use Rattle.sync_program.specs.declared.once_cell.Position.TheVariants.{Out};
ghost use Rattle.world_once_cell.specs.program.Program.{place_for as place_for_lem, position_after};
ghost use Rattle.world_once_cell.specs.program.Effects.{list_of};
ghost use Rattle.world_once_cell.specs.machine.Machine.{new_cell, IsCell, answer_by};
ghost use Rattle.world_once_cell.specs.program.Words.{content_of, kept_of};

use crate::program::calls::{got_left, position_left, start};
use crate::program::effects::carry_out;
use crate::program::words::{Content, Words};
use lock_event::Entry;
use lock_program::Next;
use std::alloc::{AllocError, Global};
use std::marker::Model;
use sync_program::once_cell::{Left, ListName, Place, Position, action_at, decide};
use world_base::queue::WaitQueue;
use world_base::standing::{Rest, Within};
use world_base::table::{Machine, Valued, answer};
use world_base::{Answer, Call, What};

/// A once-cell, and where each of its parties stands.
///
/// The Rust crate keeps the state in an atomic word, the value beside it, and the lists in two events. Here
/// one step is one call.
pub struct OnceCell {
    words: Words,
    active: WaitQueue,
    passive: WaitQueue,
    positions: Vec<Position<u64>>,
}

// By hand, so that a drop is one call to prove, and not all of its parts again.
impl Drop for OnceCell {
    fn drop(self) {
        let OnceCell {
            words: _,
            active: _,
            passive: _,
            positions: _,
        } = self;
    }
}

impl Model for OnceCell {
    ghost use Rattle.world_once_cell.specs.machine.Machine.{OnceCell, IsKept};
    ghost use Rattle.world_once_cell.specs.program.Words.{content_of, kept_of};

    ghost Value = { OnceCell };

    ghost view = { λ s. record { content = content_of s.words; positions = s.positions.items; active = s.active.entries; passive = s.passive.entries } };

    ghost invariant = { λ s. IsKept (kept_of s.words) s.positions.items s.active s.passive };
}

/// Where a party stands after this.
fn after(next: Next<Place<u64>, Left<u64>>) -> Position<u64>
    ensures { result ≡ position_after next }
{
    match next {
        Next::Do(place) => Position::At(place),
        Next::End(_, left) => position_left(left),
    }
}

/// The place whose action a move carries out.
fn place_for(what: What, at: Position<u64>) -> Option<Place<u64>>
    ensures { result ≡ place_for_lem what at }
{
    match what {
        What::Begin(call, _) => start(call, at),
        What::Go(_) => match at {
            Position::At(place) => Some(place),
            _ => None,
        },
    }
}

/// So many parties, each of which is out.
fn all_out(alloc: Global, parties: u32) -> Result<Vec<Position<u64>>, AllocError>
    ensures { IfOk result (λ v. v.items ≡ replicate parties Out) }
{
    let mut positions = Vec::new(alloc);
    positions.resize(parties as usize, Position::Out)?;
    Ok(positions)
}

impl OnceCell {
    /// An empty cell for so many parties, numbered from 0, none of which has called yet. Refused for memory
    /// alone; afterwards no step needs any.
    pub fn new(alloc: Global, parties: u32) -> Result<OnceCell, AllocError>
        ensures { IfOk result (λ s. s ≡ new_cell parties) }
    {
        let positions = all_out(alloc, parties)?;
        let active = WaitQueue::new(alloc, parties)?;
        let passive = WaitQueue::new(alloc, parties)?;
        Ok(OnceCell {
            words: Words::new(),
            active,
            passive,
            positions,
        })
    }

    /// What is in the cell.
    pub fn content(&self) -> Content
        ensures { result ≡ self.now.content }
    {
        self.words.content()
    }

    /// How many entries the list has.
    pub fn waiting(&self, list: ListName) -> usize
        ensures { result ≡ length (list_of list self.now.active self.now.passive) }
    {
        match list {
            ListName::Active => self.active.len(),
            ListName::Passive => self.passive.len(),
        }
    }

    /// The entry at this place of the list, counted from the front: the party, and what it has been told.
    /// None past the last.
    pub fn entry(&self, list: ListName, index: usize) -> Option<Entry<u32>>
        ensures { result ≡ slice_get (list_of list self.now.active self.now.passive) index }
    {
        match list {
            ListName::Active => self.active.entry(index),
            ListName::Passive => self.passive.entry(index),
        }
    }

    /// Where a party stands in its program; None past the last.
    pub fn place_of(&self, party: u32) -> Option<Position<u64>>
        ensures { result ≡ slice_get self.now.positions party }
    {
        self.positions.get(party as usize).copied()
    }

    /// What always holds of a cell. It does nothing.
    pub fn laws(&self)
        ensures { IsCell self.now }
    {
        self.active.laws();
        self.passive.laws();
    }
}

/// What a call's next is answered.
fn answer_to(next: Next<Place<u64>, Left<u64>>) -> Answer
    ensures { result ≡ answer_by next }
{
    match next {
        Next::Do(_) => Answer::Stepped,
        Next::End(end, left) => answer(end, got_left(left)),
    }
}

impl Machine for OnceCell {
    ghost use Rattle.std.specs.Prelude.{length};
    ghost use Rattle.world_once_cell.specs.machine.Machine as machine;
    ghost use Rattle.world_base.specs.declared.standing.Rest.TheVariants.{Finished};

    ghost parties = { λ s. length s.positions };

    ghost knows = { λ s p. machine.knows };

    ghost ready = { Finished };

    ghost stands = { machine.Stands };

    ghost acts = { machine.Moves };

    fn knows(&self, _party: u32, call: Call) -> bool {
        matches!(
            call,
            Call::Initialize | Call::Set(_) | Call::Wait | Call::TrySet(_) | Call::Poll | Call::Drop
        )
    }

    fn ready(&self) -> Rest {
        Rest::Finished
    }

    fn act(&mut self, party: u32, _within: Within, what: What) -> Answer {
        let at = party as usize;
        let Some(from) = place_for(what, self.positions[at]) else {
            unreachable!()
        };
        self.words.settle();
        let found = carry_out(
            &mut self.words,
            &mut self.active,
            &mut self.passive,
            party,
            action_at(from),
            what.inputs(),
        );
        let next = decide(from, found);
        self.positions[at] = after(next);
        answer_to(next)
    }
}

impl Valued for OnceCell {
    ghost use Rattle.world_once_cell.specs.machine.Machine as machine;
    ghost use Rattle.world_once_cell.specs.program.Words.{value_in};
    ghost use Rattle.world_once_cell.specs.machine.Stays.{stays_so};
    ghost use Rattle.std.specs.Prelude.{refl};

    type Value = Option<u64>;

    ghost value_of = { λ s. value_in s.content };

    ghost with_value = { machine.with_value };

    fn value_mut(&mut self) -> &mut Option<u64> {
        self.words.settle();
        let words = &mut self.words;
        &mut words.value
    }

    ghost as_many = { λ s v. refl };

    ghost stays = { λ s v p stage outside h. stays_so s v p stage outside h };
}
