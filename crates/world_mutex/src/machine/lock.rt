//! The mutex machine: its word, its list, and where each party stands in its program.
//!
//! A mutex's World stands on it, place by place: a call leads on as specs/machine/Courses says, every step is one
//! of the programs' (specs/machine/Acts), and [`Lock::laws`] says what always holds. Those who build on a mutex
//! and know none of its places stand on [`Mutex`](crate::machine::Mutex).

ghost use Rattle.std.specs.Prelude.{◌≡◌, ◌<◌, length, Some, None, slice_get, IfOk, IsSome, IsSomeAnd};

use crate::program::effects::carry_out;
use crate::program::led::{Next, after, led};
use crate::program::word::Word;
use lock_event::Entry;
use lock_program::mutex::{LockCall, Place, action_at, decide, start};
use std::alloc::{AllocError, Global};
use std::marker::Model;
use world_base::queue::WaitQueue;

/// A mutex without a value, and the place of each of its parties.
///
/// The Rust crate keeps the word and the list in atomics and the place in each future; here one step is
/// one call.
pub struct Lock {
    word: Word,
    list: WaitQueue,
    places: Vec<Place>,
}

// By hand, so that a drop is one call to prove, and not all of its parts again.
impl Drop for Lock {
    fn drop(self) {
        let Lock {
            word: _,
            list: _,
            places: _,
        } = self;
    }
}

impl Model for Lock {
    ghost use Rattle.world_mutex.specs.machine.Machine.{Lock, IsLock};

    ghost Value = { Lock };

    ghost view = { λ m. record { places = m.places.items; entries = m.list.entries; limit = m.word.limit } };

    ghost invariant = { λ m. IsLock m.word m.places.items m.list };
}

ghost use Rattle.world_mutex.specs.machine.Machine.{SameRoles, place_at, new_lock};
ghost use Rattle.world_mutex.specs.machine.Acts.{Acts, TakenFairly, IsMutex, holders, starved as starved_lem};
ghost use Rattle.world_mutex.specs.machine.Legal.{IsLegal, IsUnrefused, TakesAtOnce, TakesFrom, decision};
ghost use Rattle.world_mutex.specs.machine.Effects.{decided_by};
ghost use Rattle.world_mutex.specs.program.Program.{start_of};
ghost use Rattle.lock_program.specs.MutexRoles.{bit};
ghost use Rattle.world_mutex.specs.machine.Courses.{Begins, GoesOn, HeedsClock};
ghost use Rattle.world_mutex.specs.machine.Solo.{SoloPolls};
ghost use Rattle.world_mutex.specs.machine.Ranks.{left, left_after, is_own_marked, is_open, steps_left, most_steps};

impl Lock {
    /// A free mutex for so many parties, numbered from 0, none of which has called yet; at most `limit`
    /// of them may be starved at a time. Refused for memory alone; afterwards no step needs any.
    pub fn new(alloc: Global, parties: u32, limit: u32) -> Result<Lock, AllocError>
        ensures { IfOk result (λ l. l ≡ new_lock parties limit) }
    {
        let mut places = Vec::new(alloc);
        places.resize(parties as usize, Place::Out)?;
        let list = WaitQueue::new(alloc, parties)?;
        Ok(Lock {
            word: Word::new(limit),
            list,
            places,
        })
    }

    /// Begins a call of a party with its first action. `memory` says whether a join finds memory,
    /// `starving` whether the party has waited for too long. The caller begins a call only where the
    /// party's place allows it. If only this party moves until the call ends, it has at most so many
    /// steps as `bounded` says.
    pub fn begin(&mut self, party: u32, call: LockCall, memory: bool, starving: bool) -> Next
        requires known { party < length self.old.places }
        requires can { IsSome (start_of call (place_at self.old.places party)) }
        ensures acts { IsSomeAnd (start_of call (place_at self.old.places party)) (λ from. Acts memory party from result self.old self.new) }
        ensures leads { Begins call result (place_at self.new.places party) }
        ensures legal { IsLegal memory party (decided_by call) result self.old self.new }
        ensures at_once { TakesAtOnce call party self.old self.new }
        ensures fair { TakenFairly self.old self.new }
        ensures bounded { left_after result self.new party < most_steps call }
        ensures unrefused { IsUnrefused result (place_at self.new.places party) }
        ensures clock { IsSomeAnd (start_of call (place_at self.old.places party)) (λ from. HeedsClock starving from result) }
    {
        self.laws();
        match start(call, self.place(party)) {
            Some(from) => self.act(party, from, memory, starving),
            None => unreachable!(),
        }
    }

    /// Goes on with a call of a party, by one action, with the inputs as [`Lock::begin`] takes them. It
    /// leaves fewer steps to do (`falls`), so that a party that moves alone ends its call, whatever the
    /// others were about.
    pub fn go(&mut self, party: u32, memory: bool, starving: bool) -> Next
        requires known { party < length self.old.places }
        ensures acts { Acts memory party (place_at self.old.places party) result self.old self.new }
        ensures leads { GoesOn (place_at self.old.places party) result (place_at self.new.places party) }
        ensures legal { IsLegal memory party (decision (place_at self.old.places party)) result self.old self.new }
        ensures fair { TakenFairly self.old self.new }
        ensures falls { left_after result self.new party < steps_left self.old party }
        ensures clock { HeedsClock starving (place_at self.old.places party) result }
    {
        self.act(party, self.place(party), memory, starving)
    }

    /// Where a party stands in its program.
    pub fn place(&self, party: u32) -> Place
        requires { party < length self.now.places }
        ensures { result ≡ place_at self.now.places party }
    {
        self.places[party as usize]
    }

    /// As [`Lock::place`], of any number: None past the last party.
    pub fn place_of(&self, party: u32) -> Option<Place>
        ensures { result ≡ slice_get self.now.places party }
    {
        self.places.get(party as usize).copied()
    }

    /// Whether the lock is held.
    pub fn is_held(&self) -> bool
        ensures { bit result ≡ holders self.now }
    {
        self.word.held
    }

    /// How many entries its list has.
    pub fn waiting(&self) -> usize
        ensures { result ≡ length self.now.entries }
    {
        self.list.len()
    }

    /// The entry at this place of its list, counted from the front: the party, and what it has been
    /// told. None past the last.
    pub fn entry(&self, index: usize) -> Option<Entry<u32>>
        ensures { result ≡ slice_get self.now.entries index }
    {
        self.list.entry(index)
    }

    /// How many parties are counted as starved.
    pub fn starved(&self) -> u32
        ensures { result ≡ starved_lem self.now }
    {
        self.word.starved
    }

    /// What always holds of a mutex. It does nothing.
    pub fn laws(&self)
        ensures { IsMutex self.now }
    {
        self.list.laws();
    }

    /// What polls do to a free mutex that are carried out one after the other, each alone: among as
    /// many of them as its list has entries one takes the lock. It does nothing.
    pub fn solo_polls(&self)
        ensures { holders self.now ≡ 0 → SoloPolls self.now }
    {
        self.laws();
    }

    /// One action of a party's program, whose place was `from`.
    fn act(&mut self, party: u32, from: Place, memory: bool, starving: bool) -> Next
        requires known { party < length self.old.places }
        requires begins { SameRoles from (place_at self.old.places party) }
        ensures acts { Acts memory party from result self.old self.new }
        ensures legal { IsLegal memory party (decision from) result self.old self.new }
        ensures at_once { TakesFrom from party self.old self.new }
        ensures fair { TakenFairly self.old self.new }
        ensures falls { left_after result self.new party < left from (is_own_marked self.old party) (is_open self.old) }
        ensures clock { HeedsClock starving from result }
    {
        let at = party as usize;
        let action = action_at(from);
        let found = carry_out(
            &mut self.word,
            &mut self.list,
            party,
            action,
            memory,
            starving,
        );
        let next = decide(from, found);
        self.places[at] = after(next);
        led(next)
    }
}
