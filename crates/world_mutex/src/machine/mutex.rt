//! A mutex for those who build on one: the machine, seen by the courses of its parties' calls.
//!
//! A read-write lock's turn stands on it, and so does the inner lock of a barrier. Its contracts name no
//! place of a program: they say where each party's call is (specs/machine/Course), what a step does
//! (specs/machine/Conduct), what always holds (specs/machine/Mutex), and what polls do that are carried out alone
//! (specs/machine/Alone).

ghost use Rattle.std.specs.Prelude.{◌≡◌, ◌<◌, true, length, slice_get, IfOk};

use crate::machine::lock::Lock;
use crate::program::led::step_after;
use lock_event::Entry;
use lock_program::mutex::{LockCall, Place, Step};
use std::alloc::{AllocError, Global};
use std::marker::Model;

/// A mutex without a value, whose callers know nothing of its programs' places.
///
/// The Rust crate builds its read-write lock and its barrier on its mutex in the same way, by calls
/// alone.
pub struct Mutex {
    machine: Lock,
}

// By hand, so that a drop is one call to prove, and not all of its parts again.
impl Drop for Mutex {
    fn drop(self) {
        let Mutex { machine: _ } = self;
    }
}

impl Model for Mutex {
    ghost use Rattle.std.specs.Coded.{codes};
    ghost use Rattle.world_mutex.specs.machine.Behind.{behind_coded};
    ghost use Rattle.world_mutex.specs.machine.Mutex.{Mutex};
    ghost use Rattle.world_mutex.specs.machine.Seen.{AreKept, seen};

    ghost Value = { Mutex };

    ghost coded = { Prim.hlevel (codes, behind_coded) };

    ghost view = { λ m. seen m.machine };

    ghost invariant = { λ m. AreKept m.machine.places };
}

ghost use Rattle.world_mutex.specs.machine.Behind.{place_behind};
ghost use Rattle.world_mutex.specs.machine.Alone.{SoloPolls};
ghost use Rattle.world_mutex.specs.machine.Course.{bit, may_begin};
ghost use Rattle.world_mutex.specs.machine.Mutex.{course_at, new_mutex, holders, starved as starved_lem, IsMutex};
ghost use Rattle.world_mutex.specs.machine.Steps.{LockBegins, LockGoesOn};

impl Mutex {
    /// A free mutex for so many parties, numbered from 0, none of which has called yet; at most `limit`
    /// of them may be starved at a time. Refused for memory alone; afterwards no step needs any.
    pub fn new(alloc: Global, parties: u32, limit: u32) -> Result<Mutex, AllocError>
        ensures { IfOk result (λ m. m ≡ new_mutex parties limit) }
    {
        let machine = Lock::new(alloc, parties, limit)?;
        Ok(Mutex { machine })
    }

    /// Begins a call of a party with its first step. `memory` says whether a join finds memory,
    /// `starving` whether the party has waited for too long. The caller begins a call only where the
    /// course of the party allows it (`can`). What the step does, specs/machine/Steps says.
    pub fn begin(&mut self, party: u32, call: LockCall, memory: bool, starving: bool) -> Step
        requires known { party < length self.old.courses }
        requires can { may_begin call (course_at self.old.courses party) ≡ true }
        ensures { LockBegins memory starving party call result self.old self.new }
    {
        self.machine.laws();
        step_after(self.machine.begin(party, call, memory, starving))
    }

    /// Goes on with a call of a party, by one step, with the inputs as [`Mutex::begin`] takes them.
    pub fn go(&mut self, party: u32, memory: bool, starving: bool) -> Step
        requires known { party < length self.old.courses }
        ensures { LockGoesOn memory starving party result self.old self.new }
    {
        self.machine.laws();
        step_after(self.machine.go(party, memory, starving))
    }

    /// Where a party stands in the mutex's own program; None past the last. It is for tests that carry out the same program
    /// beside a World: no other clause of a mutex names a place.
    pub fn place_of(&self, party: u32) -> Option<Place>
        ensures { result ≡ place_behind self.now.behind party }
    {
        self.machine.place_of(party)
    }

    /// Whether the lock is held.
    pub fn is_held(&self) -> bool
        ensures { bit result ≡ holders self.now }
    {
        self.machine.is_held()
    }

    /// How many entries its list has.
    pub fn waiting(&self) -> usize
        ensures { result ≡ length self.now.entries }
    {
        self.machine.waiting()
    }

    /// The entry at this place of its list, counted from the front: the party, and what it has been
    /// told. None past the last.
    pub fn entry(&self, index: usize) -> Option<Entry<u32>>
        ensures { result ≡ slice_get self.now.entries index }
    {
        self.machine.entry(index)
    }

    /// How many parties are counted as starved.
    pub fn starved(&self) -> u32
        ensures { result ≡ starved_lem self.now }
    {
        self.machine.starved()
    }

    /// What always holds of a mutex. It does nothing.
    pub fn laws(&self)
        ensures { IsMutex self.now }
    {
        self.machine.laws();
    }

    /// What polls do to a free mutex that are carried out one after the other, each alone: among as
    /// many of them as its list has entries one takes the lock. It does nothing.
    pub fn solo_polls(&self)
        ensures { holders self.now ≡ 0 → SoloPolls self.now }
    {
        self.laws();
    }
}
