//! A semaphore for those who build on one: the machine, seen by the courses of its parties' calls.
//!
//! Its contracts name no place of a program: they say where each party's call is (specs/machine/Course), what a step does
//! (specs/machine/Conduct), what always holds (specs/machine/Permits), and what calls do that are carried out alone (specs/machine/Calls).

ghost use Rattle.std.specs.Prelude.{◌≡◌, ◌<◌, ◌≤◌, true, false, length, slice_get, IfOk};

use crate::machine::semaphore::Semaphore;
use lock_event::Entry;
use lock_program::Next;
use lock_program::mutex::Step;
use std::alloc::{AllocError, Global};
use std::marker::Model;
use sync_program::permits::{self, Place, Position, SemaphoreCall};

/// A semaphore whose callers know nothing of its programs' places.
///
/// The Rust crate's pools and channels stand on its semaphore in the same way, by calls alone.
pub struct Permits {
    machine: Semaphore,
}

// By hand, so that a drop is one call to prove, and not all of its parts again.
impl Drop for Permits {
    fn drop(self) {
        let Permits { machine: _ } = self;
    }
}

impl Model for Permits {
    ghost use Rattle.world_semaphore.specs.machine.Permits.{Permits};
    ghost use Rattle.world_semaphore.specs.machine.Seen.{AreKept, seen};

    ghost Value = { Permits };

    ghost view = { λ m. seen m.machine };

    ghost invariant = { λ m. AreKept m.machine.positions };
}

ghost use Rattle.world_semaphore.specs.machine.Calls.{PermitsBegin, PermitsGoOn, Alone};
ghost use Rattle.world_semaphore.specs.machine.Course.{is_resting, may_begin};
ghost use Rattle.world_semaphore.specs.machine.Done.{step_of};
ghost use Rattle.world_semaphore.specs.machine.Permits.{course_at, new_permits, IsPermits};

/// What is told of what a step leads to.
fn step_after(next: Next<Place, Position>) -> Step
    ensures { result ≡ step_of next }
{
    match next {
        Next::Do(_) => Step::More,
        Next::End(end, _) => Step::End(end),
    }
}

impl Permits {
    /// A semaphore with so many permits, for so many parties, numbered from 0, none of which has called yet.
    /// Its limit never passes `most`, which is at least the number of permits. Refused for memory alone; afterwards no step needs any.
    pub fn new(alloc: Global, parties: u32, permits: u64, most: u64) -> Result<Permits, AllocError>
        requires { permits ≤ most }
        ensures { IfOk result (λ m. m ≡ new_permits parties permits most) }
    {
        let machine = Semaphore::new(alloc, parties, permits, most)?;
        Ok(Permits { machine })
    }

    /// Begins a call of a party with its first step. `memory` says whether a join finds memory. The caller begins a call only where the
    /// course of the party allows it (`can`). What the step does, specs/machine/Calls says.
    pub fn begin(&mut self, party: u32, call: SemaphoreCall, memory: bool) -> Step
        requires known { party < length self.old.courses }
        requires can { may_begin call (course_at self.old.courses party) ≡ true }
        ensures { PermitsBegin memory party call result self.old self.new }
    {
        self.machine.laws();
        let Some(from) = permits::start(call, self.machine.position(party)) else {
            unreachable!()
        };
        let begun = self.machine.take_step(party, from, memory);
        self.machine.laws();
        step_after(begun)
    }

    /// Goes on with a call that a party is inside of, by one step, with the input as [`Permits::begin`] takes it.
    pub fn go(&mut self, party: u32, memory: bool) -> Step
        requires known { party < length self.old.courses }
        requires inside { is_resting (course_at self.old.courses party) ≡ false }
        ensures { PermitsGoOn memory party result self.old self.new }
    {
        self.machine.laws();
        let Position::At(from) = self.machine.position(party) else {
            unreachable!()
        };
        let next = self.machine.take_step(party, from, memory);
        self.machine.laws();
        step_after(next)
    }

    /// How many permits are available.
    pub fn available(&self) -> u64
        ensures { result ≡ self.now.words.available }
    {
        self.machine.available()
    }

    /// How many permits there are: those available, those that parties have, and those under way.
    pub fn limit(&self) -> u64
        ensures { result ≡ self.now.words.limit }
    {
        self.machine.limit()
    }

    /// How many entries its list has.
    pub fn waiting(&self) -> usize
        ensures { result ≡ length self.now.entries }
    {
        self.machine.waiting()
    }

    /// The entry at this place of its list, counted from the front: the party, and what it has been told. None past the last.
    pub fn entry(&self, index: usize) -> Option<Entry<u32>>
        ensures { result ≡ slice_get self.now.entries index }
    {
        self.machine.entry(index)
    }

    /// What always holds of a semaphore. It does nothing.
    pub fn laws(&self)
        ensures { IsPermits self.now }
    {
        self.machine.laws();
    }

    /// What calls do that are carried out alone, one after the other: a poll takes where enough permits are available, no notification is lost, and
    /// the first or the second poll of a notified party takes where as many are available as somebody waits for. It does nothing.
    pub fn alone(&self)
        ensures { Alone self.now }
    {
        self.machine.laws();
    }
}
