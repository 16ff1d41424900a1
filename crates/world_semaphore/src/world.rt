//! The semaphore's World: permits, a limit, and the parties that have, want, add and forget permits. It is a
//! table over the machine `machine::Semaphore`.
//!
//! The Rust crate's `Semaphore` runs in threads, and each of its guards has one permit. Here a guard is a party
//! that has so many, none or more, and one step is one call, so that contracts can speak of every
//! interleaving: specs/State says what is seen, specs/Legal what a step may do, specs/AtOnce what it decides
//! at once.

ghost use Rattle.std.specs.Prelude.{◌≡◌, ◌<◌, ◌≤◌, ◌^◌, ◌-◌, ℕ, Bool, true, None, IfOk, IfErr, OnErr, length, slice_get};
ghost use Rattle.lock_program.specs.declared.refusal.Refusal.TheVariants as refusals;
ghost use Rattle.world_semaphore.specs.State.{new_world, available};
ghost use Rattle.world_semaphore.specs.Steps.{Steps};
ghost use Rattle.world_semaphore.specs.Laws.{IsSound, IsAwake, IsFreeAndWanted, is_at_rest};
ghost use Rattle.world_semaphore.specs.Whole.{EndsSoon};
ghost use Rattle.world_semaphore.specs.Bound.{IsBounded, Drains};
ghost use Rattle.world_semaphore.specs.Limits.{IsRefusedFor};

use crate::machine::{Semaphore, may_begin_with};
use lock_event::Entry;
use lock_program::Refusal;
use std::alloc::Global;
use std::marker::Model;
use sync_program::permits::Position;
use world_base::table::Table;
use world_base::{Answer, AnyWorld, Move};

/// A semaphore, its parties, and their calls.
pub struct World {
    table: Table<Semaphore>,
}

// By hand, so that a drop is one call to prove, and not all of its parts again.
impl Drop for World {
    fn drop(self) {
        let World { table: _ } = self;
    }
}

impl Model for World {
    ghost use Rattle.world_semaphore.specs.State.{World};
    ghost use Rattle.world_semaphore.specs.View.{view_of};

    ghost Value = { World };

    ghost view = { λ w. view_of w.table };
}

impl World {
    /// A World of so many idle parties, numbered from 0, over a semaphore with so many permits. Its limit may
    /// rise to the greatest number of 64 bits. Refused for memory alone, and then nothing is kept; afterwards
    /// no step needs memory. The clause `opening` says what is made.
    pub fn new(alloc: Global, parties: u32, permits: u64) -> Result<World, Refusal>
        ensures opening { IfOk result (λ w. w ≡ new_world parties permits 18446744073709551615) }
        ensures refused { IfErr result (λ r. r ≡ Refusal.Memory) }
    {
        World::over(alloc, parties, permits, u64::MAX)
    }

    /// A World as [`World::new`] makes it, whose limit never passes `most`. Refused as
    /// [`Refusal::Permits`] exactly where there are more permits than that to begin with, and else for memory
    /// alone.
    ///
    /// The Rust crate has no limit: its permits wrap.
    pub fn with_limits(
        alloc: Global,
        parties: u32,
        permits: u64,
        most: u64,
    ) -> Result<World, Refusal>
        ensures opening { IfOk result (λ w. w ≡ new_world parties permits most) }
        ensures fits { IfOk result (λ w. permits ≤ most) }
        ensures refused { IfErr result (λ r. IsRefusedFor permits most r) }
    {
        may_begin_with(permits, most)?;
        World::over(alloc, parties, permits, most)
    }

    /// A World whose permits don't pass the limit.
    fn over(alloc: Global, parties: u32, permits: u64, most: u64) -> Result<World, Refusal>
        requires { permits ≤ most }
        ensures opening { IfOk result (λ w. w ≡ new_world parties permits most) }
        ensures refused { IfErr result (λ r. r ≡ Refusal.Memory) }
    {
        let Ok(semaphore) = Semaphore::new(alloc, parties, permits, most) else {
            return Err(Refusal::Memory);
        };
        match Table::new(alloc, semaphore, parties, permits) {
            Ok(table) => Ok(World { table }),
            Err(_) => Err(Refusal::Memory),
        }
    }

    /// One move: a party begins a call with its first action, or carries out the next action of the call
    /// that it is in.
    ///
    /// The answer is `Stepped` where the call goes on, and else the call's result. A move that the party
    /// can't make, a party past the table and a call of another World are answered `NotPossible` and
    /// change nothing. It takes no memory: `Refused(1)` comes where the move's input says so. The contract's
    /// `legal` says all that a step may do, and `at_once` what the first step of a call decides.
    ///
    /// The list isn't fair: a newcomer takes where as many permits are available as it wants, whoever is
    /// listed; those that are available are told to the first for whom they are enough; and whoever was told in
    /// vain joins again at the back. So a large request may starve beside small ones.
    ///
    /// The Rust crate's `acquire` is for one permit, carries out a whole poll in one call and never refuses,
    /// and there a party that was told and leaves permits hands nothing on.
    pub fn step(&mut self, m: &Move) -> Answer
        ensures { Steps self.old m.now result self.new }
    {
        self.table.laws();
        self.table.machine().laws();
        let answer = self.table.step(m);
        self.table.laws();
        self.table.machine().laws();
        answer
    }

    /// Whether nobody is inside a call.
    pub fn at_rest(&self) -> bool
        ensures { result ≡ is_at_rest self.now }
    {
        self.table.at_rest()
    }

    /// Where a party stands in its program; None past the last. It is for tests that carry out the same program beside a
    /// World: no other clause names a place.
    pub fn place(&self, party: u32) -> Option<Position>
        ensures { result ≡ slice_get self.now.behind.machine.positions party }
    {
        self.table.machine().position_of(party)
    }

    /// What always holds of a World, between any two moves: permits that are had, under way and available
    /// make up the limit, each party has what its standing says, at most one entry is marked, and at rest no
    /// notification is lost; and a call that is decided ends within three further steps of its own, whatever
    /// others do meanwhile. It does nothing.
    pub fn laws(&self)
        ensures sound { IsSound self.now }
        ensures awake { is_at_rest self.now ≡ true → IsAwake self.now }
        ensures ends_soon { EndsSoon self.now }
    {
        self.table.laws();
        self.table.machine().laws();
    }

    /// How often permits that are available, at rest, may be passed over while some party waits for so many: the
    /// first or the second solo poll takes. It does nothing.
    ///
    /// A solo poll is a [`AnyWorld::poll_whole`] of a pending party whose entry is marked and that finds
    /// memory. The clause `bounded` also says that some entry is marked, so that there is a party to poll.
    ///
    /// Where everybody listed waits for one permit, polls of notified parties in turn drain the list (`drains`): as many as permits
    /// are available, and parties wait, give each its own.
    pub fn solo_polls(&self)
        ensures bounded { is_at_rest self.now ≡ true → IsFreeAndWanted self.now → IsBounded self.now }
        ensures drains { is_at_rest self.now ≡ true → Drains self.now }
    {
        self.laws();
    }

    /// How many permits are available: of the limit, those that no party has and that aren't under way.
    pub fn available(&self) -> u64
        ensures { result ≡ available self.now.state }
    {
        self.table.machine().laws();
        self.table.machine().available()
    }

    /// The limit: the permits that the World was made with and those that were added, less those that were
    /// forgotten. The Rust crate keeps no such number.
    pub fn limit(&self) -> u64
        ensures { result ≡ self.now.state.limit }
    {
        self.table.machine().limit()
    }

    /// How many entries the list of waiting parties has.
    pub fn waiting(&self) -> usize
        ensures { result ≡ length self.now.entries }
    {
        self.table.machine().waiting()
    }

    /// The entry at this place of the list, counted from the front: its key is the party, and its
    /// mark says what the party has been told. None past the last.
    pub fn entry(&self, index: usize) -> Option<Entry<u32>>
        ensures { result ≡ slice_get self.now.entries index }
    {
        self.table.machine().entry(index)
    }
}

impl AnyWorld for World {
    ghost use Rattle.world_semaphore.specs.Steps as steps;
    ghost use Rattle.world_semaphore.specs.State as state;
    ghost use Rattle.world_semaphore.specs.Laws as laws;
    ghost use Rattle.world_semaphore.specs.Runs as runs;
    ghost use Rattle.world_semaphore.specs.Whole.{most_steps_of, steps_left_of};
    ghost use Rattle.world_semaphore.specs.Bound.{Promises};
    ghost use Rattle.world_semaphore.specs.Openings.{opening_kept};

    ghost legal = { steps.Steps };

    ghost opening = { state.opening_of };

    ghost standing_of = { state.standing_of };

    ghost is_at_rest = { laws.is_at_rest };

    ghost Known = { runs.Known };

    ghost known_of = { runs.known_of };

    ghost learn = { runs.learn };

    ghost tells = { runs.Tells };

    ghost is_well = { runs.HoldsWell };

    ghost most_steps = { most_steps_of };

    ghost steps_left = { steps_left_of };

    ghost promises = { Promises };

    ghost keeps_opening = { λ w m a v s. opening_kept w m a v s.legal };

    fn step(&mut self, m: &Move) -> Answer {
        World::step(self, m)
    }

    fn step_laws(&self) {}

    fn at_rest(&self) -> bool {
        World::at_rest(self)
    }
}
