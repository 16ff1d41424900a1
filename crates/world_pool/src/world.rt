//! The pool's World: its items and leases, its semaphore and its list's lock, and the parties that take and give. It is a table over the
//! machine `machine::Pool`.
//!
//! The Rust crate has no pool. `bounded_pool::Pool` runs in threads; here a take, a lease and a give are a party, and one step is one
//! call, so that contracts can speak of every interleaving: specs/State says what is seen, specs/Legal what a step may do,
//! specs/AtOnce what it decides at once.

ghost use Rattle.std.specs.Prelude.{◌≡◌, ◌<◌, ℕ, true, IfOk, IfErr, length, min, slice_get};
ghost use Rattle.world_mutex.specs.machine.Course.{bit};
ghost use Rattle.world_mutex.specs.machine.Mutex.{holders, starved};
ghost use Rattle.lock_program.specs.declared.refusal.Refusal.TheVariants as refusals;
ghost use Rattle.world_pool.specs.State.{new_world, lease_of, available as available_lem, limit as limit_lem, list_in};
ghost use Rattle.world_pool.specs.Steps.{Steps};
ghost use Rattle.world_pool.specs.Laws.{IsSound, IsAwake, is_at_rest};
ghost use Rattle.world_pool.specs.Bound.{IsBounded};

use crate::machine::Pool;
use crate::program::places::Position;
use lock_event::Entry;
use lock_program::Refusal;
use std::alloc::Global;
use std::marker::Model;
use world_base::table::Table;
use world_base::{Answer, AnyWorld, Move};

/// The greatest number of parties that may be starved for the lock of a pool's list. The Rust crate aborts where this project refuses.
pub const MOST_STARVED: u32 = 1_073_741_823;

/// The lists of those that wait in a pool.
#[derive(Clone, Copy)]
pub enum ListName {
    /// Of those that wait for a permit.
    Permits,
    /// Of those that wait for the lock of the list of items.
    Lock,
}

/// A pool, its parties, and their takes, leases and gives.
pub struct World {
    table: Table<Pool>,
}

// By hand, so that a drop is one call to prove, and not all of its parts again.
impl Drop for World {
    fn drop(self) {
        let World { table: _ } = self;
    }
}

impl Model for World {
    ghost use Rattle.std.specs.Coded.{codes};
    ghost use Rattle.world_mutex.specs.machine.Behind.{behind_coded};
    ghost use Rattle.world_pool.specs.State.{World};
    ghost use Rattle.world_pool.specs.View.{view_of};

    ghost Value = { World };

    ghost coded = { Prim.hlevel (codes, behind_coded) };

    ghost view = { λ w. view_of w.table };
}

impl World {
    /// A World of so many idle parties, numbered from 0, over a pool of so many items, from 0 on, with the greatest limit of starved
    /// parties. Refused for memory alone, and then nothing is kept; afterwards no step needs memory. The clause `opening` says what is
    /// made.
    pub fn new(alloc: Global, parties: u32, items: u32) -> Result<World, Refusal>
        ensures opening { IfOk result (λ w. w ≡ new_world parties items MOST_STARVED) }
        ensures refused { IfErr result (λ r. r ≡ Refusal.Memory) }
    {
        World::with_limits(alloc, parties, items, MOST_STARVED)
    }

    /// A World as [`World::new`] makes it, in which at most so many parties may be starved for the list's lock at a time. A number above
    /// that of [`World::new`] means that one.
    pub fn with_limits(
        alloc: Global,
        parties: u32,
        items: u32,
        starved: u32,
    ) -> Result<World, Refusal>
        ensures opening { IfOk result (λ w. w ≡ new_world parties items (min starved MOST_STARVED)) }
        ensures refused { IfErr result (λ r. r ≡ Refusal.Memory) }
    {
        let Ok(pool) = Pool::new(alloc, parties, items, starved.min(MOST_STARVED)) else {
            return Err(Refusal::Memory);
        };
        match Table::new(alloc, pool, parties, 0) {
            Ok(table) => Ok(World { table }),
            Err(_) => Err(Refusal::Memory),
        }
    }

    /// One move: a party begins a call with its first action, or carries out the next action of the call that it is in.
    ///
    /// The answer is `Stepped` where the call goes on, and else the call's result: a take is `Ready` with its item, and a try is
    /// `Granted` with it; a give ends by `GivenBack`. A move that the party can't make, a party past the table and a call of another
    /// World are answered `NotPossible` and change nothing. It takes no memory: `Refused(1)` comes where the move's input says so, and
    /// `Refused(2)` where as many parties are starved for the list's lock as may be. A refused take has nothing, as when it was made; a
    /// refused give keeps its lease. The contract's `legal` says all that a step may do, and `at_once` what the first step of a call
    /// decides.
    pub fn step(&mut self, m: &Move) -> Answer
        ensures { Steps self.old m.now result self.new }
    {
        self.table.laws();
        self.table.machine().laws();
        let answer = self.table.step(m);
        self.table.laws();
        self.table.machine().laws();
        answer
    }

    /// Whether nobody is inside a call.
    pub fn at_rest(&self) -> bool
        ensures { result ≡ is_at_rest self.now }
    {
        self.table.at_rest()
    }

    /// Where a party stands in its program; None past the last. It is for tests that carry out the same program beside a World: no other
    /// clause names a place.
    pub fn place(&self, party: u32) -> Option<Position>
        ensures { result ≡ slice_get self.now.behind.machine.positions party }
    {
        self.table.machine().position_of(party)
    }

    /// What always holds of a World, between any two moves: the items in the list and those leased are pairwise different, and with the
    /// lost ones they are as many as were made; each party has what its standing says. At rest the list has as many items as permits are
    /// available and pending takes have, and no notification is lost. It does nothing.
    pub fn laws(&self)
        ensures sound { IsSound self.now }
        ensures awake { is_at_rest self.now ≡ true → IsAwake self.now }
    {
        self.table.laws();
        self.table.machine().laws();
    }

    /// How often the list's lock, at rest, may be passed over while parties wait for it: among as many solo polls in turn as its list
    /// has entries one takes the lock. It does nothing.
    ///
    /// A solo poll is a [`AnyWorld::poll_whole`] of a pending party whose entry in the lock's list is marked and that finds memory. None
    /// of them may be refused as one too many of the starved. The contract also says that some party that waits has been notified.
    pub fn solo_polls(&self)
        ensures { is_at_rest self.now ≡ true → 0 < length self.now.lock.entries → IsBounded self.now }
    {
        self.laws();
    }

    /// How many items the list has.
    pub fn len(&self) -> usize
        ensures { result ≡ length self.now.items }
    {
        self.table.machine().len()
    }

    /// The item at this place of the list, counted from the front. None past the last.
    pub fn item(&self, index: usize) -> Option<u64>
        ensures { result ≡ slice_get self.now.items index }
    {
        self.table.machine().item(index)
    }

    /// The item that a party has leased.
    pub fn lease(&self, party: u32) -> Option<u64>
        ensures { result ≡ lease_of self.now party }
    {
        self.table.machine().lease(party)
    }

    /// How many permits of the semaphore are available.
    pub fn available(&self) -> u64
        ensures { result ≡ available_lem self.now }
    {
        self.table.machine().permits().available()
    }

    /// How many permits there are: one for each item that isn't lost.
    pub fn limit(&self) -> u64
        ensures { result ≡ limit_lem self.now }
    {
        self.table.machine().permits().limit()
    }

    /// Whether the list's lock is held.
    pub fn is_locked(&self) -> bool
        ensures { bit result ≡ holders self.now.lock }
    {
        self.table.machine().lock().is_held()
    }

    /// How many parties are starved for the list's lock.
    pub fn starved(&self) -> u32
        ensures { result ≡ starved self.now.lock }
    {
        self.table.machine().lock().starved()
    }

    /// How many entries a list has.
    pub fn waiting(&self, list: ListName) -> usize
        ensures { result ≡ length (list_in list self.now) }
    {
        match list {
            ListName::Permits => self.table.machine().permits().waiting(),
            ListName::Lock => self.table.machine().lock().waiting(),
        }
    }

    /// The entry at this place of a list, counted from the front: its key is the party, and its mark says what the party has been told.
    /// None past the last.
    pub fn entry(&self, list: ListName, index: usize) -> Option<Entry<u32>>
        ensures { result ≡ slice_get (list_in list self.now) index }
    {
        match list {
            ListName::Permits => self.table.machine().permits().entry(index),
            ListName::Lock => self.table.machine().lock().entry(index),
        }
    }
}

impl AnyWorld for World {
    ghost use Rattle.std.specs.Prelude.{ℕ, Option};
    ghost use Rattle.world_pool.specs.Steps as steps;
    ghost use Rattle.world_pool.specs.State as state;
    ghost use Rattle.world_pool.specs.Laws as laws;
    ghost use Rattle.world_pool.specs.Runs.{HoldsWell, TellsItems, known_of, items_after};
    ghost use Rattle.world_pool.specs.Whole.{most_steps_of, steps_left_of};
    ghost use Rattle.world_pool.specs.Bound.{Promises};
    ghost use Rattle.world_pool.specs.Openings.{opening_kept};

    ghost legal = { steps.Steps };

    ghost opening = { state.opening_of };

    ghost standing_of = { state.standing_of };

    ghost is_at_rest = { laws.is_at_rest };

    ghost Known = { ℕ → Option ℕ };

    ghost known_of = { known_of };

    ghost learn = { items_after };

    ghost tells = { TellsItems };

    ghost is_well = { HoldsWell };

    ghost most_steps = { most_steps_of };

    ghost steps_left = { steps_left_of };

    ghost promises = { Promises };

    ghost keeps_opening = { λ w m a v s. opening_kept w m a v s.legal };

    fn step(&mut self, m: &Move) -> Answer {
        World::step(self, m)
    }

    fn step_laws(&self) {}

    fn at_rest(&self) -> bool {
        World::at_rest(self)
    }
}
