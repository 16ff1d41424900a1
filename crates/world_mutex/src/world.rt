//! The mutex's World: a mutex over a number, in which each party has its standing. It is a table over the
//! machine `machine::Lock`, with a value beside it.
//!
//! The Rust crate's `Mutex` lends a value of any type and runs in threads. Here the value is a number,
//! a guard is a party that holds the lock, and one step is one call, so that contracts can speak of
//! every interleaving: specs/State says what is seen, specs/Legal what a step may do.

ghost use Rattle.std.specs.Prelude.{◌≡◌, Bool, ◌<◌, ◌≤◌, ℕ, true, [], ◌∷◌, ◌++◌, None, IfOk, IfErr, OnErr, length, min, slice_get, is_some, vec_len, vec_capacity};
ghost use Rattle.world_base.specs.Rosters.{how_many};
ghost use Rattle.world_mutex.specs.State.{new_world};
ghost use Rattle.world_mutex.specs.Steps.{Steps};
ghost use Rattle.world_mutex.specs.Laws.{IsSound, IsAwake, IsFreeAndWanted, is_at_rest};
ghost use Rattle.world_mutex.specs.Bound.{IsBounded};
ghost use Rattle.world_mutex.specs.Overtaking.{IsOvertakenSeldom, IsOvertakenSeldomInSteps};
ghost use Rattle.world_mutex.specs.Waking.{CountsWhoWakes, StarvesForCause};
ghost use Rattle.world_mutex.specs.Whole.{EndsSoon};

use crate::guarded::Guarded;
use lock_event::Entry;
use lock_program::Refusal;
use lock_program::mutex::Place;
use std::alloc::Global;
use std::marker::Model;
use world_base::table::Table;
use world_base::{Answer, AnyWorld, Move};

/// The greatest number of starved parties of a mutex. The Rust crate aborts where this project refuses.
pub const MOST_STARVED: u32 = 1_073_741_823;

/// A mutex over a number, its parties, and their calls.
pub struct World {
    table: Table<Guarded>,
}

// By hand, so that a drop is one call to prove, and not all of its parts again.
impl Drop for World {
    fn drop(self) {
        let World { table: _ } = self;
    }
}

impl Model for World {
    ghost use Rattle.world_mutex.specs.State.{World};
    ghost use Rattle.world_mutex.specs.View.{view_of};

    ghost Value = { World };

    ghost view = { λ w. view_of w.table };
}

ghost use Rattle.std.specs.Borrow.{sem};
ghost use Rattle.world_mutex.specs.Lending.{LendsValue};

impl World {
    /// A World of so many idle parties, numbered from 0, over a free lock with this value. As many
    /// parties may be starved as [`MOST_STARVED`] says. Refused for memory alone, and then nothing is
    /// kept; afterwards no step needs memory. The clause `opening` says what is made.
    pub fn new(alloc: Global, parties: u32, value: u64) -> Result<World, Refusal>
        ensures opening { IfOk result (λ w. w ≡ new_world parties MOST_STARVED value) }
        ensures refused { IfErr result (λ r. r ≡ Refusal.Memory) }
    {
        World::with_limits(alloc, parties, value, MOST_STARVED)
    }

    /// A World as [`World::new`] makes it, in which at most so many parties may be starved at a time. A
    /// number above [`MOST_STARVED`] means that one.
    pub fn with_limits(
        alloc: Global,
        parties: u32,
        value: u64,
        starved: u32,
    ) -> Result<World, Refusal>
        ensures opening { IfOk result (λ w. w ≡ new_world parties (min starved MOST_STARVED) value) }
        ensures refused { IfErr result (λ r. r ≡ Refusal.Memory) }
    {
        let Ok(guarded) = Guarded::new(alloc, parties, value, starved.min(MOST_STARVED)) else {
            return Err(Refusal::Memory);
        };
        match Table::new(alloc, guarded, parties, value) {
            Ok(table) => Ok(World { table }),
            Err(_) => Err(Refusal::Memory),
        }
    }

    /// One move: a party begins a call with its first action, or carries out the next action of the call
    /// that it is in.
    ///
    /// The answer is `Stepped` where the call goes on, and else the call's result. A move that the party
    /// can't make, a party past the table and a call of another World are answered `NotPossible` and
    /// change nothing. It takes no memory: `Refused(1)` comes where the move's input says so. The contract's
    /// `legal` says all that a step may do, and `at_once` what a try and a first poll answer.
    ///
    /// The Rust crate's `lock` carries out a whole poll in one call, and never refuses.
    pub fn step(&mut self, m: &Move) -> Answer
        ensures { Steps self.old m.now result self.new }
    {
        self.table.laws();
        self.table.machine().laws();
        let answer = self.table.step(m);
        self.table.laws();
        self.table.machine().laws();
        answer
    }

    /// Whether nobody is inside a call.
    pub fn at_rest(&self) -> bool
        ensures { result ≡ is_at_rest self.now }
    {
        self.table.at_rest()
    }

    /// Where a party stands in its program; None past the last. It is for tests that carry out the same program beside a
    /// World: no other clause names a place.
    pub fn place(&self, party: u32) -> Option<Place>
        ensures { result ≡ slice_get self.now.behind.machine.lock.places party }
    {
        self.table.machine().lock().place_of(party)
    }

    /// What always holds of a World, between any two moves: nobody has the lock beside its holder, each
    /// party has what its standing says, and at rest no notification is lost; and a call that is decided
    /// ends within two further steps of its own, whatever others do meanwhile. Who wakes another in a poll that isn't decided, and
    /// isn't starved, is counted as starved by its next step, or refused; and who hasn't waited for too long, and meets nobody that is
    /// starved where it steps, is neither. It does nothing.
    pub fn laws(&self)
        ensures sound { IsSound self.now }
        ensures awake { is_at_rest self.now ≡ true → IsAwake self.now }
        ensures ends_soon { EndsSoon self.now }
        ensures counts_who_wakes { CountsWhoWakes self.now }
        ensures starves_for_cause { StarvesForCause self.now }
    {
        self.table.laws();
        self.table.machine().laws();
    }

    /// How often a lock that is free, at rest, may be passed over while parties wait for it: among as many
    /// solo polls in turn as the list has entries one takes the lock. It does nothing.
    ///
    /// A solo poll is a [`AnyWorld::poll_whole`] of a pending party whose entry is marked and that finds
    /// memory. In none of them may as many parties be starved already as the limit allows. The clause
    /// `bounded` also says that some entry is marked, so that there is a party to poll, unless it was
    /// forgotten.
    pub fn solo_polls(&self)
        ensures bounded { is_at_rest self.now ≡ true → IsFreeAndWanted self.now → IsBounded self.now }
    {
        self.laws();
    }

    /// How often a starved party that waits in the list may be overtaken: by whole calls of others, however many and however
    /// long, at most as often as entries stand before its own (`seldom`); where their calls interleave, by single steps, at most as
    /// often as entries stand before its own and parties are inside calls (`in_steps`). It does nothing.
    pub fn overtakings(&self)
        ensures seldom { IsOvertakenSeldom self.now }
        ensures in_steps { IsOvertakenSeldomInSteps self.now }
    {
        self.laws();
    }

    /// Whether the lock is held, as its word says. The Rust crate shows it in its debug text alone.
    pub fn is_locked(&self) -> bool
        ensures { result ≡ is_some self.now.state.holder }
    {
        self.table.machine().laws();
        self.table.machine().lock().is_held()
    }

    /// How many parties are starved, as the word says.
    pub fn starved(&self) -> u32
        ensures { result ≡ how_many self.now.state.starved }
    {
        self.table.machine().lock().starved()
    }

    /// How many entries the list of waiting parties has.
    pub fn waiting(&self) -> usize
        ensures { result ≡ length self.now.entries }
    {
        self.table.machine().lock().waiting()
    }

    /// The entry at this place of the list, counted from the front: its key is the party, and its
    /// mark says what the party has been told. None past the last.
    pub fn entry(&self, index: usize) -> Option<Entry<u32>>
        ensures { result ≡ slice_get self.now.entries index }
    {
        self.table.machine().lock().entry(index)
    }

    /// The value that the last put left, or that the World was made with.
    pub fn value(&self) -> u64
        ensures { result ≡ self.now.state.value }
    {
        self.table.machine().value()
    }

    /// Lends the value, of a World at rest. Whoever was pending or held the lock is forgotten: from then on
    /// its moves are not possible, and its entry stays in the list. A later holder finds what was left
    /// behind the reference.
    ///
    /// The Rust crate's `get_mut` asks for the only reference to the mutex, so that no guard or future
    /// can be left.
    pub fn get_mut(&mut self) -> &mut u64
        requires { is_at_rest self.old ≡ true }
        ensures* lends { sem 𝓛 (LendsValue self.entry result) }
        ensures value { result.now ≡ self.old.state.value }
    {
        self.table.value_mut()
    }

    /// The value, and the World is gone. Whoever held the lock or waited for it is forgotten.
    pub fn into_inner(self) -> u64
        ensures { result ≡ self.state.value }
    {
        let World { table } = self;
        table.machine().value()
    }
}

impl AnyWorld for World {
    ghost use Rattle.world_mutex.specs.Steps as steps;
    ghost use Rattle.world_mutex.specs.State as state;
    ghost use Rattle.world_mutex.specs.Laws as laws;
    ghost use Rattle.world_mutex.specs.Runs.{HoldsWell, TellsRights, accounts_of};
    ghost use Rattle.world_base.specs.Accounts.{Account, accounts_after};
    ghost use Rattle.world_mutex.specs.Whole.{most_steps_of, steps_left_of};
    ghost use Rattle.world_mutex.specs.Bound.{Promises};
    ghost use Rattle.world_mutex.specs.Openings.{opening_kept};

    ghost legal = { steps.Steps };

    ghost opening = { state.opening_of };

    ghost standing_of = { state.standing_of };

    ghost is_at_rest = { laws.is_at_rest };

    ghost Known = { ℕ → Account };

    ghost known_of = { accounts_of };

    ghost learn = { accounts_after };

    ghost tells = { TellsRights };

    ghost is_well = { HoldsWell };

    ghost most_steps = { most_steps_of };

    ghost steps_left = { steps_left_of };

    ghost promises = { Promises };

    ghost keeps_opening = { λ w m a v s. opening_kept w m a v s.legal };

    fn step(&mut self, m: &Move) -> Answer {
        World::step(self, m)
    }

    fn step_laws(&self) {}

    fn at_rest(&self) -> bool {
        World::at_rest(self)
    }
}
