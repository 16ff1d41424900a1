//! The barrier's World: how many arrivals are counted, the inner lock, and the parties that wait. It is a
//! table over the machine `machine::Barrier`.
//!
//! The Rust crate's `Barrier` runs in threads. Here a wait is a party, and one step is one call, so that
//! contracts can speak of every interleaving: specs/State says what is seen, specs/Legal what a step may do,
//! specs/AtOnce what it decides at once.

ghost use Rattle.std.specs.Prelude.{◌≡◌, ◌+◌, ◌<◌, ◌≤◌, ℕ, Bool, true, List, IfOk, IfErr, length, min, slice_get, is_some};
ghost use Rattle.world_base.specs.Rosters.{how_many};
ghost use Rattle.world_base.specs.Accounts.{Account};
ghost use Rattle.world_mutex.specs.machine.Behind.{place_behind};
ghost use Rattle.world_base.specs.declared.moves.Answer.{Answer as AnswerOf};
ghost use Rattle.world_base.specs.declared.moves.Move.{Move as MoveOf};
ghost use Rattle.lock_program.specs.declared.refusal.Refusal.TheVariants as refusals;
ghost use Rattle.world_barrier.specs.machine.Waits.{number_of};
ghost use Rattle.world_barrier.specs.Numbers.{generations_of, count_of};
ghost use Rattle.world_barrier.specs.State.{new_world, list_in, wait_of, World as WorldOf};
ghost use Rattle.world_barrier.specs.Steps.{Steps};
ghost use Rattle.world_barrier.specs.Laws.{IsSound, IsAwake, IsWanted, is_at_rest};
ghost use Rattle.world_barrier.specs.Whole.{EndsSoon};
ghost use Rattle.world_barrier.specs.Waking.{StarvesForCause};
ghost use Rattle.world_barrier.specs.Runs.{Runs, leaders};
ghost use Rattle.world_barrier.specs.Bound.{IsBounded};
ghost use Rattle.world_barrier.specs.Overtaking.{IsOvertakenSeldomInSteps};

use crate::machine::Barrier;
use lock_event::Entry;
use lock_program::Refusal;
use lock_program::mutex::Place as LockPlace;
use std::alloc::Global;
use std::marker::Model;
use sync_program::barrier::Position;
use world_base::table::Table;
use world_base::{Answer, AnyWorld, Move};

/// The greatest number of parties that may be starved for a barrier's inner lock. The Rust crate aborts where
/// this project refuses.
pub const MOST_STARVED: u32 = 1_073_741_823;

/// The lists of a barrier.
#[derive(Clone, Copy)]
pub enum ListName {
    /// Of those that wait for the inner lock.
    Lock,
    /// Of those whose arrival is counted, and that wait for their generation to be finished.
    Generation,
}

/// A barrier, its parties, and their waits.
pub struct World {
    table: Table<Barrier>,
}

// By hand, so that a drop is one call to prove, and not all of its parts again.
impl Drop for World {
    fn drop(self) {
        let World { table: _ } = self;
    }
}

impl Model for World {
    ghost use Rattle.std.specs.Coded.{codes};
    ghost use Rattle.world_mutex.specs.machine.Behind.{behind_coded};
    ghost use Rattle.world_barrier.specs.State.{World};
    ghost use Rattle.world_barrier.specs.View.{view_of};

    ghost Value = { World };

    ghost coded = { Prim.hlevel (codes, behind_coded) };

    ghost view = { λ w. view_of w.table };
}

impl World {
    /// A World of so many idle parties, numbered from 0, over a barrier that waits for `size` of them at a
    /// time, with the greatest limits: 1,073,741,823 starved parties, and as many generations as a number of
    /// 64 bits counts. A barrier for none lets each arrival lead. Refused for memory alone, and then nothing
    /// is kept; afterwards no step needs memory. The clause `opening` says what is made.
    pub fn new(alloc: Global, parties: u32, size: u64) -> Result<World, Refusal>
        ensures opening { IfOk result (λ w. w ≡ new_world parties size MOST_STARVED 18446744073709551615) }
        ensures refused { IfErr result (λ r. r ≡ Refusal.Memory) }
    {
        World::with_limits(alloc, parties, size, MOST_STARVED, u64::MAX)
    }

    /// A World as [`World::new`] makes it, in which at most so many parties may be starved for the inner lock
    /// at a time, and so many generations finished. A number of starved parties above that of [`World::new`]
    /// means that one.
    pub fn with_limits(
        alloc: Global,
        parties: u32,
        size: u64,
        starved: u32,
        generations: u64,
    ) -> Result<World, Refusal>
        ensures opening { IfOk result (λ w. w ≡ new_world parties size (min starved MOST_STARVED) generations) }
        ensures refused { IfErr result (λ r. r ≡ Refusal.Memory) }
    {
        let Ok(barrier) = Barrier::new(alloc, parties, size, starved.min(MOST_STARVED), generations)
        else {
            return Err(Refusal::Memory);
        };
        match Table::new(alloc, barrier, parties, 0) {
            Ok(table) => Ok(World { table }),
            Err(_) => Err(Refusal::Memory),
        }
    }

    /// One move: a party begins a call with its first action, or carries out the next action of the call
    /// that it is in.
    ///
    /// The answer is `Stepped` where the call goes on, and else the call's result. A move that the party
    /// can't make, a party past the table and a call of another World are answered `NotPossible` and change
    /// nothing. It takes no memory: `Refused(1)` comes where the move's input says so, `Refused(2)` where as
    /// many parties are starved as may be, and `Refused(5)` where the arrival would finish a generation past
    /// the limit. The contract's `legal` says all that a step may do, and `at_once` what the first step of a
    /// poll decides.
    ///
    /// The Rust crate's `wait` carries out a whole poll at once and never refuses; its counts may wrap. There
    /// an arrival is counted before it joins the list.
    pub fn step(&mut self, m: &Move) -> Answer
        ensures { Steps self.old m.now result self.new }
    {
        self.table.laws();
        self.table.machine().laws();
        let answer = self.table.step(m);
        self.table.laws();
        self.table.machine().laws();
        answer
    }

    /// Whether nobody is inside a call.
    pub fn at_rest(&self) -> bool
        ensures { result ≡ is_at_rest self.now }
    {
        self.table.at_rest()
    }

    /// Where a party stands in its program; None past the last. It is for tests that carry out the same program beside a
    /// World: no other clause but [`World::lock_place`]'s names a place.
    pub fn place(&self, party: u32) -> Option<Position>
        ensures { result ≡ slice_get self.now.behind.machine.positions party }
    {
        self.table.machine().position_of(party)
    }

    /// Where a party stands in the program of the inner lock; None past the last. It is for tests, as [`World::place`] is.
    pub fn lock_place(&self, party: u32) -> Option<LockPlace>
        ensures { result ≡ place_behind self.now.behind.machine.lock.behind party }
    {
        self.table.machine().lock().place_of(party)
    }

    /// What always holds of a World, between any two moves: each party has what its standing says, each
    /// arrival is of one wait at most, and while nobody holds the inner lock each listed wait of a finished
    /// generation has been notified. At rest nobody holds it, and no notification is lost. A call that
    /// is decided ends within three further steps of its own, whatever others do meanwhile. Nobody is counted as starved for the
    /// inner lock that hasn't waited for too long, and meets nobody starved where it steps. It does nothing.
    pub fn laws(&self)
        ensures sound { IsSound self.now }
        ensures awake { is_at_rest self.now ≡ true → IsAwake self.now }
        ensures ends_soon { EndsSoon self.now }
        ensures starves_for_cause { StarvesForCause self.now }
    {
        self.table.laws();
        self.table.machine().laws();
    }

    /// How often the inner lock, at rest, may be passed over while parties wait for it: among as many solo
    /// polls in turn as its list has entries one takes the lock. It does nothing.
    ///
    /// A solo poll is a [`AnyWorld::poll_whole`] of a pending party whose entry in the inner lock's list is
    /// marked and that finds memory. In none of them may as many parties be starved already as the limit
    /// allows. The clause `bounded` also says that some entry is marked.
    pub fn solo_polls(&self)
        ensures bounded { is_at_rest self.now ≡ true → IsWanted self.now → IsBounded self.now }
    {
        self.laws();
    }

    /// How often a party that is starved for the inner lock and waits in its list may be overtaken, however the calls of others
    /// interleave: at most as often as entries stand before its own and parties are inside calls. It does nothing.
    pub fn overtakings(&self)
        ensures { IsOvertakenSeldomInSteps self.now }
    {
        self.laws();
    }

    /// How many waits are ready as a leader's along a run: as many as generations are finished in it. It does
    /// nothing.
    pub fn leaders(&self)
        ensures as_many { (known : ℕ → Account) (w : WorldOf) (ms : List MoveOf) (answers : List AnswerOf) (v : WorldOf) (run : Runs known w ms answers v) → generations_of v.size v.arrivals ≡ generations_of w.size w.arrivals + leaders known w ms answers v run }
    {}

    /// For how many parties the barrier waits.
    pub fn size(&self) -> u64
        ensures { result ≡ self.now.size }
    {
        self.table.machine().size()
    }

    /// How many arrivals are counted towards the next generation.
    pub fn count(&self) -> u64
        ensures { result ≡ count_of self.now.size self.now.arrivals }
    {
        self.table.machine().laws();
        self.table.machine().progress().count
    }

    /// How many generations are finished.
    pub fn generation(&self) -> u64
        ensures { result ≡ generations_of self.now.size self.now.arrivals }
    {
        self.table.machine().laws();
        self.table.machine().progress().generation
    }

    /// How many arrivals are counted since the barrier was made.
    pub fn arrivals(&self) -> u128
        ensures { result ≡ self.now.arrivals }
    {
        let barrier = self.table.machine();
        barrier.progress().number(barrier.size())
    }

    /// The number of the arrival of this party's wait, if it has one that is counted.
    pub fn arrival(&self, party: u32) -> Option<u128>
        ensures { result ≡ number_of (wait_of self.now party) }
    {
        let barrier = self.table.machine();
        if barrier.is_counted(party) {
            Some(barrier.arrival(party).number(barrier.size()))
        } else {
            None
        }
    }

    /// Whether the inner lock is held, as its word says.
    pub fn is_locked(&self) -> bool
        ensures { result ≡ is_some self.now.lock.holder }
    {
        self.table.machine().lock().laws();
        self.table.machine().lock().is_held()
    }

    /// How many parties are starved for the inner lock, as its word says.
    pub fn starved(&self) -> u32
        ensures { result ≡ how_many self.now.lock.starved }
    {
        self.table.machine().lock().starved()
    }

    /// How many entries a list has.
    pub fn waiting(&self, list: ListName) -> usize
        ensures { result ≡ length (list_in list self.now) }
    {
        match list {
            ListName::Lock => self.table.machine().lock().waiting(),
            ListName::Generation => self.table.machine().waiting(),
        }
    }

    /// The entry at this place of a list, counted from the front: its key is the party, and its mark says
    /// what the party has been told. None past the last.
    pub fn entry(&self, list: ListName, index: usize) -> Option<Entry<u32>>
        ensures { result ≡ slice_get (list_in list self.now) index }
    {
        match list {
            ListName::Lock => self.table.machine().lock().entry(index),
            ListName::Generation => self.table.machine().entry(index),
        }
    }
}

impl AnyWorld for World {
    ghost use Rattle.world_barrier.specs.Steps as steps;
    ghost use Rattle.world_barrier.specs.State as state;
    ghost use Rattle.world_barrier.specs.Laws as laws;
    ghost use Rattle.world_barrier.specs.Runs.{HoldsWell, TellsNoRights, known_of};
    ghost use Rattle.world_base.specs.Accounts.{Account, accounts_after};
    ghost use Rattle.world_barrier.specs.Whole.{most_steps_of, steps_left_of};
    ghost use Rattle.world_barrier.specs.Bound.{Promises};
    ghost use Rattle.world_barrier.specs.Openings.{opening_kept};

    ghost legal = { steps.Steps };

    ghost opening = { state.opening_of };

    ghost standing_of = { state.standing_of };

    ghost is_at_rest = { laws.is_at_rest };

    ghost Known = { ℕ → Account };

    ghost known_of = { known_of };

    ghost learn = { accounts_after };

    ghost tells = { TellsNoRights };

    ghost is_well = { HoldsWell };

    ghost most_steps = { most_steps_of };

    ghost steps_left = { steps_left_of };

    ghost promises = { Promises };

    ghost keeps_opening = { λ w m a v s. opening_kept w m a v s.legal };

    fn step(&mut self, m: &Move) -> Answer {
        World::step(self, m)
    }

    fn step_laws(&self) {}

    fn at_rest(&self) -> bool {
        World::at_rest(self)
    }
}
