//! The read-write lock's World: a read-write lock with upgradable reads over a number, in which each
//! party has its standing. It stands on the machine `machine::RwLock`.
//!
//! The Rust crate's `RwLock` lends a value of any type and runs in threads. Here the value is a number,
//! a guard is a party that has a right, and one step is one call, so that contracts can speak of every
//! interleaving: specs/State says what is seen, specs/Legal what a step may do.

ghost use Rattle.std.specs.Prelude.{◌≡◌, ◌<◌, ℕ, true, false, not, IfOk, IfErr, OnErr, length, min, slice_get};
ghost use Rattle.world_rwlock.specs.State.{new_world, how_many_read, is_nobody, is_marked, nobody};
ghost use Rattle.world_base.specs.Rosters.{how_many};
ghost use Rattle.world_mutex.specs.machine.Behind.{place_behind};
ghost use Rattle.world_rwlock.specs.Steps.{Steps};
ghost use Rattle.world_rwlock.specs.Laws.{IsSound, IsAwake, IsTurnWanted, IsReadingWanted, IsWritingWanted, is_at_rest};
ghost use Rattle.world_rwlock.specs.Whole.{EndsSoon};
ghost use Rattle.world_rwlock.specs.Waking.{StarvesForCause};
ghost use Rattle.world_rwlock.specs.Bound.{IsTurnBounded, IsReadingBounded, IsWritingBounded, LetsReadersIn};
ghost use Rattle.world_rwlock.specs.Overtaking.{IsOvertakenSeldom, IsOvertakenSeldomInSteps};

use crate::guarded::Guarded;
use lock_event::Entry;
use lock_program::Refusal;
use lock_program::mutex::Place as TurnPlace;
use std::alloc::Global;
use std::marker::Model;
use sync_program::rwlock::Place;
use world_base::table::Table;
use world_base::{Answer, AnyWorld, Move};

/// The greatest number of parties that may be starved for the turn. The Rust crate aborts where this
/// project refuses.
pub const MOST_STARVED_FOR_THE_TURN: u32 = 1_073_741_823;

/// The greatest number of readers. The Rust crate aborts where this project refuses.
pub const MOST_READERS: u32 = 1_073_741_823;

/// A read-write lock over a number, its parties, and their calls.
pub struct World {
    table: Table<Guarded>,
}

// By hand, so that a drop is one call to prove, and not all of its parts again.
impl Drop for World {
    fn drop(self) {
        let World { table: _ } = self;
    }
}

impl Model for World {
    ghost use Rattle.std.specs.Coded.{codes};
    ghost use Rattle.world_mutex.specs.machine.Behind.{behind_coded};
    ghost use Rattle.world_rwlock.specs.State.{World};
    ghost use Rattle.world_rwlock.specs.View.{view_of};

    ghost Value = { World };

    ghost coded = { Prim.hlevel (codes, behind_coded) };

    ghost view = { λ w. view_of w.table };
}

ghost use Rattle.std.specs.Borrow.{sem};
ghost use Rattle.world_rwlock.specs.Lending.{LendsValue};

impl World {
    /// A World of so many idle parties, numbered from 0, over a free lock with this value. As many
    /// parties may be starved for the turn as [`MOST_STARVED_FOR_THE_TURN`] says, and as many may read
    /// as [`MOST_READERS`] says. Refused for memory alone, and then nothing is kept; afterwards no step
    /// needs memory. The clause `opening` says what is made.
    pub fn new(alloc: Global, parties: u32, value: u64) -> Result<World, Refusal>
        ensures opening { IfOk result (λ w. w ≡ new_world parties MOST_STARVED_FOR_THE_TURN MOST_READERS value) }
        ensures refused { IfErr result (λ r. r ≡ Refusal.Memory) }
    {
        World::with_limits(
            alloc,
            parties,
            value,
            MOST_STARVED_FOR_THE_TURN,
            MOST_READERS,
        )
    }

    /// A World as [`World::new`] makes it, in which at most so many parties may be starved for the turn
    /// at a time, and at most so many may read. Greater numbers than [`MOST_STARVED_FOR_THE_TURN`] and
    /// [`MOST_READERS`] mean these.
    pub fn with_limits(
        alloc: Global,
        parties: u32,
        value: u64,
        starved: u32,
        readers: u32,
    ) -> Result<World, Refusal>
        ensures opening { IfOk result (λ w. w ≡ new_world parties (min starved MOST_STARVED_FOR_THE_TURN) (min readers MOST_READERS) value) }
        ensures refused { IfErr result (λ r. r ≡ Refusal.Memory) }
    {
        let starved = starved.min(MOST_STARVED_FOR_THE_TURN);
        let readers = readers.min(MOST_READERS);
        let Ok(guarded) = Guarded::new(alloc, parties, value, starved, readers) else {
            return Err(Refusal::Memory);
        };
        match Table::new(alloc, guarded, parties, value) {
            Ok(table) => Ok(World { table }),
            Err(_) => Err(Refusal::Memory),
        }
    }

    /// One move: a party begins a call with its first action, or carries out the next action of the call
    /// that it is in.
    ///
    /// The answer is `Stepped` where the call goes on, and else the call's result. A move that the party
    /// can't make, a party past the table and a call of another World are answered `NotPossible` and
    /// change nothing. It takes no memory: `Refused(1)` comes where the move's input says so. The contract's
    /// `legal` says all that a step may do, and `at_once` what a try and a first poll answer.
    ///
    /// The Rust crate carries out a whole poll in one call, and never refuses.
    pub fn step(&mut self, m: &Move) -> Answer
        ensures { Steps self.old m.now result self.new }
    {
        self.table.laws();
        self.table.machine().laws();
        let answer = self.table.step(m);
        self.table.laws();
        self.table.machine().laws();
        answer
    }

    /// Whether nobody is inside a call.
    pub fn at_rest(&self) -> bool
        ensures { result ≡ is_at_rest self.now }
    {
        self.table.at_rest()
    }

    /// Where a party stands in its program; None past the last. It is for tests that carry out the same program beside a
    /// World: no other clause but [`World::turn_place`]'s names a place.
    pub fn place(&self, party: u32) -> Option<Place>
        ensures { result ≡ slice_get self.now.behind.machine.lock.places party }
    {
        self.table.machine().lock().place_of(party)
    }

    /// Where a party stands in the program of the turn, which is a mutex's; None past the last. It is for tests, as
    /// [`World::place`] is.
    pub fn turn_place(&self, party: u32) -> Option<TurnPlace>
        ensures { result ≡ place_behind self.now.behind.machine.lock.turn.behind party }
    {
        self.table.machine().lock().turn().place_of(party)
    }

    /// What always holds of a World, between any two moves: rights that exclude each other don't coexist,
    /// each party has what its standing says, and at rest no notification is lost; and a call that is decided
    /// ends within four further steps of its own, whatever others do meanwhile. Nobody is counted as starved for the turn that
    /// hasn't waited for too long, and meets nobody starved where it steps. It does nothing.
    pub fn laws(&self)
        ensures sound { IsSound self.now }
        ensures awake { is_at_rest self.now ≡ true → IsAwake self.now }
        ensures ends_soon { EndsSoon self.now }
        ensures starves_for_cause { StarvesForCause self.now }
    {
        self.table.laws();
        self.table.machine().laws();
    }

    /// How often what is free, at rest, may be passed over while parties wait for it, list by list. It does
    /// nothing.
    ///
    /// A solo poll is a [`AnyWorld::poll_whole`] of a pending party that finds memory; its entry is marked, or
    /// it waits until no reader is left. The clause `turn` says that among as many solo polls in turn as the
    /// turn's list has entries one takes the turn: in none of them may as many parties be starved already,
    /// or read, as the limits allow. `reading` says that no solo poll passes reading over where nobody waits
    /// to write or writes, below the readers' limit, and `writing` that none passes writing over where no
    /// reader is left. Each also says that some entry of its list is marked, so that there is a party to
    /// poll, unless it was forgotten.
    ///
    /// Where nobody writes or waits to write, as after the drop of a writer's guard, polls of notified readers in turn let all waiting
    /// readers in, one poll each, up to the readers' limit (`readers_in`).
    pub fn solo_polls(&self)
        ensures turn { is_at_rest self.now ≡ true → IsTurnWanted self.now → IsTurnBounded self.now }
        ensures reading { is_at_rest self.now ≡ true → IsReadingWanted self.now → IsReadingBounded self.now }
        ensures writing { is_at_rest self.now ≡ true → IsWritingWanted self.now → IsWritingBounded self.now }
        ensures readers_in { is_at_rest self.now ≡ true → LetsReadersIn self.now }
    {
        self.laws();
    }

    /// How often a party that is starved for the turn, and waits in its list, may be overtaken: by whole calls of others, however
    /// many and however long, at most as often as entries stand before its own. It does nothing.
    pub fn overtakings(&self)
        ensures seldom { IsOvertakenSeldom self.now }
        ensures in_steps { IsOvertakenSeldomInSteps self.now }
    {
        self.laws();
    }

    /// Whether a party has the turn, as its word says. The Rust crate shows it in its debug text alone.
    pub fn is_turn_held(&self) -> bool
        ensures { not result ≡ is_nobody self.now.state.turn }
    {
        self.table.machine().lock().turn().is_held()
    }

    /// How many parties are starved for the turn, as its word says.
    pub fn starved(&self) -> u32
        ensures { result ≡ how_many self.now.state.starved }
    {
        self.table.machine().lock().turn().starved()
    }

    /// Whether a party waits to write or writes, as the lock's word says.
    pub fn is_writer_marked(&self) -> bool
        ensures { result ≡ is_marked self.now.state.turn }
    {
        self.table.laws();
        self.table.machine().laws();
        self.table.machine().lock().is_writer_marked()
    }

    /// How many parties read, as the lock's word says.
    pub fn readers(&self) -> u32
        ensures { result ≡ how_many_read self.now }
    {
        self.table.machine().lock().readers()
    }

    /// How many entries the list has of those that wait for the turn.
    pub fn turn_waiting(&self) -> usize
        ensures { result ≡ length self.now.turn_list }
    {
        self.table.machine().lock().turn().waiting()
    }

    /// The entry at this place of that list, counted from the front: its key is the party, and its mark
    /// says what the party has been told. None past the last.
    pub fn turn_entry(&self, index: usize) -> Option<Entry<u32>>
        ensures { result ≡ slice_get self.now.turn_list index }
    {
        self.table.machine().lock().turn().entry(index)
    }

    /// How many entries the list has of those that wait until no reader is left.
    pub fn no_readers_waiting(&self) -> usize
        ensures { result ≡ length self.now.no_readers }
    {
        self.table.machine().lock().no_readers_len()
    }

    /// The entry at this place of that list, as [`World::turn_entry`] gives one.
    pub fn no_readers_entry(&self, index: usize) -> Option<Entry<u32>>
        ensures { result ≡ slice_get self.now.no_readers index }
    {
        self.table.machine().lock().no_readers_entry(index)
    }

    /// How many entries the list has of those that wait until no writer is left.
    pub fn no_writer_waiting(&self) -> usize
        ensures { result ≡ length self.now.no_writer }
    {
        self.table.machine().lock().no_writer_len()
    }

    /// The entry at this place of that list, as [`World::turn_entry`] gives one.
    pub fn no_writer_entry(&self, index: usize) -> Option<Entry<u32>>
        ensures { result ≡ slice_get self.now.no_writer index }
    {
        self.table.machine().lock().no_writer_entry(index)
    }

    /// The value that the last put left, or that the World was made with.
    pub fn value(&self) -> u64
        ensures { result ≡ self.now.state.value }
    {
        self.table.machine().value()
    }

    /// Lends the value, of a World at rest. Whoever was pending or had a guard is forgotten: from then on
    /// its moves are not possible, and its entry stays in its list. A later writer or reader finds what
    /// was left behind the reference.
    ///
    /// The Rust crate's `get_mut` asks for the only reference to the lock, so that no guard or future can
    /// be left.
    pub fn get_mut(&mut self) -> &mut u64
        requires { is_at_rest self.old ≡ true }
        ensures* lends { sem 𝓛 (LendsValue self.entry result) }
        ensures value { result.now ≡ self.old.state.value }
    {
        self.table.value_mut()
    }

    /// The value, and the World is gone. Whoever had a guard or waited for one is forgotten.
    pub fn into_inner(self) -> u64
        ensures { result ≡ self.state.value }
    {
        World::value(&self)
    }
}

impl AnyWorld for World {
    ghost use Rattle.world_base.specs.Accounts.{Account, accounts_after};
    ghost use Rattle.world_rwlock.specs.Steps as steps;
    ghost use Rattle.world_rwlock.specs.State as state;
    ghost use Rattle.world_rwlock.specs.Laws as laws;
    ghost use Rattle.world_rwlock.specs.Runs.{HoldsWell, TellsRights, accounts_of};
    ghost use Rattle.world_rwlock.specs.Whole.{most_steps_of, steps_left_of};
    ghost use Rattle.world_rwlock.specs.Bound.{Promises};
    ghost use Rattle.world_rwlock.specs.Openings.{opening_kept};

    ghost legal = { steps.Steps };

    ghost opening = { state.opening_of };

    ghost standing_of = { state.standing_of };

    ghost is_at_rest = { laws.is_at_rest };

    ghost Known = { ℕ → Account };

    ghost known_of = { accounts_of };

    ghost learn = { accounts_after };

    ghost tells = { TellsRights };

    ghost is_well = { HoldsWell };

    ghost most_steps = { most_steps_of };

    ghost steps_left = { steps_left_of };

    ghost promises = { Promises };

    ghost keeps_opening = { λ w m a v s. opening_kept w m a v s.legal };

    fn step(&mut self, m: &Move) -> Answer {
        World::step(self, m)
    }

    fn step_laws(&self) {}

    fn at_rest(&self) -> bool {
        World::at_rest(self)
    }
}
