//! The once-cell's World: what is in the cell, and the parties that would make its value, and those that
//! only wait for it. It is a table over the machine `machine::OnceCell`.
//!
//! The Rust crate's `OnceCell` runs in threads. Here a future is a party, and one step is one call, so that
//! contracts can speak of every interleaving: specs/State says what is seen, specs/Legal what a step may do,
//! specs/AtOnce what it decides at once.

ghost use Rattle.std.specs.Prelude.{◌≡◌, ◌<◌, ◌≤◌, ℕ, Bool, true, None, List, IfOk, IfErr, length, slice_get};
ghost use Rattle.world_base.specs.declared.moves.Answer.{Answer as AnswerOf};
ghost use Rattle.world_base.specs.declared.moves.Move.{Move as MoveOf};
ghost use Rattle.lock_program.specs.declared.refusal.Refusal.TheVariants as refusals;
ghost use Rattle.world_once_cell.specs.State.{new_world, list_in, is_full, World as WorldOf};
ghost use Rattle.world_once_cell.specs.program.Words.{value_in};
ghost use Rattle.world_once_cell.specs.Steps.{Steps};
ghost use Rattle.world_once_cell.specs.Laws.{IsSound, IsAwake, IsFreeAndWanted, is_at_rest};
ghost use Rattle.world_once_cell.specs.Whole.{EndsSoon};
ghost use Rattle.world_once_cell.specs.Runs.{Known, Runs, entered};
ghost use Rattle.world_once_cell.specs.Bound.{IsBounded};
ghost use Rattle.world_once_cell.specs.Lending.{LendsValue, world_with};
ghost use Rattle.std.specs.Borrow.{sem};
ghost use Rattle.std.specs.Option.{option_copied_mut};

use crate::machine::OnceCell;
use crate::program::Content;
use crate::program::words::take_from;
use lock_event::Entry;
use lock_program::Refusal;
use std::alloc::Global;
use std::marker::Model;
use sync_program::once_cell::{ListName, Position};
use world_base::table::Table;
use world_base::{Answer, AnyWorld, Move};

/// A once-cell, its parties, and their calls.
pub struct World {
    table: Table<OnceCell>,
}

// By hand, so that a drop is one call to prove, and not all of its parts again.
impl Drop for World {
    fn drop(self) {
        let World { table: _ } = self;
    }
}

impl Model for World {
    ghost use Rattle.world_once_cell.specs.State.{World, HasOneTeller};
    ghost use Rattle.world_once_cell.specs.View.{view_of};

    ghost Value = { World };

    ghost view = { λ w. view_of w.table };

    ghost invariant = { λ w. HasOneTeller (view_of w.table) };
}

impl World {
    /// A World of so many idle parties, numbered from 0, over an empty cell. Refused for memory alone, and
    /// then nothing is kept; afterwards no step needs memory. The clause `opening` says what is made.
    pub fn new(alloc: Global, parties: u32) -> Result<World, Refusal>
        ensures opening { IfOk result (λ w. w ≡ new_world parties) }
        ensures refused { IfErr result (λ r. r ≡ Refusal.Memory) }
    {
        let Ok(cell) = OnceCell::new(alloc, parties) else {
            return Err(Refusal::Memory);
        };
        match Table::new(alloc, cell, parties, 0) {
            Ok(table) => Ok(World { table }),
            Err(_) => Err(Refusal::Memory),
        }
    }

    /// One move: a party begins a call with its first action, or carries out the next action of the call
    /// that it is in.
    ///
    /// The answer is `Stepped` where the call goes on, and else the call's result. A move that the party
    /// can't make, a party past the table and a call of another World are answered `NotPossible` and
    /// change nothing. It takes no memory: `Refused(1)` comes where the move's input says so. The contract's
    /// `legal` says all that a step may do, and `at_once` what the first step of a call decides.
    ///
    /// The Rust crate's calls carry out a whole poll at once and never refuse; its `wait` looks no further
    /// once it was notified, and here it looks again.
    pub fn step(&mut self, m: &Move) -> Answer
        ensures { Steps self.old m.now result self.new }
    {
        self.table.laws();
        self.table.machine().laws();
        let answer = self.table.step(m);
        self.table.laws();
        self.table.machine().laws();
        answer
    }

    /// Whether nobody is inside a call.
    pub fn at_rest(&self) -> bool
        ensures { result ≡ is_at_rest self.now }
    {
        self.table.at_rest()
    }

    /// Where a party stands in its program; None past the last. It is for tests that carry out the same program beside a
    /// World: no other clause names a place.
    pub fn place(&self, party: u32) -> Option<Position<u64>>
        ensures { result ≡ slice_get self.now.behind.machine.positions party }
    {
        self.table.machine().place_of(party)
    }

    /// What always holds of a World, between any two moves: each party has what its standing says, one party
    /// at most makes the value, and at rest no notification is lost; and a call that is decided ends within three
    /// further steps of its own, whatever others do meanwhile. It does nothing.
    pub fn laws(&self)
        ensures sound { IsSound self.now }
        ensures awake { is_at_rest self.now ≡ true → IsAwake self.now }
        ensures ends_soon { EndsSoon self.now }
    {
        self.table.laws();
        self.table.machine().laws();
    }

    /// How often an empty cell, at rest, may be passed over while parties wait to make its value: the first
    /// solo poll takes the making. It does nothing.
    ///
    /// A solo poll is a [`AnyWorld::poll_whole`] of a pending party whose entry in `active` is marked and
    /// that finds memory. The clause `bounded` also says that some entry is marked.
    pub fn solo_polls(&self)
        ensures bounded { is_at_rest self.now ≡ true → IsFreeAndWanted self.now → IsBounded self.now }
    {
        self.laws();
    }

    /// How many values enter along a run: one at most, and none where the cell is full already. It does
    /// nothing. A run has no [`World::take`], after which another value may enter.
    pub fn values(&self)
        ensures one_at_most { (k : Known) (w : WorldOf) (ms : List MoveOf) (answers : List AnswerOf) (v : WorldOf) (run : Runs k w ms answers v) → entered k w ms answers v run ≤ 1 }
        ensures none_more { (k : Known) (w : WorldOf) (ms : List MoveOf) (answers : List AnswerOf) (v : WorldOf) (run : Runs k w ms answers v) → is_full w.cell ≡ true → entered k w ms answers v run ≡ 0 }
    {}

    /// What is in the cell: nothing, nothing yet, or its value.
    pub fn content(&self) -> Content
        ensures { result ≡ self.now.cell }
    {
        self.table.machine().content()
    }

    /// The cell's value, if it is full.
    pub fn value(&self) -> Option<u64>
        ensures { result ≡ value_in self.now.cell }
    {
        match self.content() {
            Content::Full(value) => Some(value),
            _ => None,
        }
    }

    /// Whether the cell is full.
    pub fn is_initialized(&self) -> bool
        ensures { result ≡ is_full self.now.cell }
    {
        matches!(self.content(), Content::Full(_))
    }

    /// How many entries a list has: `active` is of those that would make the value, `passive` of those that
    /// only wait.
    pub fn waiting(&self, list: ListName) -> usize
        ensures { result ≡ length (list_in list self.now) }
    {
        self.table.machine().waiting(list)
    }

    /// The entry at this place of a list, counted from the front: its key is the party, and its mark says
    /// what the party has been told. None past the last.
    pub fn entry(&self, list: ListName, index: usize) -> Option<Entry<u32>>
        ensures { result ≡ slice_get (list_in list self.now) index }
    {
        self.table.machine().entry(list, index)
    }

    /// Lends the cell's value, of a World at rest; None where the cell isn't full. Whoever was pending, the
    /// maker too, is forgotten: from then on its moves are not possible, and its entry stays in its list.
    ///
    /// The Rust crate's `get_mut` asks for the only reference to the cell, so that no future can be left.
    pub fn get_mut(&mut self) -> Option<&mut u64>
        requires { is_at_rest self.old ≡ true }
        ensures* lends { sem 𝓛 (LendsValue self.entry result) }
        ensures value { option_copied_mut result ≡ value_in self.old.cell }
    {
        let value = self.table.value_mut();
        value.as_mut()
    }

    /// Takes the cell's value out, of a World at rest: then the cell is empty, and another value may enter.
    /// None, and the cell stays as it is, where it isn't full. Whoever was pending is forgotten, as by
    /// [`World::get_mut`].
    pub fn take(&mut self) -> Option<u64>
        requires { is_at_rest self.old ≡ true }
        ensures value { result ≡ value_in self.old.cell }
        ensures taken { self.new ≡ world_with self.old None }
    {
        take_from(self.table.value_mut())
    }

    /// The cell's value, if it is full, and the World is gone.
    pub fn into_inner(self) -> Option<u64>
        ensures { result ≡ value_in self.cell }
    {
        self.value()
    }
}

impl AnyWorld for World {
    ghost use Rattle.world_once_cell.specs.Steps as steps;
    ghost use Rattle.world_once_cell.specs.State as state;
    ghost use Rattle.world_once_cell.specs.Laws as laws;
    ghost use Rattle.world_once_cell.specs.Runs as runs;
    ghost use Rattle.world_once_cell.specs.Whole.{most_steps_of, steps_left_of};
    ghost use Rattle.world_once_cell.specs.Bound.{Promises};
    ghost use Rattle.world_once_cell.specs.Openings.{opening_kept};

    ghost legal = { steps.Steps };

    ghost opening = { state.opening_of };

    ghost standing_of = { state.standing_of };

    ghost is_at_rest = { laws.is_at_rest };

    ghost Known = { runs.Known };

    ghost known_of = { runs.known_of };

    ghost learn = { runs.learn };

    ghost tells = { runs.Tells };

    ghost is_well = { runs.HoldsWell };

    ghost most_steps = { most_steps_of };

    ghost steps_left = { steps_left_of };

    ghost promises = { Promises };

    ghost keeps_opening = { λ w m a v s. opening_kept w m a v s.legal };

    fn step(&mut self, m: &Move) -> Answer {
        World::step(self, m)
    }

    fn step_laws(&self) {}

    fn at_rest(&self) -> bool {
        World::at_rest(self)
    }
}
