//! What every World has, so that a book, a program or a pool is written once over any of them.

ghost use Rattle.std.specs.Prelude.{◌≡◌, ◌≢◌, ◌+◌, ◌<◌, ◌≤◌, ℕ, true, List, Bool, length, vec_len, vec_capacity, IsOk, IfOk, OnOk, OnErr};
ghost use Rattle.world_base.specs.Runs.{Runs};
ghost use Rattle.world_base.specs.Standings.{Standing, is_outside, is_possible};
ghost use Rattle.world_base.specs.Whole.{IsWholeCall, going_on, moves_of, answers_of};
ghost use Rattle.world_base.specs.any_world.Steps.{StepsWell, left_by, beginning, KeepsPromises, RunsInto};

use crate::{Answer, Call, Inputs, Move, What};
use lock_event::Memory;
use std::alloc::Global;

/// A World: a table of parties that move one step at a time, on whichever lock. Its `step` is its own;
/// runs and whole calls are everybody's, and follow from its laws.
pub trait AnyWorld {
    ghost use Rattle.world_base.specs.declared.moves.Answer.{Answer};
    ghost use Rattle.world_base.specs.declared.moves.Answer.TheVariants.{Stepped};
    ghost use Rattle.world_base.specs.declared.moves.Call.{Call};
    ghost use Rattle.world_base.specs.declared.moves.Inputs.{Inputs};
    ghost use Rattle.world_base.specs.declared.moves.Move.{Move};

    /// What a move may do: from the old World it may be answered so, and lead to the new World.
    ghost legal: { Self → Move → Answer → Self → Type 0 };

    /// The World as its constructor left it, by the numbers that it keeps.
    ghost opening: { Self → Self };

    /// How a party stands.
    ghost standing_of: { Self → ℕ → Standing };

    /// Nobody is inside a call.
    ghost is_at_rest: { Self → Bool };

    /// What is known of the parties' rights by the moves and answers alone.
    ghost Known: { Type 0 };

    /// What is known where a run begins.
    ghost known_of: { Self → Known };

    /// What is known after one more move and its answer.
    ghost learn: { Known → Move → Answer → Known };

    /// What is known tells the World's rights.
    ghost tells: { Known → Self → Type 0 };

    /// What holds after each step of a run.
    ghost is_well: { Known → Self → Type 0 };

    /// The greatest number of steps that a call takes if its party moves alone.
    ghost most_steps: { Call → ℕ };

    /// How many steps are left at most of the call that a party is in, if it moves alone.
    ghost steps_left: { Self → ℕ → ℕ };

    /// What a whole call promises beside its end: from the old World, of this party with these inputs,
    /// answered so, it leads to the new World.
    ghost promises: { Self → ℕ → Call → Inputs → Answer → Self → Type 0 };

    /// One move: a party begins a call with its first action, or carries out the next one.
    fn step(&mut self, m: &Move) -> Answer
        ensures { legal self.old m.now result self.new };

    /// What follows from a legal step, whoever makes it. It does nothing.
    ///
    /// The clauses, in turn: where a run begins, what is known tells the rights; a step keeps that so, and
    /// leaves all well; a call's first step leaves less than its greatest number of steps, and each further
    /// one less than before; the step that ends a call leaves its party outside; and a call that is carried
    /// out alone, to its end, keeps its promise.
    fn step_laws(&self)
        ensures told_at_first { (w : Self) → tells (known_of w) w }
        ensures goes_well { (known : Known) (w : Self) (m : Move) (a : Answer) (v : Self) → tells known w → legal w m a v → StepsWell tells is_well (learn known m a) v }
        ensures begins { (w : Self) (p : ℕ) (c : Call) (i : Inputs) (a : Answer) (v : Self) → legal w (beginning p c i) a v → 1 + left_by a (steps_left v p) ≤ most_steps c }
        ensures falls { (w : Self) (p : ℕ) (i : Inputs) (a : Answer) (v : Self) → legal w (going_on p i) a v → left_by a (steps_left v p) < steps_left w p }
        ensures ends_outside { (w : Self) (m : Move) (a : Answer) (v : Self) → legal w m a v → a ≢ Stepped → is_possible a ≡ true → is_outside (standing_of v m.party) ≡ true }
        ensures keeps_promise { (known : Known) (w : Self) (p : ℕ) (c : Call) (i : Inputs) (n : ℕ) (a : Answer) (v : Self) → Runs legal learn is_well known w (moves_of p c i n) (answers_of n a) v → a ≢ Stepped → promises w p c i a v };

    /// Whether nobody is inside a call.
    fn at_rest(&self) -> bool
        ensures { result ≡ is_at_rest self.now };

    /// A step keeps the numbers that the World was made with.
    ghost keeps_opening: { (w : Self) (m : Move) (a : Answer) (v : Self) → legal w m a v → opening v ≡ opening w };

    /// Steps through a list of moves, and puts the answer to each at the end of `answers`. Wherever a party's
    /// whole call stands in the run, it keeps its promise (`runs`).
    ///
    /// [`Memory`] comes only where `answers` has no room for them all (`succeeds`) and memory for it was
    /// refused. Then nothing is stepped and nothing answered (`refused`).
    final fn run_into(&mut self, moves: &[Move], answers: &mut Vec<Answer>) -> Result<(), Memory>
        ensures runs { OnOk result (RunsInto legal learn is_well promises (known_of self.old) self.old moves.now answers.old.items answers.new.items self.new) }
        ensures succeeds { vec_len answers.old + length moves.now ≤ vec_capacity answers.old → IsOk result }
        ensures refused { OnErr result ((self.new ≡ self.old) × (answers.new.items ≡ answers.old.items)) }
    {
        if answers.reserve(moves.len()).is_err() {
            return Err(Memory);
        }
        self.step_laws();
        for m in moves {
            let answer = self.step(m);
            answers.push_reserved(answer);
        }
        Ok(())
    }

    /// Steps through a list of moves, and answers each. Refused, for memory for the answers alone, the
    /// World is unchanged. Wherever a party's whole call stands in the run, it keeps its promise. Whoever
    /// has room for the answers isn't refused: [`AnyWorld::run_into`].
    final fn run(&mut self, alloc: Global, moves: &[Move]) -> Result<Vec<Answer>, Memory>
        ensures runs { IfOk result (λ answers. Runs legal learn is_well (known_of self.old) self.old moves.now answers.items self.new) }
        ensures promised { IfOk result (λ answers. KeepsPromises legal learn is_well promises (known_of self.old) self.old moves.now answers.items self.new) }
        ensures refused { OnErr result (self.new ≡ self.old) }
    {
        let mut answers = Vec::new(alloc);
        self.run_into(moves, &mut answers)?;
        Ok(answers)
    }

    /// Begins a call of a party and goes on with it, with the same inputs, to its end.
    final fn poll_whole(&mut self, party: u32, call: Call, inputs: Inputs) -> Answer
        ensures whole { IsWholeCall (λ w. Runs legal learn is_well (known_of w) w) standing_of most_steps self.old party call inputs result self.new }
        ensures promised { promises self.old party call inputs result self.new }
    {
        self.step_laws();
        let mut answer = self.step(&Move {
            party,
            what: What::Begin(call, inputs),
        });
        while answer.is_stepped() {
            answer = self.step(&Move {
                party,
                what: What::Go(inputs),
            });
        }
        answer
    }
}
