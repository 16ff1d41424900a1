//! What carries out the programs of a primitive's calls.

ghost use Rattle.std.specs.Prelude.{◌≡◌, ◌<◌, ℕ, Bool, true, Some};
ghost use Rattle.world_base.specs.declared.moves.Answer.{Answer as AnswerOf};
ghost use Rattle.world_base.specs.declared.moves.Call.{Call as CallOf};
ghost use Rattle.world_base.specs.declared.moves.What.{What as WhatOf};
ghost use Rattle.world_base.specs.declared.standing.Rest.{Rest as RestOf};
ghost use Rattle.world_base.specs.declared.standing.Stage.{Stage as StageOf};
ghost use Rattle.world_base.specs.declared.standing.Within.{Within as WithinOf};
ghost use Rattle.world_base.specs.table.Stages.{stage_after};
ghost use Rattle.world_base.specs.table.Tables.{Keeps, Called};
ghost use Rattle.world_base.specs.Standings.{forgets, is_outside_stage};
ghost use Rattle.std.specs.Borrow.{Lends, sem};

use crate::standing::{Rest, Within};
use crate::{Answer, Call, What};

/// The machine of a primitive: its words, its lists, and where each party stands in its program. A
/// [`Table`](crate::table::Table) keeps the stages of its parties, and asks it for one action at a time.
pub trait Machine: Drop {
    /// How many parties it has.
    ghost parties: { Self → ℕ };

    /// Which calls it knows of a party. Each machine knows a later poll.
    ghost knows: { Self → ℕ → CallOf → Bool };

    /// How a party stands whose future has been ready.
    ghost ready: { RestOf };

    /// A party at this stage may stand where it does.
    ghost stands: { Self → ℕ → StageOf → Type 0 };

    /// One action of a party within this call, by this move, answered so.
    ghost acts: { Self → ℕ → WithinOf → WhatOf → AnswerOf → Self → Type 0 };

    /// Whether it knows this call of this party.
    fn knows(&self, party: u32, call: Call) -> bool
        requires { party < parties self.now }
        ensures { result ≡ knows self.now party call };

    /// How a party stands whose future has been ready.
    fn ready(&self) -> Rest
        ensures { result ≡ ready };

    /// One action of a party, within a call that it may begin or go on with. All others stand as before.
    fn act(&mut self, party: u32, within: Within, what: What) -> Answer
        requires known { party < parties self.old }
        requires called { Called knows stands self.old party within what }
        ensures acts { acts self.old party within what result self.new }
        ensures keeps { Keeps parties stands self.old party (stage_after ready within result) self.new };
}

/// A machine over a value, which may be lent while nobody is inside a call.
///
/// The value is of any type: a number, or an `Option` of one where there may be none, which is then taken by
/// writing `None`.
pub trait Valued: Machine {
    /// What the value is.
    type Value: Drop;

    /// The value.
    ghost value_of: { Self → Self.Value };

    /// The machine with another value.
    ghost with_value: { Self → Self.Value → Self };

    /// Lends the value.
    fn value_mut(&mut self) -> &mut Self::Value
        ensures* lends { sem 𝓛 (Lends Self.row Self.Value.row self.entry result (with_value self.old)) }
        ensures value { result.now ≡ value_of self.old };

    /// It has as many parties as before.
    ghost as_many: { (x : Self) (v : Self.Value) → Self.parties (with_value x v) ≡ Self.parties x };

    /// Whoever stood outside every call before may stand as it does then: forgotten, if it was pending or had
    /// a right.
    ghost stays: { (x : Self) (v : Self.Value) (p : ℕ) (s : StageOf) → is_outside_stage s ≡ true → Self.stands x p s → Self.stands (with_value x v) p (forgets s) };
}
