//! A machine, and at which stage of its calls each party is.

ghost use Rattle.std.specs.Prelude.{◌≡◌, ◌<◌, ℕ, true, length, map, IfOk};
ghost use Rattle.std.specs.List.{list_all};
ghost use Rattle.world_base.specs.Standings.{is_outside_stage, forgets};
ghost use Rattle.world_base.specs.declared.standing.Rest.TheVariants.{Idle};
ghost use Rattle.world_base.specs.declared.standing.Stage.TheVariants.{Outside};
ghost use Rattle.world_base.specs.table.Stages.{call_at};
ghost use Rattle.world_base.specs.table.Tables.{IsTable as IsTable_lem, IsStep, new_table};

use crate::standing::{Rest, Stage, Within};
use crate::table::machine::{Machine, Valued};
use crate::table::stages::{may_begin, polls_again, stage_after};
use crate::{Answer, Move, What};
use lock_program::Refusal;
use std::alloc::{AllocError, Global};
use std::marker::Model;

/// A machine, at which stage of its calls each party is, and the number that the World was made with.
pub struct Table<M: Machine> {
    machine: M,
    stages: Vec<Stage>,
    opening: u64,
}

// By hand, so that a drop is one call to prove, and not all of its parts again.
impl<M: Machine + Drop> Drop for Table<M> {
    fn drop(self) {
        let Table {
            machine: _,
            stages: _,
            opening: _,
        } = self;
    }
}

impl<M: Machine> Model for Table<M> {
    ghost use Rattle.world_base.specs.table.Tables.{Table, IsTable};

    ghost Value = { Table M };

    ghost view = { λ t. record { machine = t.machine; stages = t.stages.items; opening = t.opening } };

    ghost invariant = { λ t. IsTable M.parties M.stands t.machine t.stages.items };
}

/// The call that a move belongs to, where its party may make it.
fn call_of<M: Machine>(machine: &M, party: u32, stage: Stage, what: What) -> Option<Within>
    requires { party < M.parties machine.now }
    ensures { result ≡ call_at (M.knows machine.now party) stage what }
{
    match stage {
        Stage::Outside(was) => match what {
            What::Begin(call, _) => {
                let kind = call.kind();
                if machine.knows(party, call) && may_begin(was, kind) {
                    Some(Within { kind, was })
                } else {
                    None
                }
            }
            What::Go(_) => None,
        },
        Stage::Inside(within) => match what {
            What::Begin(_, _) => None,
            What::Go(_) => Some(within),
        },
        Stage::Forgotten => None,
    }
}

impl<M: Machine> Table<M> {
    /// A table of so many idle parties over a machine that has as many. Refused for memory alone, and then
    /// nothing is kept; afterwards no step needs memory.
    pub fn new(
        alloc: Global,
        machine: M,
        parties: u32,
        opening: u64,
    ) -> Result<Table<M>, AllocError>
        requires as_many { M.parties machine ≡ parties }
        requires idle { (p : ℕ) → p < parties → M.stands machine p (Outside Idle) }
        ensures { IfOk result (λ t. t ≡ new_table machine parties opening) }
    {
        let mut stages = Vec::new(alloc);
        stages.resize(parties as usize, Stage::Outside(Rest::Idle))?;
        Ok(Table {
            machine,
            stages,
            opening,
        })
    }

    /// What always holds of a table: each party may stand where it does. It does nothing.
    pub fn laws(&self)
        ensures fits { IsTable_lem M.parties M.stands self.now.machine self.now.stages }
    {
        let _ = &self.stages;
    }

    /// The machine.
    pub fn machine(&self) -> &M
        ensures { result.now ≡ self.now.machine }
    {
        &self.machine
    }

    /// Whether nobody is inside a call.
    pub fn at_rest(&self) -> bool
        ensures { result ≡ list_all is_outside_stage self.now.stages }
    {
        self.stages.iter().all(|stage| stage.is_outside())
    }

    /// One move. A move that its party may not make, and one of a party past the table, is answered
    /// `NotPossible`; a poll of a future that has been ready `Refused(6)`; and neither changes anything. For
    /// any other the machine acts once, and its answer says at which stage the party is then.
    pub fn step(&mut self, m: &Move) -> Answer
        ensures { IsStep M.knows M.ready M.acts self.old m.now result self.new }
    {
        let at = m.party as usize;
        if at >= self.stages.len() {
            return Answer::NotPossible;
        }
        let stage = self.stages[at];
        match call_of(&self.machine, m.party, stage, m.what) {
            None => Answer::NotPossible,
            Some(within) => {
                if polls_again(stage, m.what) {
                    return Answer::Refused(Refusal::Finished.number());
                }
                let answer = self.machine.act(m.party, within, m.what);
                self.stages[at] = stage_after(self.machine.ready(), within, answer);
                answer
            }
        }
    }
}

ghost use Rattle.std.specs.Borrow.{sem};
ghost use Rattle.world_base.specs.table.Lending.{LendsValue};

/// Whoever is pending or has a right is forgotten.
fn forget_all(stages: &mut Vec<Stage>)
    ensures { stages.new.items ≡ map forgets stages.old.items }
{
    for stage in stages.iter_mut() {
        *stage = stage.forgotten();
    }
}

impl<M: Valued> Table<M> {
    /// Lends the machine's value from outside every call: whoever is pending or has a right is forgotten.
    pub fn value_mut(&mut self) -> &mut M::Value
        requires { list_all is_outside_stage self.old.stages ≡ true }
        ensures* lends { sem 𝓛 (LendsValue M.row M.Value.row M.Machine M.with_value self.entry result) }
        ensures value { result.now ≡ M.value_of self.old.machine }
    {
        forget_all(&mut self.stages);
        self.machine.value_mut()
    }
}
