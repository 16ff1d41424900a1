//! What a World's table stands on: a read-write lock over a number.

ghost use Rattle.std.specs.Prelude.{◌≡◌, ◌<◌, length, IfOk, IsSome, IsSomeAnd};
ghost use Rattle.world_base.specs.Standings.{inputs_of};
ghost use Rattle.world_rwlock.specs.machine.Machine.{place_at};
ghost use Rattle.world_rwlock.specs.machine.Acts.{Acts, IsRwLock};
ghost use Rattle.world_rwlock.specs.Guarded.{new_guarded, answer_by, place_for};

use crate::machine::RwLock;
use crate::program::calls;
use crate::program::led::Next;
use std::alloc::{AllocError, Global};
use std::marker::Model;
use world_base::standing::{Rest, Within};
use world_base::table::{Machine, Valued, answer};
use world_base::{Answer, Call, Got, What};

/// A read-write lock, and the number that it guards.
#[derive(Drop)]
pub(crate) struct Guarded {
    lock: RwLock,
    value: u64,
}

impl Model for Guarded {
    ghost use Rattle.std.specs.Coded.{codes};
    ghost use Rattle.world_mutex.specs.machine.Behind.{behind_coded};
    ghost use Rattle.world_rwlock.specs.Guarded.{Guarded};

    ghost Value = { Guarded };

    ghost coded = { Prim.hlevel (codes, behind_coded) };

    ghost view = { λ x. record { lock = x.lock; value = x.value } };
}

/// What a party is answered whose program goes on so.
fn answer_to(value: u64, next: Next) -> Answer
    ensures { result ≡ answer_by value next }
{
    match next {
        Next::Do(_, _) => Answer::Stepped,
        Next::End(end, _) => answer(end, Got::Value(value)),
        Next::Wait(_) => Answer::Waiting,
    }
}

/// The action of the lock that a move carries out, where its party may make it.
fn carry_out(lock: &mut RwLock, party: u32, what: What) -> Next
    requires known { party < length lock.old.places }
    requires can { IsSome (place_for what (place_at lock.old.places party)) }
    ensures acts { IsSomeAnd (place_for what (place_at lock.old.places party)) (λ from. Acts (inputs_of what).memory (inputs_of what).starving party from result lock.old lock.new) }
{
    let inputs = what.inputs();
    match what {
        What::Begin(call, _) => lock.begin(party, call, inputs.memory, inputs.starving),
        What::Go(_) => lock.go(party, inputs.memory, inputs.starving),
    }
}

impl Guarded {
    /// This number behind a free lock for so many parties, of which at most `starved` may be starved for
    /// the turn, and at most `readers` may read.
    pub(crate) fn new(
        alloc: Global,
        parties: u32,
        value: u64,
        starved: u32,
        readers: u32,
    ) -> Result<Guarded, AllocError>
        ensures { IfOk result (λ x. x ≡ new_guarded parties starved readers value) }
    {
        let lock = RwLock::new(alloc, parties, starved, readers)?;
        Ok(Guarded { lock, value })
    }

    /// What always holds of the lock. It does nothing.
    pub(crate) fn laws(&self)
        ensures lock { IsRwLock self.now.lock }
    {
        self.lock.laws();
    }

    /// The lock.
    pub(crate) fn lock(&self) -> &RwLock
        ensures { result.now ≡ self.now.lock }
    {
        &self.lock
    }

    /// The number.
    pub(crate) fn value(&self) -> u64
        ensures { result ≡ self.now.value }
    {
        self.value
    }
}

impl Machine for Guarded {
    ghost use Rattle.std.specs.Prelude.{length};
    ghost use Rattle.world_rwlock.specs.Guarded as guarded;
    ghost use Rattle.world_base.specs.declared.standing.Rest.TheVariants.{Holding};

    ghost parties = { guarded.parties };

    ghost knows = { guarded.knows };

    ghost ready = { Holding };

    ghost stands = { guarded.Stands };

    ghost acts = { guarded.Moves };

    fn knows(&self, party: u32, call: Call) -> bool {
        calls::is_known(self.lock.place(party), call)
    }

    fn ready(&self) -> Rest {
        Rest::Holding
    }

    fn act(&mut self, party: u32, _within: Within, what: What) -> Answer {
        self.lock.laws();
        match what.put() {
            Some(value) => {
                self.value = value;
                Answer::Granted(Got::Value(value))
            }
            None => {
                let next = carry_out(&mut self.lock, party, what);
                answer_to(self.value, next)
            }
        }
    }
}

impl Valued for Guarded {
    ghost use Rattle.world_rwlock.specs.Guarded as guarded;
    ghost use Rattle.world_rwlock.specs.Stays as stays;

    type Value = u64;

    ghost value_of = { λ x. x.value };

    ghost with_value = { guarded.with_value };

    ghost as_many = { stays.as_many };

    ghost stays = { stays.stays };

    fn value_mut(&mut self) -> &mut u64 {
        &mut self.value
    }
}
