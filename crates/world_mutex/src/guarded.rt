//! What stands behind a mutex's World: a lock over a number.

ghost use Rattle.std.specs.Prelude.{◌≡◌, ◌<◌, length, IfOk, IsSome, IsSomeAnd};
ghost use Rattle.world_mutex.specs.machine.Acts.{IsMutex};
ghost use Rattle.world_mutex.specs.Guarded.{new_guarded, place_of, place_for, lock_call_of, end_of, answer_by, is_try_kind, Carried};

use crate::machine::Lock;
use crate::program::led::Next;
use lock_program::End;
use lock_program::mutex::LockCall;
use std::alloc::{AllocError, Global};
use std::marker::Model;
use world_base::standing::{Kind, Rest, Within};
use world_base::table::{Machine, Valued, answer};
use world_base::{Answer, Call, Got, What};

/// A lock over a number. It is the machine of a mutex's World.
#[derive(Drop)]
pub struct Guarded {
    lock: Lock,
    value: u64,
}

impl Model for Guarded {
    ghost use Rattle.world_mutex.specs.Guarded.{Guarded};

    ghost Value = { Guarded };

    ghost view = { λ g. record { lock = g.lock; value = g.value } };
}

/// The lock's call that a party begins which stood so.
fn lock_call(was: Rest, call: Call) -> Option<LockCall>
    ensures { result ≡ lock_call_of was call }
{
    match (was, call) {
        (Rest::Idle, Call::Lock) => Some(LockCall::Lock),
        (Rest::Idle, Call::TryLock) => Some(LockCall::Try),
        (Rest::Pending, Call::Poll) => Some(LockCall::Poll),
        (Rest::Pending, Call::Drop) => Some(LockCall::Cancel),
        (Rest::Holding, Call::Drop) => Some(LockCall::Release),
        _ => None,
    }
}

/// What a call's end is told as: a try that got the lock is granted.
fn ended(trying: bool, end: End) -> End
    ensures { result ≡ end_of trying end }
{
    match end {
        End::Got if trying => End::Granted,
        // No call on a mutex's machine ends so.
        End::Granted | End::Waiting => End::NotFree,
        other => other,
    }
}

impl Guarded {
    /// A free lock over this value, for so many parties, at most `limit` of which may be starved at a time.
    /// Refused for memory alone.
    pub fn new(alloc: Global, parties: u32, value: u64, limit: u32) -> Result<Guarded, AllocError>
        ensures { IfOk result (λ g. g ≡ new_guarded parties limit value) }
    {
        let lock = Lock::new(alloc, parties, limit)?;
        Ok(Guarded { lock, value })
    }

    /// The lock.
    pub fn lock(&self) -> &Lock
        ensures { result.now ≡ self.now.lock }
    {
        &self.lock
    }

    /// The value.
    pub fn value(&self) -> u64
        ensures { result ≡ self.now.value }
    {
        self.value
    }

    /// Carries out the action of the place at which a call of the lock begins, or goes on.
    fn carry_out(&mut self, party: u32, was: Rest, what: What) -> Next
        requires known { party < length self.old.lock.places }
        requires can { IsSome (place_for was what (place_of self.old party)) }
        ensures { IsSomeAnd (place_for was what (place_of self.old party)) (λ from. Carried self.old party what from result self.new) }
    {
        let inputs = what.inputs();
        match what {
            What::Begin(call, _) => match lock_call(was, call) {
                Some(call) => self.lock.begin(party, call, inputs.memory, inputs.starving),
                None => unreachable!(),
            },
            What::Go(_) => self.lock.go(party, inputs.memory, inputs.starving),
        }
    }

    /// What always holds of the lock. It does nothing.
    pub fn laws(&self)
        ensures { IsMutex self.now.lock }
    {
        self.lock.laws();
    }
}

/// What a call's next is answered, over this value.
fn answer_to(kind: Kind, value: u64, next: Next) -> Answer
    ensures { result ≡ answer_by (is_try_kind kind) value next }
{
    match next {
        Next::Do(_, _) => Answer::Stepped,
        Next::End(end) => {
            let end = ended(matches!(kind, Kind::Try), end);
            answer(end, Got::Value(value))
        }
    }
}

impl Machine for Guarded {
    ghost use Rattle.std.specs.Prelude.{length};
    ghost use Rattle.world_mutex.specs.Guarded as guarded;
    ghost use Rattle.world_base.specs.declared.standing.Rest.TheVariants.{Holding};

    ghost parties = { λ g. length g.lock.places };

    ghost knows = { λ g p. guarded.knows };

    ghost ready = { Holding };

    ghost stands = { guarded.Stands };

    ghost acts = { guarded.Moves };

    fn knows(&self, _party: u32, call: Call) -> bool {
        matches!(
            call,
            Call::Lock | Call::TryLock | Call::Poll | Call::Drop | Call::Put(_)
        )
    }

    fn ready(&self) -> Rest {
        Rest::Holding
    }

    fn act(&mut self, party: u32, within: Within, what: What) -> Answer {
        match what.put() {
            Some(value) => {
                self.value = value;
                Answer::Granted(Got::Value(value))
            }
            None => {
                let next = self.carry_out(party, within.was, what);
                answer_to(within.kind, self.value, next)
            }
        }
    }
}

impl Valued for Guarded {
    ghost use Rattle.world_mutex.specs.Guarded as guarded;
    ghost use Rattle.world_mutex.specs.Stays.{stays_so};
    ghost use Rattle.std.specs.Prelude.{refl};

    type Value = u64;

    ghost value_of = { λ g. g.value };

    ghost with_value = { guarded.with_value };

    fn value_mut(&mut self) -> &mut u64 {
        &mut self.value
    }

    ghost as_many = { λ g v. refl };

    ghost stays = { λ g v p s outside h. stays_so s (guarded.place_of g p) outside h };
}
