//! The pool's machine: its items, its leases, its semaphore and its list's lock, and where each party stands in its program.

ghost use Rattle.std.specs.Prelude.{◌≡◌, ◌<◌, ◌≤◌, length, slice_get, replicate, vec_capacity, IfOk, None};
ghost use Rattle.world_pool.specs.machine.Machine.{new_pool, numbered, IsPool, answer_by, lease_at};
ghost use Rattle.world_pool.specs.program.Program.{got_with};
ghost use Rattle.world_pool.specs.declared.program.places.Position.TheVariants.{Out};

use crate::program::calls::{after, place_for};
use crate::program::places::{Action, Found, Place, Position, action_at, decide};
use lock_program::Next;
use std::alloc::{AllocError, Global};
use std::marker::Model;
use sync_program::permits::SemaphoreCall;
use world_base::standing::{Rest, Within};
use world_base::table::{Machine, answer};
use world_base::{Answer, Call, Got, Inputs, What};
use world_mutex::machine::Mutex;
use world_semaphore::machine::Permits;

/// A pool, and where each of its parties stands.
///
/// The semaphore has a permit for each item that is in the list, or that somebody is about to take out. An item is its number.
pub struct Pool {
    items: Vec<u64>,
    leases: Vec<Option<u64>>,
    positions: Vec<Position>,
    permits: Permits,
    lock: Mutex,
}

// By hand, so that a drop is one call to prove, and not all of its parts again.
impl Drop for Pool {
    fn drop(self) {
        let Pool {
            items: _,
            leases: _,
            positions: _,
            permits: _,
            lock: _,
        } = self;
    }
}

impl Model for Pool {
    ghost use Rattle.std.specs.Coded.{codes};
    ghost use Rattle.std.specs.Prelude.{vec_capacity};
    ghost use Rattle.world_mutex.specs.machine.Behind.{behind_coded};
    ghost use Rattle.world_pool.specs.machine.Machine.{Pool, IsKept};

    ghost Value = { Pool };

    ghost coded = { Prim.hlevel (codes, behind_coded) };

    ghost view = { λ s. record { items = s.items.items; leases = s.leases.items; positions = s.positions.items; permits = s.permits; lock = s.lock } };

    ghost invariant = { λ s. IsKept (vec_capacity s.items) (record { items = s.items.items; leases = s.leases.items; positions = s.positions.items; permits = s.permits; lock = s.lock }) };
}

/// The items from 0 on, so many.
fn all_items(alloc: Global, items: u32) -> Result<Vec<u64>, AllocError>
    ensures items { IfOk result (λ v. v.items ≡ numbered items) }
    ensures room { IfOk result (λ v. items ≤ vec_capacity v) }
{
    let mut all = Vec::with_capacity(alloc, items as usize)?;
    for item in 0..items {
        all.push_reserved(item as u64);
    }
    Ok(all)
}

/// So many parties, each of which is out.
fn all_out(alloc: Global, parties: u32) -> Result<Vec<Position>, AllocError>
    ensures { IfOk result (λ v. v.items ≡ replicate parties Out) }
{
    let mut positions = Vec::new(alloc);
    positions.resize(parties as usize, Position::Out)?;
    Ok(positions)
}

/// So many parties, none of which has a lease.
fn none_leased(alloc: Global, parties: u32) -> Result<Vec<Option<u64>>, AllocError>
    ensures { IfOk result (λ v. v.items ≡ replicate parties None) }
{
    let mut leases = Vec::new(alloc);
    leases.resize(parties as usize, None)?;
    Ok(leases)
}

ghost use Rattle.world_pool.specs.program.Effects.{CanItems, CanLocks, OnPermits, OnLock, OnItems};

/// Takes the last item out of the list; with a lease, its party puts it back instead; or it loses it.
fn on_items(items: &mut Vec<u64>, lease: &mut Option<u64>, action: Action)
    requires { CanItems action items.old.items (vec_capacity items.old) lease.old }
    ensures items { OnItems action items.old.items lease.old items.new.items lease.new }
    ensures room { vec_capacity items.new ≡ vec_capacity items.old }
{
    match action {
        Action::Pop => *lease = items.pop(),
        Action::Push => {
            let Some(item) = *lease else { unreachable!() };
            items.push_reserved(item);
            *lease = None;
        }
        Action::Lose => *lease = None,
        _ => (),
    }
}

/// Carries out one action for a party, on the semaphore or on the list's lock, and says what it found.
fn on_locks(
    permits: &mut Permits,
    lock: &mut Mutex,
    party: u32,
    action: Action,
    inputs: Inputs,
) -> Found
    requires { CanLocks party action permits.old lock.old }
    ensures permits { OnPermits inputs party action result permits.old permits.new }
    ensures lock { OnLock inputs party action result lock.old lock.new }
{
    match action {
        Action::Permit(call) => Found::Permit(permits.begin(party, call, inputs.memory)),
        Action::GoPermit => Found::Permit(permits.go(party, inputs.memory)),
        Action::Lose => {
            permits.begin(party, SemaphoreCall::Forget, inputs.memory);
            Found::Done
        }
        Action::Lock(call) => {
            Found::Lock(lock.begin(party, call, inputs.memory, inputs.starving))
        }
        Action::GoLock => Found::Lock(lock.go(party, inputs.memory, inputs.starving)),
        Action::Nothing | Action::Pop | Action::Push => Found::Done,
    }
}

impl Pool {
    /// A pool of so many items, for so many parties, numbered from 0, none of which has called yet; at most `starved` of them may be
    /// starved for the list's lock at a time. Refused for memory alone; afterwards no step needs any.
    pub fn new(alloc: Global, parties: u32, items: u32, starved: u32) -> Result<Pool, AllocError>
        ensures { IfOk result (λ s. s ≡ new_pool parties items starved) }
    {
        let list = all_items(alloc, items)?;
        let leases = none_leased(alloc, parties)?;
        let positions = all_out(alloc, parties)?;
        let permits = Permits::new(alloc, parties, items as u64, items as u64)?;
        let lock = Mutex::new(alloc, parties, starved)?;
        Ok(Pool {
            items: list,
            leases,
            positions,
            permits,
            lock,
        })
    }

    /// The semaphore.
    pub fn permits(&self) -> &Permits
        ensures { result.now ≡ self.now.permits }
    {
        &self.permits
    }

    /// The list's lock.
    pub fn lock(&self) -> &Mutex
        ensures { result.now ≡ self.now.lock }
    {
        &self.lock
    }

    /// How many items the list has.
    pub fn len(&self) -> usize
        ensures { result ≡ length self.now.items }
    {
        self.items.len()
    }

    /// The item at this place of the list, counted from the front. None past the last.
    pub fn item(&self, index: usize) -> Option<u64>
        ensures { result ≡ slice_get self.now.items index }
    {
        self.items.get(index).copied()
    }

    /// Where a party stands in its program; None past the last.
    pub fn position_of(&self, party: u32) -> Option<Position>
        ensures { result ≡ slice_get self.now.positions party }
    {
        self.positions.get(party as usize).copied()
    }

    /// The item that a party has leased.
    pub fn lease(&self, party: u32) -> Option<u64>
        ensures { result ≡ lease_at self.now.leases party }
    {
        match self.leases.get(party as usize) {
            Some(lease) => *lease,
            None => None,
        }
    }

    /// What always holds of a pool. It does nothing.
    pub fn laws(&self)
        ensures { IsPool self.now }
    {
        self.permits.laws();
        self.lock.laws();
    }
}

/// What a call got whose party has this lease.
fn got(lease: Option<u64>) -> Got
    ensures { result ≡ got_with lease }
{
    match lease {
        Some(item) => Got::Value(item),
        None => Got::Plain,
    }
}

/// What a call's next is answered to a party that has this lease.
fn answer_to(next: Next<Place, Position>, lease: Option<u64>) -> Answer
    ensures { result ≡ answer_by next lease }
{
    match next {
        Next::Do(_) => Answer::Stepped,
        Next::End(end, _) => answer(end, got(lease)),
    }
}

impl Machine for Pool {
    ghost use Rattle.std.specs.Prelude.{length};
    ghost use Rattle.world_pool.specs.machine.Machine as machine;
    ghost use Rattle.world_base.specs.declared.standing.Rest.TheVariants.{Holding};

    ghost parties = { λ s. length s.positions };

    ghost knows = { λ s p. machine.knows };

    ghost ready = { Holding };

    ghost stands = { machine.Stands };

    ghost acts = { machine.Moves };

    fn knows(&self, _party: u32, call: Call) -> bool {
        matches!(
            call,
            Call::Take | Call::TryTake | Call::Give | Call::Poll | Call::Drop
        )
    }

    fn ready(&self) -> Rest {
        Rest::Holding
    }

    fn act(&mut self, party: u32, _within: Within, what: What) -> Answer {
        let at = party as usize;
        let Some(from) = place_for(what, self.positions[at]) else {
            unreachable!()
        };
        self.permits.laws();
        self.lock.laws();
        let action = action_at(from);
        let found = on_locks(
            &mut self.permits,
            &mut self.lock,
            party,
            action,
            what.inputs(),
        );
        let mut lease = self.leases[at];
        on_items(&mut self.items, &mut lease, action);
        self.leases[at] = lease;
        let next = decide(from, found);
        self.positions[at] = after(next);
        answer_to(next, lease)
    }
}
