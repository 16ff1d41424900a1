//! The World that stands in a run.

ghost use Rattle.std.specs.Prelude.{◌≡◌, ℕ, List, IfOk, IfErr};
ghost use Rattle.lockrun_script.specs.declared.command.Model.TheVariants as model;
ghost use Rattle.lock_program.specs.declared.refusal.Refusal.{Refusal};
ghost use Rattle.lockrun_play.specs.Answers.{Prints};
ghost use Rattle.lockrun_play.specs.Openings.{world_of, HasTooManyPermits, IsRefusedFor};
ghost use Rattle.lockrun_play.specs.Worlds.{CarriesOut};

use crate::played;
use lock_core::mutex::MOST_STARVED;
use lock_core::rwlock::{MOST_READERS, MOST_STARVED_FOR_THE_TURN};
use lock_core::{Refusal, barrier, cell, mutex, pool, rwlock, semaphore};
use lockrun_script::command::{Model, Request};
use lockrun_script::limits::limit;
use std::alloc::Global;
use std::io;
use std::io::Write;

/// A World, of whichever lock.
pub enum World {
    Mutex(mutex::World),
    RwLock(rwlock::World),
    Semaphore(semaphore::World),
    Cell(cell::World),
    Barrier(barrier::World),
    Pool(pool::World),
}

// By hand, so that a drop is one call to prove, and not all of its parts again.
impl Drop for World {
    fn drop(self) {
        match self {
            World::Mutex(world) => drop(world),
            World::RwLock(world) => drop(world),
            World::Semaphore(world) => drop(world),
            World::Cell(world) => drop(world),
            World::Barrier(world) => drop(world),
            World::Pool(world) => drop(world),
        }
    }
}

impl World {
    /// The World that a line asks for. A semaphore with more permits than its limit may be is refused as
    /// [`Refusal::Permits`]; any other World for memory alone.
    pub fn new(alloc: Global, model: Model) -> Result<World, Refusal>
        ensures made { IfOk result (λ w. w ≡ world_of model) }
        ensures fits { IfOk result (λ w. ¬ HasTooManyPermits model) }
        ensures refused { IfErr result (IsRefusedFor model) }
    {
        match model {
            Model::Mutex {
                parties,
                value,
                starved,
            } => new_mutex(alloc, parties, value, starved),
            Model::RwLock {
                parties,
                value,
                starved,
                readers,
            } => new_rwlock(alloc, parties, value, starved, readers),
            Model::Semaphore {
                parties,
                permits,
                most,
            } => new_semaphore(alloc, parties, permits, most),
            Model::Cell { parties } => new_cell(alloc, parties),
            Model::Barrier {
                parties,
                size,
                starved,
                generations,
            } => new_barrier(alloc, parties, size, starved, generations),
            Model::Pool { parties, items } => new_pool(alloc, parties, items),
        }
    }

    /// Carries out what is asked of the World, and writes the answer as one line. The clause says what
    /// the World does, also where the answer can't be written.
    pub fn carry_out<O: Write>(&mut self, request: Request, output: &mut O) -> io::Result<()>
        ensures { (text : List ℕ) × CarriesOut request self.old self.new text
            × Prints (O.contents output.old) (O.contents output.new) result text }
    {
        match self {
            World::Mutex(world) => played::carry_out(request, world, output),
            World::RwLock(world) => played::carry_out(request, world, output),
            World::Semaphore(world) => played::carry_out(request, world, output),
            World::Cell(world) => played::carry_out(request, world, output),
            World::Barrier(world) => played::carry_out(request, world, output),
            World::Pool(world) => played::carry_out(request, world, output),
        }
    }
}

/// A mutex by the numbers of a line.
fn new_mutex(
    alloc: Global,
    parties: u32,
    value: u64,
    starved: Option<u64>,
) -> Result<World, Refusal>
    ensures made { IfOk result (λ w. w ≡ world_of (model.Mutex parties value starved)) }
    ensures refused { IfErr result (λ r. r ≡ Refusal.Memory) }
{
    let starved = limit(starved, MOST_STARVED);
    Ok(World::Mutex(mutex::World::with_limits(alloc, parties, value, starved)?))
}

/// A read-write lock by the numbers of a line.
fn new_rwlock(
    alloc: Global,
    parties: u32,
    value: u64,
    starved: Option<u64>,
    readers: Option<u64>,
) -> Result<World, Refusal>
    ensures made { IfOk result (λ w. w ≡ world_of (model.RwLock parties value starved readers)) }
    ensures refused { IfErr result (λ r. r ≡ Refusal.Memory) }
{
    let starved = limit(starved, MOST_STARVED_FOR_THE_TURN);
    let readers = limit(readers, MOST_READERS);
    let world = rwlock::World::with_limits(alloc, parties, value, starved, readers)?;
    Ok(World::RwLock(world))
}

/// A semaphore by the numbers of a line.
fn new_semaphore(
    alloc: Global,
    parties: u32,
    permits: u64,
    most: Option<u64>,
) -> Result<World, Refusal>
    ensures made { IfOk result (λ w. w ≡ world_of (model.Semaphore parties permits most)) }
    ensures fits { IfOk result (λ w. ¬ HasTooManyPermits (model.Semaphore parties permits most)) }
    ensures refused { IfErr result (IsRefusedFor (model.Semaphore parties permits most)) }
{
    let most = most.unwrap_or(u64::MAX);
    Ok(World::Semaphore(semaphore::World::with_limits(alloc, parties, permits, most)?))
}

/// A once-cell by the number of a line.
fn new_cell(alloc: Global, parties: u32) -> Result<World, Refusal>
    ensures made { IfOk result (λ w. w ≡ world_of (model.Cell parties)) }
    ensures refused { IfErr result (λ r. r ≡ Refusal.Memory) }
{
    Ok(World::Cell(cell::World::new(alloc, parties)?))
}

/// A barrier by the numbers of a line.
fn new_barrier(
    alloc: Global,
    parties: u32,
    size: u64,
    starved: Option<u64>,
    generations: Option<u64>,
) -> Result<World, Refusal>
    ensures made { IfOk result (λ w. w ≡ world_of (model.Barrier parties size starved generations)) }
    ensures refused { IfErr result (λ r. r ≡ Refusal.Memory) }
{
    let starved = limit(starved, MOST_STARVED);
    let most = generations.unwrap_or(u64::MAX);
    let world = barrier::World::with_limits(alloc, parties, size, starved, most)?;
    Ok(World::Barrier(world))
}

/// A pool by the numbers of a line.
fn new_pool(alloc: Global, parties: u32, items: u32) -> Result<World, Refusal>
    ensures made { IfOk result (λ w. w ≡ world_of (model.Pool parties items)) }
    ensures refused { IfErr result (λ r. r ≡ Refusal.Memory) }
{
    Ok(World::Pool(pool::World::new(alloc, parties, items)?))
}
