//! A pool of connections, each of which one has alone: four threads use two of them by calls that block, and tasks on one executor
//! wait for a single one.

use async_lock::Runtime;
use bounded_pool::{Give, Lease, Pool, Refusal, Settled};
use futures::executor::block_on;
use futures::{TryFutureExt, future};
use std::io;
use std::thread::{self, Threads};

/// A connection, which counts what was done by it.
#[derive(Drop)]
struct Connection {
    uses: u64,
}

fn new_pool<R: Runtime + Copy>(rt: R, count: usize) -> Result<Pool<Connection, R>, Refusal> {
    let mut connections = Vec::with_capacity(rt.alloc(), count)?;
    for _ in 0..count {
        connections.push(Connection { uses: 0 })?;
    }
    Pool::new(rt, connections)
}

// Gives a connection back, and tries a second time if it is refused: the lease comes back with it.
fn give_back<R: Runtime>(lease: Lease<'_, Connection, R>) -> Result<(), Refusal> {
    match Pool::give_blocking(lease) {
        Ok(()) => Ok(()),
        Err((lease, _)) => Pool::give_blocking(lease).map_err(|(_, refusal)| refusal),
    }
}

fn use_often<R: Runtime>(pool: &Pool<Connection, R>) -> Result<(), Refusal> {
    for _ in 0..100_u64 {
        let mut lease = pool.take_blocking()?;
        lease.uses = lease.uses.saturating_add(1);
        give_back(lease)?;
    }
    Ok(())
}

fn in_four_threads<'a, R>(rt: &'a R, pool: &'a Pool<Connection, R>) -> Result<(), Refusal>
where
    R: Runtime + Threads + Sync,
{
    let uses = || use_often(pool);
    let two = || thread::join(rt, &uses, &uses);
    let ((one, other), (third, fourth)) = thread::join(rt, &two, &two);
    one.and(other).and(third).and(fourth)
}

// A task uses a connection that it has taken, and gives it back.
fn use_once<'a, R: Runtime>(
    mut lease: Lease<'a, Connection, R>,
) -> Settled<Give<'a, Connection, R>> {
    lease.uses = lease.uses.saturating_add(1);
    Settled(Pool::give(lease))
}

// Three tasks on one executor: two of them wait for the only connection, which the third one gives back.
fn in_three_tasks<'a, R: Runtime>(rt: &R, pool: &'a Pool<Connection, R>) -> Result<(), Refusal> {
    let lease = pool.take_blocking()?;
    let one = Settled(pool.take()).and_then(use_once);
    let other = Settled(pool.take()).and_then(use_once);
    let third = Settled(Pool::give(lease));
    match block_on(rt, future::join3(one, other, third)) {
        Ok((one, other, third)) => one.and(other).and(third),
        Err(_) => Err(Refusal::Memory),
    }
}

// How often the connections were used that are in the pool now.
fn all_uses<R: Runtime>(pool: &Pool<Connection, R>) -> u64 {
    match (pool.try_take(), pool.try_take()) {
        (Some(one), Some(other)) => one.uses.saturating_add(other.uses),
        _ => 0,
    }
}

// How often the only connection was used.
fn its_uses<R: Runtime>(pool: &Pool<Connection, R>) -> u64 {
    match pool.try_take() {
        Some(lease) => lease.uses,
        None => 0,
    }
}

fn print_uses<R>(rt: R) -> io::Result<()>
where
    R: Runtime + Threads + Sync + Copy + Print,
{
    println!(rt; "connections:")?;
    let pool = new_pool(rt, 2)?;
    in_four_threads(&rt, &pool)?;
    println!(rt; "uses: {}", all_uses(&pool))?;
    let single = new_pool(rt, 1)?;
    in_three_tasks(&rt, &single)?;
    println!(rt; "uses by tasks: {}", its_uses(&single))
}

/// Shares connections, and prints a line for each pool. Returns whether all was done and printed.
pub(crate) fn print_all<R>(rt: R) -> bool
where
    R: Runtime + Threads + Sync + Copy + Print,
{
    print_uses(rt).is_ok()
}
