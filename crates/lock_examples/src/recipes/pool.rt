//! A pool of connections: whoever takes one has it alone, and gives it back.

use async_lock::{Mutex, Refusal, Runtime, Semaphore, SemaphoreGuard};
use std::alloc::Global;
use std::thread::{self, Threads};

/// A connection, which counts what was done by it.
#[derive(Drop)]
struct Connection {
    uses: u64,
}

/// The connections that nobody has, and a permit for each.
#[derive(Drop)]
struct Pool<R: Runtime> {
    connections: Mutex<Vec<Connection, Global>, R>,
    permits: Semaphore<R>,
}

/// A connection that is lent. The permit goes back after the connection.
#[derive(Drop)]
struct Lease<'a, R: Runtime> {
    connection: Connection,
    permit: SemaphoreGuard<'a, R>,
}

impl<R: Runtime + Copy> Pool<R> {
    fn new(rt: R, count: usize) -> Result<Pool<R>, Refusal> {
        let mut connections = Vec::with_capacity(rt.alloc(), count)?;
        for _ in 0..count {
            connections.push(Connection { uses: 0 })?;
        }
        let connections = Mutex::new(rt, connections)?;
        let permits = Semaphore::new(rt, count)?;
        Ok(Pool {
            connections,
            permits,
        })
    }

    // Waits until a connection is there.
    fn take(&self) -> Result<Option<Lease<'_, R>>, Refusal> {
        let permit = self.permits.acquire_blocking()?;
        let mut connections = self.connections.lock_blocking()?;
        Ok(
            connections
                .pop()
                .map(|connection| Lease { connection, permit }),
        )
    }

    // The permit is dropped last: whoever gets it finds the connection. If it is refused, the lease comes back.
    fn give<'a>(&self, lease: Lease<'a, R>) -> Result<(), (Lease<'a, R>, Refusal)> {
        let mut connections = match self.connections.lock_blocking() {
            Ok(connections) => connections,
            Err(refusal) => return Err((lease, refusal)),
        };
        let Lease { connection, permit } = lease;
        match connections.push(connection) {
            Ok(()) => {
                drop(connections);
                drop(permit);
                Ok(())
            }
            Err(refused) => {
                let connection = refused.value;
                Err((Lease { connection, permit }, Refusal::Memory))
            }
        }
    }

    // How often all connections were used.
    fn uses(&self) -> Result<u64, Refusal> {
        let connections = self.connections.lock_blocking()?;
        let mut uses = 0_u64;
        for connection in connections.iter() {
            uses = uses.saturating_add(connection.uses);
        }
        Ok(uses)
    }
}

// Gives a connection back, and tries a second time if it is refused.
fn give_back<R: Runtime + Copy>(pool: &Pool<R>, lease: Lease<'_, R>) -> Result<(), Refusal> {
    match pool.give(lease) {
        Ok(()) => Ok(()),
        Err((lease, _)) => pool.give(lease).map_err(|(_, refusal)| refusal),
    }
}

fn use_often<R: Runtime + Copy>(pool: &Pool<R>) -> Result<(), Refusal> {
    for _ in 0..100_u64 {
        if let Some(mut lease) = pool.take()? {
            lease.connection.uses = lease.connection.uses.saturating_add(1);
            give_back(pool, lease)?;
        }
    }
    Ok(())
}

fn in_four_threads<'a, R>(rt: &'a R, pool: &'a Pool<R>) -> Result<(), Refusal>
where
    R: Runtime + Threads + Sync + Copy,
{
    let uses = || use_often(pool);
    let two = || thread::join(rt, &uses, &uses);
    let ((one, other), (third, fourth)) = thread::join(rt, &two, &two);
    one.and(other).and(third).and(fourth)
}

/// Four threads use two connections a hundred times each. Returns how often these were used.
pub(crate) fn run<R>(rt: R) -> Result<u64, Refusal>
where
    R: Runtime + Threads + Sync + Copy,
{
    let pool = Pool::new(rt, 2)?;
    in_four_threads(&rt, &pool)?;
    pool.uses()
}
