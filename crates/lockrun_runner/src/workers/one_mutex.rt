//! Workers that each add one to the value of one mutex.

use crate::workers::{Gate, Stopped, Work, in_threads};
use async_mutex::Mutex;
use std::alloc::Global;
use std::random::RandomSource;
use std::sync::Wait;
use std::thread::Threads;
use std::time::Clock;

/// Takes the lock, adds one to its value, and releases it. The gate holds it in between.
#[derive(Drop)]
struct AddOne<'x, R: Wait, G> {
    mutex: &'x Mutex<u64, R>,
    gate: &'x G,
}

impl<R: Wait + Clock + RandomSource + AllocGlobal, G: Gate> Work<()> for AddOne<'_, R, G> {
    fn work(&self, worker: u32, _given: ()) -> Result<(), Stopped> {
        match self.mutex.lock_blocking() {
            Ok(mut guard) => {
                add_one(&mut guard, worker, self.gate);
                Ok(())
            }
            Err(_) => Err(Stopped::Memory),
        }
    }
}

fn add_one<G: Gate>(value: &mut u64, worker: u32, gate: &G) {
    let found = *value;
    gate.hold(worker);
    *value = found.saturating_add(1);
}

/// What so many workers are given: nothing.
fn nothing(alloc: Global, workers: u32) -> Result<Vec<()>, Stopped> {
    let mut given = Vec::new(alloc);
    match given.resize(workers as usize, ()) {
        Ok(()) => Ok(given),
        Err(_) => Err(Stopped::Memory),
    }
}

/// So many workers over one mutex of value 0: each passes the gate once, takes the lock, adds one to the value, and
/// releases the lock. It answers the value that they leave.
///
/// It answers [`Stopped::Thread`] where the system starts no thread, and [`Stopped::Memory`] where memory is refused;
/// the other workers do their part all the same, and end before it returns.
pub fn public<G: Gate + Sync, R>(
    rt: &R,
    alloc: Global,
    workers: u32,
    gate: &G,
) -> Result<u64, Stopped>
where
    R: Threads + Wait + Clock + RandomSource + AllocGlobal + Sync + Copy + Drop,
{
    let given = nothing(alloc, workers)?;
    let Ok(mutex) = Mutex::new(*rt, 0_u64) else {
        return Err(Stopped::Memory);
    };
    let work = AddOne {
        mutex: &mutex,
        gate,
    };
    let ended = in_threads(rt, alloc, &work, gate, given);
    match ended {
        Ok(_) => Ok(mutex.into_inner()),
        Err(stopped) => Err(stopped),
    }
}
