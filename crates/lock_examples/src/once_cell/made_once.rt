//! Two threads ask for a value that is made once.

use async_lock::{OnceCell, Refusal, Runtime};
use std::alloc::AllocGlobal;
use std::thread::{self, Threads};

// Whoever comes first makes the value, and the other one waits for it.
fn value<R>(cell: &OnceCell<u64, R>) -> Result<u64, Refusal>
where
    R: Runtime,
{
    let value = cell.get_or_init_blocking(|| 21u64)?;
    Ok(*value)
}

// The threads are started in a function of their own, which is handed the cell: a cell that is made in the function that
// starts them gets no proof.
fn in_two_threads<'a, R>(rt: &'a R, cell: &'a OnceCell<u64, R>) -> Result<u64, Refusal>
where
    R: Runtime + Threads + Sync,
{
    let (one, two) = thread::join(rt, || value(cell), || value(cell));
    Ok(one?.saturating_add(two?))
}

/// The sum of what both threads find.
pub(crate) fn run<R>(rt: R) -> Result<u64, Refusal>
where
    R: Runtime + Threads + Sync + Copy,
{
    let cell = OnceCell::new(rt)?;
    in_two_threads(&rt, &cell)
}
