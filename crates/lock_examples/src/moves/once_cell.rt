//! A cell and its futures.

use crate::moves::moved::{moved, shared};
use async_lock::{OnceCell, Refusal, Runtime};
use futures::future;
use std::thread::Threads;

fn borrowed<R: Runtime + Threads + Send + Sync>(rt: &R, cell: &OnceCell<u64, R>) -> bool {
    let is_done = shared(rt, cell) && moved(rt, cell.wait()) && moved(rt, cell.set(3));
    let making = cell.get_or_init(|| future::ready(5_u64));
    let trying = cell.get_or_try_init(|| future::ready(Err::<u64, &str>("no number")));
    is_done && moved(rt, making) && moved(rt, trying)
}

/// Shares the cell, and moves each.
pub(crate) fn all<R: Runtime + Threads + Send + Sync + Copy>(rt: R) -> Result<bool, Refusal> {
    let cell = OnceCell::new(rt)?;
    let is_done = borrowed(&rt, &cell);
    Ok(is_done && moved(&rt, cell))
}
