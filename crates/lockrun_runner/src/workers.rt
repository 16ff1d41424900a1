//! Work that many threads share: each worker passes a gate, does its part, and hands back what it was given.

ghost use Rattle.std.specs.Prelude.{◌≡◌, IfOk, vec_len};
ghost use Rattle.std.specs.Thread.{IsSend};

mod add_one;
mod one_mutex;

pub use add_one::audited;
pub use one_mutex::public;
use std::alloc::Global;
use std::sync::Wait;
use std::thread;
use std::thread::{JoinHandle, Threads};
use thiserror::Error;
use world_base::Answer;

/// Why workers stopped before their work was done.
#[derive(Clone, Copy, Debug, PartialEq, Eq, Error)]
pub enum Stopped {
    /// Memory was refused.
    #[error("no memory")]
    Memory,
    /// The system started no thread.
    #[error("thread failed")]
    Thread,
    /// A lock answered what a worker's call is never answered.
    #[error("unexpected answer")]
    Answer(Answer),
}

/// What each worker passes once, before its first step.
pub trait Gate {
    /// Returns once the worker of this number may go on.
    fn pass(&self, worker: u32);

    /// Returns once the worker of this number may go on that holds the lock, has read the value, and hasn't written
    /// it yet. Each worker calls it once.
    fn hold(&self, _worker: u32) {}
}

/// What each worker does once it has passed the gate, with a `T` that it is given and hands back.
trait Work<T> {
    /// The part of the worker of this number, from 0.
    fn work(&self, worker: u32, given: T) -> Result<T, Stopped>;
}

/// One worker's part.
fn part<T, W: Work<T>, G: Gate>(work: &W, gate: &G, worker: u32, given: T) -> Result<T, Stopped> {
    gate.pass(worker);
    work.work(worker, given)
}

/// Starts a worker for each of these, and waits for all. It gives what they hand back, one for each, in
/// order.
///
/// [`Stopped::Thread`] comes where the system starts no thread, and [`Stopped::Memory`] where memory is refused
/// for the lists of threads and results, or to a worker. The workers that were started end before it returns.
fn in_threads<'x, T: Send + Drop, W: Work<T> + Sync, G: Gate + Sync, R: Threads + Wait + Sync>(
    rt: &'x R,
    alloc: Global,
    work: &'x W,
    gate: &'x G,
    given: Vec<T>,
) -> Result<Vec<T>, Stopped>
    ensures { IfOk result (λ back. vec_len back ≡ vec_len given) }
{
    thread::scope(
        thread::scope_env(),
        rt,
        |scope| -> Result<Vec<T>, Stopped>
            requires { IsSend T.row }
            ensures { IfOk result (λ back. vec_len back ≡ vec_len given) }
        {
            let mut running = Vec::new(alloc);
            let mut worker = 0u32;
            let mut stopped = None;
            for one in given {
                let me = worker;
                worker = worker.wrapping_add(1);
                match scope.spawn(move || part(work, gate, me, one)) {
                    Ok(handle) => {
                        if running.push(handle).is_err() {
                            stopped = Some(Stopped::Memory);
                        }
                    }
                    Err(_) => stopped = Some(Stopped::Thread),
                }
            }
            let back = joined(rt, alloc, running);
            match stopped {
                Some(stopped) => Err(stopped),
                None => back,
            }
        },
    )
}

/// Waits for all of these threads, and gives what they hand back, in order.
fn joined<T: Drop, R: Threads>(
    rt: &R,
    alloc: Global,
    running: Vec<JoinHandle<Result<T, Stopped>>>,
) -> Result<Vec<T>, Stopped>
    ensures { IfOk result (λ back. vec_len back ≡ vec_len running) }
{
    let mut back = Vec::new(alloc);
    let mut stopped = None;
    for handle in running {
        match handle.join(rt) {
            Ok(one) => {
                if back.push(one).is_err() {
                    stopped = Some(Stopped::Memory);
                }
            }
            Err(found) => stopped = Some(found),
        }
    }
    match stopped {
        Some(stopped) => Err(stopped),
        None => Ok(back),
    }
}
