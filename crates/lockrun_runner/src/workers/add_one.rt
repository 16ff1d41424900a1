//! Workers that each add one to the value of a mutex's World, every step of which one book records.

ghost use Rattle.std.specs.Prelude.{◌≡◌};

use crate::workers::{Gate, Stopped, Work, in_threads};
use lock_audit::{Audited, Blanks, Book, Ledgers, Share};
use lock_core::mutex::World;
use lock_core::{Answer, Call, Got, Inputs, Made, Memory, Move, What};
use std::alloc::Global;
use std::marker::Brand;
use std::sync::Wait;
use std::sync::atomic::{AtomicBool, Ordering};
use std::thread;
use std::thread::Threads;

/// Memory is found, and nobody has waited for too long.
const INPUTS: Inputs = Inputs {
    memory: true,
    starving: false,
    made: Made::Pending,
};

/// Takes the lock, adds one to its value, and releases it, as one party of an audited World.
#[derive(Drop)]
struct AddOne<'x, L: Ledgers, R: Wait, G> {
    rt: &'x R,
    gate: &'x G,
    audited: &'x Audited<World, L>,
    // A worker was stopped by a refused record, so the others stop too.
    stopped: &'x AtomicBool,
}

impl<L: Ledgers, R: Wait, G: Gate> Work<Share<L>> for AddOne<'_, L, R, G> {
    fn work(&self, worker: u32, given: Share<L>) -> Result<Share<L>, Stopped> {
        let mut share = given;
        match self.add_one(worker, &mut share) {
            Ok(()) => Ok(share),
            Err(why) => {
                self.stopped.store(true, Ordering::SeqCst);
                Err(why)
            }
        }
    }
}

impl<L: Ledgers, R: Wait, G: Gate> AddOne<'_, L, R, G> {
    fn add_one(&self, party: u32, share: &mut Share<L>) -> Result<(), Stopped> {
        let value = self.lock(party, share)?;
        self.gate.hold(party);
        self.whole(party, share, Call::Put(value.saturating_add(1)))?;
        self.whole(party, share, Call::Drop)?;
        Ok(())
    }

    /// Polls until the lock is had, and gives the value found. It yields between two polls.
    fn lock(&self, party: u32, share: &mut Share<L>) -> Result<u64, Stopped> {
        let mut call = Call::Lock;
        for _ in self.rt.forever() {
            match self.whole(party, share, call)? {
                Answer::Ready(Got::Value(value)) => return Ok(value),
                Answer::Pending => {}
                answer => return Err(Stopped::Answer(answer)),
            }
            if self.stopped.load(Ordering::SeqCst) {
                return Err(Stopped::Memory);
            }
            thread::yield_now();
            call = Call::Poll;
        }
        unreachable!()
    }

    /// Begins a call and goes on with it to its end.
    fn whole(&self, party: u32, share: &mut Share<L>, call: Call) -> Result<Answer, Stopped> {
        let mut what = What::Begin(call, INPUTS);
        for _ in self.rt.forever() {
            match self.audited.step(self.rt, share, Move { party, what }) {
                Ok(Answer::Stepped) => what = What::Go(INPUTS),
                Ok(answer) => return Ok(answer),
                Err(Memory) => return Err(Stopped::Memory),
            }
        }
        unreachable!()
    }
}

/// The closed book of these workers.
fn book_of<L: Ledgers + Send + Sync, G: Gate + Sync, R: Threads + Wait + Sync>(
    rt: &R,
    alloc: Global,
    blanks: Blanks,
    workers: u32,
    gate: &G,
) -> Result<Book<World>, Stopped>
    requires names { blanks ≡ L.names }
    requires parts { L.names.parts ≡ workers }
{
    let Ok(world) = World::new(alloc, workers, 0) else {
        return Err(Stopped::Memory);
    };
    let Ok((audited, shares)) = Audited::<World, L>::new(alloc, blanks, world, workers) else {
        return Err(Stopped::Memory);
    };
    let stopped = AtomicBool::new(false);
    let work = AddOne {
        rt,
        gate,
        audited: &audited,
        stopped: &stopped,
    };
    let back = in_threads(rt, alloc, &work, gate, shares)?;
    Ok(audited.close(back))
}

/// So many workers over an audited mutex World of as many parties and value 0: the worker of number i moves
/// party i. Each passes the gate once, takes the lock, puts the value that it found plus 1, and drops its
/// guard. It answers the closed book.
///
/// A worker that a refused record stops tells the others, which look between their polls and stop too; then,
/// and where memory is refused elsewhere, it answers [`Stopped::Memory`], and [`Stopped::Thread`] where the
/// system starts no thread.
pub fn audited<G: Gate + Sync, R: Threads + Wait + Sync>(
    rt: &R,
    alloc: Global,
    workers: u32,
    gate: &G,
) -> Result<Book<World>, Stopped> {
    book_of::<Brand, G, R>(rt, alloc, Blanks::new(workers), workers, gate)
}
