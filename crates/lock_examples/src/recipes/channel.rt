//! A channel with a bound, for many that send and many that receive.

use async_lock::{Mutex, Refusal, Runtime, Semaphore};
use std::alloc::Global;
use std::collections::VecDeque;
use std::thread::{self, Threads};

/// A queue under a mutex. Its free places are the permits of one semaphore, its items those of another. A struct that has locks in it derives `Drop`.
#[derive(Drop)]
struct Channel<R: Runtime> {
    queue: Mutex<VecDeque<u64, Global>, R>,
    free: Semaphore<R>,
    items: Semaphore<R>,
}

impl<R: Runtime + Copy> Channel<R> {
    // `?` makes a refusal of the error for no memory.
    fn new(rt: R, bound: usize) -> Result<Channel<R>, Refusal> {
        let places = VecDeque::with_capacity(rt.alloc(), bound)?;
        let queue = Mutex::new(rt, places)?;
        let free = Semaphore::new(rt, bound)?;
        let items = Semaphore::new(rt, 0)?;
        Ok(Channel { queue, free, items })
    }

    // Waits for a free place. If it is refused, nothing was sent, and the place is free again.
    fn send(&self, item: u64) -> Result<(), Refusal> {
        let place = self.free.acquire_blocking()?;
        let mut queue = self.queue.lock_blocking()?;
        queue.push_back(item)?;
        drop(queue);
        place.forget();
        self.items.add_permits(1)?;
        Ok(())
    }

    // Waits for an item. If it is refused, nothing was taken. None stands for an item that wasn't sent, since its sender was refused.
    fn receive(&self) -> Result<Option<u64>, Refusal> {
        let permit = self.items.acquire_blocking()?;
        let mut queue = self.queue.lock_blocking()?;
        let item = queue.pop_front();
        drop(queue);
        permit.forget();
        self.free.add_permits(1)?;
        Ok(item)
    }
}

// Sends the numbers from 1 to 100. Refused, it gives the receivers the permits of what it doesn't send, so that nobody waits for that.
fn send_hundred<R: Runtime + Copy>(channel: &Channel<R>) -> Result<(), Refusal> {
    for sent in 0..100_usize {
        if let Err(refusal) = channel.send(sent as u64 + 1) {
            channel.items.add_permits(100 - sent)?;
            return Err(refusal);
        }
    }
    Ok(())
}

// The sum of the hundred items that it received. Refused, it gives the senders the places of what it doesn't receive.
fn receive_hundred<R: Runtime + Copy>(channel: &Channel<R>) -> Result<u64, Refusal> {
    let mut sum = 0_u64;
    for received in 0..100_usize {
        match channel.receive() {
            Ok(item) => sum = sum.saturating_add(item.unwrap_or(0)),
            Err(refusal) => {
                channel.free.add_permits(100 - received)?;
                return Err(refusal);
            }
        }
    }
    Ok(sum)
}

fn in_four_threads<'a, R>(rt: &'a R, channel: &'a Channel<R>) -> Result<u64, Refusal>
where
    R: Runtime + Threads + Sync + Copy,
{
    let sends = || send_hundred(channel);
    let receives = || receive_hundred(channel);
    let senders = || thread::join(rt, &sends, &sends);
    let receivers = || thread::join(rt, &receives, &receives);
    let ((one, other), (first, second)) = thread::join(rt, &senders, &receivers);
    one?;
    other?;
    Ok(first?.saturating_add(second?))
}

/// Two threads send the numbers from 1 to 100 each, and two receive a hundred each. Returns the sum of what they received.
pub(crate) fn run<R>(rt: R) -> Result<u64, Refusal>
where
    R: Runtime + Threads + Sync + Copy,
{
    let channel = Channel::new(rt, 3)?;
    in_four_threads(&rt, &channel)
}
