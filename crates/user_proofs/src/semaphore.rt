//! What a user can prove of permits: each item that is lent has one, and an item that is retired takes its permit along; a batch never has
//! more items than its guard has permits.

ghost use Rattle.std.specs.Prelude.{◌≡◌, ◌+◌, ◌≤◌, ◌++◌, ◌∷◌, [], length, true, false, IfSome};

use async_lock::{Lowered, Releases, Semaphore, SemaphoreGuard};
use std::alloc::Global;

/// An item that is lent, and the one permit by which it is.
#[derive(Drop)]
pub struct Lent<'a, R: Releases> {
    item: u64,
    permit: SemaphoreGuard<'a, R>,
    ghost one: { permit.permits ≡ 1 },
}

/// Lends an item, if a permit of this semaphore is available. It waits for nobody.
pub fn lend_one<'a, R: Releases>(semaphore: &'a Semaphore<R>, item: u64) -> Option<Lent<'a, R>>
    ensures { IfSome result (λ lent. (lent.item ≡ item) × (lent.permit.semaphore ≡ semaphore.now)) }
{
    let permit = semaphore.try_acquire()?;
    Some(Lent { item, permit })
}

/// Takes a lent item back.
pub fn given_back<R: Releases>(lent: Lent<'_, R>) -> u64
    ensures { result ≡ lent.entry.item }
{
    let Lent { item, permit } = lent;
    drop(permit);
    item
}

/// Retires a lent item: its permit goes for good, and no other.
pub fn retired<R: Releases>(lent: Lent<'_, R>) -> Lowered
    ensures one { result.permits ≡ 1 }
    ensures seat { result.ended.forgotten ≡ lent.entry.permit.seat.forgotten + 1 }
{
    let Lent { item: _, permit } = lent;
    permit.forget()
}

/// A batch of items, whose guard has a permit for each that it has room for.
#[derive(Drop)]
pub struct Batch<'a, R: Releases> {
    content: Vec<u64>,
    guard: SemaphoreGuard<'a, R>,
    ghost fits: { length content.items ≤ guard.permits },
}

/// Begins a batch of up to so many items, if as many permits of this semaphore are available. It waits for nobody.
pub fn batch_of<'a, R: Releases>(
    alloc: Global,
    semaphore: &'a Semaphore<R>,
    room: usize,
) -> Option<Batch<'a, R>>
    ensures { IfSome result (λ batch. (batch.content.items ≡ []) × (batch.guard.semaphore ≡ semaphore.now) × (batch.guard.permits ≡ room)) }
{
    let guard = semaphore.try_acquire_many(room)?;
    Some(Batch {
        content: Vec::new(alloc),
        guard,
    })
}

impl<R: Releases> Batch<'_, R> {
    /// Returns how many more items it has room for: with those that it has, as many as its guard has permits.
    pub fn room(&self) -> usize
        ensures { result + length self.now.content.items ≡ self.now.guard.permits }
    {
        self.guard.permits() - self.content.len()
    }

    /// Adds an item, if there is room, and memory. Its guard stays the same.
    pub fn add(&mut self, item: u64) -> bool
        ensures added { result ≡ true → self.new.content.items ≡ self.old.content.items ++ item ∷ [] }
        ensures not { result ≡ false → self.new.content.items ≡ self.old.content.items }
        ensures guard { self.new.guard ≡ self.old.guard }
    {
        self.room() > 0 && self.content.push(item).is_ok()
    }
}

/// Ends a batch: its permits go back.
pub fn finished<R: Releases>(batch: Batch<'_, R>) -> Vec<u64>
    ensures { result ≡ batch.entry.content }
{
    let Batch { content, guard } = batch;
    drop(guard);
    content
}

/// Ends a batch and takes what it had room for out of the semaphore for good.
pub fn retired_with<R: Releases>(batch: Batch<'_, R>) -> Lowered
    ensures { result.permits ≡ batch.entry.guard.permits }
{
    let Batch { content, guard } = batch;
    drop(content);
    guard.forget()
}
