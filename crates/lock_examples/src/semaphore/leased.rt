//! An item that is lent with a permit: a struct of one's own, over any item, that holds a guard.

use async_lock::{Refusal, Runtime, Semaphore, SemaphoreGuard};
use std::sync::Wait;

/// An item, and the permit by which it is lent.
#[derive(Drop)]
struct Leased<'a, T: Drop, R: Wait> {
    item: T,
    permit: SemaphoreGuard<'a, R>,
}

// Gives the permit back, and keeps the item.
fn give_back<T: Drop, R: Wait>(leased: Leased<'_, T, R>) -> T {
    let Leased { item, permit } = leased;
    drop(permit);
    item
}

// Whether an item can be lent while nobody else has one, and its permit is available afterwards.
fn lends<R: Wait>(semaphore: &Semaphore<R>) -> bool {
    let Some(permit) = semaphore.try_acquire() else {
        return false;
    };
    let leased = Leased {
        item: 42_u64,
        permit,
    };
    let is_lent = semaphore.available_permits() == 0;
    let item = give_back(leased);
    is_lent && item == 42 && semaphore.available_permits() == 1
}

/// Lends the one item that there is.
pub(crate) fn run<R>(rt: R) -> Result<bool, Refusal>
where
    R: Runtime,
{
    let semaphore = Semaphore::new(rt, 1)?;
    Ok(lends(&semaphore))
}
