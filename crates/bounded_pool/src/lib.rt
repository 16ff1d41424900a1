//! A pool of items that are lent: one at a time to each who takes one, and never more than there are.
//!
//! A [`Pool`] has a semaphore with a permit for each item, and the items that nobody has in a list under a mutex. Whoever takes one acquires a
//! permit, then the list's lock, and has a [`Lease`]; whoever gives it back puts the item into the list before the permit is available
//! again. It stands on the public types of `async_mutex` and `async_semaphore` alone.
#![tactic(auto)]

mod give;
mod lease;
mod pool;
mod take;

pub use async_semaphore::{Polled, Refusal, Settled, Turn};
pub use give::Give;
pub use lease::Lease;
pub use pool::Pool;
pub use take::Take;
