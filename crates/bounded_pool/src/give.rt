//! The future that gives an item back.

ghost use Rattle.std.specs.Prelude.{◌≡◌, ◌⊎◌, ⊤, None, Some};
ghost use Rattle.async_driver.specs.Turns.{IsTurn, OnPending};
ghost use Rattle.mutex_core.specs.Outcomes.{IsGivenUp};
ghost use Rattle.futures.specs.Task.{Covers, Keeps};
ghost use Rattle.bounded_pool.specs.Leases.{Given, IsPutBack, is_none};

use crate::lease::Lease;
use async_mutex::MutexGuard;
use async_mutex::lock_futures::Lock;
use async_semaphore::{Polled, Refusal, Turn};
use futures::task::Context;
use std::fmt;
use std::marker::Model;
use std::sync::Wait;
use std::time::Clock;

/// The future of [`Pool::give`](crate::Pool::give). Dropping it before it was ready loses the item, as dropping its lease does;
/// [`Give::into_lease`] has the lease back.
///
/// Contracts see the lease that it keeps.
pub struct Give<'a, T: Drop, R: Wait> {
    lease: Option<Lease<'a, T, R>>,
    lock: Option<Lock<'a, Vec<T>, R>>,
}

impl<'a, T: Drop, R: Wait> Model for Give<'a, T, R> {
    ghost use Rattle.bounded_pool.specs.Leases.{Given};

    ghost Value = { Given T R };

    ghost view = { λ g. record { lease = g.lease } };
}

impl<'a, T: Drop, R: Wait> Give<'a, T, R> {
    pub(crate) fn new(lease: Lease<'a, T, R>) -> Give<'a, T, R>
        ensures { result.lease ≡ Some lease.entry }
    {
        Give {
            lease: Some(lease),
            lock: None,
        }
    }

    /// Ends the future, and returns the lease that it keeps: that of one that wasn't ready.
    pub fn into_lease(self) -> Option<Lease<'a, T, R>>
        ensures { result ≡ self.entry.lease }
    {
        let Self { lock, lease } = self;
        drop(lock);
        lease
    }
}

impl<'a, T: Drop, R: Wait + Clock> Give<'a, T, R> {
    /// Polls once: ready when the item is back in the pool, or pending.
    ///
    /// It is refused as [`Refusal::Memory`] or as [`Refusal::Starved`] of the list's lock; it keeps its lease then, and may be polled
    /// again (`stays`). Once it was ready it is refused as [`Refusal::Finished`], and nothing changes (`turn`).
    pub fn poll(&mut self, cx: &mut Context<'_>) -> Turn<()>
        ensures turn { IsTurn IsGivenUp (λ _. ⊤) (is_none self.old.lease) result (is_none self.new.lease) }
        ensures stays { (self.new.lease ≡ None) ⊎ (self.new.lease ≡ self.old.lease) }
        ensures registered { OnPending result (Covers cx.new (λ _. ⊥)) }
        ensures kept { Keeps cx.old cx.new }
    {
        let Some(lease) = self.lease.take() else {
            return Turn::Refused(Refusal::Finished);
        };
        let pool = Lease::pool(&lease);
        let mut lock = match self.lock.take() {
            Some(lock) => lock,
            // A list that is free is taken with no future made, which the common way would pay for.
            None => match pool.items.try_lock() {
                Some(items) => return self.put_back(lease, items),
                None => pool.items.lock(),
            },
        };
        let items = match lock.poll(cx) {
            Turn::Ready(items) => items,
            Turn::Pending => {
                self.lock = Some(lock);
                self.lease = Some(lease);
                return Turn::Pending;
            }
            Turn::Refused(Refusal::Starved) => {
                self.lease = Some(lease);
                return Turn::Refused(Refusal::Starved);
            }
            Turn::Refused(_) => {
                self.lease = Some(lease);
                return Turn::Refused(Refusal::Memory);
            }
        };
        self.put_back(lease, items)
    }

    // Puts the item back under the list's lock. Where memory is refused, it keeps the lease.
    fn put_back(&mut self, lease: Lease<'a, T, R>, items: MutexGuard<'_, Vec<T>, R>) -> Turn<()>
        ensures { IsPutBack lease.entry result self.new.lease }
    {
        let mut items = items;
        let pool = Lease::pool(&lease);
        let (item, permit) = lease.into_parts();
        match items.push(item) {
            Ok(()) => {
                drop(items);
                drop(permit);
                self.lease = None;
                Turn::Ready(())
            }
            Err(refused) => {
                drop(items);
                self.lease = Some(Lease::new(pool, refused.value, permit));
                Turn::Refused(Refusal::Memory)
            }
        }
    }
}

impl<'a, T: Drop, R: Wait + Clock> Polled for Give<'a, T, R> {
    type Got = ();

    ghost use Rattle.async_driver.specs.Turns.{CanRefuse};
    ghost use Rattle.mutex_core.specs.Outcomes.{IsGivenUp};
    ghost use Rattle.bounded_pool.specs.Leases.{is_none};

    ghost refuses = { λ give. CanRefuse IsGivenUp (is_none give.lease) };

    fn poll_turn(&mut self, cx: &mut Context<'_>) -> Turn<()> {
        self.poll(cx)
    }
}

impl<'a, T: Drop, R: Wait> Drop for Give<'a, T, R> {
    fn drop(self) {
        let Self { lease, lock } = self;
        // The lock's place in its list goes before the permit.
        drop(lock);
        drop(lease);
    }
}

impl<T: Drop, R: Wait> fmt::Debug for Give<'_, T, R> {
    fn fmt<W: fmt::Write>(&self, f: &mut fmt::Formatter<W>) -> fmt::Result {
        f.write_str("Give { .. }")
    }
}
