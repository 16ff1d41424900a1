//! The future of a lease.

ghost use Rattle.std.specs.Prelude.{◌≡◌, false, true, IfNone, IfSome};
ghost use Rattle.async_driver.specs.Turns.{CanRefuse, IsTurn, OnPending};
ghost use Rattle.mutex_core.specs.Outcomes.{IsGivenUp};
ghost use Rattle.futures.specs.Task.{Covers, Keeps};
ghost use Rattle.bounded_pool.specs.Leases.{IsTaking, Taken};

use crate::lease::Lease;
use crate::pool::Pool;
use async_mutex::lock_futures::Lock;
use async_semaphore::lock_futures::Acquire;
use async_semaphore::{Polled, Refusal, SemaphoreGuard, Turn};
use futures::task::Context;
use std::marker::Model;
use std::sync::Wait;
use std::time::Clock;
use std::{fmt, mem};

/// How far a take is.
#[derive(Drop)]
enum Taking<'a, T: Drop, R: Wait> {
    /// It wants a permit. It has a future of that once it found none.
    Permit(Option<Acquire<'a, R>>),
    /// It has a permit, and waits for the list.
    List(SemaphoreGuard<'a, R>, Lock<'a, Vec<T>, R>),
    Over,
}

/// The future of [`Pool::take`]. Dropping it gives back what it has: its place in a list, or its permit.
///
/// Contracts see the pool, and whether it was ready.
pub struct Take<'a, T: Drop, R: Wait> {
    pool: &'a Pool<T, R>,
    at: Taking<'a, T, R>,
}

impl<'a, T: Drop, R: Wait> Model for Take<'a, T, R> {
    ghost use Rattle.bounded_pool.specs.Leases.{IsTaking, Taken, is_over};

    ghost Value = { Taken T R };

    ghost view = { λ t. record { pool = t.pool.now; is_over = is_over t.at } };

    ghost invariant = { λ t. IsTaking t.pool.now t.at };
}

impl<'a, T: Drop, R: Wait> Take<'a, T, R> {
    pub(crate) fn new(pool: &'a Pool<T, R>) -> Take<'a, T, R>
        ensures { (result.pool ≡ pool.now) × (result.is_over ≡ false) }
    {
        let at = Taking::Permit(None);
        Take { pool, at }
    }
}

impl<'a, T: Drop, R: Wait + Clock> Take<'a, T, R> {
    /// Polls once: ready with the lease, or pending.
    ///
    /// It is refused as [`Refusal::Memory`] or as [`Refusal::Starved`] of the list's lock; the future is then as when it was made, and may
    /// be polled again. Once it was ready it is refused as [`Refusal::Finished`], and nothing changes (`turn`). Pending, the task has registered
    /// somewhere (`registered`).
    pub fn poll(&mut self, cx: &mut Context<'_>) -> Turn<Lease<'a, T, R>>
        ensures pool { self.new.pool ≡ self.old.pool }
        ensures turn { IsTurn IsGivenUp (λ lease. lease.pool ≡ self.old.pool) self.old.is_over result self.new.is_over }
        ensures registered { OnPending result (Covers cx.new (λ _. ⊥)) }
        ensures kept { Keeps cx.old cx.new }
    {
        if let Taking::Permit(None) = self.at {
            if let Some(lease) = self.take_free() {
                return Turn::Ready(lease);
            }
        }
        self.poll_on(cx)
    }

    // Takes what is free with no future made, which the common way would pay for. A permit that it has got it keeps, and waits for the list.
    fn take_free(&mut self) -> Option<Lease<'a, T, R>>
        requires { self.old.is_over ≡ false }
        ensures pool { self.new.pool ≡ self.old.pool }
        ensures ready { IfSome result (λ lease. (lease.pool ≡ self.old.pool) × (self.new.is_over ≡ true)) }
        ensures goes_on { IfNone result (self.new.is_over ≡ false) }
    {
        let pool = self.pool;
        let permit = pool.permits.try_acquire()?;
        let Some(mut items) = pool.items.try_lock() else {
            self.at = Taking::List(permit, pool.items.lock());
            return None;
        };
        // The list has an item for each permit.
        let item = items.pop()?;
        drop(items);
        self.at = Taking::Over;
        Some(Lease::new(pool, item, permit))
    }

    // Polls once what it waits for.
    fn poll_on(&mut self, cx: &mut Context<'_>) -> Turn<Lease<'a, T, R>>
        ensures pool { self.new.pool ≡ self.old.pool }
        ensures turn { IsTurn IsGivenUp (λ lease. lease.pool ≡ self.old.pool) self.old.is_over result self.new.is_over }
        ensures registered { OnPending result (Covers cx.new (λ _. ⊥)) }
        ensures kept { Keeps cx.old cx.new }
    {
        let pool = self.pool;
        let at = mem::replace(&mut self.at, Taking::Over);
        let (permit, mut lock) = match at {
            Taking::Over => return Turn::Refused(Refusal::Finished),
            Taking::List(permit, lock) => (permit, lock),
            Taking::Permit(acquire) => {
                let mut acquire = match acquire {
                    Some(acquire) => acquire,
                    None => pool.permits.acquire(),
                };
                match acquire.poll(cx) {
                    Turn::Ready(permit) => (permit, pool.items.lock()),
                    Turn::Pending => {
                        self.at = Taking::Permit(Some(acquire));
                        return Turn::Pending;
                    }
                    Turn::Refused(refusal) => {
                        self.at = Taking::Permit(None);
                        return Turn::Refused(refusal);
                    }
                }
            }
        };
        let mut items = match lock.poll(cx) {
            Turn::Ready(items) => items,
            Turn::Pending => {
                self.at = Taking::List(permit, lock);
                return Turn::Pending;
            }
            Turn::Refused(Refusal::Starved) => {
                self.at = Taking::Permit(None);
                return Turn::Refused(Refusal::Starved);
            }
            Turn::Refused(_) => {
                self.at = Taking::Permit(None);
                return Turn::Refused(Refusal::Memory);
            }
        };
        let item = items.pop();
        drop(items);
        match item {
            Some(item) => Turn::Ready(Lease::new(pool, item, permit)),
            // The list has an item for each permit: so this isn't reached.
            None => {
                self.at = Taking::Permit(None);
                let _ = cx.yield_now::<()>();
                Turn::Pending
            }
        }
    }
}

impl<'a, T: Drop, R: Wait + Clock> Polled for Take<'a, T, R> {
    type Got = Lease<'a, T, R>;

    ghost use Rattle.std.specs.Prelude.{◌≡◌};
    ghost use Rattle.async_driver.specs.Turns.{CanRefuse};
    ghost use Rattle.mutex_core.specs.Outcomes.{IsGivenUp};

    ghost gives = { λ take lease. lease.pool ≡ take.pool };

    ghost refuses = { λ take. CanRefuse IsGivenUp take.is_over };

    fn poll_turn(&mut self, cx: &mut Context<'_>) -> Turn<Lease<'a, T, R>> {
        self.poll(cx)
    }
}

impl<'a, T: Drop, R: Wait> Drop for Take<'a, T, R> {
    fn drop(self) {
        let Self { pool: _, at } = self;
        drop(at);
    }
}

impl<T: Drop, R: Wait> fmt::Debug for Take<'_, T, R> {
    fn fmt<W: fmt::Write>(&self, f: &mut fmt::Formatter<W>) -> fmt::Result {
        f.write_str("Take { .. }")
    }
}
