//! An item that is lent.

ghost use Rattle.std.specs.Prelude.{◌≡◌};
ghost use Rattle.bounded_pool.specs.Leases.{Lent};

use crate::pool::Pool;
use async_semaphore::SemaphoreGuard;
use std::fmt;
use std::marker::Model;
use std::ops::{Deref, DerefMut};
use std::sync::Wait;

/// An item that is lent by a pool, and the permit by which it is. [`Pool::give`] and [`Pool::give_blocking`] give it back.
///
/// Dropping it loses the item, and the pool's limit is lower by one from then on. Its type keeps that the permit is one of this pool's. Contracts
/// see the pool, and the item.
pub struct Lease<'a, T: Drop, R: Wait> {
    pool: &'a Pool<T, R>,
    item: T,
    permit: SemaphoreGuard<'a, R>,
}

impl<'a, T: Drop, R: Wait> Model for Lease<'a, T, R> {
    ghost use Rattle.std.specs.Prelude.{◌≡◌};
    ghost use Rattle.bounded_pool.specs.Leases.{Lent};

    ghost Value = { Lent T R };

    ghost view = { λ l. record { pool = l.pool.now; item = l.item } };

    ghost invariant = { λ l. (l.permit.semaphore ≡ l.pool.now.permits) × (l.permit.permits ≡ 1) };
}

impl<'a, T: Drop, R: Wait> Lease<'a, T, R> {
    pub(crate) fn new(
        pool: &'a Pool<T, R>,
        item: T,
        permit: SemaphoreGuard<'a, R>,
    ) -> Lease<'a, T, R>
        requires { (permit.semaphore ≡ pool.now.permits) × (permit.permits ≡ 1) }
        ensures { (result.pool ≡ pool.now) × (result.item ≡ item) }
    {
        Lease { pool, item, permit }
    }

    /// Returns the pool that lent the item.
    pub fn pool(lease: &Lease<'a, T, R>) -> &'a Pool<T, R>
        ensures { result.now ≡ lease.now.pool }
    {
        lease.pool
    }

    // The item and the permit, apart.
    pub(crate) fn into_parts(self) -> (T, SemaphoreGuard<'a, R>)
        ensures item { result.0 ≡ self.entry.item }
        ensures permit { (result.1.semaphore ≡ self.entry.pool.permits) × (result.1.permits ≡ 1) }
    {
        let Self {
            pool: _,
            item,
            permit,
        } = self;
        (item, permit)
    }
}

impl<T: Drop, R: Wait> Drop for Lease<'_, T, R> {
    fn drop(self) {
        let Self {
            pool: _,
            item,
            permit,
        } = self;
        drop(item);
        let _ = permit.forget();
    }
}

impl<T: Drop, R: Wait> Deref for Lease<'_, T, R> {
    type Target = T;

    ghost deref_gives = { λ lease value. value ≡ lease.item };

    fn deref(&self) -> &T {
        &self.item
    }
}

impl<T: Drop, R: Wait> DerefMut for Lease<'_, T, R> {
    fn deref_mut(&mut self) -> &mut T {
        &mut self.item
    }
}

impl<T: fmt::Debug + Drop, R: Wait> fmt::Debug for Lease<'_, T, R> {
    fn fmt<W: fmt::Write>(&self, f: &mut fmt::Formatter<W>) -> fmt::Result {
        f.debug_struct("Lease")
            .field("item", &self.item)
            .finish_non_exhaustive()
    }
}
