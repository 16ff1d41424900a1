//! Permits that a task has.

ghost use Rattle.std.specs.Prelude.{◌≡◌};
ghost use Rattle.semaphore_core.specs.Semaphores.{Holds, with_forgotten};

use crate::owns::Owns;
use crate::releases::Releases;
use semaphore_core::{Lowered, Seat};
use std::fmt;
use std::marker::{Model, PhantomData};

/// Permits of a semaphore. Dropping it gives them back, and notifies the first waiter for whom those that are then available
/// are enough.
///
/// Its type keeps that its seat has exactly as many permits as it says, so a drop gives back neither more nor fewer; and that the seat's
/// last call got it these. Contracts see the semaphore, how many permits it has, and the seat with what it knows of itself.
pub struct PermitGuard<R: Releases, O: Owns<Runtime = R>> {
    owner: O,
    seat: Seat,
    permits: u64,
    runtime: PhantomData<R>,
}

impl<R: Releases, O: Owns<Runtime = R>> Model for PermitGuard<R, O> {
    ghost use Rattle.async_semaphore.specs.Guards.{Held};
    ghost use Rattle.semaphore_core.specs.Semaphores.{Holds};

    ghost Value = { Held R };

    ghost view = { λ g. record { semaphore = O.semaphore_of g.owner; permits = g.permits; seat = g.seat } };

    ghost invariant = { λ g. Holds (O.semaphore_of g.owner).raw g.permits g.seat };
}

impl<R: Releases, O: Owns<Runtime = R>> PermitGuard<R, O> {
    #[inline]
    pub(crate) fn new(owner: O, seat: Seat, permits: u64) -> PermitGuard<R, O>
        requires { Holds (O.semaphore_of owner).raw permits seat }
        ensures permits { (result.semaphore ≡ O.semaphore_of owner) × (result.permits ≡ permits) }
        ensures seat { result.seat ≡ seat }
    {
        PermitGuard {
            owner,
            seat,
            permits,
            runtime: PhantomData,
        }
    }

    /// Returns how many permits the guard has.
    ///
    /// ```
    /// let has_all = one.permits() == 1 && two.permits() == 2;
    /// ```
    pub fn permits(&self) -> usize
        ensures { result ≡ self.now.permits }
    {
        self.permits as usize
    }

    /// Ends the guard without giving its permits back: the semaphore's limit is lowered by as many, and they never come back.
    /// It waits for nobody and takes no memory.
    ///
    /// By the contract the receipt is of exactly the guard's permits (`permits`), and of its seat, which has done nothing else since
    /// (`seat`). The Rust crate's call returns nothing.
    ///
    /// ```
    /// semaphore.acquire_blocking()?.forget();
    /// ```
    pub fn forget(self) -> Lowered
        ensures permits { result.permits ≡ self.permits }
        ensures seat { result.ended ≡ with_forgotten self.permits self.seat }
    {
        let Self {
            owner,
            seat,
            permits,
            runtime: _,
        } = self;
        let lowered = owner.semaphore().raw.forget(seat, permits);
        drop(owner);
        lowered
    }
}

impl<R: Releases, O: Owns<Runtime = R>> Drop for PermitGuard<R, O> {
    // The call that gives the permits back waits for nobody: after one that may, the compiled code looks at a flag.
    #[inline]
    fn drop(self) {
        let Self {
            owner,
            seat,
            permits,
            runtime: _,
        } = self;
        let semaphore = owner.semaphore();
        let _ = match semaphore.raw.give(seat, permits) {
            Ok(given) => given,
            Err(notifies) => semaphore.rt.notify(&semaphore.raw, notifies),
        };
        drop(owner);
    }
}

impl<R: Releases, O: Owns<Runtime = R>> fmt::Debug for PermitGuard<R, O> {
    fn fmt<W: fmt::Write>(&self, f: &mut fmt::Formatter<W>) -> fmt::Result {
        let name = if O::is_share() {
            "SemaphoreGuardArc"
        } else {
            "SemaphoreGuard"
        };
        f.debug_struct(name)
            .field("permits", &self.permits)
            .finish_non_exhaustive()
    }
}
