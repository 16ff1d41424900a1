//! The guard of a mutex.

ghost use Rattle.std.specs.Prelude.{◌≡◌};
ghost use Rattle.std.specs.Arc.{arc_value};
ghost use Rattle.mutex_core.specs.Outcomes.{IsHeldOf};

use crate::mutex::Mutex;
use crate::owns::Owns;
use crate::releases::Releases;
use mutex_core::{Held, Hold, Seat};
use std::fmt;
use std::marker::{Model, PhantomData};
use std::ops::Deref;
use std::sync::Arc;

/// Holds a mutex, and lends its value. Dropping it releases the mutex.
///
/// Its type keeps that its seat holds the lock, with the right to the lock's value. Contracts see the mutex, which of its seats holds it, and the value.
pub struct Guard<T, R: Releases, O: Owns<Value = T, Runtime = R>> {
    pub(crate) owner: O,
    seat: Seat<T>,
    pub(crate) hold: Hold<T>,
    runtime: PhantomData<R>,
}

impl<T, R: Releases, O: Owns<Value = T, Runtime = R>> Model for Guard<T, R, O> {
    ghost use Rattle.mutex_core.specs.Outcomes.{Holds};
    ghost use Rattle.async_mutex.specs.Guards.{Guarded};

    ghost Value = { Guarded T R };

    ghost view = { λ g. record { mutex = O.lock_of g.owner; seat = g.seat.id; value = g.hold.value } };

    ghost invariant = { λ g. Holds (O.lock_of g.owner).words g.seat g.hold };
}

impl<T, R: Releases, O: Owns<Value = T, Runtime = R>> Guard<T, R, O> {
    #[inline]
    pub(crate) fn new(owner: O, held: Held<T>) -> Guard<T, R, O>
        requires { IsHeldOf (O.lock_of owner).words held }
        ensures { (result.mutex ≡ O.lock_of owner) × (result.seat ≡ held.seat.id) }
    {
        let (seat, hold) = held.into_parts();
        Guard {
            owner,
            seat,
            hold,
            runtime: PhantomData,
        }
    }
}

impl<T, R: Releases, O: Owns<Value = T, Runtime = R>> Guard<T, R, O> {
    /// Two guards of one mutex are absurd, so no run comes here: the contract lets a proof end where it has both.
    ///
    /// The Rust crate has no such call.
    ///
    /// ```
    /// MutexGuard::never_two(first, second);
    /// ```
    pub fn never_two<P: Owns<Value = T, Runtime = R>>(guard: Self, other: Guard<T, R, P>)
        requires { guard.mutex ≡ other.mutex }
        ensures { ⊥ }
    {
        let (owner, held) = guard.into_held();
        let (others, twin) = other.into_held();
        owner.lock().words.never_two(held, twin);
        drop(owner);
        drop(others);
    }

    // Who has the mutex, and the party that holds it.
    fn into_held(self) -> (O, Held<T>)
        ensures owner { O.lock_of result.0 ≡ self.mutex }
        ensures held { IsHeldOf self.mutex.words result.1 }
    {
        let Self {
            owner,
            seat,
            hold,
            runtime: _,
        } = self;
        (owner, Held::of(seat, hold))
    }
}

impl<'a, T, R: Releases> Guard<T, R, &'a Mutex<T, R>> {
    /// Returns the mutex that the guard holds.
    ///
    /// ```
    /// let is_held = MutexGuard::source(&guard).try_lock().is_none();
    /// ```
    pub fn source(guard: &Guard<T, R, &'a Mutex<T, R>>) -> &'a Mutex<T, R>
        ensures { result.now ≡ guard.now.mutex }
    {
        guard.owner
    }
}

impl<T: Drop, R: Releases + Drop> Guard<T, R, Arc<Mutex<T, R>>> {
    /// Returns the mutex that the guard holds.
    ///
    /// ```
    /// let is_held = Mutex::try_lock_arc(MutexGuardArc::source(&guard)).is_none();
    /// ```
    pub fn source(guard: &Guard<T, R, Arc<Mutex<T, R>>>) -> &Arc<Mutex<T, R>>
        ensures { arc_value result.now ≡ guard.now.mutex }
    {
        &guard.owner
    }
}

impl<T, R: Releases, O: Owns<Value = T, Runtime = R>> Deref for Guard<T, R, O> {
    type Target = T;

    ghost deref_gives = { λ guard value. value ≡ guard.value };

    fn deref(&self) -> &T {
        self.hold.get(self.owner.lock().words.room())
    }
}

impl<T, R: Releases, O: Owns<Value = T, Runtime = R>> Drop for Guard<T, R, O> {
    #[inline]
    fn drop(self) {
        let Self {
            owner,
            seat,
            hold,
            runtime: _,
        } = self;
        owner.lock().release(Held::of(seat, hold));
        drop(owner);
    }
}

impl<T: fmt::Debug, R: Releases, O: Owns<Value = T, Runtime = R>> fmt::Debug for Guard<T, R, O> {
    fn fmt<W: fmt::Write>(&self, f: &mut fmt::Formatter<W>) -> fmt::Result {
        let value: &T = self;
        value.fmt(f)
    }
}

impl<T: fmt::Display, R: Releases, O: Owns<Value = T, Runtime = R>> fmt::Display
    for Guard<T, R, O> {
    fn fmt<W: fmt::Write>(&self, f: &mut fmt::Formatter<W>) -> fmt::Result {
        let value: &T = self;
        value.fmt(f)
    }
}
