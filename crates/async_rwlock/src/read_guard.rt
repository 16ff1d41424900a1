//! A reader.

ghost use Rattle.std.specs.Prelude.{◌≡◌};
ghost use Rattle.rwlock_core.specs.Parties.{IsReaderOf};

use crate::acquired::Acquired;
use crate::owns::Owns;
use crate::releases::Releases;
use access_vault::{Glance, Memo};
use futures::task::Context;
use rwlock_core::{Outcome, Pledge, RawRwLock, Reader, Seat, WaitsToRead};
use std::fmt;
use std::marker::{Model, PhantomData};
use std::ops::Deref;
use std::sync::Wait;
use std::time::Clock;

/// A right to read, and the value to read. Dropping it ends the right; the last reader notifies the writer that waits for this.
///
/// Its type keeps that its seat reads, and that the value is lent against that. Contracts see the lock, the value, and the seat with what it
/// knows of itself.
pub struct ReadGuard<T, R: Releases, O: Owns<Value = T, Runtime = R>> {
    pub(crate) owner: O,
    glance: Glance<T>,
    // The seat, while what it says is lent.
    pledge: Pledge,
    runtime: PhantomData<R>,
}

impl<T, R: Releases, O: Owns<Value = T, Runtime = R>> Model for ReadGuard<T, R, O> {
    ghost use Rattle.std.specs.Prelude.{◌≡◌, false, [], None};
    ghost use Rattle.async_rwlock.specs.Guards.{Held};
    ghost use Rattle.access_core.specs.Accesses.{IsReading, seated};

    ghost Value = { Held T R };

    ghost view = { λ g. record { lock = O.lock_of g.owner; value = g.glance.value; seat = seated (O.lock_of g.owner).raw.access.table g.glance.id g.glance.view g.pledge.calls.number; turn_seat = None } };

    ghost invariant = { λ g. (g.glance.vault_id ≡ (O.lock_of g.owner).vault.vault_id) × (g.glance.view.has_lists ≡ false) × IsReading (seated (O.lock_of g.owner).raw.access.table g.glance.id g.glance.view g.pledge.calls.number) × (g.pledge.badge.views ≡ []) };
}

impl<T, R: Releases, O: Owns<Value = T, Runtime = R>> Acquired for ReadGuard<T, R, O> {
    type Owner = O;

    type Right = Reader;

    type Vain = Seat;

    type Waiting = WaitsToRead;

    ghost use Rattle.std.specs.Prelude.{None};
    ghost use Rattle.access_core.specs.Accesses.{IsOf, IsIdle, IsLetIn};
    ghost use Rattle.rwlock_core.specs.Outcomes.{IsReadRefusal};
    ghost use Rattle.async_rwlock.specs.Guards.{HasFoundRoom};
    ghost use Rattle.async_rwlock.specs.Stages.{reads_entry};

    ghost held = { λ guard. guard };

    ghost has_room = { λ guard. HasFoundRoom guard };

    ghost is_let_in = { λ raw reader. IsLetIn raw.access reader.seat };

    ghost seat_of = { λ reader. reader.seat };

    ghost turn_of = { λ _. None };

    ghost has_looked = { λ raw seat. IsOf raw.access seat × IsIdle seat };

    ghost waits_at = { λ raw waiting. IsOf raw.access waiting.seat };

    ghost entry = { reads_entry };

    ghost refuses = { IsReadRefusal };

    const NAME: &'static str = "Read { .. }";

    const SHARED_NAME: &'static str = "ReadArc { .. }";

    #[inline]
    fn new(owner: O, reader: Reader) -> ReadGuard<T, R, O> {
        ReadGuard::of(owner, reader)
    }

    #[inline]
    fn first_look<W: Wait>(
        raw: &RawRwLock,
        rt: &W,
        cx: &mut Context<'_>,
    ) -> Result<Outcome<Reader, WaitsToRead>, Seat> {
        let _ = rt;
        let _ = cx;
        match raw.begin_read() {
            Ok(reader) => Ok(Outcome::Got(reader)),
            Err(seat) => Err(seat),
        }
    }

    #[inline(never)]
    fn first_poll<W: Wait + Clock>(
        raw: &RawRwLock,
        rt: &W,
        cx: &mut Context<'_>,
        seat: Seat,
    ) -> Outcome<Reader, WaitsToRead> {
        raw.poll_read(rt, cx, seat)
    }

    #[inline(never)]
    fn later_poll<W: Wait + Clock>(
        raw: &RawRwLock,
        rt: &W,
        cx: &mut Context<'_>,
        waiting: WaitsToRead,
    ) -> Outcome<Reader, WaitsToRead> {
        raw.poll_reader(rt, cx, waiting)
    }

    fn cancel<W: Wait>(raw: &RawRwLock, rt: &W, waiting: WaitsToRead) {
        raw.cancel_read(rt, waiting);
    }

    ghost for_memory = { tt };

    ghost never_finished = { λ no. no };
}

impl<T, R: Releases, O: Owns<Value = T, Runtime = R>> ReadGuard<T, R, O> {
    #[inline]
    pub(crate) fn of(owner: O, reader: Reader) -> ReadGuard<T, R, O>
        requires { IsReaderOf (O.lock_of owner).raw reader }
        ensures lock { result.lock ≡ O.lock_of owner }
        ensures seat { result.seat ≡ reader.seat }
    {
        let Reader { seat } = reader;
        let (glance, pledge) = owner.lock().lend_read(seat);
        ReadGuard {
            owner,
            glance,
            pledge,
            runtime: PhantomData,
        }
    }

    // A memo is of the value that is lent, while the writer lock is there too. Nothing is done.
    #[inline(always)]
    pub(crate) fn note(&mut self, memo: &mut Memo<T>)
        requires { memo.old.vault_id ≡ self.old.lock.vault.vault_id }
        ensures same { (self.new ≡ self.old) × (memo.new ≡ memo.old) }
        ensures value { memo.new.value ≡ self.new.value }
    {
        let lock = self.owner.lock();
        memo.agrees(&mut self.glance, &lock.vault);
    }

    // Who has the lock, and the party with its right. Nothing is lent any more.
    pub(crate) fn into_party(self) -> (O, Reader)
        ensures owner { O.lock_of result.0 ≡ self.lock }
        ensures party { IsReaderOf self.lock.raw result.1 }
        ensures same { result.1.seat ≡ self.seat }
    {
        let Self {
            owner,
            glance,
            pledge,
            runtime: _,
        } = self;
        let seat = owner.lock().end_read(glance, pledge);
        (owner, Reader { seat })
    }
}

impl<T, R: Releases, O: Owns<Value = T, Runtime = R>> ReadGuard<T, R, O> {
    /// Two readers of one lock read the same value, since nobody writes beside them. Nothing is done: both guards are as they were (`same`).
    ///
    /// The Rust crate has no such call.
    ///
    /// ```
    /// RwLockReadGuard::agrees(&mut first, &mut second);
    /// ```
    pub fn agrees<P: Owns<Value = T, Runtime = R>>(guard: &mut Self, other: &mut ReadGuard<T, R, P>)
        requires { guard.old.lock ≡ other.old.lock }
        ensures same { (guard.new ≡ guard.old) × (other.new ≡ other.old) }
        ensures value { guard.new.value ≡ other.new.value }
    {
        let lock = guard.owner.lock();
        guard.glance.agrees(&mut other.glance, &lock.vault);
    }
}

impl<T, R: Releases, O: Owns<Value = T, Runtime = R>> Deref for ReadGuard<T, R, O> {
    type Target = T;

    ghost deref_gives = { λ guard value. value ≡ guard.value };

    fn deref(&self) -> &T {
        self.glance.get(&self.owner.lock().vault)
    }
}

impl<T, R: Releases, O: Owns<Value = T, Runtime = R>> Drop for ReadGuard<T, R, O> {
    fn drop(self) {
        let Self {
            owner,
            glance,
            pledge,
            runtime: _,
        } = self;
        let lock = owner.lock();
        let seat = lock.end_read(glance, pledge);
        lock.rt.release_read(&lock.raw, seat);
        drop(owner);
    }
}

impl<T: fmt::Debug, R: Releases, O: Owns<Value = T, Runtime = R>> fmt::Debug
    for ReadGuard<T, R, O> {
    fn fmt<W: fmt::Write>(&self, f: &mut fmt::Formatter<W>) -> fmt::Result {
        let value: &T = self;
        value.fmt(f)
    }
}

impl<T: fmt::Display, R: Releases, O: Owns<Value = T, Runtime = R>> fmt::Display
    for ReadGuard<T, R, O> {
    fn fmt<W: fmt::Write>(&self, f: &mut fmt::Formatter<W>) -> fmt::Result {
        let value: &T = self;
        value.fmt(f)
    }
}
