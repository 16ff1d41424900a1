//! The writer.

ghost use Rattle.std.specs.Prelude.{◌≡◌, Some};
ghost use Rattle.async_rwlock.specs.Noted.{IsNotedOf};
ghost use Rattle.access_core.specs.Accesses.{IsOf as IsSeatOf, IsWriting, with_call, with_downgrade};
ghost use Rattle.rwlock_core.specs.Parties.{IsWriterOf};

use crate::acquired::Acquired;
use crate::noted::NotedTurn;
use crate::owns::Owns;
use crate::read_guard::ReadGuard;
use crate::releases::Releases;
use crate::upgradable_guard::UpgradableGuard;
use access_vault::Grip;
use futures::task::Context;
use mutex_core::Vain;
use rwlock_core::{Outcome, Pledge, RawRwLock, Seat, Upgradable, WaitsFor, Writer};
use std::fmt;
use std::marker::{Model, PhantomData};
use std::ops::Deref;
use std::sync::Wait;
use std::time::Clock;

/// The right to write, and the value to read and write. Dropping it ends the right. It notifies the readers that wait, and one of
/// those who wait to write or to read upgradably.
///
/// Its type keeps that its seat writes, and that the value is lent against that. Contracts see the lock, the value, the seat with
/// what it knows of itself, and the number of its seat of the writer lock.
pub struct WriteGuard<T, R: Releases, O: Owns<Value = T, Runtime = R>> {
    pub(crate) owner: O,
    pub(crate) grip: Grip<T>,
    // The seat, while what it says is lent.
    pledge: Pledge,
    // The writer lock, with a memo of the value that was there first.
    noted: NotedTurn<T>,
    runtime: PhantomData<R>,
}

impl<T, R: Releases, O: Owns<Value = T, Runtime = R>> Model for WriteGuard<T, R, O> {
    ghost use Rattle.std.specs.Prelude.{◌≡◌, false, [], Some};
    ghost use Rattle.async_rwlock.specs.Guards.{Held};
    ghost use Rattle.async_rwlock.specs.Noted.{IsNotedOf};
    ghost use Rattle.access_core.specs.Accesses.{IsWriting, seated};

    ghost Value = { Held T R };

    ghost view = { λ g. record { lock = O.lock_of g.owner; value = g.grip.value; seat = seated (O.lock_of g.owner).raw.access.table g.grip.id g.grip.view g.pledge.calls.number; turn_seat = Some g.noted.turn.seat.id } };

    ghost invariant = { λ g. (g.grip.vault_id ≡ (O.lock_of g.owner).vault.vault_id) × (g.grip.view.has_lists ≡ false) × IsWriting (seated (O.lock_of g.owner).raw.access.table g.grip.id g.grip.view g.pledge.calls.number) × IsNotedOf (O.lock_of g.owner) g.noted × (g.pledge.badge.views ≡ []) };
}

impl<T, R: Releases, O: Owns<Value = T, Runtime = R>> Acquired for WriteGuard<T, R, O> {
    type Owner = O;

    type Right = Writer;

    type Vain = Vain<()>;

    type Waiting = WaitsFor;

    ghost use Rattle.std.specs.Prelude.{⊤, Some};
    ghost use Rattle.rwlock_core.specs.Outcomes.{IsWriteRefusal};
    ghost use Rattle.rwlock_core.specs.Parties.{IsTaking, IsWriterOf, WaitsAt};
    ghost use Rattle.async_rwlock.specs.Stages.{writes_entry};

    ghost held = { λ guard. guard };

    ghost has_room = { λ _. ⊤ };

    ghost is_let_in = { IsWriterOf };

    ghost seat_of = { λ writer. writer.seat };

    ghost turn_of = { λ writer. Some writer.turn.seat.id };

    ghost has_looked = { IsTaking };

    ghost waits_at = { WaitsAt };

    ghost entry = { writes_entry };

    ghost refuses = { IsWriteRefusal };

    const NAME: &'static str = "Write { .. }";

    const SHARED_NAME: &'static str = "WriteArc { .. }";

    #[inline]
    fn new(owner: O, writer: Writer) -> WriteGuard<T, R, O> {
        let Writer { seat, turn } = writer;
        let noted = owner.lock().lend_memo(turn);
        WriteGuard::noted(owner, seat, noted)
    }

    #[inline]
    fn first_look<W: Wait>(
        raw: &RawRwLock,
        rt: &W,
        cx: &mut Context<'_>,
    ) -> Result<Outcome<Writer, WaitsFor>, Vain<()>> {
        match raw.first_look() {
            Ok(turn) => Ok(raw.write_with(rt, cx, turn)),
            Err(vain) => Err(vain),
        }
    }

    #[inline(never)]
    fn first_poll<W: Wait + Clock>(
        raw: &RawRwLock,
        rt: &W,
        cx: &mut Context<'_>,
        vain: Vain<()>,
    ) -> Outcome<Writer, WaitsFor> {
        raw.poll_write(rt, cx, vain)
    }

    #[inline(never)]
    fn later_poll<W: Wait + Clock>(
        raw: &RawRwLock,
        rt: &W,
        cx: &mut Context<'_>,
        waiting: WaitsFor,
    ) -> Outcome<Writer, WaitsFor> {
        raw.poll_write_later(rt, cx, waiting)
    }

    fn cancel<W: Wait>(raw: &RawRwLock, rt: &W, waiting: WaitsFor) {
        raw.cancel_write(rt, waiting);
    }

    ghost for_memory = { tt };

    ghost never_finished = { λ no. no };
}

impl<T, R: Releases, O: Owns<Value = T, Runtime = R>> WriteGuard<T, R, O> {
    // The guard of a seat that writes, with the writer lock: the value is the memo's.
    #[inline]
    pub(crate) fn noted(owner: O, seat: Seat, noted: NotedTurn<T>) -> WriteGuard<T, R, O>
        requires of { IsSeatOf (O.lock_of owner).raw.access seat × IsNotedOf (O.lock_of owner) noted }
        requires writes { IsWriting seat }
        ensures lock { result.lock ≡ O.lock_of owner }
        ensures seat { result.seat ≡ seat }
        ensures turn { result.turn_seat ≡ Some noted.turn.seat.id }
        ensures value { result.value ≡ noted.memo.value }
    {
        let NotedTurn { turn, mut memo } = noted;
        let (grip, pledge) = owner.lock().lend_write(seat, &mut memo);
        WriteGuard {
            owner,
            grip,
            pledge,
            noted: NotedTurn { turn, memo },
            runtime: PhantomData,
        }
    }

    // Who has the lock, and the party with its right. Nothing is lent any more.
    fn into_party(self) -> (O, Writer)
        ensures owner { O.lock_of result.0 ≡ self.lock }
        ensures party { IsWriterOf self.lock.raw result.1 }
        ensures same { result.1.seat ≡ self.seat }
    {
        let (owner, seat, noted) = self.into_noted();
        let turn = owner.lock().end_memo(noted);
        (owner, Writer { seat, turn })
    }

    // Who has the lock, and its seat, with the writer lock and the memo of the value, which isn't lent any more.
    #[inline]
    fn into_noted(self) -> (O, Seat, NotedTurn<T>)
        ensures owner { O.lock_of result.0 ≡ self.lock }
        ensures of { IsSeatOf self.lock.raw.access result.1 × IsNotedOf self.lock result.2 }
        ensures writes { IsWriting result.1 }
        ensures same { result.1 ≡ self.seat }
        ensures value { result.2.memo.value ≡ self.value }
    {
        let Self {
            owner,
            grip,
            pledge,
            noted,
            runtime: _,
        } = self;
        let NotedTurn { turn, mut memo } = noted;
        let seat = owner.lock().end_write(grip, pledge, &mut memo);
        (owner, seat, NotedTurn { turn, memo })
    }

    /// Reads in place of writing, and notifies the readers that wait. Upgradable readers and writers that wait may go on.
    ///
    /// It is the same seat, which has a right before and after, in one call (`same`), and the value stays (`value`).
    ///
    /// ```
    /// let reader = RwLockWriteGuard::downgrade(writer);
    /// ```
    pub fn downgrade(guard: Self) -> ReadGuard<T, R, O>
        ensures lock { result.lock ≡ guard.lock }
        ensures same { result.seat ≡ with_downgrade (with_call guard.seat) }
        ensures value { result.value ≡ guard.value }
    {
        let (owner, seat, mut noted) = guard.into_noted();
        let lock = owner.lock();
        let (reader, downgrading) = lock.raw.begin_downgrade(seat);
        // While the writer lock is still there, the memo says that the value lent for reading is the one that was lent for writing.
        let mut reader = ReadGuard::of(owner, reader);
        reader.note(&mut noted.memo);
        let lock = reader.owner.lock();
        let turn = lock.end_memo(noted);
        lock.rt.end_downgrade(&lock.raw, downgrading, turn);
        reader
    }

    /// Reads in place of writing, with the right to upgrade, and notifies the readers that wait. It is the same seat, which has a right
    /// before and after, in one call (`same`), and the value stays (`value`).
    ///
    /// ```
    /// let upgradable = RwLockWriteGuard::downgrade_to_upgradable(writer);
    /// ```
    pub fn downgrade_to_upgradable(guard: Self) -> UpgradableGuard<T, R, O>
        ensures lock { result.lock ≡ guard.lock }
        ensures same { result.seat ≡ with_downgrade (with_call guard.seat) }
        ensures value { result.value ≡ guard.value }
    {
        let (owner, seat, noted) = guard.into_noted();
        let NotedTurn { turn, memo } = noted;
        let writer = Writer { seat, turn };
        let lock = owner.lock();
        let Upgradable { seat, turn } = lock.rt.downgrade_to_upgradable(&lock.raw, writer);
        UpgradableGuard::noted(owner, seat, NotedTurn { turn, memo })
    }
}

impl<T, R: Releases, O: Owns<Value = T, Runtime = R>> WriteGuard<T, R, O> {
    /// Two writers of one lock are absurd, so no run comes here: the contract lets a proof end where it has both.
    ///
    /// The Rust crate has no such call.
    ///
    /// ```
    /// RwLockWriteGuard::never_two(first, second);
    /// ```
    pub fn never_two<P: Owns<Value = T, Runtime = R>>(guard: Self, other: WriteGuard<T, R, P>)
        requires { guard.lock ≡ other.lock }
        ensures { ⊥ }
    {
        let (owner, writer) = guard.into_party();
        let (_others, twin) = other.into_party();
        owner.lock().raw.turn.never_two(writer.turn, twin.turn);
        unreachable!()
    }

    /// A writer beside who may upgrade is absurd, as two writers are.
    ///
    /// ```
    /// RwLockWriteGuard::never_beside_upgradable(writer, upgradable);
    /// ```
    pub fn never_beside_upgradable<P: Owns<Value = T, Runtime = R>>(
        guard: Self,
        other: UpgradableGuard<T, R, P>,
    )
        requires { guard.lock ≡ other.lock }
        ensures { ⊥ }
    {
        let (owner, writer) = guard.into_party();
        let (_others, upgradable) = other.into_party();
        owner
            .lock()
            .raw
            .turn
            .never_two(writer.turn, upgradable.turn);
        unreachable!()
    }

    /// A writer beside a reader is absurd, as two writers are.
    ///
    /// ```
    /// RwLockWriteGuard::never_beside(writer, reader);
    /// ```
    pub fn never_beside<P: Owns<Value = T, Runtime = R>>(guard: Self, reader: ReadGuard<T, R, P>)
        requires { guard.lock ≡ reader.lock }
        ensures { ⊥ }
    {
        let (owner, writer) = guard.into_party();
        let (_others, beside) = reader.into_party();
        owner
            .lock()
            .raw
            .access
            .never_beside(writer.seat, beside.seat);
        unreachable!()
    }
}

impl<T, R: Releases, O: Owns<Value = T, Runtime = R>> Deref for WriteGuard<T, R, O> {
    type Target = T;

    ghost deref_gives = { λ guard value. value ≡ guard.value };

    fn deref(&self) -> &T {
        self.grip.get(&self.owner.lock().vault)
    }
}

impl<T, R: Releases, O: Owns<Value = T, Runtime = R>> Drop for WriteGuard<T, R, O> {
    fn drop(self) {
        let (owner, writer) = self.into_party();
        let lock = owner.lock();
        lock.rt.release_write(&lock.raw, writer);
        drop(owner);
    }
}

impl<T: fmt::Debug, R: Releases, O: Owns<Value = T, Runtime = R>> fmt::Debug
    for WriteGuard<T, R, O> {
    fn fmt<W: fmt::Write>(&self, f: &mut fmt::Formatter<W>) -> fmt::Result {
        let value: &T = self;
        value.fmt(f)
    }
}

impl<T: fmt::Display, R: Releases, O: Owns<Value = T, Runtime = R>> fmt::Display
    for WriteGuard<T, R, O> {
    fn fmt<W: fmt::Write>(&self, f: &mut fmt::Formatter<W>) -> fmt::Result {
        let value: &T = self;
        value.fmt(f)
    }
}
