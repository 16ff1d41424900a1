//! A reader that may become the writer.

ghost use Rattle.std.specs.Prelude.{◌≡◌, ◌<◌, IfOk, IfErr, MatchResult, Some};
ghost use Rattle.lock_program.specs.declared.refusal.Refusal.{Refusal};
ghost use Rattle.access_core.specs.Accesses.{IsOf as IsSeatOf, IsReading, with_call, with_found, with_writing};
ghost use Rattle.rwlock_core.specs.Parties.{IsUpgradableOf};
ghost use Rattle.async_rwlock.specs.Noted.{IsNotedOf};
ghost use Rattle.async_driver.specs.Stages.{IsOf};

use crate::acquired::Acquired;
use crate::noted::NotedTurn;
use crate::owns::Owns;
use crate::read_guard::ReadGuard;
use crate::releases::Releases;
use crate::upgrade::UpgradeFuture;
use crate::write_guard::WriteGuard;
use async_driver::wait_for;
use futures::task::Context;
use lock_program::Refusal;
use mutex_core::{Vain, Waiting};
use rwlock_core::{Outcome, RawRwLock, Reader, Seat, Upgradable, Writer};
use std::alloc::AllocGlobal;
use std::fmt;
use std::marker::Model;
use std::ops::Deref;
use std::random::RandomSource;
use std::sync::Wait;
use std::time::Clock;

/// A right to read that one task at a time has, and that can become a right to write; and the value to read. Dropping it ends the
/// right: who waits to write or to read upgradably is notified.
///
/// It is a reader that has the writer lock. Contracts see the lock, the value, the seat with what it knows of itself, and the number of its
/// seat of the writer lock.
pub struct UpgradableGuard<T, R: Releases, O: Owns<Value = T, Runtime = R>> {
    reader: ReadGuard<T, R, O>,
    // The writer lock, with the memo of the value.
    noted: NotedTurn<T>,
}

impl<T, R: Releases, O: Owns<Value = T, Runtime = R>> Model for UpgradableGuard<T, R, O> {
    ghost use Rattle.std.specs.Prelude.{◌≡◌, Some};
    ghost use Rattle.async_rwlock.specs.Guards.{Held};
    ghost use Rattle.async_rwlock.specs.Noted.{IsNotedOf};

    ghost Value = { Held T R };

    ghost view = { λ g. record g.reader { turn_seat = Some g.noted.turn.seat.id } };

    ghost invariant = { λ g. IsNotedOf g.reader.lock g.noted × (g.noted.memo.value ≡ g.reader.value) };
}

impl<T, R: Releases, O: Owns<Value = T, Runtime = R>> Acquired for UpgradableGuard<T, R, O> {
    type Owner = O;

    type Right = Upgradable;

    type Vain = Vain<()>;

    type Waiting = Waiting<()>;

    ghost use Rattle.std.specs.Prelude.{Some};
    ghost use Rattle.mutex_core.specs.Locks.{IsOf as IsTurnOf};
    ghost use Rattle.rwlock_core.specs.Outcomes.{IsUpgradableRefusal};
    ghost use Rattle.rwlock_core.specs.Parties.{IsTaking, IsUpgradableLetIn};
    ghost use Rattle.async_rwlock.specs.Guards.{HasFoundRoom};
    ghost use Rattle.async_rwlock.specs.Stages.{turn_entry};

    ghost held = { λ guard. guard };

    ghost has_room = { λ guard. HasFoundRoom guard };

    ghost is_let_in = { IsUpgradableLetIn };

    ghost seat_of = { λ upgradable. upgradable.seat };

    ghost turn_of = { λ upgradable. Some upgradable.turn.seat.id };

    ghost has_looked = { IsTaking };

    ghost waits_at = { λ raw waiting. IsTurnOf raw.turn waiting.seat };

    ghost entry = { turn_entry };

    ghost refuses = { IsUpgradableRefusal };

    const NAME: &'static str = "UpgradableRead { .. }";

    const SHARED_NAME: &'static str = "UpgradableReadArc { .. }";

    #[inline]
    fn new(owner: O, upgradable: Upgradable) -> UpgradableGuard<T, R, O> {
        let Upgradable { seat, turn } = upgradable;
        let noted = owner.lock().lend_memo(turn);
        UpgradableGuard::noted(owner, seat, noted)
    }

    #[inline]
    fn first_look<W: Wait>(
        raw: &RawRwLock,
        rt: &W,
        cx: &mut Context<'_>,
    ) -> Result<Outcome<Upgradable, Waiting<()>>, Vain<()>> {
        let _ = cx;
        match raw.first_look() {
            Ok(turn) => Ok(raw.upgradable_with(rt, turn)),
            Err(vain) => Err(vain),
        }
    }

    #[inline(never)]
    fn first_poll<W: Wait + Clock>(
        raw: &RawRwLock,
        rt: &W,
        cx: &mut Context<'_>,
        vain: Vain<()>,
    ) -> Outcome<Upgradable, Waiting<()>> {
        raw.poll_upgradable(rt, cx, vain)
    }

    #[inline(never)]
    fn later_poll<W: Wait + Clock>(
        raw: &RawRwLock,
        rt: &W,
        cx: &mut Context<'_>,
        waiting: Waiting<()>,
    ) -> Outcome<Upgradable, Waiting<()>> {
        raw.poll_upgradable_later(rt, cx, waiting)
    }

    fn cancel<W: Wait>(raw: &RawRwLock, rt: &W, waiting: Waiting<()>) {
        raw.turn.cancel(rt, waiting);
    }

    ghost for_memory = { tt };

    ghost never_finished = { λ no. no };
}

impl<T, R: Releases, O: Owns<Value = T, Runtime = R>> UpgradableGuard<T, R, O> {
    // The guard of a seat that reads, with the writer lock: the value is the memo's.
    #[inline]
    pub(crate) fn noted(owner: O, seat: Seat, noted: NotedTurn<T>) -> UpgradableGuard<T, R, O>
        requires of { IsSeatOf (O.lock_of owner).raw.access seat × IsNotedOf (O.lock_of owner) noted }
        requires reads { IsReading seat }
        ensures lock { result.lock ≡ O.lock_of owner }
        ensures seat { result.seat ≡ seat }
        ensures turn { result.turn_seat ≡ Some noted.turn.seat.id }
        ensures value { result.value ≡ noted.memo.value }
    {
        let mut noted = noted;
        let mut reader = ReadGuard::of(owner, Reader { seat });
        reader.note(&mut noted.memo);
        UpgradableGuard { reader, noted }
    }

    // Who has the lock, and the party with its right. Nothing is lent any more.
    #[inline]
    pub(crate) fn into_party(self) -> (O, Upgradable)
        ensures owner { O.lock_of result.0 ≡ self.lock }
        ensures party { IsUpgradableOf self.lock.raw result.1 }
        ensures same { result.1.seat ≡ self.seat }
    {
        let (owner, seat, noted) = self.into_noted();
        let turn = owner.lock().end_memo(noted);
        (owner, Upgradable { seat, turn })
    }

    // Who has the lock, and its seat, with the writer lock and the memo of the value, which isn't lent any more.
    #[inline]
    fn into_noted(self) -> (O, Seat, NotedTurn<T>)
        ensures owner { O.lock_of result.0 ≡ self.lock }
        ensures of { IsSeatOf self.lock.raw.access result.1 × IsNotedOf self.lock result.2 }
        ensures reads { IsReading result.1 }
        ensures same { result.1 ≡ self.seat }
        ensures value { result.2.memo.value ≡ self.value }
    {
        let Self { reader, noted } = self;
        let (owner, Reader { seat }) = reader.into_party();
        (owner, seat, noted)
    }

    /// Reads on without the right to upgrade: upgradable readers and writers that wait may go on. It is the same seat, and what it knows of
    /// itself stays (`same`). The value is lent throughout, and stays (`value`).
    ///
    /// ```
    /// let reader = RwLockUpgradableReadGuard::downgrade(upgradable);
    /// ```
    pub fn downgrade(guard: Self) -> ReadGuard<T, R, O>
        ensures lock { result.lock ≡ guard.lock }
        ensures same { result.seat ≡ guard.seat }
        ensures value { result.value ≡ guard.value }
    {
        let Self { reader, noted } = guard;
        let lock = reader.owner.lock();
        lock.rt.downgrade_turn(&lock.raw, lock.end_memo(noted));
        reader
    }

    /// Writes, if nobody else reads. Otherwise the guard comes back: by the contract its seat has found another reader, or the writer's bit
    /// (`beside`).
    ///
    /// It is the same seat, which has a right before and after, in one call (`writes`, `reads`), and the value stays (`value`).
    ///
    /// ```
    /// let Ok(mut writer) = RwLockUpgradableReadGuard::try_upgrade(upgradable) else {
    ///     return Ok(false);
    /// };
    /// *writer = writer.saturating_add(1);
    /// ```
    pub fn try_upgrade(guard: Self) -> Result<WriteGuard<T, R, O>, Self>
        ensures writes { IfOk result (λ writer. (writer.lock ≡ guard.lock) × (writer.seat ≡ with_writing (with_call guard.seat))) }
        ensures reads { IfErr result (λ reader. (reader.lock ≡ guard.lock) × (reader.seat ≡ with_found reader.seat.found (with_call guard.seat))) }
        ensures beside { IfErr result (λ reader. 2 < reader.seat.found) }
        ensures value { MatchResult result (λ writer. writer.value ≡ guard.value) (λ reader. reader.value ≡ guard.value) }
    {
        let (owner, seat, noted) = guard.into_noted();
        let NotedTurn { turn, memo } = noted;
        match owner.lock().raw.try_upgrade(Upgradable { seat, turn }) {
            Ok(Writer { seat, turn }) => {
                Ok(WriteGuard::noted(owner, seat, NotedTurn { turn, memo }))
            }
            Err(Upgradable { seat, turn }) => {
                Err(UpgradableGuard::noted(owner, seat, NotedTurn { turn, memo }))
            }
        }
    }
}

impl<T, R: Wait, O: Owns<Value = T, Runtime = R>> UpgradableGuard<T, R, O> {
    /// Begins to write: from now on nobody begins to read. The future is ready once no other reader is left. Until then it lends
    /// nothing. It is the same seat, in the future and in the guard that it gives (`same`), and the value stays (`value`).
    ///
    /// ```
    /// let upgrade = RwLockUpgradableReadGuard::upgrade(upgradable);
    /// let mut writer = wait_for(&rt, upgrade)?;
    /// *writer = writer.saturating_add(1);
    /// ```
    #[inline]
    pub fn upgrade(guard: Self) -> UpgradeFuture<T, R, O>
        ensures lock { IsOf O.lock_of result.stage guard.lock }
        ensures same { result.seat ≡ Some guard.seat.id }
        ensures value { result.value ≡ Some guard.value }
    {
        let (owner, seat, noted) = guard.into_noted();
        let NotedTurn { turn, memo } = noted;
        let lock = owner.lock();
        let begun = lock.raw.begin_upgrade(&lock.rt, Upgradable { seat, turn });
        UpgradeFuture::new(owner, begun, memo)
    }
}

impl<T, R: Releases, O: Owns<Value = T, Runtime = R>> UpgradableGuard<T, R, O> {
    /// Two that may upgrade of one lock are absurd, so no run comes here: the contract lets a proof end where it has both.
    ///
    /// The Rust crate has no such call.
    ///
    /// ```
    /// RwLockUpgradableReadGuard::never_two(first, second);
    /// ```
    pub fn never_two<P: Owns<Value = T, Runtime = R>>(guard: Self, other: UpgradableGuard<T, R, P>)
        requires { guard.lock ≡ other.lock }
        ensures { ⊥ }
    {
        let (owner, upgradable) = guard.into_party();
        let (_others, twin) = other.into_party();
        owner.lock().raw.turn.never_two(upgradable.turn, twin.turn);
        unreachable!()
    }
}

impl<T, R: Releases, O: Owns<Value = T, Runtime = R>> UpgradableGuard<T, R, O> {
    /// Who may upgrade and a reader of the same lock read the same value, as two readers do ([`ReadGuard::agrees`]).
    ///
    /// ```
    /// RwLockUpgradableReadGuard::agrees(&mut upgradable, &mut reader);
    /// ```
    pub fn agrees<P: Owns<Value = T, Runtime = R>>(
        guard: &mut Self,
        reader: &mut ReadGuard<T, R, P>,
    )
        requires { guard.old.lock ≡ reader.old.lock }
        ensures same { (guard.new ≡ guard.old) × (reader.new ≡ reader.old) }
        ensures value { guard.new.value ≡ reader.new.value }
    {
        ReadGuard::agrees(&mut guard.reader, reader);
    }
}

impl<T, R: Releases, O: Owns<Value = T, Runtime = R>> Deref for UpgradableGuard<T, R, O> {
    type Target = T;

    ghost deref_gives = { λ guard value. value ≡ guard.value };

    fn deref(&self) -> &T {
        &self.reader
    }
}

impl<T, R: Releases, O: Owns<Value = T, Runtime = R>> Drop for UpgradableGuard<T, R, O> {
    fn drop(self) {
        let (owner, upgradable) = self.into_party();
        let lock = owner.lock();
        lock.rt.release_upgradable(&lock.raw, upgradable);
        drop(owner);
    }
}

impl<T: fmt::Debug, R: Releases, O: Owns<Value = T, Runtime = R>> fmt::Debug
    for UpgradableGuard<T, R, O> {
    fn fmt<W: fmt::Write>(&self, f: &mut fmt::Formatter<W>) -> fmt::Result {
        let value: &T = self;
        value.fmt(f)
    }
}

impl<T: fmt::Display, R: Releases, O: Owns<Value = T, Runtime = R>> fmt::Display
    for UpgradableGuard<T, R, O> {
    fn fmt<W: fmt::Write>(&self, f: &mut fmt::Formatter<W>) -> fmt::Result {
        let value: &T = self;
        value.fmt(f)
    }
}

impl<
    T: Drop,
    R: Wait + Clock + RandomSource + AllocGlobal,
    O: Owns<Value = T, Runtime = R>,
> UpgradableGuard<T, R, O> {
    /// Writes once nobody else reads, blocking the calling thread until then. It takes no memory where nobody else reads now. If it is
    /// refused, which is for memory alone, the right is given up. It is the same seat (`same`), and the value stays (`value`).
    /// Don't call it in an async context: it blocks the thread that runs the other tasks, and may deadlock.
    ///
    /// ```
    /// let mut guard = RwLockUpgradableReadGuard::upgrade_blocking(guard)?;
    /// *guard = guard.saturating_add(by);
    /// ```
    pub fn upgrade_blocking(guard: Self) -> Result<WriteGuard<T, R, O>, Refusal>
        ensures lock { IfOk result (λ writer. writer.lock ≡ guard.lock) }
        ensures same { IfOk result (λ writer. writer.seat.id ≡ guard.seat.id) }
        ensures value { IfOk result (λ writer. writer.value ≡ guard.value) }
        ensures memory { IfErr result (λ refusal. refusal ≡ Refusal.Memory) }
    {
        let guard = match UpgradableGuard::try_upgrade(guard) {
            Ok(writer) => return Ok(writer),
            Err(guard) => guard,
        };
        let reader = &guard.reader;
        let Some(owner) = reader.owner.again() else {
            return Err(Refusal::Memory);
        };
        let settled = wait_for(&owner.lock().rt, UpgradableGuard::upgrade(guard));
        drop(owner);
        settled
    }
}
