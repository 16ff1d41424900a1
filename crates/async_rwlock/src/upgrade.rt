//! The future of an upgrade.

ghost use Rattle.std.specs.Prelude.{◌≡◌, false, IfSome, None, Some};
ghost use Rattle.futures.specs.Task.{Covers, Keeps};
ghost use Rattle.async_driver.specs.Turns.{IsTurn, OnPending, OnRefused};
ghost use Rattle.async_rwlock.specs.Noted.{IsMemoOf, IsNotedOf};
ghost use Rattle.async_driver.specs.Stages.{AtLock, IsOf, is_finished};
ghost use Rattle.async_rwlock.specs.Stages.{At, HasReceiptAt, WaitsAt};
ghost use Rattle.async_rwlock.specs.Upgrades.{IsSameRight, OnUpgraded, begun_seat};
ghost use Rattle.access_core.specs.Accesses.{IsOf as IsSeatAt};
ghost use Rattle.rwlock_core.specs.Outcomes.{IsUpgradeRefusal};
ghost use Rattle.rwlock_core.specs.Parties.{AreSeatsOf, IsBegunOf, IsUpgradedBy, upgraded_turn};

use crate::noted::NotedTurn;
use crate::owns::Owns;
use crate::write_guard::WriteGuard;
use access_vault::Memo;
use async_driver::{Polled, Stage, Turn, no_share, nothing, put};
use futures::task::Context;
use lock_program::Refusal;
use mutex_core::Held;
use rwlock_core::{Begun, Upgraded, Upgrading, WaitsToWrite, Writer};
use std::marker::{Model, PhantomData};
use std::sync::Wait;
use std::time::Clock;
use std::{fmt, mem};

/// A future of the right to write in place of an upgradable read. From the call on that makes it nobody begins to read, and it is ready
/// once no reader is left. Until then it lends nothing. Dropping it gives up the right: readers and writers that wait are
/// notified.
///
/// Contracts see how far it is (`stage`), what it has at the lock meanwhile (`waiting`), which seat has the right (`seat`), and the value
/// (`value`).
pub struct UpgradeFuture<T, R: Wait, O: Owns<Value = T, Runtime = R>> {
    stage: Stage<O>,
    // There before the first poll, and where a poll was refused.
    begun: Option<(Begun, Memo<T>)>,
    // There while it waits, with the writer lock.
    waiting: Option<(WaitsToWrite, NotedTurn<T>)>,
    lock: PhantomData<(T, R)>,
}

impl<T, R: Wait, O: Owns<Value = T, Runtime = R>> Model for UpgradeFuture<T, R, O> {
    ghost use Rattle.std.specs.Prelude.{◌≡◌, IfSome, None};
    ghost use Rattle.async_rwlock.specs.Noted.{IsMemoOf, IsNotedOf};
    ghost use Rattle.async_driver.specs.Stages.{AtLock};
    ghost use Rattle.async_rwlock.specs.Stages.{upgrades_entry};
    ghost use Rattle.async_rwlock.specs.Upgrades.{Upgrade, upgrading_seat, upgrading_value};
    ghost use Rattle.access_core.specs.Accesses.{IsOf as IsSeatAt};
    ghost use Rattle.rwlock_core.specs.Parties.{IsBegunOf};

    ghost Value = { Upgrade O T };

    ghost view = { λ l. record { stage = l.stage; waiting = upgrades_entry l.waiting; seat = upgrading_seat l.begun l.waiting; value = upgrading_value l.begun l.waiting } };

    ghost invariant = { λ l. IfSome l.begun (λ b. (l.waiting ≡ None) × AtLock O.lock_of l.stage (λ lock. IsBegunOf lock.raw b.0 × IsMemoOf lock b.1)) × IfSome l.waiting (λ w. AtLock O.lock_of l.stage (λ lock. IsSeatAt lock.raw.access w.0.seat × IsNotedOf lock w.1)) };
}

impl<T, R: Wait, O: Owns<Value = T, Runtime = R>> UpgradeFuture<T, R, O> {
    #[inline]
    pub(crate) fn new(owner: O, begun: Begun, memo: Memo<T>) -> UpgradeFuture<T, R, O>
        requires { IsBegunOf (O.lock_of owner).raw begun × IsMemoOf (O.lock_of owner) memo }
        ensures lock { IsOf O.lock_of result.stage (O.lock_of owner) }
        ensures same { result.seat ≡ Some (begun_seat begun) }
        ensures value { result.value ≡ Some memo.value }
    {
        UpgradeFuture {
            stage: Stage::Waits(owner),
            begun: Some((begun, memo)),
            waiting: None,
            lock: PhantomData,
        }
    }
}

impl<T, R: Wait + Clock, O: Owns<Value = T, Runtime = R>> UpgradeFuture<T, R, O> {
    /// Polls once: ready with the guard, or pending. It is the same seat throughout, and the value stays (`same`).
    ///
    /// It is refused as [`Refusal::Memory`](crate::Refusal::Memory) if memory for its entry was refused. Then it keeps the right to be
    /// next, and may be polled again (`refused`). Once it was ready it is refused as
    /// [`Refusal::Finished`](crate::Refusal::Finished), and nothing changes (`turn`).
    ///
    /// Pending, it has an entry in the list of what it wants next, which keeps a waker of the task that polls (`receipt`). The task
    /// has registered with the source of that (`registered`), and keeps what it had registered before (`kept`).
    #[inline]
    pub fn poll(&mut self, cx: &mut Context<'_>) -> Turn<WriteGuard<T, R, O>>
        ensures turn { IsTurn IsUpgradeRefusal (λ guard. IsOf O.lock_of self.old.stage guard.lock) (is_finished self.old.stage) result (is_finished self.new.stage) }
        ensures share { is_finished self.new.stage ≡ false → self.new.stage ≡ self.old.stage }
        ensures same { IsSameRight result self.old self.new }
        ensures refused { OnRefused result (λ _. self.new.waiting ≡ None) }
        ensures receipt { OnPending result (HasReceiptAt O.lock_of self.old.stage cx.new self.new.waiting) }
        ensures registered { OnPending result (Covers cx.new (WaitsAt O.lock_of self.old.stage self.new.waiting)) }
        ensures kept { Keeps cx.old cx.new }
    {
        let (upgraded, memo) = match self.begun.take() {
            Some(begins) => {
                let (begun, memo) = begins;
                let upgraded = match begun {
                    Begun::Writes(writer) => Upgraded::Got(writer),
                    Begun::Awaits(upgrading) => {
                        first_poll::<T, R, O>(&self.stage, cx, upgrading)
                    }
                };
                (upgraded, memo)
            }
            None => match self.waiting.take() {
                Some(waits) => {
                    let (waiting, noted) = waits;
                    let NotedTurn { turn, memo } = noted;
                    let upgraded = later_poll::<T, R, O>(&self.stage, cx, waiting, turn);
                    (upgraded, memo)
                }
                None => return Turn::Refused(no_share(&self.stage)),
            },
        };
        match upgraded {
            Upgraded::Got(writer) => {
                let stage = mem::replace(&mut self.stage, Stage::Finished);
                Turn::Ready(ready::<T, R, O>(stage, writer, memo))
            }
            Upgraded::Waits(waiting, turn) => {
                put(&mut self.waiting, (waiting, NotedTurn { turn, memo }));
                Turn::Pending
            }
            Upgraded::NoMemory(upgrading) => {
                put(&mut self.begun, (Begun::Awaits(upgrading), memo));
                Turn::Refused(Refusal::Memory)
            }
        }
    }
}

impl<T, R: Wait + Clock, O: Owns<Value = T, Runtime = R>> Polled for UpgradeFuture<T, R, O> {
    type Got = WriteGuard<T, R, O>;

    ghost use Rattle.async_driver.specs.Stages.{IsOf, is_finished};
    ghost use Rattle.async_driver.specs.Turns.{CanRefuse};
    ghost use Rattle.async_rwlock.specs.Upgrades.{IsSameRight};
    ghost use Rattle.rwlock_core.specs.Outcomes.{IsUpgradeRefusal};

    ghost gives = { λ future guard. IsOf O.lock_of future.stage guard.lock × (future.seat ≡ Some guard.seat.id) × (future.value ≡ Some guard.value) };

    ghost refuses = { λ future. CanRefuse IsUpgradeRefusal (is_finished future.stage) };

    ghost goes_on = { λ old turn new. IsSameRight turn old new };

    fn poll_turn(&mut self, cx: &mut Context<'_>) -> Turn<WriteGuard<T, R, O>> {
        self.poll(cx)
    }
}

// The guard of an upgrade that writes, with the memo of the value.
#[inline]
fn ready<T, R: Wait, O: Owns<Value = T, Runtime = R>>(
    stage: Stage<O>,
    writer: Writer,
    memo: Memo<T>,
) -> WriteGuard<T, R, O>
    requires { AtLock O.lock_of stage (λ lock. AreSeatsOf lock.raw writer.seat writer.turn × IsMemoOf lock memo) }
    ensures lock { IsOf O.lock_of stage result.lock }
    ensures seat { result.seat ≡ writer.seat }
    ensures value { result.value ≡ memo.value }
{
    let Writer { seat, turn } = writer;
    match stage {
        Stage::Waits(owner) => WriteGuard::noted(owner, seat, NotedTurn { turn, memo }),
        Stage::Unowned | Stage::Finished => unreachable!(),
    }
}

// The first poll of an upgrade that waits until nobody else reads, whose seat has set the writer's bit.
#[inline]
fn first_poll<T, R: Wait, O: Owns<Value = T, Runtime = R>>(
    stage: &Stage<O>,
    cx: &mut Context<'_>,
    upgrading: Upgrading,
) -> Upgraded
    requires { At O.lock_of stage.now (λ raw. AreSeatsOf raw upgrading.seat upgrading.turn) }
    ensures outcome { OnUpgraded O.lock_of stage.now cx.new result }
    ensures turn { upgraded_turn result ≡ upgrading.turn }
    ensures same { IsUpgradedBy upgrading.seat result }
    ensures kept { Keeps cx.old cx.new }
{
    match stage {
        Stage::Waits(owner) => {
            let lock = owner.lock();
            lock.raw.poll_upgrade(&lock.rt, cx, upgrading)
        }
        Stage::Unowned | Stage::Finished => unreachable!(),
    }
}

// A poll of what waits.
#[inline(never)]
fn later_poll<T, R: Wait, O: Owns<Value = T, Runtime = R>>(
    stage: &Stage<O>,
    cx: &mut Context<'_>,
    waiting: WaitsToWrite,
    turn: Held<()>,
) -> Upgraded
    requires { At O.lock_of stage.now (λ raw. AreSeatsOf raw waiting.seat turn) }
    ensures outcome { OnUpgraded O.lock_of stage.now cx.new result }
    ensures turn { upgraded_turn result ≡ turn }
    ensures same { IsUpgradedBy waiting.seat result }
    ensures kept { Keeps cx.old cx.new }
{
    match stage {
        Stage::Waits(owner) => {
            let lock = owner.lock();
            lock.raw.poll_upgrade_later(&lock.rt, cx, waiting, turn)
        }
        Stage::Unowned | Stage::Finished => unreachable!(),
    }
}

impl<T, R: Wait, O: Owns<Value = T, Runtime = R>> Drop for UpgradeFuture<T, R, O> {
    #[inline]
    fn drop(self) {
        let Self {
            stage,
            begun,
            waiting,
            lock: _,
        } = self;
        match stage {
            Stage::Waits(owner) => give_back::<T, R, O>(owner, begun, waiting),
            Stage::Unowned | Stage::Finished => {
                nothing(begun);
                nothing(waiting);
            }
        }
    }
}

// What a dropped upgrade gives back that hasn't been ready: its entry, the writer's bit and the writer lock, and its share of the lock last. It stands
// apart, so that the drop of one that was ready is short.
#[inline(never)]
fn give_back<T, R: Wait, O: Owns<Value = T, Runtime = R>>(
    owner: O,
    begun: Option<(Begun, Memo<T>)>,
    waiting: Option<(WaitsToWrite, NotedTurn<T>)>,
)
    requires begun { IfSome begun (λ b. IsBegunOf (O.lock_of owner).raw b.0 × IsMemoOf (O.lock_of owner) b.1) }
    requires waiting { IfSome waiting (λ w. IsSeatAt (O.lock_of owner).raw.access w.0.seat × IsNotedOf (O.lock_of owner) w.1) }
{
    let lock = owner.lock();
    if let Some(begins) = begun {
        let (begun, memo) = begins;
        match begun {
            Begun::Writes(writer) => {
                let Writer { seat, turn } = writer;
                let turn = lock.end_memo(NotedTurn { turn, memo });
                lock.raw.release_write(&lock.rt, Writer { seat, turn });
            }
            Begun::Awaits(upgrading) => {
                let Upgrading { seat, turn } = upgrading;
                let turn = lock.end_memo(NotedTurn { turn, memo });
                let upgrading = Upgrading { seat, turn };
                lock.raw.cancel_upgrading(&lock.rt, upgrading);
            }
        }
    }
    if let Some(waits) = waiting {
        let (waiting, noted) = waits;
        let turn = lock.end_memo(noted);
        lock.raw.cancel_awaiting(&lock.rt, waiting, turn, true);
    }
    drop(owner);
}

impl<T, R: Wait, O: Owns<Value = T, Runtime = R>> fmt::Debug for UpgradeFuture<T, R, O> {
    fn fmt<W: fmt::Write>(&self, f: &mut fmt::Formatter<W>) -> fmt::Result {
        if O::is_share() {
            f.write_str("ArcUpgrade")
        } else {
            f.write_str("Upgrade")
        }
    }
}
