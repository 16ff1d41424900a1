//! Whole calls of who upgrades, action by action as the lock's program has them.

ghost use Rattle.std.specs.Prelude.{true, ◌≡◌, ◌<◌, ⊤, IfErr, IfOk, MatchResult};
ghost use Rattle.futures.specs.Task.{Keeps};
ghost use Rattle.mutex_core.specs.Outcomes.{IsHeldOf};
ghost use Rattle.access_core.specs.Accesses.{IsOf, IsMarking, IsWriting, with_call, with_found, with_writing};
ghost use Rattle.lock_program.specs.declared.end.End.TheVariants as ends;
ghost use Rattle.lock_program.specs.declared.end.Next.TheVariants as next;
ghost use Rattle.sync_program.specs.declared.rwlock.Place.TheVariants as at;
ghost use Rattle.rwlock_core.specs.Courses.{next_in, without_memory};
ghost use Rattle.rwlock_core.specs.Outcomes.{OnAwaited};
ghost use Rattle.rwlock_core.specs.Parties.{AreSeatsOf, IsUpgradedBy, UpgradesAs, IsUpgradingOf, IsBegunOf, IsBegunBy, OnUpgraded, begun_turn, upgraded_turn};

use crate::course::Course;
use crate::party::{Awaited, Begun, Turn, Upgradable, Upgraded, Upgrading, WaitsToWrite, Writer};
use crate::rwlock::RawRwLock;
use access_core::Readers;
use futures::task::Context;
use lock_program::{End, Refusal};
use std::sync::Wait;
use sync_program::rwlock::{Ending, Place, RwLockCall};

impl RawRwLock {
    /// Writes in place of reading, if nobody else reads: one step of the same seat, which has a right before and after. Else it reads on, and its
    /// seat has found another reader, or the writer's bit (`reads`). It keeps the turn (`turn`).
    #[inline]
    pub fn try_upgrade(&self, upgradable: Upgradable) -> Result<Writer, Upgradable>
        requires { AreSeatsOf self.now upgradable.seat upgradable.turn }
        ensures turn { MatchResult result (λ writer. writer.turn ≡ upgradable.turn) (λ reader. reader.turn ≡ upgradable.turn) }
        ensures writes { IfOk result (λ writer. writer.seat ≡ with_writing (with_call upgradable.seat)) }
        ensures reads { IfErr result (λ reader. (reader.seat ≡ with_found reader.seat.found (with_call upgradable.seat)) × (2 < reader.seat.found)) }
    {
        let Upgradable { mut seat, turn } = upgradable;
        let at = Place::TryUpgrade;
        let mut course = Course::begin(&mut seat, RwLockCall::TryUpgrade, Place::Upgradable, at);
        if self.step_up(&mut seat, &mut course, at) {
            course.end(End::Granted, Place::Writing);
            Ok(Writer { seat, turn })
        } else {
            course.end(End::NotFree, Place::Upgradable);
            Err(Upgradable { seat, turn })
        }
    }

    /// Sets the writer's bit in place of reading: one step of the same seat, beside which nobody else can write. It writes at once where nobody else
    /// reads, else it waits until none does. It keeps the turn (`turn`). The seat begins one call (`same`).
    #[inline]
    pub fn begin_upgrade<R: Wait>(&self, rt: &R, upgradable: Upgradable) -> Begun
        requires { AreSeatsOf self.now upgradable.seat upgradable.turn }
        ensures of { IsBegunOf self.now result }
        ensures turn { begun_turn result ≡ upgradable.turn }
        ensures same { IsBegunBy upgradable.seat result }
    {
        let Upgradable { mut seat, turn } = upgradable;
        let at = Place::Upgrade;
        let mut course = Course::begin(&mut seat, RwLockCall::Upgrade, Place::Upgradable, at);
        let readers = self.mark_reading(rt, &mut seat, &mut course, at);
        course.end(End::Waiting, Place::LookUnlisted { upgrade: true });
        match readers {
            Readers::NoneLeft => Begun::Writes(Writer { seat, turn }),
            Readers::SomeLeft => Begun::Awaits(Upgrading { seat, turn }),
        }
    }

    /// Polls an upgrade for the first time, or one that was refused. It keeps the turn (`turn`).
    #[inline]
    pub fn poll_upgrade<R: Wait>(
        &self,
        rt: &R,
        cx: &mut Context<'_>,
        upgrading: Upgrading,
    ) -> Upgraded
        requires { AreSeatsOf self.now upgrading.seat upgrading.turn }
        ensures outcome { OnUpgraded self.now cx.new result }
        ensures turn { upgraded_turn result ≡ upgrading.turn }
        ensures same { IsUpgradedBy upgrading.seat result }
        ensures kept { Keeps cx.old cx.new }
    {
        let Upgrading { mut seat, turn } = upgrading;
        let at = Place::LookUnlisted { upgrade: true };
        let mut course = Course::begin(&mut seat, RwLockCall::Poll, at, at);
        let awaited = self.await_upgrade(rt, cx, seat, &mut course);
        upgraded_so(awaited, turn, course)
    }

    /// Polls an upgrade that waits. It keeps the turn (`turn`).
    #[inline]
    pub fn poll_upgrade_later<R: Wait>(
        &self,
        rt: &R,
        cx: &mut Context<'_>,
        waiting: WaitsToWrite,
        turn: Turn,
    ) -> Upgraded
        requires { AreSeatsOf self.now waiting.seat turn }
        ensures outcome { OnUpgraded self.now cx.new result }
        ensures turn { upgraded_turn result ≡ turn }
        ensures same { IsUpgradedBy waiting.seat result }
        ensures kept { Keeps cx.old cx.new }
    {
        let mut waiting = waiting;
        let at = Place::AwaitNoReaders { upgrade: true };
        let mut course = Course::begin(&mut waiting.seat, RwLockCall::Poll, at, at);
        let awaited = self.poll_awaiting(rt, cx, waiting, &mut course, true);
        upgraded_so(awaited, turn, course)
    }

    /// Drops an upgrade that stands in no list: the writer's bit and the turn are given back.
    #[inline]
    pub fn cancel_upgrading<R: Wait>(&self, rt: &R, upgrading: Upgrading)
        requires { IsUpgradingOf self.now upgrading }
    {
        let Upgrading { mut seat, turn } = upgrading;
        let from = Place::LookUnlisted { upgrade: true };
        let at = Place::Unmark { refused: false };
        let mut course = Course::begin(&mut seat, RwLockCall::Drop, from, at);
        self.clear_mark(rt, seat, &mut course, at, false);
        self.release_turn(rt, turn, &mut course, Ending::GivenBack);
        course.end(End::GivenBack, Place::Out);
    }

    /// Drops an upgrade that waits: it leaves its list first, then clears the bit and gives the turn back.
    #[inline]
    pub fn cancel_awaiting<R: Wait>(&self, rt: &R, waiting: WaitsToWrite, turn: Turn, upgrade: bool)
        requires seat { IsOf self.now.access waiting.seat }
        requires turn { IsHeldOf self.now.turn turn }
    {
        let mut waiting = waiting;
        let from = Place::AwaitNoReaders { upgrade };
        let at = Place::CancelAwait;
        let mut course = Course::begin(&mut waiting.seat, RwLockCall::Drop, from, at);
        self.cancel_mark(rt, waiting, &mut course);
        self.release_turn(rt, turn, &mut course, Ending::GivenBack);
        course.end(End::GivenBack, Place::Out);
    }
}

// What a poll of an upgrade comes to that has awaited so that no reader is inside.
#[inline(always)]
fn upgraded_so(awaited: Awaited, turn: Turn, course: Course) -> Upgraded
    requires awaited { OnAwaited awaited IsWriting (λ _. ⊤) IsMarking }
    requires course { OnAwaited awaited (λ _. next_in course ≡ next.End ends.Got at.Writing) (λ _. next_in course ≡ next.End ends.Pending (at.AwaitNoReaders true)) (λ _. next_in course ≡ without_memory true) }
    ensures { UpgradesAs awaited turn result }
{
    match awaited {
        Awaited::Writes(seat) => {
            course.end(End::Got, Place::Writing);
            Upgraded::Got(Writer { seat, turn })
        }
        Awaited::Waits(waiting) => {
            course.end(End::Pending, Place::AwaitNoReaders { upgrade: true });
            Upgraded::Waits(waiting, turn)
        }
        Awaited::NoMemory(seat) => {
            course.end(
                End::Refused(Refusal::Memory),
                Place::LookUnlisted { upgrade: true },
            );
            Upgraded::NoMemory(Upgrading { seat, turn })
        }
    }
}
