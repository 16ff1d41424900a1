//! Whole calls of who takes the turn, action by action as the lock's program has them.
//!
//! Each action names its place in the table of `sync_program`, and asks that the call has come to it.

ghost use Rattle.std.specs.Prelude.{false, ⊤, ◌≡◌, MatchResult};
ghost use Rattle.futures.specs.Task.{Keeps};
ghost use Rattle.lock_queue.specs.Receipts.{IsReceipt};
ghost use Rattle.mutex_core.specs.Locks.{IsOf as IsTurnOf, IsSameSeat as IsSameTurn};
ghost use Rattle.mutex_core.specs.Outcomes.{IsHeldOf};
ghost use Rattle.access_core.specs.Accesses.{IsOf, IsMarking, IsWriting, with_call, with_downgrade};
ghost use Rattle.lock_program.specs.declared.end.End.TheVariants as ends;
ghost use Rattle.lock_program.specs.declared.end.Next.TheVariants as next;
ghost use Rattle.sync_program.specs.declared.rwlock.Place.TheVariants as at;
ghost use Rattle.rwlock_core.specs.Courses.{next_in, without_memory};
ghost use Rattle.rwlock_core.specs.Outcomes.{OnAwaited, OnOutcome, IsUpgradableRefusal, IsWriteRefusal};
ghost use Rattle.rwlock_core.specs.Parties.{AreSeatsOf, HasTurn, IsTaking, WaitsAs, GoesOnFrom, WritesAs, WritesOn, IsDowngradingOf, IsReaderOf, IsUpgradableLetIn, IsUpgradableOf, IsWriterOf, WaitsAt, HasReceipt};
ghost use Rattle.rwlock_core.specs.Vain.{IsVainUpgradable, IsVainWrite};

use crate::course::{Course, Unseated};
use crate::party::{
    Awaited, Downgrading, InVain, Outcome, Reader, Turn, Upgradable, WaitsFor, Writer,
};
use crate::rwlock::RawRwLock;
use access_core::{Left, Readers, Seat};
use futures::task::Context;
use lock_program::mutex::{LockCall, Place as TurnPlace};
use lock_program::{End, Refusal};
use mutex_core::{Outcome as TurnOutcome, Vain, Waiting};
use std::sync::Wait;
use std::time::Clock;
use sync_program::rwlock::{Ending, Place, Purpose, RwLockCall, Wanted};

impl RawRwLock {
    /// Looks at the turn, and takes it if it is free and nobody is starved for it: the first action of a first poll that wants it.
    #[inline]
    pub fn first_look(&self) -> Result<Turn, Vain<()>>
        ensures { MatchResult result (IsHeldOf self.now.turn) (IsTaking self.now) }
    {
        self.turn.first_look(LockCall::Lock, TurnPlace::Enter)
    }

    /// Reads with the turn at once, if the turn is free, nobody is starved for it, and fewer read than may. Whoever reads has found fewer readers
    /// than the lock's own limit (`IsUpgradableLetIn`), here and by the calls below.
    #[inline]
    pub fn try_upgradable_read<R: Wait>(&self, rt: &R) -> Result<Upgradable, InVain>
        ensures { MatchResult result (IsUpgradableLetIn self.now) (IsVainUpgradable self.now) }
    {
        let purpose = Purpose::UpgradableRead;
        let at = Place::TryTurn { purpose };
        let mut course = Unseated::begin(RwLockCall::TryUpgradableRead, Place::Out, at);
        let turn = match self.try_turn(&mut course, purpose) {
            Ok(turn) => turn,
            Err(vain) => {
                course.end(End::NotFree, Place::Out);
                return Err(InVain::Turn(vain));
            }
        };
        let (mut seat, seen) = self.access.sit_and_look();
        let mut course = course.sit_down(&mut seat);
        if self.add(
            rt,
            &mut seat,
            seen,
            &mut course,
            Place::Add { trying: true },
        ) {
            course.end(End::Granted, Place::Upgradable);
            return Ok(Upgradable { seat, turn });
        }
        self.release_turn(rt, turn, &mut course, Ending::NotFree { purpose });
        course.end(End::NotFree, Place::Out);
        Err(InVain::Inside(seat))
    }

    /// Goes on with an upgradable read that has the turn: it reads, or gives the turn back and is refused.
    #[inline]
    pub fn upgradable_with<R: Wait>(&self, rt: &R, turn: Turn) -> Outcome<Upgradable, Waiting<()>>
        requires { IsHeldOf self.now.turn turn }
        ensures { OnOutcome result (λ upgradable. IsUpgradableLetIn self.now upgradable × (upgradable.turn ≡ turn)) (λ _. ⊥) IsUpgradableRefusal }
    {
        let at = Place::Add { trying: false };
        let (mut seat, seen) = self.access.sit_and_look();
        let mut course = Course::with_turn(&mut seat, &turn, at);
        if self.add(rt, &mut seat, seen, &mut course, at) {
            course.end(End::Got, Place::Upgradable);
            return Outcome::Got(Upgradable { seat, turn });
        }
        seat.rise();
        self.release_turn(rt, turn, &mut course, Ending::RefuseReaders);
        course.end(
            End::Refused(Refusal::Readers),
            Place::Made {
                wanted: Wanted::UpgradableRead,
            },
        );
        Outcome::Refused(Refusal::Readers)
    }

    /// Polls an upgradable read for the first time, past a look at the turn in vain. It is refused for memory, for too many readers, or for
    /// too many starved waiters.
    #[inline]
    pub fn poll_upgradable<R: Wait + Clock>(
        &self,
        rt: &R,
        cx: &mut Context<'_>,
        vain: Vain<()>,
    ) -> Outcome<Upgradable, Waiting<()>>
        requires { IsTaking self.now vain }
        ensures outcome { OnOutcome result (IsUpgradableLetIn self.now) (λ waiting. IsTurnOf self.now.turn waiting.seat × IsReceipt self.now.turn.source cx.new waiting.whose) IsUpgradableRefusal }
        ensures kept { Keeps cx.old cx.new }
    {
        match self.turn.poll_first(rt, cx, vain) {
            TurnOutcome::Got(turn) => self.upgradable_with(rt, turn),
            TurnOutcome::Waits(waiting) => Outcome::Waits(waiting),
            TurnOutcome::Refused(gave_up) => Outcome::Refused(gave_up.refusal()),
        }
    }

    /// Polls an upgradable read that waits for the turn. It goes on with the same seat of the writer lock (`same`).
    #[inline]
    pub fn poll_upgradable_later<R: Wait + Clock>(
        &self,
        rt: &R,
        cx: &mut Context<'_>,
        waiting: Waiting<()>,
    ) -> Outcome<Upgradable, Waiting<()>>
        requires { IsTurnOf self.now.turn waiting.seat }
        ensures outcome { OnOutcome result (IsUpgradableLetIn self.now) (λ waiting. IsTurnOf self.now.turn waiting.seat × IsReceipt self.now.turn.source cx.new waiting.whose) IsUpgradableRefusal }
        ensures same { OnOutcome result (λ upgradable. IsSameTurn waiting.seat upgradable.turn.seat) (λ w. IsSameTurn waiting.seat w.seat) (λ _. ⊤) }
        ensures kept { Keeps cx.old cx.new }
    {
        match self.turn.poll_later(rt, cx, waiting) {
            TurnOutcome::Got(turn) => self.upgradable_with(rt, turn),
            TurnOutcome::Waits(waiting) => Outcome::Waits(waiting),
            TurnOutcome::Refused(gave_up) => Outcome::Refused(gave_up.refusal()),
        }
    }

    /// Writes at once, if the turn is free, nobody is starved for it, and nobody reads. Beside readers it gives the turn back.
    #[inline]
    pub fn try_write<R: Wait>(&self, rt: &R) -> Result<Writer, InVain>
        ensures { MatchResult result (IsWriterOf self.now) (IsVainWrite self.now) }
    {
        let purpose = Purpose::Write;
        let at = Place::TryTurn { purpose };
        let mut course = Unseated::begin(RwLockCall::TryWrite, Place::Out, at);
        let turn = match self.try_turn(&mut course, purpose) {
            Ok(turn) => turn,
            Err(vain) => {
                course.end(End::NotFree, Place::Out);
                return Err(InVain::Turn(vain));
            }
        };
        let mut seat = self.access.sit();
        let mut course = course.sit_down(&mut seat);
        if self.mark_free(&mut seat, &mut course, Place::TryWrite) {
            course.end(End::Granted, Place::Writing);
            return Ok(Writer { seat, turn });
        }
        self.release_turn(rt, turn, &mut course, Ending::NotFree { purpose });
        course.end(End::NotFree, Place::Out);
        Err(InVain::Inside(seat))
    }

    /// Goes on with a write that has the turn: it writes, waits until no reader is inside, or gives bit and turn back and is refused.
    #[inline]
    pub fn write_with<R: Wait>(
        &self,
        rt: &R,
        cx: &mut Context<'_>,
        turn: Turn,
    ) -> Outcome<Writer, WaitsFor>
        requires { IsHeldOf self.now.turn turn }
        ensures outcome { OnOutcome result (IsWriterOf self.now) (λ waits. WaitsAt self.now waits × HasReceipt self.now cx.new waits) IsWriteRefusal }
        ensures same { OnOutcome result (λ writer. writer.turn ≡ turn) (HasTurn turn) (λ _. ⊤) }
        ensures kept { Keeps cx.old cx.new }
    {
        let mut seat = self.access.sit();
        let mut course = Course::with_turn(&mut seat, &turn, Place::Mark);
        match self.mark(rt, &mut seat, &mut course, Place::Mark) {
            Readers::NoneLeft => {
                course.end(End::Got, Place::Writing);
                Outcome::Got(Writer { seat, turn })
            }
            Readers::SomeLeft => {
                let awaited = self.await_first(rt, cx, seat, &mut course, false);
                self.awaited_so(rt, awaited, turn, course)
            }
        }
    }

    // What a write's poll comes to that has awaited so that no reader is inside.
    #[inline]
    fn awaited_so<R: Wait>(
        &self,
        rt: &R,
        awaited: Awaited,
        turn: Turn,
        course: Course,
    ) -> Outcome<Writer, WaitsFor>
        requires awaited { OnAwaited awaited (λ seat. IsOf self.now.access seat × IsWriting seat) (λ waiting. IsOf self.now.access waiting.seat) (λ seat. IsOf self.now.access seat × IsMarking seat) }
        requires turn { IsHeldOf self.now.turn turn }
        requires course { OnAwaited awaited (λ _. next_in course ≡ next.End ends.Got at.Writing) (λ _. next_in course ≡ next.End ends.Pending (at.AwaitNoReaders false)) (λ _. next_in course ≡ without_memory false) }
        ensures { OnOutcome result (λ writer. IsWriterOf self.now writer × WritesAs awaited turn writer) (WaitsAs awaited turn) IsWriteRefusal }
    {
        match awaited {
            Awaited::Writes(seat) => {
                course.end(End::Got, Place::Writing);
                Outcome::Got(Writer { seat, turn })
            }
            Awaited::Waits(waiting) => {
                course.end(End::Pending, Place::AwaitNoReaders { upgrade: false });
                Outcome::Waits(WaitsFor::Readers(waiting, turn))
            }
            Awaited::NoMemory(seat) => self.refuse_write(rt, seat, turn, course),
        }
    }

    // Refuses a write for whose entry there was no memory: bit and turn are given back.
    #[cold]
    #[inline(never)]
    fn refuse_write<R: Wait>(
        &self,
        rt: &R,
        seat: Seat,
        turn: Turn,
        course: Course,
    ) -> Outcome<Writer, WaitsFor>
        requires seat { IsOf self.now.access seat × IsMarking seat }
        requires turn { IsHeldOf self.now.turn turn }
        requires course { next_in course ≡ without_memory false }
        ensures { OnOutcome result (λ _. ⊥) (λ _. ⊥) IsWriteRefusal }
    {
        let mut course = course;
        self.clear_mark(rt, seat, &mut course, Place::Unmark { refused: true }, true);
        self.release_turn(rt, turn, &mut course, Ending::RefuseMemory);
        course.end(
            End::Refused(Refusal::Memory),
            Place::Made {
                wanted: Wanted::Write,
            },
        );
        Outcome::Refused(Refusal::Memory)
    }

    /// Polls a write for the first time, past a look at the turn in vain. It is refused for memory, or for too many starved waiters.
    #[inline]
    pub fn poll_write<R: Wait + Clock>(
        &self,
        rt: &R,
        cx: &mut Context<'_>,
        vain: Vain<()>,
    ) -> Outcome<Writer, WaitsFor>
        requires { IsTaking self.now vain }
        ensures outcome { OnOutcome result (IsWriterOf self.now) (λ waits. WaitsAt self.now waits × HasReceipt self.now cx.new waits) IsWriteRefusal }
        ensures kept { Keeps cx.old cx.new }
    {
        match self.turn.poll_first(rt, cx, vain) {
            TurnOutcome::Got(turn) => self.write_with(rt, cx, turn),
            TurnOutcome::Waits(waiting) => Outcome::Waits(WaitsFor::Turn(waiting)),
            TurnOutcome::Refused(gave_up) => Outcome::Refused(gave_up.refusal()),
        }
    }

    /// Polls a write that waits. It goes on with the same seats, gives up no writer lock that it has, and its seat of the state begins one call
    /// (`same`).
    #[inline]
    pub fn poll_write_later<R: Wait + Clock>(
        &self,
        rt: &R,
        cx: &mut Context<'_>,
        waits: WaitsFor,
    ) -> Outcome<Writer, WaitsFor>
        requires { WaitsAt self.now waits }
        ensures outcome { OnOutcome result (IsWriterOf self.now) (λ waits. WaitsAt self.now waits × HasReceipt self.now cx.new waits) IsWriteRefusal }
        ensures same { OnOutcome result (WritesOn waits) (GoesOnFrom waits) (λ _. ⊤) }
        ensures kept { Keeps cx.old cx.new }
    {
        match waits {
            WaitsFor::Turn(waiting) => match self.turn.poll_later(rt, cx, waiting) {
                TurnOutcome::Got(turn) => self.write_with(rt, cx, turn),
                TurnOutcome::Waits(waiting) => Outcome::Waits(WaitsFor::Turn(waiting)),
                TurnOutcome::Refused(gave_up) => Outcome::Refused(gave_up.refusal()),
            },
            WaitsFor::Readers(waiting, turn) => {
                let mut waiting = waiting;
                let at = Place::AwaitNoReaders { upgrade: false };
                let mut course = Course::begin(&mut waiting.seat, RwLockCall::Poll, at, at);
                let awaited = self.poll_awaiting(rt, cx, waiting, &mut course, false);
                self.awaited_so(rt, awaited, turn, course)
            }
        }
    }

    /// Drops a write that waits: it leaves its list first, then clears the bit and gives the turn back, if it has them.
    #[inline]
    pub fn cancel_write<R: Wait>(&self, rt: &R, waits: WaitsFor)
        requires { WaitsAt self.now waits }
    {
        match waits {
            WaitsFor::Turn(waiting) => self.turn.cancel(rt, waiting),
            WaitsFor::Readers(waiting, turn) => self.cancel_awaiting(rt, waiting, turn, false),
        }
    }

    /// Reads no more: the last reader notifies who waits for this. Then it gives the turn back, and notifies the first that waits for it.
    #[inline]
    pub fn release_upgradable<R: Wait>(&self, rt: &R, upgradable: Upgradable)
        requires { IsUpgradableOf self.now upgradable }
    {
        let Upgradable { mut seat, turn } = upgradable;
        let at = Place::DropUpgradable;
        let mut course = Course::begin(&mut seat, RwLockCall::Drop, Place::Upgradable, at);
        match self.off(&mut seat, &mut course, at) {
            Left::Readers => {}
            Left::Nobody => {
                let at = Place::DropUpgradableNotify;
                self.notify_writer(rt, &mut seat, Left::Nobody, &mut course, at);
            }
            Left::Writer => {
                let at = Place::DropUpgradableNotify;
                self.notify_writer(rt, &mut seat, Left::Writer, &mut course, at);
            }
        }
        seat.rise();
        self.release_turn(rt, turn, &mut course, Ending::GivenBack);
        course.end(End::GivenBack, Place::Out);
    }

    /// Clears the writer's bit and notifies the first that waits to read. Then it gives the turn back, and notifies the first that waits for it.
    #[inline]
    pub fn release_write<R: Wait>(&self, rt: &R, writer: Writer)
        requires { IsWriterOf self.now writer }
    {
        let Writer { mut seat, turn } = writer;
        let at = Place::DropWrite;
        let mut course = Course::begin(&mut seat, RwLockCall::Drop, Place::Writing, at);
        self.clear_mark(rt, seat, &mut course, at, false);
        self.release_turn(rt, turn, &mut course, Ending::GivenBack);
        course.end(End::GivenBack, Place::Out);
    }

    /// Gives the turn of an upgradable reader back, which reads on by its seat: that takes no step, so it may be in pledge meanwhile.
    #[inline]
    pub fn downgrade_turn<R: Wait>(&self, rt: &R, turn: Turn)
        requires { IsHeldOf self.now.turn turn }
    {
        let (call, ending) = (RwLockCall::Downgrade, Ending::Reading);
        let mut course = Course::of_turn(&turn, call, Place::Upgradable, ending);
        self.release_turn(rt, turn, &mut course, ending);
        course.end(End::GivenBack, Place::Reading);
    }

    /// Reads in place of writing, by one step of the same seat, and keeps the turn. It notifies the first that waits to read.
    #[inline]
    pub fn downgrade_to_upgradable<R: Wait>(&self, rt: &R, writer: Writer) -> Upgradable
        requires { AreSeatsOf self.now writer.seat writer.turn }
        ensures turn { result.turn ≡ writer.turn }
        ensures same { result.seat ≡ with_downgrade (with_call writer.seat) }
    {
        let Writer { mut seat, turn } = writer;
        let at = Place::Down { keeps_turn: true };
        let call = RwLockCall::DowngradeToUpgradable;
        let mut course = Course::begin(&mut seat, call, Place::Writing, at);
        self.downgrade_seat(rt, &mut seat, &mut course);
        course.end(End::GivenBack, Place::Upgradable);
        Upgradable { seat, turn }
    }

    /// Reads in place of writing, by one step of the same seat, which owes nothing then: its duty to the readers goes to the seat of the answered
    /// [`Downgrading`]. The turn and the notification are left to [`RawRwLock::end_downgrade`], so the reader's seat may go into pledge before them.
    #[inline]
    #[tactic(auto, using(crate::proofs::Downgraded::relieved))]
    pub fn begin_downgrade(&self, seat: Seat) -> (Reader, Downgrading)
        requires of { IsOf self.now.access seat }
        requires writes { IsWriting seat }
        ensures of { IsReaderOf self.now result.0 × IsDowngradingOf self.now result.1 }
        ensures same { result.0.seat ≡ with_downgrade (with_call seat) }
    {
        let mut seat = seat;
        let at = Place::Down { keeps_turn: false };
        let mut course = Course::begin(&mut seat, RwLockCall::Downgrade, Place::Writing, at);
        self.step_down(&mut seat, &mut course, at);
        let duty = self.access.split_duty(&mut seat);
        (Reader { seat }, Downgrading { duty, course })
    }

    /// Gives the turn back and notifies the first that waits for it, and then the first that waits to read.
    #[inline]
    pub fn end_downgrade<R: Wait>(&self, rt: &R, downgrading: Downgrading, turn: Turn)
        requires of { IsDowngradingOf self.now downgrading }
        requires turn { IsHeldOf self.now.turn turn }
    {
        let Downgrading {
            mut duty,
            mut course,
        } = downgrading;
        self.release_turn(rt, turn, &mut course, Ending::NotifyReaders);
        self.notify_readers_if_any(rt, &mut duty, &mut course, Place::DowngradeNotify);
        course.end(End::GivenBack, Place::Reading);
        duty.rise();
    }
}
