//! Each single action of a read-write lock's program: a step on its state, a call on one of its lists, or a call on its turn. It asks that the
//! call has come to its place, and moves the call's course by what it found. Only these move a course.

ghost use Rattle.std.specs.Prelude.{◌≡◌, ◌≢◌, ◌<◌, ◌≤◌, ◌%◌, ◌/◌, true, false, IfErr, IfNone, IfOk, IfSome, MatchBool, OnErr};
ghost use Rattle.futures.specs.Task.{Keeps};
ghost use Rattle.lock_program.specs.declared.end.End.TheVariants as ends;
ghost use Rattle.lock_program.specs.declared.end.Next.TheVariants as next;
ghost use Rattle.lock_program.specs.declared.mutex.Step.TheVariants as step;
ghost use Rattle.lock_queue.specs.Receipts.{IsReceipt};
ghost use Rattle.sync_program.specs.ReadWrite.{released};
ghost use Rattle.sync_program.specs.declared.rwlock.Action.TheVariants as act;
ghost use Rattle.sync_program.specs.declared.rwlock.Found.TheVariants as finds;
ghost use Rattle.sync_program.specs.declared.rwlock.Place.TheVariants as at;
ghost use Rattle.mutex_core.specs.Courses.{IsOutside};
ghost use Rattle.mutex_core.specs.Locks.{IsOf as IsTurnOf};
ghost use Rattle.mutex_core.specs.Outcomes.{IsHeldOf};
ghost use Rattle.access_core.specs.Accesses.{IsInCall, IsOf, IsIdle, IsReading, IsMarking, IsWriting, MayJoin, StandsIn, with_found, with_saw_writer, with_saw_readers, with_reading, with_writing, with_down, with_unmarked, with_joined, with_told, with_gone, with_paid};
ghost use Rattle.access_core.specs.Found.{OnEntering, OnLeft, OnReaders};
ghost use Rattle.rwlock_core.specs.Courses.{IsAt, Goes, HasLeftLast, asks, joins, leaves, next_in};

use crate::course::{Course, Unseated};
use crate::party::Turn;
use crate::rwlock::RawRwLock;
use access_core::{Entering, Joined, Left, Readers, Seat, Side};
use futures::task::Context;
use lock_event::{EntryId, Memory};
use lock_program::End;
use lock_program::mutex::{LockCall, Place as TurnPlace, Step};
use lock_queue::Whose;
use mutex_core::Vain;
use std::sync::Wait;
use sync_program::rwlock::{Ending, Found, Place, Purpose};

impl RawRwLock {
    // Reads, if the writer's bit is clear and fewer read than may.
    #[inline]
    pub(crate) fn enter<R: Wait>(
        &self,
        rt: &R,
        seat: &mut Seat,
        course: &mut Course,
        at: Place,
    ) -> Entering
        requires of { IsOf self.now.access seat.old }
        requires course { IsAt at act.Read course.old }
        requires idle { (seat.old.reads ≡ false) × (seat.old.in_writer ≡ false) }
        ensures step { OnEntering result ((seat.new ≡ with_reading seat.new.found seat.old) × (seat.new.found / 2 < self.now.access.limit)) ((seat.new ≡ with_saw_writer seat.new.found seat.old) × (seat.new.found % 2 ≡ 1)) ((seat.new ≡ with_found seat.new.found seat.old) × (self.now.access.limit ≤ seat.new.found / 2)) }
        ensures goes { OnEntering result (Goes at finds.Done course.new) (Goes at finds.Writer course.new) (Goes at finds.Full course.new) }
    {
        let entering = self.access.enter(rt, seat);
        match entering {
            Entering::Reads => course.go(at, Found::Done),
            Entering::Writer => course.go(at, Found::Writer),
            Entering::Full => course.go(at, Found::Full),
        }
        entering
    }

    // The same, from what the new seat has `seen`: one exchange. Where that was in vain, the action is still to be done.
    #[inline]
    pub(crate) fn enter_from(
        &self,
        seat: &mut Seat,
        seen: u64,
        course: &mut Course,
        at: Place,
    ) -> bool
        requires of { IsOf self.now.access seat.old }
        requires course { IsAt at act.Read course.old }
        requires idle { seat.old.reads ≡ false }
        ensures step { MatchBool result ((seat.new ≡ with_reading seat.new.found seat.old) × (seat.new.found / 2 < self.now.access.limit)) (seat.new ≡ with_found seat.new.found seat.old) }
        ensures goes { MatchBool result (Goes at finds.Done course.new) (next_in course.new ≡ next.Do at) }
    {
        let reads = self.access.read_from(seat, seen);
        if reads {
            course.go(at, Found::Done);
        }
        reads
    }

    // The same, of a party that has the turn: from what the new seat has `seen`, and then until it is done.
    #[inline]
    pub(crate) fn add<R: Wait>(
        &self,
        rt: &R,
        seat: &mut Seat,
        seen: u64,
        course: &mut Course,
        at: Place,
    ) -> bool
        requires of { IsOf self.now.access seat.old }
        requires course { IsAt at act.Add course.old }
        requires idle { IsIdle seat.old }
        ensures of { IsOf self.now.access seat.new }
        ensures step { MatchBool result (IsReading seat.new × (seat.new.found / 2 < self.now.access.limit)) (IsIdle seat.new × (self.now.access.limit ≤ seat.new.found / 2)) }
        ensures goes { MatchBool result (Goes at finds.Done course.new) (Goes at finds.Full course.new) }
    {
        if self.access.read_from(seat, seen) {
            course.go(at, Found::Done);
            return true;
        }
        if self.access.add(rt, seat) {
            course.go(at, Found::Done);
            return true;
        }
        course.go(at, Found::Full);
        false
    }

    // Reads no more. Nobody is left, or readers are: then the writer's list is notified by who leaves last.
    #[inline]
    pub(crate) fn off(&self, seat: &mut Seat, course: &mut Course, at: Place) -> Left
        requires of { IsOf self.now.access seat.old }
        requires course { IsAt at act.Off course.old }
        requires reads { IsReading seat.old }
        ensures of { IsOf self.now.access seat.new }
        ensures same { IsInCall seat.old seat.new }
        ensures step { OnLeft result (IsIdle seat.new) (IsIdle seat.new) (HasLeftLast seat.new) }
        ensures goes { OnLeft result (Goes at finds.SomeLeft course.new) (Goes at finds.NoneLeft course.new) (Goes at finds.NoneLeft course.new) }
    {
        let left = self.access.off(seat);
        match left {
            Left::Readers => course.go(at, Found::SomeLeft),
            Left::Nobody => course.go(at, Found::NoneLeft),
            Left::Writer => course.go(at, Found::NoneLeft),
        }
        left
    }

    // Writes in place of reading, if nobody else reads.
    #[inline]
    pub(crate) fn step_up(&self, seat: &mut Seat, course: &mut Course, at: Place) -> bool
        requires of { IsOf self.now.access seat.old }
        requires course { IsAt at act.TryUpgrade course.old }
        requires reads { seat.old.reads ≡ true }
        ensures step { MatchBool result (seat.new ≡ with_writing seat.old) ((seat.new ≡ with_found seat.new.found seat.old) × (2 < seat.new.found)) }
        ensures goes { MatchBool result (Goes at finds.Done course.new) (Goes at finds.NotFree course.new) }
    {
        let writes = self.access.try_upgrade(seat);
        if writes {
            course.go(at, Found::Done);
        } else {
            course.go(at, Found::NotFree);
        }
        writes
    }

    // Sets the writer's bit in place of reading.
    #[inline]
    pub(crate) fn mark_reading<R: Wait>(
        &self,
        rt: &R,
        seat: &mut Seat,
        course: &mut Course,
        at: Place,
    ) -> Readers
        requires of { IsOf self.now.access seat.old }
        requires course { IsAt at act.Upgrade course.old }
        requires reads { IsReading seat.old }
        ensures same { IsInCall seat.old seat.new }
        ensures step { OnReaders result (IsWriting seat.new) (IsMarking seat.new) }
        ensures goes { Goes at finds.Done course.new }
    {
        let readers = self.access.upgrade(rt, seat);
        course.go(at, Found::Done);
        readers
    }

    // Sets the writer's bit, of a party that has the turn.
    #[inline]
    pub(crate) fn mark<R: Wait>(
        &self,
        rt: &R,
        seat: &mut Seat,
        course: &mut Course,
        at: Place,
    ) -> Readers
        requires of { IsOf self.now.access seat.old }
        requires course { IsAt at act.Mark course.old }
        requires idle { IsIdle seat.old }
        ensures same { IsInCall seat.old seat.new }
        ensures step { OnReaders result (IsWriting seat.new) (IsMarking seat.new) }
        ensures goes { OnReaders result (Goes at finds.NoneLeft course.new) (Goes at finds.SomeLeft course.new) }
    {
        let readers = self.access.mark_until(rt, seat);
        match readers {
            Readers::NoneLeft => course.go(at, Found::NoneLeft),
            Readers::SomeLeft => course.go(at, Found::SomeLeft),
        }
        readers
    }

    // Sets the writer's bit, if nobody is inside.
    #[inline]
    pub(crate) fn mark_free(&self, seat: &mut Seat, course: &mut Course, at: Place) -> bool
        requires of { IsOf self.now.access seat.old }
        requires course { IsAt at act.TryWrite course.old }
        ensures step { MatchBool result (seat.new ≡ with_writing seat.old) ((seat.new ≡ with_found seat.new.found seat.old) × (seat.new.found ≢ 0)) }
        ensures goes { MatchBool result (Goes at finds.Done course.new) (Goes at finds.NotFree course.new) }
    {
        let writes = self.access.try_write(seat);
        if writes {
            course.go(at, Found::Done);
        } else {
            course.go(at, Found::NotFree);
        }
        writes
    }

    // Looks whether readers are left.
    #[inline]
    pub(crate) fn look(&self, seat: &mut Seat, course: &mut Course, at: Place) -> Readers
        requires of { IsOf self.now.access seat.old }
        requires course { IsAt at act.Load course.old }
        requires waits { (seat.old.marks ≡ true) × (seat.old.in_readers ≡ false) }
        ensures step { OnReaders result (seat.new ≡ with_writing seat.old) ((seat.new ≡ with_saw_readers seat.new.found seat.old) × (1 < seat.new.found)) }
        ensures goes { OnReaders result (Goes at finds.NoneLeft course.new) (Goes at finds.SomeLeft course.new) }
    {
        let readers = self.access.look_left(seat);
        match readers {
            Readers::NoneLeft => course.go(at, Found::NoneLeft),
            Readers::SomeLeft => course.go(at, Found::SomeLeft),
        }
        readers
    }

    // Reads in place of writing.
    #[inline]
    pub(crate) fn step_down(&self, seat: &mut Seat, course: &mut Course, at: Place)
        requires of { IsOf self.now.access seat.old }
        requires course { IsAt at act.Down course.old }
        requires writes { (seat.old.writes ≡ true) × (seat.old.in_writer ≡ false) }
        ensures step { seat.new ≡ with_down seat.old }
        ensures goes { Goes at finds.Done course.new }
    {
        self.access.down(seat);
        course.go(at, Found::Done);
    }

    // Clears the writer's bit.
    #[inline]
    pub(crate) fn unmark(&self, seat: &mut Seat, course: &mut Course, at: Place)
        requires of { IsOf self.now.access seat.old }
        requires course { IsAt at act.Unmark course.old }
        requires marks { (seat.old.marks ≡ true) × (seat.old.in_writer ≡ false) }
        ensures step { seat.new ≡ with_unmarked seat.old }
        ensures goes { Goes at finds.Done course.new }
    {
        self.access.unmark(seat);
        course.go(at, Found::Done);
    }

    // An entry joins a list, with no waker: the writer's, of a seat that has set the writer's bit.
    #[inline]
    pub(crate) fn join<R: Wait>(
        &self,
        rt: &R,
        side: Side,
        seat: &mut Seat,
        course: &mut Course,
        at: Place,
    ) -> Result<EntryId, Memory>
        requires of { IsOf self.now.access seat.old }
        requires course { IsAt at (joins side) course.old }
        requires away { (seat.old.in_readers ≡ false) × (seat.old.in_writer ≡ false) }
        requires marks { MayJoin side seat.old }
        ensures joined { IfOk result (λ id. (seat.new ≡ with_joined side id.number seat.old) × Goes at finds.Done course.new) }
        ensures refused { OnErr result ((seat.new ≡ seat.old) × Goes at finds.NoMemory course.new) }
    {
        match self.access.join(rt, side, seat) {
            Ok(id) => {
                course.go(at, Found::Done);
                Ok(id)
            }
            Err(memory) => {
                course.go(at, Found::NoMemory);
                Err(memory)
            }
        }
    }

    // The same, with a waker of the task of `cx`.
    #[inline]
    pub(crate) fn join_waking<R: Wait>(
        &self,
        rt: &R,
        side: Side,
        seat: &mut Seat,
        cx: &mut Context<'_>,
        course: &mut Course,
        at: Place,
    ) -> Result<Joined, Memory>
        requires of { IsOf self.now.access seat.old }
        requires course { IsAt at (joins side) course.old }
        requires away { (seat.old.in_readers ≡ false) × (seat.old.in_writer ≡ false) }
        requires marks { MayJoin side seat.old }
        ensures joined { IfOk result (λ joined. (seat.new ≡ with_joined side joined.id.number seat.old) × IsReceipt self.now.access.source cx.new joined.whose × Goes at finds.Done course.new) }
        ensures refused { OnErr result ((seat.new ≡ seat.old) × Goes at finds.NoMemory course.new) }
        ensures kept { Keeps cx.old cx.new }
    {
        match self.access.join_waking(rt, side, seat, cx) {
            Ok(joined) => {
                course.go(at, Found::Done);
                Ok(joined)
            }
            Err(memory) => {
                course.go(at, Found::NoMemory);
                Err(memory)
            }
        }
    }

    // It asks for its notification.
    #[inline]
    pub(crate) fn ask<R: Wait>(
        &self,
        rt: &R,
        side: Side,
        seat: &mut Seat,
        id: EntryId,
        cx: &mut Context<'_>,
        course: &mut Course,
        at: Place,
    ) -> Option<Whose>
        requires of { IsOf self.now.access seat.old }
        requires course { IsAt at (asks side) course.old }
        requires stands { StandsIn side id.number seat.old }
        requires looked { seat.old.fresh ≡ false }
        ensures told { IfNone result ((seat.new ≡ with_told side seat.old) × (cx.new ≡ cx.old) × Goes at finds.Yes course.new) }
        ensures waits { IfSome result (λ whose. (seat.new ≡ seat.old) × IsReceipt self.now.access.source cx.new whose × Goes at finds.No course.new) }
        ensures kept { Keeps cx.old cx.new }
    {
        match self.access.ask(rt, side, seat, id, cx) {
            Some(whose) => {
                course.go(at, Found::No);
                Some(whose)
            }
            None => {
                course.go(at, Found::Yes);
                None
            }
        }
    }

    // The same, of one that has joined with a waker.
    #[inline]
    pub(crate) fn still_waits<R: Wait>(
        &self,
        rt: &R,
        side: Side,
        seat: &mut Seat,
        joined: Joined,
        cx: &mut Context<'_>,
        course: &mut Course,
        at: Place,
    ) -> Option<Whose>
        requires of { IsOf self.now.access seat.old }
        requires course { IsAt at (asks side) course.old }
        requires stands { StandsIn side joined.id.number seat.old }
        requires looked { seat.old.fresh ≡ false }
        requires keeps { IsReceipt self.now.access.source cx.old joined.whose }
        ensures told { IfNone result ((seat.new ≡ with_told side seat.old) × (cx.new ≡ cx.old) × Goes at finds.Yes course.new) }
        ensures waits { IfSome result (λ whose. (seat.new ≡ seat.old) × IsReceipt self.now.access.source cx.new whose × Goes at finds.No course.new) }
        ensures kept { Keeps cx.old cx.new }
    {
        let kept = self.access.still_waits(rt, side, seat, joined, cx);
        let found = if kept.is_some() {
            Found::No
        } else {
            Found::Yes
        };
        course.go(at, found);
        kept
    }

    // It leaves without asking.
    #[inline]
    pub(crate) fn leave<R: Wait>(
        &self,
        rt: &R,
        side: Side,
        seat: &mut Seat,
        id: EntryId,
        course: &mut Course,
        at: Place,
    )
        requires of { IsOf self.now.access seat.old }
        requires course { IsAt at (leaves side) course.old }
        requires stands { StandsIn side id.number seat.old }
        ensures step { seat.new ≡ with_gone side seat.old }
        ensures goes { Goes at finds.Done course.new }
    {
        self.access.leave(rt, side, seat, id);
        course.go(at, Found::Done);
    }

    // The first that waits to read is notified.
    #[inline]
    pub(crate) fn notify_readers<R: Wait>(
        &self,
        rt: &R,
        seat: &mut Seat,
        course: &mut Course,
        at: Place,
    )
        requires of { IsOf self.now.access seat.old }
        requires course { IsAt at act.NotifyNoWriter course.old }
        ensures step { seat.new ≡ with_paid Side.Readers seat.old }
        ensures goes { Goes at finds.Done course.new }
    {
        self.access.notify(rt, Side::Readers, seat);
        course.go(at, Found::Done);
    }

    // The same, if the lists may have entries.
    #[inline]
    pub(crate) fn notify_readers_if_any<R: Wait>(
        &self,
        rt: &R,
        seat: &mut Seat,
        course: &mut Course,
        at: Place,
    )
        requires of { IsOf self.now.access seat.old }
        requires course { IsAt at act.NotifyNoWriter course.old }
        requires owes { seat.old.owes_writer ≡ false }
        ensures step { seat.new ≡ with_paid Side.Readers seat.old }
        ensures goes { Goes at finds.Done course.new }
    {
        if self.access.may_have_entries(seat) {
            self.access.notify(rt, Side::Readers, seat);
        }
        course.go(at, Found::Done);
    }

    // The first that waits until no reader is inside is notified, by who left last. Where the writer's bit was clear nobody waits.
    #[inline]
    pub(crate) fn notify_writer<R: Wait>(
        &self,
        rt: &R,
        seat: &mut Seat,
        left: Left,
        course: &mut Course,
        at: Place,
    )
        requires of { IsOf self.now.access seat.old }
        requires course { IsAt at act.NotifyNoReaders course.old }
        requires left { OnLeft left ⊥ (IsIdle seat.old) (HasLeftLast seat.old) }
        ensures of { IsOf self.now.access seat.new }
        ensures same { IsInCall seat.old seat.new }
        ensures idle { IsIdle seat.new }
        ensures goes { Goes at finds.Done course.new }
    {
        match left {
            Left::Writer => self.access.notify(rt, Side::Writer, seat),
            Left::Readers => {}
            Left::Nobody => {}
        }
        course.go(at, Found::Done);
    }

    // Takes the turn at once, or not at all.
    #[inline]
    pub(crate) fn try_turn(&self, course: &mut Unseated, purpose: Purpose) -> Result<Turn, Vain<()>>
        requires course { next_in course.old.course ≡ next.Do (at.TryTurn purpose) }
        ensures got { IfOk result (λ turn. IsHeldOf self.now.turn turn × Goes (at.TryTurn purpose) (finds.Turn (step.End ends.Got)) course.new.course) }
        ensures vain { IfErr result (λ vain. IsTurnOf self.now.turn vain.seat × IsOutside vain.seat.course × Goes (at.TryTurn purpose) (finds.Turn (step.End ends.NotFree)) course.new.course) }
    {
        let at = Place::TryTurn { purpose };
        match self.turn.first_look(LockCall::Try, TurnPlace::Try) {
            Ok(turn) => {
                course.go(at, Found::Turn(Step::End(End::Got)));
                Ok(turn)
            }
            Err(vain) => {
                course.go(at, Found::Turn(Step::End(End::NotFree)));
                Err(vain)
            }
        }
    }

    // Gives the turn back: the whole of the turn's own call.
    #[inline]
    pub(crate) fn release_turn<R: Wait>(
        &self,
        rt: &R,
        turn: Turn,
        course: &mut Course,
        ending: Ending,
    )
        requires turn { IsHeldOf self.now.turn turn }
        requires course { next_in course.old ≡ next.Do (at.ReleaseTurn ending) }
        ensures { next_in course.new ≡ released ending }
    {
        self.turn.release(rt, turn);
        course.go(
            Place::ReleaseTurn { ending },
            Found::Turn(Step::End(End::GivenBack)),
        );
    }
}
