//! Whole calls of a seat that has set the writer's bit, action by action as the lock's program has them. Its party has the turn, which they
//! don't touch.

ghost use Rattle.std.specs.Prelude.{◌≡◌, true, false};
ghost use Rattle.futures.specs.Task.{Keeps};
ghost use Rattle.access_core.specs.Accesses.{IsInCall, IsOf, IsMarking, IsWriting, with_downgrade};
ghost use Rattle.lock_program.specs.declared.end.End.TheVariants as ends;
ghost use Rattle.lock_program.specs.declared.end.Next.TheVariants as next;
ghost use Rattle.sync_program.specs.declared.rwlock.Place.TheVariants as at;
ghost use Rattle.rwlock_core.specs.Courses.{Clears, cleared, next_in, without_memory};
ghost use Rattle.rwlock_core.specs.Outcomes.{OnAwaited};
ghost use Rattle.lock_queue.specs.Receipts.{IsReceipt};

use crate::course::Course;
use crate::party::{Awaited, WaitsToWrite};
use crate::rwlock::RawRwLock;
use access_core::{Readers, Seat, Side};
use futures::task::Context;
use lock_event::Memory;
use std::sync::Wait;
use sync_program::rwlock::Place;

impl RawRwLock {
    /// Waits until no reader is inside, by a seat that has set the writer's bit and found readers: from JoinNoReaders on. One that waits has looked since
    /// it joined, and found readers inside.
    #[inline]
    pub(crate) fn await_first<R: Wait>(
        &self,
        rt: &R,
        cx: &mut Context<'_>,
        seat: Seat,
        course: &mut Course,
        upgrade: bool,
    ) -> Awaited
        requires of { IsOf self.now.access seat }
        requires marks { IsMarking seat }
        requires course { next_in course.old ≡ next.Do (at.JoinNoReaders upgrade) }
        ensures outcome { OnAwaited result (λ seat. IsOf self.now.access seat × IsWriting seat) (λ waiting. IsOf self.now.access waiting.seat × IsReceipt self.now.access.source cx.new waiting.whose) (λ seat. IsOf self.now.access seat × IsMarking seat) }
        ensures same { OnAwaited result (IsInCall seat) (λ w. IsInCall seat w.seat) (IsInCall seat) }
        ensures goes { OnAwaited result (λ _. next_in course.new ≡ next.End ends.Got at.Writing) (λ _. next_in course.new ≡ next.End ends.Pending (at.AwaitNoReaders upgrade)) (λ _. next_in course.new ≡ without_memory upgrade) }
        ensures kept { Keeps cx.old cx.new }
    {
        let mut seat = seat;
        let at = Place::JoinNoReaders { upgrade };
        let joined = match self.join_waking(rt, Side::Writer, &mut seat, cx, course, at) {
            Ok(joined) => joined,
            Err(Memory) => return Awaited::NoMemory(seat),
        };
        let id = joined.id;
        // The last reader may have gone before it joined, and told nobody.
        match self.look(&mut seat, course, Place::LookNoReaders { upgrade }) {
            Readers::NoneLeft => {
                let at = Place::LeaveNoReaders;
                self.leave(rt, Side::Writer, &mut seat, id, course, at);
                return Awaited::Writes(seat);
            }
            Readers::SomeLeft => {}
        }
        let at = Place::AskNoReaders { upgrade };
        if let Some(whose) = self.still_waits(rt, Side::Writer, &mut seat, joined, cx, course, at) {
            return Awaited::Waits(WaitsToWrite { seat, id, whose });
        }
        self.await_on(rt, cx, seat, course, upgrade)
    }

    /// The first poll of an upgrade: from LookUnlisted on.
    #[inline]
    pub(crate) fn await_upgrade<R: Wait>(
        &self,
        rt: &R,
        cx: &mut Context<'_>,
        seat: Seat,
        course: &mut Course,
    ) -> Awaited
        requires of { IsOf self.now.access seat }
        requires marks { IsMarking seat }
        requires course { next_in course.old ≡ next.Do (at.LookUnlisted true) }
        ensures outcome { OnAwaited result (λ seat. IsOf self.now.access seat × IsWriting seat) (λ waiting. IsOf self.now.access waiting.seat × IsReceipt self.now.access.source cx.new waiting.whose) (λ seat. IsOf self.now.access seat × IsMarking seat) }
        ensures same { OnAwaited result (IsInCall seat) (λ w. IsInCall seat w.seat) (IsInCall seat) }
        ensures goes { OnAwaited result (λ _. next_in course.new ≡ next.End ends.Got at.Writing) (λ _. next_in course.new ≡ next.End ends.Pending (at.AwaitNoReaders true)) (λ _. next_in course.new ≡ without_memory true) }
        ensures kept { Keeps cx.old cx.new }
    {
        let mut seat = seat;
        match self.look(&mut seat, course, Place::LookUnlisted { upgrade: true }) {
            Readers::NoneLeft => Awaited::Writes(seat),
            Readers::SomeLeft => self.await_first(rt, cx, seat, course, true),
        }
    }

    /// Polls a seat that waits until no reader is inside.
    #[inline]
    pub(crate) fn poll_awaiting<R: Wait>(
        &self,
        rt: &R,
        cx: &mut Context<'_>,
        waiting: WaitsToWrite,
        course: &mut Course,
        upgrade: bool,
    ) -> Awaited
        requires of { IsOf self.now.access waiting.seat }
        requires course { next_in course.old ≡ next.Do (at.AwaitNoReaders upgrade) }
        ensures outcome { OnAwaited result (λ seat. IsOf self.now.access seat × IsWriting seat) (λ waiting. IsOf self.now.access waiting.seat × IsReceipt self.now.access.source cx.new waiting.whose) (λ seat. IsOf self.now.access seat × IsMarking seat) }
        ensures same { OnAwaited result (IsInCall waiting.seat) (λ w. IsInCall waiting.seat w.seat) (IsInCall waiting.seat) }
        ensures goes { OnAwaited result (λ _. next_in course.new ≡ next.End ends.Got at.Writing) (λ _. next_in course.new ≡ next.End ends.Pending (at.AwaitNoReaders upgrade)) (λ _. next_in course.new ≡ without_memory upgrade) }
        ensures kept { Keeps cx.old cx.new }
    {
        let WaitsToWrite {
            mut seat,
            id,
            whose: _,
        } = waiting;
        match self.look(&mut seat, course, Place::AwaitNoReaders { upgrade }) {
            Readers::NoneLeft => {
                let at = Place::LeaveNoReaders;
                self.leave(rt, Side::Writer, &mut seat, id, course, at);
                return Awaited::Writes(seat);
            }
            Readers::SomeLeft => {}
        }
        let at = Place::AskNoReaders { upgrade };
        if let Some(whose) = self.ask(rt, Side::Writer, &mut seat, id, cx, course, at) {
            return Awaited::Waits(WaitsToWrite { seat, id, whose });
        }
        self.await_on(rt, cx, seat, course, upgrade)
    }

    // From LookUnlisted on, of a party that was told: looks, joins, looks and asks, until it writes, waits, or has no memory.
    #[inline(never)]
    fn await_on<R: Wait>(
        &self,
        rt: &R,
        cx: &mut Context<'_>,
        seat: Seat,
        course: &mut Course,
        upgrade: bool,
    ) -> Awaited
        requires course { next_in course.old ≡ next.Do (at.LookUnlisted upgrade) }
        requires of { IsOf self.now.access seat }
        requires told { (seat.marks ≡ true) × (seat.reads ≡ false) × (seat.writes ≡ false) × (seat.owes_readers ≡ false) × (seat.in_readers ≡ false) × (seat.in_writer ≡ false) × (seat.fresh ≡ false) }
        ensures outcome { OnAwaited result (λ seat. IsOf self.now.access seat × IsWriting seat) (λ waiting. IsOf self.now.access waiting.seat × IsReceipt self.now.access.source cx.new waiting.whose) (λ seat. IsOf self.now.access seat × IsMarking seat) }
        ensures same { OnAwaited result (IsInCall seat) (λ w. IsInCall seat w.seat) (IsInCall seat) }
        ensures goes { OnAwaited result (λ _. next_in course.new ≡ next.End ends.Got at.Writing) (λ _. next_in course.new ≡ next.End ends.Pending (at.AwaitNoReaders upgrade)) (λ _. next_in course.new ≡ without_memory upgrade) }
        ensures kept { Keeps cx.old cx.new }
    {
        let mut seat = seat;
        for _ in rt.forever() {
            match self.look(&mut seat, course, Place::LookUnlisted { upgrade }) {
                Readers::NoneLeft => return Awaited::Writes(seat),
                Readers::SomeLeft => {}
            }
            let at = Place::JoinNoReaders { upgrade };
            let id = match self.join(rt, Side::Writer, &mut seat, course, at) {
                Ok(id) => id,
                Err(Memory) => return Awaited::NoMemory(seat),
            };
            match self.look(&mut seat, course, Place::LookNoReaders { upgrade }) {
                Readers::NoneLeft => {
                    let at = Place::LeaveNoReaders;
                    self.leave(rt, Side::Writer, &mut seat, id, course, at);
                    return Awaited::Writes(seat);
                }
                Readers::SomeLeft => {}
            }
            let at = Place::AskNoReaders { upgrade };
            if let Some(whose) = self.ask(rt, Side::Writer, &mut seat, id, cx, course, at) {
                return Awaited::Waits(WaitsToWrite { seat, id, whose });
            }
        }
        unreachable!()
    }

    /// Clears the writer's bit, and notifies the first that waits to read: the seat has nothing then.
    #[inline]
    pub(crate) fn clear_mark<R: Wait>(
        &self,
        rt: &R,
        seat: Seat,
        course: &mut Course,
        at: Place,
        refused: bool,
    )
        requires of { IsOf self.now.access seat }
        requires marks { (seat.marks ≡ true) × (seat.reads ≡ false) × (seat.owes_readers ≡ false) × (seat.owes_writer ≡ false) × (seat.in_readers ≡ false) × (seat.in_writer ≡ false) × (seat.fresh ≡ false) }
        requires course { next_in course.old ≡ next.Do at }
        requires clears { Clears refused at }
        ensures { next_in course.new ≡ cleared refused }
    {
        let mut seat = seat;
        self.unmark(&mut seat, course, at);
        self.notify_readers_if_any(rt, &mut seat, course, Place::UnmarkNotify { refused });
        seat.rise();
    }

    /// Drops a seat that waits until no reader is inside: it leaves the list, where a notification that it had goes on to the next, and then
    /// clears the writer's bit.
    #[inline]
    pub(crate) fn cancel_mark<R: Wait>(&self, rt: &R, waiting: WaitsToWrite, course: &mut Course)
        requires of { IsOf self.now.access waiting.seat }
        requires course { next_in course.old ≡ next.Do at.CancelAwait }
        ensures { next_in course.new ≡ cleared false }
    {
        let WaitsToWrite {
            mut seat,
            id,
            whose: _,
        } = waiting;
        self.leave(rt, Side::Writer, &mut seat, id, course, Place::CancelAwait);
        self.clear_mark(rt, seat, course, Place::Unmark { refused: false }, false);
    }

    /// Reads in place of writing, and notifies the first that waits to read.
    #[inline]
    #[tactic(auto, using(crate::proofs::Downgraded::paid))]
    pub(crate) fn downgrade_seat<R: Wait>(&self, rt: &R, seat: &mut Seat, course: &mut Course)
        requires of { IsOf self.now.access seat.old }
        requires writes { IsWriting seat.old }
        requires course { next_in course.old ≡ next.Do (at.Down true) }
        ensures same { seat.new ≡ with_downgrade seat.old }
        ensures course { next_in course.new ≡ next.End ends.GivenBack at.Upgradable }
    {
        self.step_down(seat, course, Place::Down { keeps_turn: true });
        self.notify_readers_if_any(rt, seat, course, Place::DownNotify);
    }
}
