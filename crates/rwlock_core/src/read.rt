//! Whole calls of who reads, action by action as the lock's program has them.
//!
//! Each action names its place in the table of `sync_program`, and asks that the call has come to it.

ghost use Rattle.std.specs.Prelude.{true, ⊤, ◌≡◌, ◌≤◌, ◌%◌, ◌/◌, ◌⊎◌, MatchResult};
ghost use Rattle.futures.specs.Task.{Keeps};
ghost use Rattle.access_core.specs.Accesses.{IsInCall, IsInNextCall, IsOf, IsIdle, IsLetIn, IsReading};
ghost use Rattle.lock_program.specs.declared.end.End.TheVariants as ends;
ghost use Rattle.lock_program.specs.declared.end.Next.TheVariants as next;
ghost use Rattle.sync_program.specs.ReadWrite.{refuse_read};
ghost use Rattle.sync_program.specs.declared.rwlock.Place.TheVariants as at;
ghost use Rattle.rwlock_core.specs.Courses.{next_in};
ghost use Rattle.rwlock_core.specs.Outcomes.{OnOutcome, IsReadRefusal};
ghost use Rattle.lock_queue.specs.Receipts.{IsReceipt};

use crate::course::Course;
use crate::party::{Outcome, Reader, WaitsToRead};
use crate::rwlock::RawRwLock;
use access_core::{Entering, Left, Seat, Side};
use futures::task::Context;
use lock_event::Memory;
use lock_program::{End, Refusal};
use std::sync::Wait;
use sync_program::rwlock::{Place, RwLockCall, Wanted};

impl RawRwLock {
    /// The first action of a first poll of a read: reads, if the writer's bit is clear and fewer read than may be. It waits for nobody. Where
    /// it was in vain, [`RawRwLock::poll_read`] begins again with the seat. Whoever reads has found fewer readers than the lock's own limit
    /// (`IsLetIn`), here and by the calls below.
    #[inline]
    pub fn begin_read(&self) -> Result<Reader, Seat>
        ensures { MatchResult result (λ reader. IsLetIn self.now.access reader.seat) (λ seat. IsOf self.now.access seat × IsIdle seat) }
    {
        let at = Place::EnterRead { told: false };
        let (mut seat, seen) = self.access.sit_and_look();
        let mut course = Course::begin(&mut seat, RwLockCall::Read, Place::Out, at);
        if self.enter_from(&mut seat, seen, &mut course, at) {
            course.end(End::Got, Place::Reading);
            return Ok(Reader { seat });
        }
        course.begin_again(RwLockCall::Read, Place::Out, at);
        Err(seat)
    }

    /// Reads at once, if the writer's bit is clear and fewer read than may be. In vain, the seat's last look shows why.
    #[inline]
    pub fn try_read<R: Wait>(&self, rt: &R) -> Result<Reader, Seat>
        ensures { MatchResult result (λ reader. IsLetIn self.now.access reader.seat) (λ seat. IsOf self.now.access seat × IsIdle seat × ((seat.found % 2 ≡ 1) ⊎ (self.now.access.limit ≤ seat.found / 2))) }
    {
        let (mut seat, seen) = self.access.sit_and_look();
        let at = Place::TryRead;
        let mut course = Course::begin(&mut seat, RwLockCall::TryRead, Place::Out, at);
        if self.enter_from(&mut seat, seen, &mut course, at) {
            course.end(End::Granted, Place::Reading);
            return Ok(Reader { seat });
        }
        match self.enter(rt, &mut seat, &mut course, at) {
            Entering::Reads => {
                course.end(End::Granted, Place::Reading);
                Ok(Reader { seat })
            }
            Entering::Writer => {
                course.end(End::NotFree, Place::Out);
                Err(seat)
            }
            Entering::Full => {
                course.end(End::NotFree, Place::Out);
                Err(seat)
            }
        }
    }

    /// Polls a read for the first time. A party that waits has looked since it joined, and found the writer's bit set. It is refused for
    /// memory, or for too many readers.
    #[inline]
    pub fn poll_read<R: Wait>(
        &self,
        rt: &R,
        cx: &mut Context<'_>,
        seat: Seat,
    ) -> Outcome<Reader, WaitsToRead>
        requires of { IsOf self.now.access seat }
        requires idle { IsIdle seat }
        ensures outcome { OnOutcome result (λ reader. IsLetIn self.now.access reader.seat) (λ waiting. IsOf self.now.access waiting.seat × IsReceipt self.now.access.source cx.new waiting.whose) IsReadRefusal }
        ensures same { OnOutcome result (λ reader. IsInNextCall seat reader.seat) (λ waiting. IsInNextCall seat waiting.seat) (λ _. ⊤) }
        ensures kept { Keeps cx.old cx.new }
    {
        let mut seat = seat;
        let at = Place::EnterRead { told: false };
        let mut course = Course::begin(&mut seat, RwLockCall::Read, Place::Out, at);
        match self.enter(rt, &mut seat, &mut course, at) {
            Entering::Reads => return reads(seat, course),
            Entering::Full => return Outcome::Refused(self.refuse_read(
                rt,
                seat,
                course,
                false,
                Refusal::Readers,
            )),
            Entering::Writer => {}
        }
        let at = Place::JoinNoWriter { told: false };
        let joined = match self.join_waking(rt, Side::Readers, &mut seat, cx, &mut course, at) {
            Ok(joined) => joined,
            Err(Memory) => return Outcome::Refused(self.refuse_read(
                rt,
                seat,
                course,
                false,
                Refusal::Memory,
            )),
        };
        let id = joined.id;
        // Whoever cleared the bit before it joined told nobody.
        let at = Place::LookNoWriter { told: false };
        match self.enter(rt, &mut seat, &mut course, at) {
            Entering::Reads => {
                let at = Place::LeaveNoWriter;
                self.leave(rt, Side::Readers, &mut seat, id, &mut course, at);
                return reads(seat, course);
            }
            Entering::Full => {
                let at = Place::RefuseLeave { told: false };
                self.leave(rt, Side::Readers, &mut seat, id, &mut course, at);
                return Outcome::Refused(self.refuse_read(
                    rt,
                    seat,
                    course,
                    false,
                    Refusal::Readers,
                ));
            }
            Entering::Writer => {}
        }
        let at = Place::AskNoWriter;
        let side = Side::Readers;
        if let Some(whose) = self.still_waits(rt, side, &mut seat, joined, cx, &mut course, at) {
            course.end(End::Pending, at);
            return Outcome::Waits(WaitsToRead { seat, id, whose });
        }
        self.notify_readers(rt, &mut seat, &mut course, Place::PassOn);
        self.read_on(rt, cx, seat, course)
    }

    /// Polls a read that waits. It goes on with the same seat, which begins one call (`same`).
    #[inline]
    pub fn poll_reader<R: Wait>(
        &self,
        rt: &R,
        cx: &mut Context<'_>,
        waiting: WaitsToRead,
    ) -> Outcome<Reader, WaitsToRead>
        requires of { IsOf self.now.access waiting.seat }
        ensures outcome { OnOutcome result (λ reader. IsLetIn self.now.access reader.seat) (λ waiting. IsOf self.now.access waiting.seat × IsReceipt self.now.access.source cx.new waiting.whose) IsReadRefusal }
        ensures same { OnOutcome result (λ reader. IsInNextCall waiting.seat reader.seat) (λ still. IsInNextCall waiting.seat still.seat) (λ _. ⊤) }
        ensures kept { Keeps cx.old cx.new }
    {
        let WaitsToRead {
            mut seat,
            id,
            whose: _,
        } = waiting;
        let at = Place::AskNoWriter;
        let mut course = Course::begin(&mut seat, RwLockCall::Poll, at, at);
        if let Some(whose) = self.ask(rt, Side::Readers, &mut seat, id, cx, &mut course, at) {
            course.end(End::Pending, at);
            return Outcome::Waits(WaitsToRead { seat, id, whose });
        }
        // All that wait may read.
        self.notify_readers(rt, &mut seat, &mut course, Place::PassOn);
        self.read_on(rt, cx, seat, course)
    }

    // From EnterRead on, of a party that was told and has passed that on: joins, looks and asks, until it reads, waits, or is refused.
    #[inline(never)]
    fn read_on<R: Wait>(
        &self,
        rt: &R,
        cx: &mut Context<'_>,
        seat: Seat,
        course: Course,
    ) -> Outcome<Reader, WaitsToRead>
        requires of { IsOf self.now.access seat }
        requires idle { IsIdle seat }
        requires course { next_in course ≡ next.Do (at.EnterRead true) }
        ensures outcome { OnOutcome result (λ reader. IsLetIn self.now.access reader.seat) (λ waiting. IsOf self.now.access waiting.seat × IsReceipt self.now.access.source cx.new waiting.whose) IsReadRefusal }
        ensures same { OnOutcome result (λ reader. IsInCall seat reader.seat) (λ waiting. IsInCall seat waiting.seat) (λ _. ⊤) }
        ensures kept { Keeps cx.old cx.new }
    {
        let mut seat = seat;
        let mut course = course;
        for _ in rt.forever() {
            match self.enter(rt, &mut seat, &mut course, Place::EnterRead { told: true }) {
                Entering::Reads => return reads(seat, course),
                Entering::Full => return Outcome::Refused(self.refuse_read(
                    rt,
                    seat,
                    course,
                    true,
                    Refusal::Readers,
                )),
                Entering::Writer => {}
            }
            let at = Place::JoinNoWriter { told: true };
            let id = match self.join(rt, Side::Readers, &mut seat, &mut course, at) {
                Ok(id) => id,
                Err(Memory) => return Outcome::Refused(self.refuse_read(
                    rt,
                    seat,
                    course,
                    true,
                    Refusal::Memory,
                )),
            };
            let at = Place::LookNoWriter { told: true };
            match self.enter(rt, &mut seat, &mut course, at) {
                Entering::Reads => {
                    let at = Place::LeaveNoWriter;
                    self.leave(rt, Side::Readers, &mut seat, id, &mut course, at);
                    return reads(seat, course);
                }
                Entering::Full => {
                    let at = Place::RefuseLeave { told: true };
                    self.leave(rt, Side::Readers, &mut seat, id, &mut course, at);
                    return Outcome::Refused(self.refuse_read(
                        rt,
                        seat,
                        course,
                        true,
                        Refusal::Readers,
                    ));
                }
                Entering::Writer => {}
            }
            let at = Place::AskNoWriter;
            if let Some(whose) = self.ask(rt, Side::Readers, &mut seat, id, cx, &mut course, at) {
                course.end(End::Pending, at);
                return Outcome::Waits(WaitsToRead { seat, id, whose });
            }
            self.notify_readers(rt, &mut seat, &mut course, Place::PassOn);
        }
        unreachable!()
    }

    // Refuses a read whose seat has nothing: it notifies, if it took a notification during this poll.
    #[cold]
    #[inline(never)]
    fn refuse_read<R: Wait>(
        &self,
        rt: &R,
        seat: Seat,
        course: Course,
        told: bool,
        refusal: Refusal,
    ) -> Refusal
        requires of { IsOf self.now.access seat }
        requires idle { IsIdle seat }
        requires course { next_in course ≡ refuse_read told refusal }
        ensures { result ≡ refusal }
    {
        let mut seat = seat;
        let mut course = course;
        if told {
            self.notify_readers(rt, &mut seat, &mut course, Place::RefuseNotify { refusal });
        }
        course.end(
            End::Refused(refusal),
            Place::Made {
                wanted: Wanted::Read,
            },
        );
        seat.rise();
        refusal
    }

    /// Drops a read that waits: it leaves the list, and a notification that it had goes on to the next.
    #[inline]
    pub fn cancel_read<R: Wait>(&self, rt: &R, waiting: WaitsToRead)
        requires { IsOf self.now.access waiting.seat }
    {
        let WaitsToRead {
            mut seat,
            id,
            whose: _,
        } = waiting;
        let at = Place::CancelRead;
        let mut course = Course::begin(&mut seat, RwLockCall::Drop, Place::AskNoWriter, at);
        self.leave(rt, Side::Readers, &mut seat, id, &mut course, at);
        course.end(End::GivenBack, Place::Out);
        seat.rise();
    }

    /// Reads no more. The last reader notifies who waits for this: by the seat's type the call can't end before.
    #[inline]
    pub fn release_read<R: Wait>(&self, rt: &R, seat: Seat)
        requires of { IsOf self.now.access seat }
        requires reads { IsReading seat }
    {
        let mut seat = seat;
        let at = Place::DropRead;
        let mut course = Course::begin(&mut seat, RwLockCall::Drop, Place::Reading, at);
        match self.off(&mut seat, &mut course, at) {
            Left::Readers => {}
            Left::Nobody => {
                let at = Place::DropReadNotify;
                self.notify_writer(rt, &mut seat, Left::Nobody, &mut course, at);
            }
            Left::Writer => {
                let at = Place::DropReadNotify;
                self.notify_writer(rt, &mut seat, Left::Writer, &mut course, at);
            }
        }
        course.end(End::GivenBack, Place::Out);
        seat.rise();
    }
}

// A poll has got the right to read.
#[inline(always)]
fn reads(seat: Seat, course: Course) -> Outcome<Reader, WaitsToRead>
    requires reads { IsReading seat }
    requires course { next_in course ≡ next.End ends.Got at.Reading }
    ensures { OnOutcome result (λ reader. reader.seat ≡ seat) (λ _. ⊥) (λ _. ⊥) }
{
    course.end(End::Got, Place::Reading);
    Outcome::Got(Reader { seat })
}
