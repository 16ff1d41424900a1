//! Whole calls of a barrier, action by action as its program has them.
//!
//! Each action names its place in the table of `sync_program`, and asks that the call has come to it.

ghost use Rattle.std.specs.Prelude.{◌≡◌, ◌≢◌, ◌+◌, ◌<◌, ◌≤◌, None, Some, IfErr, IfOk, IfSome, true};
ghost use Rattle.futures.specs.Task.{Keeps};
ghost use Rattle.lock_program.specs.declared.end.Next.TheVariants.{Do};
ghost use Rattle.lock_program.specs.declared.refusal.Refusal.{Refusal};
ghost use Rattle.sync_program.specs.Barrier as program;
ghost use Rattle.sync_program.specs.declared.barrier.Aim.TheVariants as aims;
ghost use Rattle.sync_program.specs.declared.barrier.Ending.TheVariants as endings;
ghost use Rattle.sync_program.specs.declared.barrier.Place.TheVariants as places;
ghost use Rattle.barrier_core.specs.Barriers.{HasEntry, IsIdle, IsOf, IsSameSeat};
ghost use Rattle.barrier_core.specs.Counts.{IsOfThis};
ghost use Rattle.barrier_core.specs.Courses.{locking};
ghost use Rattle.barrier_core.specs.Locking.{polled};
ghost use Rattle.barrier_core.specs.Outcomes.{GoesOn, HasLock, IsByLock, IsBySeat, IsCheckingBy, IsCheckingOf, IsOutcomeOf, RestsAt, counted_in};
ghost use Rattle.lock_queue.specs.Receipts.{IsReceipt};
ghost use Rattle.mutex_core.specs.Locks as locks;
ghost use Rattle.mutex_core.specs.Outcomes as lock;

use crate::arrivals::{Arrivals, Looked};
use crate::calls::{Joined, Rejoined};
use crate::raw::RawBarrier;
use crate::seat::{Course, Seat};
use crate::turn::{Aim, Arrival, Checking, Followed, Led, Outcome, Resting, Verdict, Waiting};
use futures::task::Context;
use lock_event::Memory;
use lock_place::Hold;
use lock_program::Refusal;
use mutex_core::{Held, Outcome as Locked, Seat as LockSeat, Waiting as WaitingForLock};
use std::sync::Wait;
use std::time::Clock;
use sync_program::barrier::{Aim as Purpose, BarrierCall, Ending, Place};

impl RawBarrier {
    /// Polls a wait for the first time, or past a refusal before its arrival was counted: by either call it begins at the same place.
    #[inline]
    pub fn poll_first<R: Wait + Clock>(&self, rt: &R, cx: &mut Context<'_>) -> Outcome
        ensures outcome { IsOutcomeOf self.now cx.new None result }
        ensures kept { Keeps cx.old cx.new }
    {
        let mut course = Course::new();
        course.begin(BarrierCall::Wait, Place::EnterLock(Purpose::Arrive));
        match self.enter_lock(&mut course, Place::EnterLock(Purpose::Arrive)) {
            Ok(held) => self.arrive_with(rt, cx, held, course),
            Err(vain) => {
                let at = Place::TakeLock(Purpose::Arrive);
                let locked = self.take_lock(rt, cx, vain, &mut course, at);
                self.arrive_on(rt, cx, course, locked)
            }
        }
    }

    /// Polls a wait again. It goes on with the seat that it has (`same`): of the barrier, once its arrival was counted, and until then of the
    /// inner lock.
    #[inline]
    pub fn poll_later<R: Wait + Clock>(
        &self,
        rt: &R,
        cx: &mut Context<'_>,
        resting: Resting,
    ) -> Outcome
        requires { RestsAt self.now resting }
        ensures outcome { IsOutcomeOf self.now cx.new (counted_in resting) result }
        ensures same { GoesOn resting result }
        ensures kept { Keeps cx.old cx.new }
    {
        match resting {
            Resting::Waiting(waiting) => self.poll_waiting(rt, cx, waiting),
            Resting::Locking(aim, waiting) => match aim {
                Aim::Arrive(course) => self.poll_uncounted(rt, cx, course, waiting),
                Aim::Check(arrival) => self.poll_counted(rt, cx, arrival, waiting),
            },
            Resting::Counted(arrival) => {
                let Arrival {
                    mut seat,
                    generation,
                } = arrival;
                seat.begin(BarrierCall::Poll, Place::EnterLock(Purpose::Check));
                self.check_on(rt, cx, Arrival { seat, generation })
            }
        }
    }

    /// Gives back what a wait has between two polls. An arrival that was counted stays counted.
    pub fn cancel<R: Wait>(&self, rt: &R, resting: Resting)
        requires { RestsAt self.now resting }
    {
        match resting {
            Resting::Waiting(waiting) => {
                let Waiting {
                    mut seat,
                    id,
                    whose: _,
                    generation: _,
                } = waiting;
                seat.begin(BarrierCall::Drop, Place::CancelLeave);
                self.leave(rt, &mut seat, id, Place::CancelLeave);
                seat.rise();
            }
            Resting::Locking(aim, waiting) => {
                let mut course = match aim {
                    Aim::Arrive(course) => course,
                    Aim::Check(arrival) => arrival.into_parts().0.into_course(),
                };
                course.begin(BarrierCall::Drop, Place::CancelLock);
                self.cancel_lock(rt, waiting, &mut course, Place::CancelLock);
                course.end();
            }
            Resting::Counted(arrival) => {
                let mut seat = arrival.into_parts().0;
                seat.begin(BarrierCall::Drop, Place::Abandon);
                self.abandon(&mut seat, Place::Abandon);
                seat.rise();
            }
        }
    }

    /// Arrives at once, if the inner lock is free and the arrival finishes its generation: it leads then. Where it doesn't, nobody has
    /// arrived. It is refused as [`Refusal::Generations`] if the arrival would finish a generation past the limit.
    ///
    /// The program has no call for a try. It is a wait's call, by one that withdraws if it would have to wait, and has done nothing then.
    pub fn try_lead<R: Wait>(&self, rt: &R) -> Result<Option<Led>, Refusal>
        ensures led { IfOk result (λ led. IfSome led (λ l. IsOf self.now l.seat)) }
        ensures refused { IfErr result (λ refusal. refusal ≡ Refusal.Generations) }
    {
        let mut course = Course::new();
        course.begin(BarrierCall::Wait, Place::EnterLock(Purpose::Arrive));
        let Some(held) = self.try_lock(&mut course, Place::EnterLock(Purpose::Arrive)) else {
            course.withdraw();
            return Ok(None);
        };
        let (lock, hold) = held.into_parts();
        let (mut seat, finished) = self.sit(course);
        match self.look(&hold, &mut seat, finished, Place::Look) {
            Looked::MustWait => {
                seat.into_course().withdraw();
                self.inner.release(rt, Held::of(lock, hold));
                Ok(None)
            }
            Looked::Leads => Ok(Some(self.lead(rt, lock, hold, seat, finished))),
            Looked::Past => {
                let at = Place::ReleaseLock(Ending::RefuseGenerations);
                self.release_lock(rt, lock, hold, &mut seat.course, at);
                seat.rise();
                Err(Refusal::Generations)
            }
        }
    }

    // Ask, of a wait that stands in the list.
    fn poll_waiting<R: Wait + Clock>(
        &self,
        rt: &R,
        cx: &mut Context<'_>,
        waiting: Waiting,
    ) -> Outcome
        requires { IsOf self.now waiting.seat }
        ensures outcome { IsOutcomeOf self.now cx.new (Some waiting.generation) result }
        ensures same { IsBySeat waiting.seat result }
        ensures kept { Keeps cx.old cx.new }
    {
        let Waiting {
            mut seat,
            id,
            whose: _,
            generation,
        } = waiting;
        seat.begin(BarrierCall::Poll, Place::Ask);
        if let Some(whose) = self.ask(rt, &mut seat, id, cx, Place::Ask) {
            return Outcome::Pending(Resting::Waiting(Waiting {
                seat,
                id,
                whose,
                generation,
            }));
        }
        self.check_on(rt, cx, Arrival { seat, generation })
    }

    // WaitLock(Arrive), of a wait that isn't counted.
    #[inline]
    fn poll_uncounted<R: Wait + Clock>(
        &self,
        rt: &R,
        cx: &mut Context<'_>,
        course: Course,
        waiting: WaitingForLock<Arrivals>,
    ) -> Outcome
        requires waiting { locks.IsOf self.now.inner waiting.seat }
        requires course { course ≡ locking aims.Arrive }
        ensures outcome { IsOutcomeOf self.now cx.new None result }
        ensures same { IsByLock waiting.seat result }
        ensures kept { Keeps cx.old cx.new }
    {
        let mut course = course;
        course.begin(BarrierCall::Poll, Place::WaitLock(Purpose::Arrive));
        let at = Place::WaitLock(Purpose::Arrive);
        let locked = self.wait_lock(rt, cx, waiting, &mut course, at);
        self.arrive_on(rt, cx, course, locked)
    }

    // WaitLock(Check), of an arrival that was counted.
    #[inline]
    fn poll_counted<R: Wait + Clock>(
        &self,
        rt: &R,
        cx: &mut Context<'_>,
        arrival: Arrival,
        waiting: WaitingForLock<Arrivals>,
    ) -> Outcome
        requires waiting { locks.IsOf self.now.inner waiting.seat }
        requires arrival { IsOfThis self.now arrival × (arrival.seat.course ≡ locking aims.Check) }
        ensures outcome { IsOutcomeOf self.now cx.new (Some arrival.generation) result }
        ensures same { IsBySeat arrival.seat result }
        ensures kept { Keeps cx.old cx.new }
    {
        let Arrival {
            mut seat,
            generation,
        } = arrival;
        seat.begin(BarrierCall::Poll, Place::WaitLock(Purpose::Check));
        let at = Place::WaitLock(Purpose::Check);
        let locked = self.wait_lock(rt, cx, waiting, &mut seat.course, at);
        let arrival = Arrival { seat, generation };
        match locked {
            Locked::Got(held) => match self.check_with(rt, cx, held, arrival) {
                Checking::Over(outcome) => outcome,
                Checking::Told(arrival) => self.check_on(rt, cx, arrival),
            },
            Locked::Waits(waiting) => {
                Outcome::Pending(Resting::Locking(Aim::Check(arrival), waiting))
            }
            Locked::Refused(gave_up) => Outcome::Refused(gave_up.refusal(), Aim::Check(arrival)),
        }
    }

    // What comes of a poll of the inner lock that went so, of a wait that isn't counted.
    fn arrive_on<R: Wait + Clock>(
        &self,
        rt: &R,
        cx: &mut Context<'_>,
        course: Course,
        locked: Locked<Arrivals>,
    ) -> Outcome
        requires locked { lock.IsOutcomeOf self.now.inner cx.old locked }
        requires course { course ≡ program.after_lock aims.Arrive (polled locked) }
        ensures outcome { IsOutcomeOf self.now cx.new None result }
        ensures same { (seat : locks.Seated) → lock.IsBySeat seat locked → IsByLock seat result }
        ensures kept { Keeps cx.old cx.new }
    {
        match locked {
            Locked::Got(held) => self.arrive_with(rt, cx, held, course),
            Locked::Waits(waiting) => {
                Outcome::Pending(Resting::Locking(Aim::Arrive(course), waiting))
            }
            Locked::Refused(gave_up) => Outcome::Refused(gave_up.refusal(), Aim::Arrive(course)),
        }
    }

    // Look, with the inner lock, and what comes of it.
    fn arrive_with<R: Wait + Clock>(
        &self,
        rt: &R,
        cx: &mut Context<'_>,
        held: Held<Arrivals>,
        course: Course,
    ) -> Outcome
        requires held { lock.IsHeldOf self.now.inner held }
        requires course { course ≡ Do places.Look }
        ensures outcome { IsOutcomeOf self.now cx.new None result }
        ensures same { (seat : locks.Seated) → IsByLock seat result }
        ensures kept { Keeps cx.old cx.new }
    {
        let (lock, hold) = held.into_parts();
        let (mut seat, finished) = self.sit(course);
        match self.look(&hold, &mut seat, finished, Place::Look) {
            Looked::MustWait => self.wait_with(rt, cx, lock, hold, seat),
            Looked::Leads => {
                Outcome::Ready(Verdict::Led(self.lead(rt, lock, hold, seat, finished)))
            }
            Looked::Past => {
                let at = Place::ReleaseLock(Ending::RefuseGenerations);
                self.release_lock(rt, lock, hold, &mut seat.course, at);
                Outcome::Refused(Refusal::Generations, Aim::Arrive(seat.into_course()))
            }
        }
    }

    // From Complete on: of an arrival that finishes its generation.
    fn lead<R: Wait>(
        &self,
        rt: &R,
        lock: LockSeat<Arrivals>,
        hold: Hold<Arrivals>,
        seat: Seat,
        finished: u64,
    ) -> Led
        requires has { HasLock self.now lock hold }
        requires seat { IsOf self.now seat × IsIdle seat × (seat.found ≡ finished) }
        requires course { seat.course ≡ Do places.Complete }
        requires last { self.now.size ≤ hold.value.count + 1 }
        requires room { finished < self.now.most }
        ensures { IsOf self.now result.seat }
    {
        let mut hold = hold;
        let mut seat = seat;
        self.complete(&mut hold, &mut seat, finished, Place::Complete);
        if self.may_have_entries(&mut seat, Place::NotifyAll) {
            self.notify_all(rt, &mut seat, Place::NotifyAll);
        }
        let at = Place::ReleaseLock(Ending::Lead);
        self.release_lock(rt, lock, hold, &mut seat.course, at);
        Led::of(seat)
    }

    // From Join on: of an arrival that has to wait.
    fn wait_with<R: Wait + Clock>(
        &self,
        rt: &R,
        cx: &mut Context<'_>,
        lock: LockSeat<Arrivals>,
        hold: Hold<Arrivals>,
        seat: Seat,
    ) -> Outcome
        requires has { HasLock self.now lock hold }
        requires seat { IsOf self.now seat × IsIdle seat }
        requires course { seat.course ≡ Do places.Join }
        requires more { hold.value.count + 1 < self.now.size }
        ensures outcome { IsOutcomeOf self.now cx.new None result }
        ensures same { (seat : locks.Seated) → IsByLock seat result }
        ensures kept { Keeps cx.old cx.new }
    {
        let mut hold = hold;
        let mut seat = seat;
        let joined = match self.join_waking(rt, &mut seat, cx, Place::Join) {
            Ok(joined) => joined,
            Err(Memory) => {
                let at = Place::ReleaseLock(Ending::RefuseMemory(Purpose::Arrive));
                self.release_lock(rt, lock, hold, &mut seat.course, at);
                return Outcome::Refused(Refusal::Memory, Aim::Arrive(seat.into_course()));
            }
        };
        let generation = self.arrive(&mut hold, &mut seat, Place::Arrive);
        let at = Place::ReleaseLock(Ending::Wait);
        self.release_lock(rt, lock, hold, &mut seat.course, at);
        match self.ask_joined(rt, cx, seat, joined, generation) {
            Checking::Over(outcome) => outcome,
            Checking::Told(arrival) => self.check_on(rt, cx, arrival),
        }
    }

    // Ask, of an arrival that was counted, and has looked since it joined.
    #[inline]
    fn ask_joined<R: Wait>(
        &self,
        rt: &R,
        cx: &mut Context<'_>,
        seat: Seat,
        joined: Joined,
        generation: u64,
    ) -> Checking
        requires seat { IsOf self.now seat × HasEntry generation joined.id.number seat }
        requires course { seat.course ≡ Do places.Ask }
        requires keeps { IsReceipt self.now.inner.source cx.old joined.whose }
        ensures outcome { IsCheckingOf self.now cx.new generation result }
        ensures same { IsCheckingBy seat result }
        ensures kept { Keeps cx.old cx.new }
    {
        let mut seat = seat;
        let id = joined.id;
        if let Some(whose) = self.still_waits(rt, &mut seat, joined, cx, Place::Ask) {
            return Checking::Over(Outcome::Pending(Resting::Waiting(Waiting {
                seat,
                id,
                whose,
                generation,
            })));
        }
        Checking::Told(Arrival { seat, generation })
    }

    // From EnterLock(Check) on, of an arrival that was notified, or whose poll was refused: until it has followed, or waits.
    #[inline(never)]
    fn check_on<R: Wait + Clock>(&self, rt: &R, cx: &mut Context<'_>, arrival: Arrival) -> Outcome
        requires of { IsOfThis self.now arrival }
        requires course { arrival.seat.course ≡ Do (places.EnterLock aims.Check) }
        ensures outcome { IsOutcomeOf self.now cx.new (Some arrival.generation) result }
        ensures same { IsBySeat arrival.seat result }
        ensures kept { Keeps cx.old cx.new }
    {
        let mut arrival = arrival;
        for _ in rt.forever() {
            let Arrival {
                mut seat,
                generation,
            } = arrival;
            let held = match self.enter_lock(&mut seat.course, Place::EnterLock(Purpose::Check)) {
                Ok(held) => held,
                Err(vain) => {
                    let at = Place::TakeLock(Purpose::Check);
                    match self.take_lock(rt, cx, vain, &mut seat.course, at) {
                        Locked::Got(held) => held,
                        Locked::Waits(waiting) => {
                            let aim = Aim::Check(Arrival { seat, generation });
                            return Outcome::Pending(Resting::Locking(aim, waiting));
                        }
                        Locked::Refused(gave_up) => {
                            let aim = Aim::Check(Arrival { seat, generation });
                            return Outcome::Refused(gave_up.refusal(), aim);
                        }
                    }
                }
            };
            match self.check_with(rt, cx, held, Arrival { seat, generation }) {
                Checking::Over(outcome) => return outcome,
                Checking::Told(told) => arrival = told,
            }
        }
        unreachable!()
    }

    // Check, with the inner lock. One whose generation isn't finished joins again.
    fn check_with<R: Wait>(
        &self,
        rt: &R,
        cx: &mut Context<'_>,
        held: Held<Arrivals>,
        arrival: Arrival,
    ) -> Checking
        requires held { lock.IsHeldOf self.now.inner held }
        requires of { IsOfThis self.now arrival }
        requires course { arrival.seat.course ≡ Do places.Check }
        ensures outcome { IsCheckingOf self.now cx.new arrival.generation result }
        ensures same { IsCheckingBy arrival.seat result }
        ensures kept { Keeps cx.old cx.new }
    {
        let (lock, hold) = held.into_parts();
        let Arrival {
            mut seat,
            generation,
        } = arrival;
        if self.check(&hold, &mut seat, generation, Place::Check) {
            let followed = self.follow(rt, lock, hold, seat);
            return Checking::Over(Outcome::Ready(Verdict::Followed(followed)));
        }
        self.wait_again(rt, cx, lock, hold, Arrival { seat, generation })
    }

    // ReleaseLock(Follow), of an arrival that has found its generation finished.
    #[inline]
    fn follow<R: Wait>(
        &self,
        rt: &R,
        lock: LockSeat<Arrivals>,
        hold: Hold<Arrivals>,
        seat: Seat,
    ) -> Followed
        requires has { HasLock self.now lock hold }
        requires seat { IsOf self.now seat × IsIdle seat × (seat.counted ≡ true) × (seat.found ≢ seat.generation) }
        requires course { seat.course ≡ Do (places.ReleaseLock endings.Follow) }
        ensures { IsOf self.now result.seat × IsSameSeat seat result.seat }
    {
        let mut seat = seat;
        let at = Place::ReleaseLock(Ending::Follow);
        self.release_lock(rt, lock, hold, &mut seat.course, at);
        Followed::of(seat)
    }

    // From JoinAgain on, of an arrival whose generation isn't finished.
    #[cold]
    #[inline(never)]
    fn wait_again<R: Wait>(
        &self,
        rt: &R,
        cx: &mut Context<'_>,
        lock: LockSeat<Arrivals>,
        hold: Hold<Arrivals>,
        arrival: Arrival,
    ) -> Checking
        requires has { HasLock self.now lock hold }
        requires of { IsOfThis self.now arrival }
        requires course { arrival.seat.course ≡ Do places.JoinAgain }
        ensures outcome { IsCheckingOf self.now cx.new arrival.generation result }
        ensures same { IsCheckingBy arrival.seat result }
        ensures kept { Keeps cx.old cx.new }
    {
        let Arrival {
            mut seat,
            generation,
        } = arrival;
        match self.join_again(rt, &mut seat, cx, generation) {
            Rejoined::Waits(joined) => {
                let at = Place::ReleaseLock(Ending::Wait);
                self.release_lock(rt, lock, hold, &mut seat.course, at);
                self.ask_joined(rt, cx, seat, joined, generation)
            }
            Rejoined::Finished => {
                let followed = self.follow(rt, lock, hold, seat);
                Checking::Over(Outcome::Ready(Verdict::Followed(followed)))
            }
            Rejoined::Refused => {
                let at = Place::ReleaseLock(Ending::RefuseMemory(Purpose::Check));
                self.release_lock(rt, lock, hold, &mut seat.course, at);
                let aim = Aim::Check(Arrival { seat, generation });
                Checking::Over(Outcome::Refused(Refusal::Memory, aim))
            }
        }
    }
}
