//! Each action on the inner lock: a whole call of the mutex, or its first action.
//!
//! The mutex's own seat says where the party is in that call. The barrier's program goes on by what the call came to.

ghost use Rattle.std.specs.Prelude.{◌≡◌, MatchOption, MatchResult, IfSome, false};
ghost use Rattle.futures.specs.Task.{Keeps};
ghost use Rattle.lock_program.specs.declared.end.Next.TheVariants.{Do};
ghost use Rattle.lock_program.specs.declared.mutex.LockCall.TheVariants as lock_call;
ghost use Rattle.lock_program.specs.declared.mutex.Place.TheVariants as lock_at;
ghost use Rattle.mutex_core.specs.Locks as locks;
ghost use Rattle.mutex_core.specs.Outcomes as lock;
ghost use Rattle.sync_program.specs.Barrier.{next_of};
ghost use Rattle.sync_program.specs.declared.barrier.Action.TheVariants as act;
ghost use Rattle.barrier_core.specs.Courses.{HasCome};
ghost use Rattle.barrier_core.specs.Locking.{given_back, got, more, polled};
ghost use Rattle.barrier_core.specs.Outcomes.{HasLock};

use crate::arrivals::Arrivals;
use crate::raw::RawBarrier;
use crate::seat::Course;
use futures::task::Context;
use lock_place::Hold;
use lock_program::End;
use lock_program::mutex::{LockCall, Place as LockPlace, Step};
use mutex_core::{Held, Outcome as Locked, Seat as LockSeat, Vain, Waiting};
use std::sync::Wait;
use std::time::Clock;
use sync_program::barrier::{Found, Place};

impl RawBarrier {
    // Begins to take the inner lock, and takes it if it is free. Else the poll goes on by `take_lock`.
    #[inline(always)]
    pub(crate) fn enter_lock(
        &self,
        course: &mut Course,
        at: Place,
    ) -> Result<Held<Arrivals>, Vain<Arrivals>>
        requires { HasCome at (act.Begin lock_call.Lock) course.old }
        ensures lock { MatchResult result (lock.IsHeldOf self.now.inner) (λ vain. locks.IsOf self.now.inner vain.seat × (vain.seat.course ≡ Do (lock_at.Join false))) }
        ensures course { MatchResult result (λ _. course.new ≡ next_of at got) (λ _. course.new ≡ next_of at more) }
    {
        match self.inner.first_look(LockCall::Lock, LockPlace::Enter) {
            Ok(held) => {
                course.go(at, Found::Lock(Step::End(End::Got)));
                Ok(held)
            }
            Err(vain) => {
                course.go(at, Found::Lock(Step::More));
                Err(vain)
            }
        }
    }

    // The same by a try, which does nothing where the inner lock can't be had at once.
    #[inline(always)]
    pub(crate) fn try_lock(&self, course: &mut Course, at: Place) -> Option<Held<Arrivals>>
        requires { HasCome at (act.Begin lock_call.Lock) course.old }
        ensures lock { IfSome result (lock.IsHeldOf self.now.inner) }
        ensures course { MatchOption result (course.new ≡ course.old) (λ _. course.new ≡ next_of at got) }
    {
        match self.inner.try_lock() {
            Some(held) => {
                course.go(at, Found::Lock(Step::End(End::Got)));
                Some(held)
            }
            None => None,
        }
    }

    // Goes on to take the inner lock, past a look in vain, by the same seat.
    #[inline(always)]
    pub(crate) fn take_lock<R: Wait + Clock>(
        &self,
        rt: &R,
        cx: &mut Context<'_>,
        vain: Vain<Arrivals>,
        course: &mut Course,
        at: Place,
    ) -> Locked<Arrivals>
        requires vain { locks.IsOf self.now.inner vain.seat × (vain.seat.course ≡ Do (lock_at.Join false)) }
        requires course { HasCome at act.Go course.old }
        ensures outcome { lock.IsOutcomeOf self.now.inner cx.new result }
        ensures same { lock.IsBySeat vain.seat result }
        ensures course { course.new ≡ next_of at (polled result) }
        ensures kept { Keeps cx.old cx.new }
    {
        let locked = self.inner.poll_first(rt, cx, vain);
        course.go(at, came_to(&locked));
        locked
    }

    // Polls the inner lock again, by the same seat.
    #[inline(always)]
    pub(crate) fn wait_lock<R: Wait + Clock>(
        &self,
        rt: &R,
        cx: &mut Context<'_>,
        waiting: Waiting<Arrivals>,
        course: &mut Course,
        at: Place,
    ) -> Locked<Arrivals>
        requires waiting { locks.IsOf self.now.inner waiting.seat }
        requires course { HasCome at (act.Begin lock_call.Poll) course.old }
        ensures outcome { lock.IsOutcomeOf self.now.inner cx.new result }
        ensures same { lock.IsBySeat waiting.seat result }
        ensures course { course.new ≡ next_of at (polled result) }
        ensures kept { Keeps cx.old cx.new }
    {
        let locked = self.inner.poll_later(rt, cx, waiting);
        course.go(at, came_to(&locked));
        locked
    }

    // Releases the inner lock.
    #[inline(always)]
    pub(crate) fn release_lock<R: Wait>(
        &self,
        rt: &R,
        lock: LockSeat<Arrivals>,
        hold: Hold<Arrivals>,
        course: &mut Course,
        at: Place,
    )
        requires has { HasLock self.now lock hold }
        requires course { HasCome at (act.Begin lock_call.Release) course.old }
        ensures { course.new ≡ next_of at given_back }
    {
        self.inner.release(rt, Held::of(lock, hold));
        course.go(at, Found::Lock(Step::End(End::GivenBack)));
    }

    // Drops a wait's future of the inner lock.
    #[inline(always)]
    pub(crate) fn cancel_lock<R: Wait>(
        &self,
        rt: &R,
        waiting: Waiting<Arrivals>,
        course: &mut Course,
        at: Place,
    )
        requires waiting { locks.IsOf self.now.inner waiting.seat }
        requires course { HasCome at (act.Begin lock_call.Cancel) course.old }
        ensures { course.new ≡ next_of at given_back }
    {
        self.inner.cancel(rt, waiting);
        course.go(at, Found::Lock(Step::End(End::GivenBack)));
    }
}

// What a poll of the inner lock came to.
#[inline(always)]
fn came_to(locked: &Locked<Arrivals>) -> Found
    ensures { result ≡ polled locked.now }
{
    match locked {
        Locked::Got(_) => Found::Lock(Step::End(End::Got)),
        Locked::Waits(_) => Found::Lock(Step::End(End::Pending)),
        Locked::Refused(gave_up) => Found::Lock(Step::End(End::Refused(gave_up.refusal()))),
    }
}
