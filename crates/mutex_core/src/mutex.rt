//! Whole calls of a mutex, action by action as its program has them.
//!
//! Each action names its place in the table of `lock_program`, and asks that the call has come to it.

ghost use Rattle.std.specs.Prelude.{◌≡◌, ◌≢◌, true, false, IfOk, IfSome, MatchResult, Option};
ghost use Rattle.futures.specs.Task.{Keeps};
ghost use Rattle.lock_program.specs.Mutex.{next_of};
ghost use Rattle.lock_program.specs.declared.end.Next.TheVariants.{Do};
ghost use Rattle.lock_program.specs.declared.mutex.Found.TheVariants as finds;
ghost use Rattle.lock_program.specs.declared.mutex.Place.TheVariants as at;
ghost use Rattle.mutex_core.specs.Courses.{IsFirst, refusing};
ghost use Rattle.mutex_core.specs.Locks.{IsAway, IsListed, IsOf, IsSameSeat, IsStarving};
ghost use Rattle.mutex_core.specs.Outcomes.{IsBySeat, IsGivenUp, IsHeldOf, IsOutcomeOf, IsPolled, IsRightOf, WaitsSince};
ghost use Rattle.std.specs.declared.time.Instant.{Instant};

use crate::patience::{first_of, now};
use crate::seat::{GaveUp, Seat};
use crate::turn::{Held, Outcome, Vain, Waiting};
use crate::words::Words;
use futures::task::Context;
use lock_event::{EntryId, Memory};
use lock_place::Hold;
use lock_program::Refusal;
use lock_program::mutex::{LockCall, Place};
use lock_queue::Whose;
use std::sync::Wait;
use std::time::{Clock, Instant};
use words_base::{Setting, Taking, TakingAlone};

impl<T> Words<T> {
    /// Takes the lock, if it is free and nobody is starved: the only action of a try, or the first of a poll, which goes on by
    /// [`Words::poll_first`] where it was in vain: its last look found the lock held or others starved, unless the lock was left held.
    #[inline]
    pub fn first_look(&self, call: LockCall, at: Place) -> Result<Held<T>, Vain<T>>
        requires { IsFirst call at }
        ensures { MatchResult result (IsHeldOf self.now) (λ vain. IsOf self.now vain.seat × (vain.seat.course ≡ next_of at (finds.Held false)) × (self.now.is_left ≡ false → vain.seat.found ≢ 0)) }
    {
        let mut seat = self.sit();
        seat.begin(call, at);
        if self.left.is_some() {
            self.find_left(&mut seat, at);
            return Err(Vain {
                seat,
                is_free: false,
            });
        }
        match self.take(&mut seat, at) {
            Taking::Got(hold) => Ok(Held { seat, hold }),
            Taking::Held => Err(Vain {
                seat,
                is_free: false,
            }),
            Taking::Starved => Err(Vain {
                seat,
                is_free: true,
            }),
        }
    }

    /// Takes the lock, if it is free and nobody is starved.
    #[inline]
    pub fn try_lock(&self) -> Option<Held<T>>
        ensures { IfSome result (IsHeldOf self.now) }
    {
        match self.first_look(LockCall::Try, Place::Try) {
            Ok(held) => Some(held),
            Err(vain) => {
                vain.end();
                None
            }
        }
    }

    /// Gives the lock back, and notifies the first who waits: by the seat's type the call can't end before.
    #[inline]
    pub fn release<R: Wait>(&self, rt: &R, held: Held<T>)
        requires { IsHeldOf self.now held }
    {
        let Held { mut seat, hold } = held;
        seat.begin(LockCall::Release, Place::Clear);
        self.clear(&mut seat, hold, Place::Clear);
        if self.may_have_entries(&mut seat, Place::ReleaseNotify) {
            self.notify(rt, &mut seat, Place::ReleaseNotify);
        }
        seat.rise();
    }

    /// Polls a lock for the first time, past a look in vain. A party that waits has looked since it joined, and found the lock held.
    ///
    /// Where others were starved it joins without a waker: refused, it leaves the list again, and a waker that the list drops wakes its
    /// task.
    #[inline]
    pub fn poll_first<R: Wait + Clock>(
        &self,
        rt: &R,
        cx: &mut Context<'_>,
        vain: Vain<T>,
    ) -> Outcome<T>
        requires of { IsOf self.now vain.seat }
        requires course { vain.seat.course ≡ Do (at.Join false) }
        ensures outcome { IsOutcomeOf self.now cx.new result }
        ensures same { IsBySeat vain.seat result }
        ensures kept { Keeps cx.old cx.new }
    {
        let Vain { seat, is_free } = vain;
        let mut seat = seat;
        if is_free {
            return match self.enlist(rt, cx, seat, None, false) {
                Ok(outcome) => outcome,
                Err(told) => self.wait(rt, cx, told, None),
            };
        }
        let joined = match self.join_waking(rt, &mut seat, cx, Place::Join { told: false }) {
            Ok(joined) => joined,
            Err(Memory) => {
                return Outcome::Refused(self.refuse(rt, seat, false, Refusal::Memory));
            }
        };
        // Whoever gave the lock back before it joined told nobody.
        let id = joined.id;
        match self.look(rt, &mut seat, Place::Look { told: false }) {
            Taking::Got(hold) => return Outcome::Got(self.leave_with(rt, seat, hold, id)),
            Taking::Held => {}
            Taking::Starved => return self.count_here(rt, cx, seat, id, false),
        }
        if let Some(whose) = self.still_waits(rt, &mut seat, joined, cx, Place::Ask) {
            return Outcome::Waits(Waiting {
                seat,
                id,
                whose,
                since: now(rt),
                is_starved: false,
            });
        }
        self.wait(rt, cx, seat, None)
    }

    /// Polls a lock that waits. It goes on with the same seat (`same`), and keeps the time since which it waits, once it has one (`since`).
    #[inline]
    pub fn poll_later<R: Wait + Clock>(
        &self,
        rt: &R,
        cx: &mut Context<'_>,
        waiting: Waiting<T>,
    ) -> Outcome<T>
        requires { IsOf self.now waiting.seat }
        ensures outcome { IsOutcomeOf self.now cx.new result }
        ensures same { IsBySeat waiting.seat result }
        ensures since { WaitsSince waiting.since result }
        ensures kept { Keeps cx.old cx.new }
    {
        let Waiting {
            mut seat,
            id,
            whose: _,
            since,
            is_starved,
        } = waiting;
        let at = if is_starved {
            Place::AskStarved
        } else {
            Place::Ask
        };
        seat.begin(LockCall::Poll, at);
        if let Some(whose) = self.ask(rt, &mut seat, id, cx, at) {
            return Outcome::Waits(Waiting {
                seat,
                id,
                whose,
                since,
                is_starved,
            });
        }
        if is_starved {
            return self.strive(rt, cx, seat);
        }
        self.wait(rt, cx, seat, since)
    }

    /// Drops a lock that waits: its count as starved goes off first, then it leaves the list, and a notification that it had goes on to
    /// the next.
    #[inline]
    pub fn cancel<R: Wait>(&self, rt: &R, waiting: Waiting<T>)
        requires { IsOf self.now waiting.seat }
    {
        let Waiting {
            mut seat,
            id,
            whose: _,
            since: _,
            is_starved,
        } = waiting;
        if is_starved {
            seat.begin(LockCall::Cancel, Place::CancelUncount);
            self.uncount(&mut seat, Place::CancelUncount);
        } else {
            seat.begin(LockCall::Cancel, Place::CancelLeave);
        }
        self.leave(rt, &mut seat, id, Place::CancelLeave);
        seat.rise();
    }

    // Leave, of a party that joined, looked and got the lock.
    #[cold]
    #[inline(never)]
    fn leave_with<R: Wait>(&self, rt: &R, seat: Seat<T>, hold: Hold<T>, id: EntryId) -> Held<T>
        requires { IsOf self.now seat × IsRightOf self.now hold × (seat.holds ≡ true) × (seat.starved ≡ false) × (seat.owes ≡ false) × (seat.listed ≡ true) × (seat.fresh ≡ false) × (seat.entry ≡ id.number) × (seat.course ≡ Do at.Leave) }
        ensures { IsHeldOf self.now result × IsSameSeat seat result.seat }
    {
        let mut seat = seat;
        self.leave(rt, &mut seat, id, Place::Leave);
        Held { seat, hold }
    }

    // From Retry on: looks, joins and asks, until it has the lock or waits, or others or it are starved.
    #[inline(never)]
    fn wait<R: Wait + Clock>(
        &self,
        rt: &R,
        cx: &mut Context<'_>,
        seat: Seat<T>,
        since: Option<Instant>,
    ) -> Outcome<T>
        requires { IsOf self.now seat × IsAway seat × (seat.course ≡ Do at.Retry) }
        ensures went { IsPolled self.now cx.old cx.new seat result }
        ensures since { WaitsSince since result }
    {
        let mut seat = seat;
        for _ in rt.forever() {
            match self.retry(rt, &mut seat, &since) {
                (Taking::Got(hold), _) => return Outcome::Got(Held { seat, hold }),
                (Taking::Held, false) => {}
                (Taking::Held, true) => return self.count_away(rt, cx, seat),
                (Taking::Starved, _) => {
                    self.notify(rt, &mut seat, Place::PassOn);
                    return self.count_away(rt, cx, seat);
                }
            }
            match self.enlist(rt, cx, seat, since, true) {
                Ok(outcome) => return outcome,
                Err(told) => seat = told,
            }
        }
        unreachable!()
    }

    // From Join on: joins, looks and asks once. A party that was notified then is given back, to go on from Retry.
    #[inline(never)]
    fn enlist<R: Wait + Clock>(
        &self,
        rt: &R,
        cx: &mut Context<'_>,
        seat: Seat<T>,
        since: Option<Instant>,
        told: bool,
    ) -> Result<Outcome<T>, Seat<T>>
        requires { IsOf self.now seat × IsAway seat × (seat.owes ≡ false) × (seat.course ≡ Do (at.Join told)) }
        ensures since { IfOk result (WaitsSince since) }
        ensures went { MatchResult result (IsPolled self.now cx.old cx.new seat) (λ again. IsOf self.now again × IsSameSeat seat again × IsAway again × (again.course ≡ Do at.Retry) × (cx.new ≡ cx.old)) }
    {
        let mut seat = seat;
        let id = match self.join(rt, &mut seat, Place::Join { told }) {
            Ok(id) => id,
            Err(Memory) => {
                return Ok(Outcome::Refused(self.refuse(rt, seat, told, Refusal::Memory)));
            }
        };
        match self.look(rt, &mut seat, Place::Look { told }) {
            Taking::Got(hold) => return Ok(Outcome::Got(self.leave_with(rt, seat, hold, id))),
            Taking::Held => {}
            Taking::Starved => return Ok(self.count_here(rt, cx, seat, id, told)),
        }
        match self.ask(rt, &mut seat, id, cx, Place::Ask) {
            Some(whose) => Ok(Outcome::Waits(Waiting {
                seat,
                id,
                whose,
                since: first_of(rt, since),
                is_starved: false,
            })),
            None => Err(seat),
        }
    }

    // Count, of a party that has an entry.
    #[cold]
    #[inline(never)]
    fn count_here<R: Wait + Clock>(
        &self,
        rt: &R,
        cx: &mut Context<'_>,
        seat: Seat<T>,
        id: EntryId,
        told: bool,
    ) -> Outcome<T>
        requires { IsOf self.now seat × IsListed seat × (seat.entry ≡ id.number) × (seat.course ≡ Do (at.Count true told)) }
        ensures went { IsPolled self.now cx.old cx.new seat result }
        ensures since { (then : Option Instant) → WaitsSince then result }
    {
        let mut seat = seat;
        if let Err(_) = self.count_listed(rt, &mut seat, Place::Count { listed: true, told }) {
            self.leave(rt, &mut seat, id, Place::RefuseLeave { told });
            return Outcome::Refused(self.refuse(rt, seat, told, Refusal::Starved));
        }
        if let Some(whose) = self.ask(rt, &mut seat, id, cx, Place::AskStarved) {
            return Outcome::Waits(Waiting {
                seat,
                id,
                whose,
                since: None,
                is_starved: true,
            });
        }
        self.strive(rt, cx, seat)
    }

    // Count, of a party that was told and has no entry.
    #[cold]
    #[inline(never)]
    fn count_away<R: Wait + Clock>(&self, rt: &R, cx: &mut Context<'_>, seat: Seat<T>) -> Outcome<T>
        requires idle { IsOf self.now seat × IsAway seat × (seat.owes ≡ false) }
        requires course { seat.course ≡ Do (at.Count false true) }
        ensures went { IsPolled self.now cx.old cx.new seat result }
        ensures since { (then : Option Instant) → WaitsSince then result }
    {
        let mut seat = seat;
        if let Err(_) = self.count(
            rt,
            &mut seat,
            Place::Count {
                listed: false,
                told: true,
            },
        ) {
            return Outcome::Refused(self.refuse(rt, seat, true, Refusal::Starved));
        }
        match self.enlist_starved(rt, cx, seat) {
            Ok(outcome) => outcome,
            Err(told) => self.strive(rt, cx, told),
        }
    }

    // From Seize on, of a starved party: takes the lock or joins, until it has the lock or waits.
    #[cold]
    #[inline(never)]
    fn strive<R: Wait + Clock>(&self, rt: &R, cx: &mut Context<'_>, seat: Seat<T>) -> Outcome<T>
        requires { IsOf self.now seat × IsStarving seat × (seat.course ≡ Do at.Seize) }
        ensures went { IsPolled self.now cx.old cx.new seat result }
        ensures since { (then : Option Instant) → WaitsSince then result }
    {
        let mut seat = seat;
        for _ in rt.forever() {
            match self.set(&mut seat, Place::Seize) {
                Setting::Got(hold) => {
                    self.uncount(&mut seat, Place::Uncount { listed: false });
                    return Outcome::Got(Held { seat, hold });
                }
                Setting::WasSet => {}
            }
            match self.enlist_starved(rt, cx, seat) {
                Ok(outcome) => return outcome,
                Err(told) => seat = told,
            }
        }
        unreachable!()
    }

    // From JoinStarved on: joins, looks and asks once. A party that was notified then is given back, to go on from Seize.
    #[cold]
    #[inline(never)]
    fn enlist_starved<R: Wait + Clock>(
        &self,
        rt: &R,
        cx: &mut Context<'_>,
        seat: Seat<T>,
    ) -> Result<Outcome<T>, Seat<T>>
        requires { IsOf self.now seat × IsStarving seat × (seat.course ≡ Do at.JoinStarved) }
        ensures since { (then : Option Instant) → IfOk result (WaitsSince then) }
        ensures went { MatchResult result (IsPolled self.now cx.old cx.new seat) (λ again. IsOf self.now again × IsSameSeat seat again × IsStarving again × (again.course ≡ Do at.Seize) × (cx.new ≡ cx.old)) }
    {
        let mut seat = seat;
        let id = match self.join(rt, &mut seat, Place::JoinStarved) {
            Ok(id) => id,
            Err(Memory) => return Ok(Outcome::Refused(self.refuse_starved(rt, seat))),
        };
        match self.look_alone(rt, &mut seat, Place::LookAlone) {
            TakingAlone::Got(hold) => {
                self.uncount(&mut seat, Place::Uncount { listed: true });
                return Ok(Outcome::Got(self.leave_with(rt, seat, hold, id)));
            }
            TakingAlone::Held => {}
            TakingAlone::FreeWithOthers => {
                self.notify(rt, &mut seat, Place::PassOnListed);
            }
        }
        match self.ask(rt, &mut seat, id, cx, Place::AskStarved) {
            Some(whose) => Ok(Outcome::Waits(Waiting {
                seat,
                id,
                whose,
                since: None,
                is_starved: true,
            })),
            None => Err(seat),
        }
    }

    // Refuses a party that isn't counted and has no entry: it notifies, if it took a notification during this poll.
    #[cold]
    #[inline(never)]
    fn refuse<R: Wait>(&self, rt: &R, seat: Seat<T>, told: bool, refusal: Refusal) -> GaveUp
        requires { IsOf self.now seat × IsAway seat × (seat.owes ≡ false) × (seat.course ≡ refusing told refusal) × IsGivenUp refusal }
        ensures { result ≡ refusal }
    {
        let mut seat = seat;
        if told {
            let at = match refusal {
                Refusal::Memory => Place::RefuseNotifyMemory,
                _ => Place::RefuseNotifyStarved,
            };
            self.notify(rt, &mut seat, at);
        }
        seat.give_up(refusal)
    }

    // Refuses a starved party for whose entry there was no memory: its count goes off, and it notifies.
    #[cold]
    #[inline(never)]
    fn refuse_starved<R: Wait>(&self, rt: &R, seat: Seat<T>) -> GaveUp
        requires { IsOf self.now seat × IsStarving seat × (seat.course ≡ Do at.RefuseUncount) }
        ensures { IsGivenUp result }
    {
        let mut seat = seat;
        self.uncount(&mut seat, Place::RefuseUncount);
        self.notify(rt, &mut seat, Place::RefuseNotifyMemory);
        seat.give_up(Refusal::Memory)
    }
}
