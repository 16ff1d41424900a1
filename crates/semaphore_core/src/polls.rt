//! Polls of a future of a semaphore, and what a dropped one gives back, action by action as the semaphore's program has them.
//!
//! Each action names its place in the table of `sync_program`, and asks that the call has come to it.

ghost use Rattle.std.specs.Prelude.{◌≡◌, ◌<◌, true, false, None, IfErr, IfNone, IfOk, IfSome, Some};
ghost use Rattle.futures.specs.Task.{Keeps};
ghost use Rattle.lock_program.specs.declared.end.Next.TheVariants.{Do};
ghost use Rattle.semaphore_core.specs.Courses.{IsHolding};
ghost use Rattle.semaphore_core.specs.Outcomes.{IsBySeat, IsJoining, IsLook, OnOutcome, WaitsFor};
ghost use Rattle.semaphore_core.specs.Semaphores.{Holds, IsAt, IsOf, IsSameSeat};
ghost use Rattle.sync_program.specs.Permits.{told_more};
ghost use Rattle.sync_program.specs.declared.permits.Action.TheVariants as act;
ghost use Rattle.sync_program.specs.declared.permits.Place.TheVariants as places;

use crate::raw::RawSemaphore;
use crate::seat::Seat;
use crate::turn::{Outcome, Waiting};
use futures::task::Context;
use lock_event::{EntryId, Memory};
use lock_program::Refusal;
use std::sync::Wait;
use sync_program::permits::{Place, SemaphoreCall};
use words_permits::Taking;

impl RawSemaphore {
    /// A first poll of a future for so many permits, past a look that found fewer: it joins the list, looks again, and asks.
    #[inline]
    pub fn poll_first<R: Wait>(
        &self,
        rt: &R,
        cx: &mut Context<'_>,
        permits: u64,
        seat: Seat,
    ) -> Outcome
        requires { IsJoining self.now permits seat }
        ensures outcome { OnOutcome self.now permits cx.new result }
        ensures same { IsBySeat seat result }
        ensures kept { Keeps cx.old cx.new }
    {
        let mut seat = seat;
        let join = Place::Join {
            permits,
            told: None,
        };
        let joined = match self.join_waking(rt, &mut seat, permits, cx, join) {
            Ok(joined) => joined,
            Err(Memory) => {
                seat.rise();
                return Outcome::Refused(Refusal::Memory);
            }
        };
        let id = joined.id;
        // Whoever gave permits before it joined told nobody.
        let look = Place::Take {
            permits,
            listed: true,
            told: false,
        };
        match self.take(&mut seat, permits, look) {
            Taking::Left(_) => return Outcome::Got(self.leave_with(rt, permits, seat, id)),
            Taking::Short(_) => {}
            Taking::Changed => return self.look_listed(rt, cx, permits, seat, id, look),
        }
        let ask = Place::Ask {
            permits,
            told: None,
        };
        if let Some(whose) = self.still_waits(rt, &mut seat, joined, cx, ask) {
            return Outcome::Waits(Waiting { seat, id, whose });
        }
        self.go_on_told(rt, cx, permits, seat)
    }

    /// A poll of a future for so many permits that waits: it looks, and leaves the list with the permits, or asks. It goes on with the
    /// same seat (`same`).
    pub fn poll_waiting<R: Wait>(
        &self,
        rt: &R,
        cx: &mut Context<'_>,
        permits: u64,
        waiting: Waiting,
    ) -> Outcome
        requires { WaitsFor self.now permits waiting }
        ensures outcome { OnOutcome self.now permits cx.new result }
        ensures same { IsBySeat waiting.seat result }
        ensures kept { Keeps cx.old cx.new }
    {
        let Waiting {
            mut seat,
            id,
            whose: _,
        } = waiting;
        let at = Place::Retake(permits);
        seat.begin(SemaphoreCall::Poll, at);
        match self.take(&mut seat, permits, at) {
            Taking::Left(_) => Outcome::Got(self.leave_with(rt, permits, seat, id)),
            Taking::Short(_) => self.ask_listed(rt, cx, permits, seat, id),
            Taking::Changed => self.look_listed(rt, cx, permits, seat, id, at),
        }
    }

    // Looks, of a party that stands in the list, until the word stands still.
    #[cold]
    #[inline(never)]
    fn look_listed<R: Wait>(
        &self,
        rt: &R,
        cx: &mut Context<'_>,
        permits: u64,
        seat: Seat,
        id: EntryId,
        at: Place,
    ) -> Outcome
        requires of { IsOf self.now seat }
        requires course { IsAt at (act.Take permits) seat }
        requires look { IsLook permits at }
        requires waits { (seat.permits ≡ 0) × (seat.under_way ≡ 0) × (seat.owes ≡ false) × (seat.listed ≡ true) × (seat.entry ≡ id.number) × (seat.weight ≡ permits) }
        ensures outcome { OnOutcome self.now permits cx.new result }
        ensures same { IsBySeat seat result }
        ensures kept { Keeps cx.old cx.new }
    {
        let mut seat = seat;
        for _ in rt.forever() {
            match self.take(&mut seat, permits, at) {
                Taking::Left(_) => return Outcome::Got(self.leave_with(rt, permits, seat, id)),
                Taking::Short(_) => return self.ask_listed(rt, cx, permits, seat, id),
                Taking::Changed => {}
            }
        }
        unreachable!()
    }

    // Asks, of a party that found too few since it joined.
    #[inline]
    fn ask_listed<R: Wait>(
        &self,
        rt: &R,
        cx: &mut Context<'_>,
        permits: u64,
        seat: Seat,
        id: EntryId,
    ) -> Outcome
        requires of { IsOf self.now seat }
        requires course { seat.course ≡ Do (places.Ask permits None) }
        requires waits { (seat.permits ≡ 0) × (seat.under_way ≡ 0) × (seat.owes ≡ false) × (seat.listed ≡ true) × (seat.fresh ≡ false) × (seat.entry ≡ id.number) × (seat.weight ≡ permits) }
        ensures outcome { OnOutcome self.now permits cx.new result }
        ensures same { IsBySeat seat result }
        ensures kept { Keeps cx.old cx.new }
    {
        let mut seat = seat;
        let at = Place::Ask {
            permits,
            told: None,
        };
        match self.ask(rt, &mut seat, id, cx, at) {
            Some(whose) => Outcome::Waits(Waiting { seat, id, whose }),
            None => self.go_on_told(rt, cx, permits, seat),
        }
    }

    // Leaves the list, of a party that got its permits while it stands there and was not told before: if its entry was notified, it notifies
    // the first for whom those that are left are enough. The seat comes back.
    #[inline(always)]
    fn leave_with<R: Wait>(&self, rt: &R, permits: u64, seat: Seat, id: EntryId) -> Seat
        requires of { IsOf self.now seat }
        requires course { seat.course ≡ Do (places.Remove permits None) }
        requires has { (seat.permits ≡ permits) × (seat.under_way ≡ 0) × (seat.owes ≡ false) × (seat.listed ≡ true) × (seat.entry ≡ id.number) }
        ensures { Holds self.now permits result × IsSameSeat seat result }
    {
        let mut seat = seat;
        let at = Place::Remove {
            permits,
            more: None,
        };
        if self.remove(rt, &mut seat, id, at) {
            self.hand_on(rt, &mut seat, permits);
        }
        seat
    }

    // Notifies the first for whom the permits that are available now are enough, of a party that got so many and was notified.
    #[inline]
    fn hand_on<R: Wait>(&self, rt: &R, seat: &mut Seat, permits: u64)
        requires of { IsOf self.now seat.old }
        requires course { seat.old.course ≡ Do (places.Load permits) }
        requires away { (seat.old.listed ≡ false) × (seat.old.fresh ≡ false) }
        ensures of { IsOf self.now seat.new }
        ensures same { IsSameSeat seat.old seat.new × (seat.new.permits ≡ seat.old.permits) × (seat.new.under_way ≡ seat.old.under_way) × (seat.new.listed ≡ false) × (seat.new.fresh ≡ false) }
        ensures paid { seat.new.owes ≡ false }
        ensures course { IsHolding permits seat.new.course }
    {
        let available = self.load(seat, Place::Load(permits));
        self.fit_found(rt, seat, available, Place::HandOn { permits, available });
    }

    // Goes on with a party that was told, and is out of the list: it takes its permits and hands on what is left, or joins again.
    #[inline(never)]
    fn go_on_told<R: Wait>(&self, rt: &R, cx: &mut Context<'_>, permits: u64, seat: Seat) -> Outcome
        requires of { IsOf self.now seat }
        requires course { seat.course ≡ Do (places.Take permits false true) }
        requires told { (seat.permits ≡ 0) × (seat.under_way ≡ 0) × (seat.listed ≡ false) × (seat.fresh ≡ false) }
        ensures outcome { OnOutcome self.now permits cx.new result }
        ensures same { IsBySeat seat result }
        ensures kept { Keeps cx.old cx.new }
    {
        let mut seat = seat;
        let look = Place::Take {
            permits,
            listed: false,
            told: true,
        };
        for _ in rt.forever() {
            match self.take(&mut seat, permits, look) {
                Taking::Left(left) => {
                    if let Some(available) = some_of(left) {
                        let at = Place::HandOn { permits, available };
                        self.fit(rt, &mut seat, available, at);
                    }
                    return Outcome::Got(seat);
                }
                Taking::Short(available) => {
                    match self.join_told(rt, cx, permits, seat, available) {
                        Ok(outcome) => return outcome,
                        Err(told) => seat = told,
                    }
                }
                Taking::Changed => {}
            }
        }
        unreachable!()
    }

    // Joins again, of a party that was told and found too few: how its poll went, or its seat, which was told once more.
    #[inline(always)]
    fn join_told<R: Wait>(
        &self,
        rt: &R,
        cx: &mut Context<'_>,
        permits: u64,
        seat: Seat,
        available: u64,
    ) -> Result<Outcome, Seat>
        requires of { IsOf self.now seat }
        requires course { seat.course ≡ Do (places.Join permits (Some available)) }
        requires told { (seat.permits ≡ 0) × (seat.under_way ≡ 0) × (seat.listed ≡ false) × (seat.fresh ≡ false) }
        requires found { (available ≡ seat.found) × (seat.seen ≡ true) × (available < permits) × (available ≡ 0 → seat.owes ≡ false) }
        ensures outcome { IfOk result (OnOutcome self.now permits cx.new) }
        ensures same { IfOk result (IsBySeat seat) × IfErr result (IsSameSeat seat) }
        ensures again { IfErr result (λ told. IsOf self.now told × (told.permits ≡ 0) × (told.under_way ≡ 0) × (told.listed ≡ false) × (told.fresh ≡ false) × (told.course ≡ Do (places.Take permits false true))) }
        ensures unheard { IfErr result (λ _. cx.new ≡ cx.old) }
        ensures kept { Keeps cx.old cx.new }
    {
        let mut seat = seat;
        let told = Some(available);
        let join = Place::Join { permits, told };
        let Ok(id) = self.join(rt, &mut seat, permits, join) else {
            let at = Place::RefuseFit { permits, available };
            self.fit_found(rt, &mut seat, available, at);
            seat.rise();
            return Ok(Outcome::Refused(Refusal::Memory));
        };
        let available = match self.look_told(rt, permits, &mut seat) {
            Ok(left) => {
                return Ok(Outcome::Got(self.leave_told(rt, permits, seat, id, left)));
            }
            Err(available) => available,
        };
        let told = Some(available);
        let Some(whose) = self.ask(rt, &mut seat, id, cx, Place::Ask { permits, told }) else {
            return Err(seat);
        };
        let at = Place::PassOn { permits, available };
        self.fit_found(rt, &mut seat, available, at);
        Ok(Outcome::Waits(Waiting { seat, id, whose }))
    }

    // Looks, of a party that was told and has joined again, until the word stands still: how many are left once it has its permits, or how
    // many it found.
    #[inline]
    fn look_told<R: Wait>(&self, rt: &R, permits: u64, seat: &mut Seat) -> Result<u64, u64>
        requires of { IsOf self.now seat.old }
        requires course { seat.old.course ≡ Do (places.Take permits true true) }
        requires waits { (seat.old.permits ≡ 0) × (seat.old.under_way ≡ 0) × (seat.old.listed ≡ true) × (seat.old.weight ≡ permits) }
        ensures of { IsOf self.now seat.new }
        ensures same { IsSameSeat seat.old seat.new × (seat.new.under_way ≡ 0) × (seat.new.listed ≡ true) × (seat.new.entry ≡ seat.old.entry) × (seat.new.weight ≡ permits) × (seat.new.seen ≡ true) }
        ensures got { IfOk result (λ left. (seat.new.permits ≡ permits) × (left ≡ seat.new.found) × (left ≡ 0 → seat.new.owes ≡ false)) }
        ensures short { IfErr result (λ a. (seat.new.permits ≡ 0) × (a ≡ seat.new.found) × (seat.new.fresh ≡ false) × (a ≡ 0 → seat.new.owes ≡ false)) }
        ensures leaves { IfOk result (λ left. seat.new.course ≡ Do (places.Remove permits (told_more true left))) }
        ensures asks { IfErr result (λ a. seat.new.course ≡ Do (places.Ask permits (Some a))) }
    {
        let at = Place::Take {
            permits,
            listed: true,
            told: true,
        };
        for _ in rt.forever() {
            match self.take(seat, permits, at) {
                Taking::Left(left) => return Ok(left),
                Taking::Short(available) => return Err(available),
                Taking::Changed => {}
            }
        }
        unreachable!()
    }

    // Leaves the list, of a party that was told, has joined again and got its permits: it hands on those that are left, or looks anew if its
    // entry was notified.
    #[inline]
    fn leave_told<R: Wait>(&self, rt: &R, permits: u64, seat: Seat, id: EntryId, left: u64) -> Seat
        requires of { IsOf self.now seat }
        requires course { seat.course ≡ Do (places.Remove permits (told_more true left)) }
        requires has { (seat.permits ≡ permits) × (seat.under_way ≡ 0) × (seat.listed ≡ true) × (seat.entry ≡ id.number) }
        requires found { (left ≡ seat.found) × (seat.seen ≡ true) × (left ≡ 0 → seat.owes ≡ false) }
        ensures { Holds self.now permits result × IsSameSeat seat result }
    {
        let mut seat = seat;
        let more = some_of(left);
        if self.remove(rt, &mut seat, id, Place::Remove { permits, more }) {
            self.hand_on(rt, &mut seat, permits);
        } else if let Some(available) = more {
            self.fit(
                rt,
                &mut seat,
                available,
                Place::HandOn { permits, available },
            );
        }
        seat
    }

    /// Drops a future that waits: its entry leaves the list, and if it was notified, whoever is next is notified instead.
    #[inline]
    pub fn cancel<R: Wait>(&self, rt: &R, waiting: Waiting)
        requires { IsOf self.now waiting.seat }
    {
        let Waiting {
            mut seat,
            id,
            whose: _,
        } = waiting;
        seat.begin(SemaphoreCall::Drop, Place::CancelRemove);
        if self.remove(rt, &mut seat, id, Place::CancelRemove) {
            let available = self.load(&mut seat, Place::CancelLoad);
            self.fit_found(rt, &mut seat, available, Place::FitGivenBack(available));
        }
        seat.rise();
    }
}

// How many are left for the next one, if some are.
#[inline(always)]
fn some_of(left: u64) -> Option<u64>
    ensures more { result ≡ told_more true left }
    ensures some { IfSome result (λ available. available ≡ left) }
    ensures none { IfNone result (left ≡ 0) }
{
    if left > 0 { Some(left) } else { None }
}
