//! Whole calls of a party that would make the value, action by action as its program has them.
//!
//! Each action names its place in the table of `sync_program`, and asks that the call has come to it.

ghost use Rattle.std.specs.Prelude.{◌≡◌, Ok, IfErr, IfNone, IfOk, IfSome, true, false};
ghost use Rattle.futures.specs.Task.{Keeps};
ghost use Rattle.cell_core.specs.Cells.{HasFound, IsOf, IsIdle, IsMaking, IsBetween, IsSameSeat};
ghost use Rattle.cell_core.specs.Courses.{IsEmptying, IsFilling, IsReady, claiming_from, first_poll, refusing_to_make, waiting_to_make};
ghost use Rattle.cell_core.specs.Outcomes.{IsBySeat, OnOutcome, RestsAt, RestsSo, seat_in};
ghost use Rattle.cell_core.specs.Purposes.{maker_of};
ghost use Rattle.lock_program.specs.declared.end.Next.TheVariants.{Do};
ghost use Rattle.sync_program.specs.declared.once_cell.Place.TheVariants as at;

use crate::cell::RawCell;
use crate::maker::Maker;
use crate::seat::{Ended, Seat};
use crate::state::State;
use crate::turn::{Making, Outcome, Resting, WaitingToMake};
use futures::task::{Context, Poll};
use std::sync::{OnceToken, Wait};
use sync_program::once_cell::{CellCall, ListName, Maker as MakerKind, Place};

impl<T> RawCell<T> {
    /// Polls a party for the first time, or past a refusal, with this maker, which was never asked.
    pub fn poll_first<'a, E: Drop, M: Maker<T, E>, R: Wait>(
        &'a self,
        rt: &R,
        cx: &mut Context<'_>,
        maker: M,
    ) -> Outcome<'a, T, E, M>
        requires new { M.is_new maker }
        requires ready { M.can_make maker }
        ensures outcome { OnOutcome M.purpose M.is_new M.can_make M.gives M.needs maker self.now cx.new result }
        ensures kept { Keeps cx.old cx.new }
    {
        let at = Place::Claim {
            maker: M::kind(),
            told: false,
        };
        let mut seat = self.sit();
        seat.begin(first_call(M::kind()), at);
        match self.claim(&mut seat, at) {
            State::Empty => self.make(rt, cx, seat, maker),
            State::Making => self.wait_to_make(rt, cx, seat, maker, false),
            State::Full => {
                let (value, ended) = self.found(rt, seat);
                Outcome::Kept(maker, value, ended)
            }
        }
    }

    /// Polls a party that waits, or makes, with its maker. It goes on with the same seat (`same`).
    pub fn poll_later<'a, E: Drop, M: Maker<T, E>, R: Wait>(
        &'a self,
        rt: &R,
        cx: &mut Context<'_>,
        maker: M,
        resting: Resting,
    ) -> Outcome<'a, T, E, M>
        requires rests { RestsSo M.purpose M.is_new self.now maker resting }
        requires ready { M.can_make maker }
        ensures outcome { OnOutcome M.purpose M.is_new M.can_make M.gives M.needs maker self.now cx.new result }
        ensures same { IsBySeat (seat_in resting) result }
        ensures kept { Keeps cx.old cx.new }
    {
        match resting {
            Resting::Waits(waiting) => self.poll_waiting(rt, cx, maker, waiting),
            Resting::Makes(making) => {
                let Making { mut seat } = making;
                seat.begin(CellCall::Poll, Place::Make(M::kind()));
                self.make(rt, cx, seat, maker)
            }
        }
    }

    // Polls a party that waits in the list, with its maker.
    fn poll_waiting<'a, E: Drop, M: Maker<T, E>, R: Wait>(
        &'a self,
        rt: &R,
        cx: &mut Context<'_>,
        maker: M,
        waiting: WaitingToMake,
    ) -> Outcome<'a, T, E, M>
        requires of { IsOf self.now waiting.seat }
        requires course { waiting.seat.course ≡ waiting_to_make (maker_of M.purpose) }
        requires new { M.is_new maker }
        requires ready { M.can_make maker }
        ensures outcome { OnOutcome M.purpose M.is_new M.can_make M.gives M.needs maker self.now cx.new result }
        ensures same { IsBySeat waiting.seat result }
        ensures kept { Keeps cx.old cx.new }
    {
        let WaitingToMake {
            mut seat,
            id,
            whose: _,
        } = waiting;
        let at = Place::AskActive(M::kind());
        seat.begin(CellCall::Poll, at);
        if let Some(whose) = self.ask(rt, &mut seat, ListName::Active, id, cx, at) {
            return Outcome::Pending(maker, Resting::Waits(WaitingToMake { seat, id, whose }));
        }
        self.wait_to_make(rt, cx, seat, maker, true)
    }

    // Claims first if it was told; joins, claims and asks, until it makes, or the cell is full, or it waits.
    fn wait_to_make<'a, E: Drop, M: Maker<T, E>, R: Wait>(
        &'a self,
        rt: &R,
        cx: &mut Context<'_>,
        seat: Seat,
        maker: M,
        told: bool,
    ) -> Outcome<'a, T, E, M>
        requires of { IsOf self.now seat }
        requires between { IsBetween told seat }
        requires course { seat.course ≡ Do (claiming_from (maker_of M.purpose) told) }
        requires new { M.is_new maker }
        requires ready { M.can_make maker }
        ensures outcome { OnOutcome M.purpose M.is_new M.can_make M.gives M.needs maker self.now cx.new result }
        ensures same { IsBySeat seat result }
        ensures kept { Keeps cx.old cx.new }
    {
        let mut seat = seat;
        let mut told = told;
        let kind = M::kind();
        let list = ListName::Active;
        for _ in rt.forever() {
            if told {
                match self.claim(&mut seat, Place::Claim { maker: kind, told }) {
                    State::Empty => return self.make(rt, cx, seat, maker),
                    State::Making => {}
                    State::Full => {
                        let (value, ended) = self.found(rt, seat);
                        return Outcome::Kept(maker, value, ended);
                    }
                }
            }
            let at = Place::JoinActive { maker: kind, told };
            let Ok(joined) = self.join(rt, &mut seat, list, cx, at) else {
                self.refuse(rt, seat, kind, told);
                return Outcome::Refused(maker);
            };
            let id = joined.id;
            // Whoever ended before it joined told nobody.
            match self.claim(&mut seat, Place::ClaimListed(kind)) {
                State::Empty => {
                    self.leave(rt, &mut seat, list, id, Place::LeaveToMake(kind));
                    return self.make(rt, cx, seat, maker);
                }
                State::Making => {}
                State::Full => {
                    let value = ();
                    let at = Place::LeaveFull { maker: kind, value };
                    self.leave(rt, &mut seat, list, id, at);
                    let (value, ended) = self.found(rt, seat);
                    return Outcome::Kept(maker, value, ended);
                }
            }
            let at = Place::AskActive(kind);
            if let Some(whose) = self.still_waits(rt, &mut seat, list, joined, cx, at) {
                let waiting = WaitingToMake { seat, id, whose };
                return Outcome::Pending(maker, Resting::Waits(waiting));
            }
            told = true;
        }
        unreachable!()
    }

    // The cell's value, of a party that found it full, and is ready. Its seat has ended.
    pub(crate) fn found<'a, R: Wait>(&'a self, rt: &R, seat: Seat) -> (&'a T, Ended)
        requires of { IsOf self.now seat }
        requires course { IsReady seat.course }
        requires full { IsIdle seat × (seat.found ≡ 2) }
        ensures { result.1 ≡ seat }
    {
        let value = self.lend(rt, &seat);
        (value, seat.end())
    }

    // Refuses a party for whose entry there was no memory: it notifies, if it took a notification during this poll.
    #[cold]
    #[inline(never)]
    fn refuse<R: Wait>(&self, rt: &R, seat: Seat, kind: MakerKind<()>, told: bool)
        requires of { IsOf self.now seat }
        requires between { IsBetween told seat }
        requires course { seat.course ≡ refusing_to_make kind told }
    {
        let mut seat = seat;
        if told {
            self.notify(rt, &mut seat, ListName::Active, Place::RefuseActive(kind));
        }
        seat.rise();
    }

    // Asks the maker of a party that has the right to make, and does what comes after.
    fn make<'a, E: Drop, M: Maker<T, E>, R: Wait>(
        &'a self,
        rt: &R,
        cx: &mut Context<'_>,
        seat: Seat,
        maker: M,
    ) -> Outcome<'a, T, E, M>
        requires of { IsOf self.now seat }
        requires makes { IsMaking seat }
        requires course { seat.course ≡ Do (at.Make (maker_of M.purpose)) }
        requires ready { M.can_make maker }
        ensures outcome { OnOutcome M.purpose M.is_new M.can_make M.gives M.needs maker self.now cx.new result }
        ensures same { IsBySeat seat result }
        ensures kept { Keeps cx.old cx.new }
    {
        let mut seat = seat;
        let mut maker = maker;
        match seat.ask_maker(cx, &mut maker, Place::Make(M::kind())) {
            Poll::Pending => Outcome::Pending(maker, Resting::Makes(Making { seat })),
            Poll::Ready(Ok(value)) => {
                drop(maker);
                let (shown, back, ended) = self.enter(
                    rt,
                    seat,
                    value,
                    Place::Fill(()),
                    Place::NotifyActive(()),
                    Place::NotifyPassive(()),
                );
                let value = self.value(&shown);
                match back {
                    None => Outcome::Value(value, ended),
                    Some(own) => Outcome::Back(own, value, ended),
                }
            }
            Poll::Ready(Err(fault)) => {
                drop(maker);
                let ended = self.give_up(rt, seat, Place::Fail, Place::FailNotify);
                Outcome::Failed(fault, ended)
            }
        }
    }

    // A value enters the cell, and then the word says so, by the seat that makes; and both lists are notified, each at its place. Should a
    // value stand there already, that one stays, and this one comes back. The seat has ended.
    fn enter<'a, R: Wait>(
        &'a self,
        rt: &R,
        seat: Seat,
        value: T,
        fill: Place<()>,
        active: Place<()>,
        passive: Place<()>,
    ) -> (OnceToken<'a, T>, Option<T>, Ended)
        requires of { IsOf self.now seat }
        requires makes { IsMaking seat }
        requires course { seat.course ≡ Do fill }
        requires places { IsFilling fill active passive }
        ensures shown { (result.0.of ≡ self.now.word.store) × IfNone result.1 (result.0.value ≡ value) }
        ensures back { IfSome result.1 (λ back. back ≡ value) }
        ensures ended { HasFound self.now result.2 × IsSameSeat seat result.2 }
    {
        let mut seat = seat;
        let (shown, back) = self.put(rt, &seat, value, fill);
        self.fill(&mut seat, &shown, fill);
        if self.may_have_entries(&mut seat, active) {
            self.notify_all(rt, &mut seat, ListName::Active, active);
        }
        if self.may_have_entries(&mut seat, passive) {
            self.notify_all(rt, &mut seat, ListName::Passive, passive);
        }
        (shown, back, seat.end())
    }

    // The cell is empty again, by the seat that makes, whose maker failed or is dropped; and one that would make is notified. The seat has
    // ended.
    fn give_up<R: Wait>(&self, rt: &R, seat: Seat, empty: Place<()>, notify: Place<()>) -> Ended
        requires of { IsOf self.now seat }
        requires makes { IsMaking seat }
        requires course { seat.course ≡ Do empty }
        requires places { IsEmptying empty notify }
        ensures { IsOf self.now result × IsSameSeat seat result }
    {
        let mut seat = seat;
        self.empty(&mut seat, empty);
        if self.may_have_entries(&mut seat, notify) {
            self.notify(rt, &mut seat, ListName::Active, notify);
        }
        seat.end()
    }

    /// Gives back what a party has between two polls that would make the value. Whoever calls it drops the maker first.
    pub fn cancel<R: Wait>(&self, rt: &R, resting: Resting)
        requires { RestsAt self.now resting }
    {
        match resting {
            Resting::Waits(waiting) => {
                let WaitingToMake {
                    mut seat,
                    id,
                    whose: _,
                } = waiting;
                let at = Place::CancelLeave(ListName::Active);
                seat.begin(CellCall::Drop, at);
                self.leave(rt, &mut seat, ListName::Active, id, at);
                seat.rise();
            }
            Resting::Makes(making) => {
                let Making { mut seat } = making;
                seat.begin(CellCall::Drop, Place::CancelMake);
                drop(self.give_up(rt, seat, Place::CancelMake, Place::CancelNotify));
            }
        }
    }

    /// Puts this value in at once if the cell is empty, and else gives it back: also while another makes the value. A value that
    /// is put in is shown (`shown`).
    pub fn try_set_shown<R: Wait>(&self, rt: &R, value: T) -> Result<OnceToken<'_, T>, T>
        ensures shown { IfOk result (λ token. (token.of ≡ self.now.word.store) × (token.value ≡ value)) }
        ensures back { IfErr result (λ back. back ≡ value) }
    {
        let mut seat = self.sit();
        seat.begin(CellCall::TrySet(()), Place::Try(()));
        match self.claim(&mut seat, Place::Try(())) {
            State::Empty => {
                let (shown, back, _) = self.enter(
                    rt,
                    seat,
                    value,
                    Place::TryFill(()),
                    Place::TryNotifyActive(()),
                    Place::TryNotifyPassive(()),
                );
                match back {
                    None => Ok(shown),
                    Some(value) => Err(value),
                }
            }
            State::Making | State::Full => {
                seat.rise();
                Err(value)
            }
        }
    }

    /// Puts this value in at once, as [`RawCell::try_set_shown`], without what shows it.
    pub fn try_set<R: Wait>(&self, rt: &R, value: T) -> Result<(), T>
        ensures { IfErr result (λ back. back ≡ value) }
    {
        match self.try_set_shown(rt, value) {
            Ok(_) => Ok(()),
            Err(back) => Err(back),
        }
    }
}

// The first call of a party with such a maker.
#[inline(always)]
fn first_call(kind: MakerKind<()>) -> CellCall<()>
    ensures { result ≡ first_poll kind }
{
    match kind {
        MakerKind::Closure => CellCall::Initialize,
        MakerKind::Given(()) => CellCall::Set(()),
    }
}
