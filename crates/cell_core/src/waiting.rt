//! Whole calls of a party that only waits for the value, action by action as its program has them.
//!
//! Each action names its place in the table of `sync_program`, and asks that the call has come to it.

ghost use Rattle.std.specs.Prelude.{◌≡◌, true, false};
ghost use Rattle.futures.specs.Task.{Keeps};
ghost use Rattle.cell_core.specs.Cells.{IsOf, IsIdle};
ghost use Rattle.cell_core.specs.Courses.{refusing_to_wait};
ghost use Rattle.lock_program.specs.declared.end.Next.TheVariants.{Do};
ghost use Rattle.sync_program.specs.declared.once_cell.Place.TheVariants as at;
ghost use Rattle.cell_core.specs.Outcomes.{IsWaitedBySeat, OnWaited};

use crate::cell::RawCell;
use crate::seat::Seat;
use crate::state::State;
use crate::turn::{Waited, Waiting};
use futures::task::Context;
use lock_event::Memory;
use std::sync::Wait;
use sync_program::once_cell::{CellCall, ListName, Place};

impl<T> RawCell<T> {
    /// Polls a wait for the first time, or past a refusal.
    pub fn wait_first<'a, R: Wait>(&'a self, rt: &R, cx: &mut Context<'_>) -> Waited<'a, T>
        ensures outcome { OnWaited self.now cx.new result }
        ensures kept { Keeps cx.old cx.new }
    {
        let mut seat = self.sit();
        seat.begin(CellCall::Wait, Place::Look { told: false });
        self.wait_on(rt, cx, seat, false)
    }

    /// Polls a wait that stands in the list. It goes on with the same seat (`same`).
    pub fn wait_later<'a, R: Wait>(
        &'a self,
        rt: &R,
        cx: &mut Context<'_>,
        waiting: Waiting,
    ) -> Waited<'a, T>
        requires { IsOf self.now waiting.seat }
        ensures outcome { OnWaited self.now cx.new result }
        ensures same { IsWaitedBySeat waiting.seat result }
        ensures kept { Keeps cx.old cx.new }
    {
        let Waiting {
            mut seat,
            id,
            whose: _,
        } = waiting;
        let at = Place::AskPassive;
        seat.begin(CellCall::Poll, at);
        if let Some(whose) = self.ask(rt, &mut seat, ListName::Passive, id, cx, at) {
            return Waited::Waits(Waiting { seat, id, whose });
        }
        self.wait_on(rt, cx, seat, true)
    }

    // Looks, joins, looks and asks, until the cell is full, or it waits.
    fn wait_on<'a, R: Wait>(
        &'a self,
        rt: &R,
        cx: &mut Context<'_>,
        seat: Seat,
        told: bool,
    ) -> Waited<'a, T>
        requires of { IsOf self.now seat }
        requires idle { IsIdle seat }
        requires course { seat.course ≡ Do (at.Look told) }
        ensures outcome { OnWaited self.now cx.new result }
        ensures same { IsWaitedBySeat seat result }
        ensures kept { Keeps cx.old cx.new }
    {
        let mut seat = seat;
        let mut told = told;
        let list = ListName::Passive;
        for _ in rt.forever() {
            if self.look(&mut seat, Place::Look { told }) == State::Full {
                let (value, ended) = self.found(rt, seat);
                return Waited::Value(value, ended);
            }
            let at = Place::JoinPassive { told };
            let joined = match self.join(rt, &mut seat, list, cx, at) {
                Ok(joined) => joined,
                Err(Memory) => {
                    self.refuse_wait(rt, seat, told);
                    return Waited::Refused;
                }
            };
            let id = joined.id;
            // Whoever filled the cell before it joined told nobody.
            if self.look(&mut seat, Place::LookListed) == State::Full {
                self.leave(rt, &mut seat, list, id, Place::LeavePassive(()));
                let (value, ended) = self.found(rt, seat);
                return Waited::Value(value, ended);
            }
            let at = Place::AskPassive;
            if let Some(whose) = self.still_waits(rt, &mut seat, list, joined, cx, at) {
                return Waited::Waits(Waiting { seat, id, whose });
            }
            told = true;
        }
        unreachable!()
    }

    // Refuses a party for whose entry there was no memory: it notifies, if it took a notification during this poll.
    #[cold]
    #[inline(never)]
    fn refuse_wait<R: Wait>(&self, rt: &R, seat: Seat, told: bool)
        requires of { IsOf self.now seat }
        requires idle { IsIdle seat }
        requires course { seat.course ≡ refusing_to_wait told }
    {
        let mut seat = seat;
        if told {
            self.notify(rt, &mut seat, ListName::Passive, Place::RefusePassive);
        }
        seat.rise();
    }

    /// Gives back what a wait has between two polls.
    pub fn cancel_wait<R: Wait>(&self, rt: &R, waiting: Waiting)
        requires { IsOf self.now waiting.seat }
    {
        let Waiting {
            mut seat,
            id,
            whose: _,
        } = waiting;
        let at = Place::CancelLeave(ListName::Passive);
        seat.begin(CellCall::Drop, at);
        self.leave(rt, &mut seat, ListName::Passive, id, at);
        seat.rise();
    }
}
