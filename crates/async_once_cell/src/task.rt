//! What every future of a cell has: a maker, or a party that waits.

ghost use Rattle.std.specs.Prelude.{◌≡◌, false, Some, IfNone, IfSome};
ghost use Rattle.futures.specs.Task.{Keeps};
ghost use Rattle.async_once_cell.specs.Stages.{CanDrop, GoesOn, IsFound, KeepsStage, KeptBy, OnAnswer, ended_in, fresh_stage, future, maker_in, resting_in, resting_seat};
ghost use Rattle.async_once_cell.specs.declared.task.Party.TheVariants as parties;
ghost use Rattle.cell_core.specs.Outcomes.{IsBySeat, OnOutcome, RestsAt};

use crate::cell::OnceCell;
use async_driver::nothing;
use cell_core::{Ended, Maker, Outcome, Resting};
use futures::task::Context;
use lock_program::Refusal;
use std::mem;
use std::sync::Wait;
use std::time::Clock;

/// What the party of a future has. It has no `Drop`, as what rests has none.
pub enum Party {
    /// Nothing: the future wasn't polled, was refused, or found the cell full before its party had a seat.
    Out,
    /// It waits or makes, between two polls.
    Rests(Resting),
    /// The seat by which it has come to its end.
    Ended(Ended),
}

impl Party {
    // Takes out what rests.
    #[inline]
    fn take(&mut self) -> Option<Resting>
        ensures { (result ≡ resting_in self.old) × (self.new ≡ parties.Out) }
    {
        match mem::replace(self, Party::Out) {
            Party::Rests(resting) => Some(resting),
            Party::Out | Party::Ended(_) => None,
        }
    }

    // Puts this in, where nothing is.
    #[inline]
    fn put(&mut self, party: Party)
        requires { self.old ≡ parties.Out }
        ensures { self.new ≡ party }
    {
        match mem::replace(self, party) {
            Party::Out | Party::Ended(_) => {}
            Party::Rests(resting) => nothing(Some(resting)),
        }
    }
}

/// How far a future is. It has no `Drop`: a poll goes on with what it has, or a cancel ends it.
pub struct Stage<M> {
    /// What makes the value, until the future was ready.
    pub maker: Option<M>,
    /// What its party has beside it.
    pub party: Party,
}

impl<M> Stage<M> {
    // A future that was never polled.
    #[inline]
    pub(crate) fn new(maker: M) -> Stage<M>
        ensures { result ≡ fresh_stage maker }
    {
        Stage {
            maker: Some(maker),
            party: Party::Out,
        }
    }
}

/// What a poll answers, whatever the future is for.
pub enum Answer<'a, T, E, M> {
    /// Not yet.
    Pending,
    /// The poll gave up.
    Refused(Refusal),
    /// The cell's value.
    Value(&'a T),
    /// The value that was to enter, and the one that was in the cell already.
    Back(T, &'a T),
    /// The maker, which wasn't asked: the cell was full, of this value.
    Kept(M, &'a T),
    /// How the maker failed.
    Failed(E),
}

// The value of a full cell, for a future that was never polled or was refused. It is the first action of its program, which ends
// it where the cell is full; a poll that it doesn't end goes on by `poll_stage`.
#[inline]
pub(crate) fn find<'a, T: Drop, M: Drop, R>(
    cell: &'a OnceCell<T, R>,
    stage: &mut Stage<M>,
) -> Option<&'a T>
    ensures found { IfSome result (λ _. IsFound stage.old stage.new) }
    ensures none { IfNone result (stage.new ≡ stage.old) }
{
    match &stage.party {
        Party::Rests(_) | Party::Ended(_) => return None,
        Party::Out => {}
    }
    if stage.maker.is_none() {
        return None;
    }
    let value = cell.get()?;
    stage.maker = None;
    Some(value)
}

// One poll of a future of this cell.
#[inline(never)]
pub(crate) fn poll_stage<'a, T: Drop, E: Drop, M: Maker<T, E>, R: Wait + Clock>(
    cell: &'a OnceCell<T, R>,
    stage: &mut Stage<M>,
    cx: &mut Context<'_>,
) -> Answer<'a, T, E, M>
    requires stage { KeepsStage M.purpose M.is_new cell.now.raw stage.old }
    requires ready { IfSome (maker_in stage.old) M.can_make }
    ensures stage { KeepsStage M.purpose M.is_new cell.now.raw stage.new }
    ensures ready { IfSome (maker_in stage.new) M.can_make }
    ensures answer { OnAnswer M.purpose M.is_new M.gives M.needs cell.now.raw cx.new (future cell.now stage.old) result (future cell.now stage.new) }
    ensures same { GoesOn (resting_seat (resting_in stage.old.party)) result (resting_seat (resting_in stage.new.party)) (ended_in stage.new.party) }
    ensures kept { Keeps cx.old cx.new }
{
    let Some(maker) = stage.maker.take() else {
        return Answer::Refused(Refusal::Finished);
    };
    match poll_on(cell, cx, maker, stage.party.take()) {
        Outcome::Pending(maker, resting) => {
            stage.maker = Some(maker);
            stage.party.put(Party::Rests(resting));
            Answer::Pending
        }
        Outcome::Refused(maker) => {
            stage.maker = Some(maker);
            Answer::Refused(Refusal::Memory)
        }
        Outcome::Value(value, ended) => {
            stage.party.put(Party::Ended(ended));
            Answer::Value(value)
        }
        Outcome::Back(own, value, ended) => {
            stage.party.put(Party::Ended(ended));
            Answer::Back(own, value)
        }
        Outcome::Kept(maker, value, ended) => {
            stage.party.put(Party::Ended(ended));
            Answer::Kept(maker, value)
        }
        Outcome::Failed(fault, ended) => {
            stage.party.put(Party::Ended(ended));
            Answer::Failed(fault)
        }
    }
}

// One poll of a party, with its maker.
fn poll_on<'a, T: Drop, E: Drop, M: Maker<T, E>, R: Wait + Clock>(
    cell: &'a OnceCell<T, R>,
    cx: &mut Context<'_>,
    maker: M,
    waiting: Option<Resting>,
) -> Outcome<'a, T, E, M>
    requires kept { KeptBy M.purpose M.is_new cell.now.raw (Some maker) waiting }
    requires ready { M.can_make maker }
    ensures outcome { OnOutcome M.purpose M.is_new M.can_make M.gives M.needs maker cell.now.raw cx.new result }
    ensures same { IfSome (resting_seat waiting) (λ s. IsBySeat s result) }
    ensures kept { Keeps cx.old cx.new }
{
    match waiting {
        Some(resting) => cell.raw.poll_later(&cell.rt, cx, maker, resting),
        None => cell.raw.poll_first(&cell.rt, cx, maker),
    }
}

// What a dropped future of this cell gives back. What made the value is dropped first.
pub(crate) fn drop_stage<'a, T: Drop, M: Drop, R: Wait>(cell: &'a OnceCell<T, R>, stage: Stage<M>)
    requires { CanDrop cell.now.raw stage }
{
    let Stage { maker, party } = stage;
    drop(maker);
    give_back(cell, party);
}

// What a party gives back.
pub(crate) fn give_back<'a, T: Drop, R: Wait>(cell: &'a OnceCell<T, R>, party: Party)
    requires { IfSome (resting_in party) (RestsAt cell.now.raw) }
{
    match party {
        Party::Rests(resting) => cell.raw.cancel(&cell.rt, resting),
        Party::Out | Party::Ended(_) => {}
    }
}
