//! One poll of a future by who has the semaphore, and what a dropped one gives back.

ghost use Rattle.std.specs.Prelude.{◌≡◌, IfNone, IfSome};
ghost use Rattle.futures.specs.Task.{Keeps};
ghost use Rattle.async_driver.specs.Stages.{HasNoShare};
ghost use Rattle.async_semaphore.specs.Stages.{Gives, GotAt, OnPolled, OnTriedAt, WaitsAs, looking_seat};
ghost use Rattle.semaphore_core.specs.Outcomes.{IsBySeat, WaitsFor};

use crate::guard::PermitGuard;
use crate::owns::Owns;
use async_driver::{Stage, nothing};
use futures::task::Context;
use semaphore_core::{Outcome, Seat, Tried, Waiting};
use std::sync::Wait;
use std::time::Clock;

/// The first look of a poll for the permits, by who has the semaphore, if that is still here.
#[inline]
pub(crate) fn take<R, O: Owns<Runtime = R>>(stage: &Stage<O>, permits: u64) -> Option<Tried>
    ensures tried { IfSome result (OnTriedAt O.semaphore_of stage.now permits) }
    ensures none { IfNone result (HasNoShare stage.now) }
{
    match stage {
        Stage::Waits(owner) => Some(owner.semaphore().raw.first_look(permits)),
        Stage::Unowned | Stage::Finished => None,
    }
}

/// The guard of a future that got its permits, with who has the semaphore.
#[inline]
pub(crate) fn into_guard<R: Wait, O: Owns<Runtime = R>>(
    stage: Stage<O>,
    seat: Seat,
    permits: u64,
) -> PermitGuard<R, O>
    requires { GotAt O.semaphore_of stage permits seat }
    ensures { Gives O.semaphore_of stage permits result × (result.seat ≡ seat) }
{
    match stage {
        Stage::Waits(owner) => PermitGuard::new(owner, seat, permits),
        Stage::Unowned | Stage::Finished => unreachable!(),
    }
}

/// The rest of a first poll that didn't get its permits at once, by who has the semaphore. It stands apart, as the next one does,
/// since what it takes room for would be cleared at each poll that is ready without it.
#[inline(never)]
pub(crate) fn poll_first<R: Wait + Clock, O: Owns<Runtime = R>>(
    stage: &Stage<O>,
    permits: u64,
    tried: Tried,
    cx: &mut Context<'_>,
) -> Outcome
    requires tried { OnTriedAt O.semaphore_of stage.now permits tried }
    ensures polled { OnPolled O.semaphore_of stage.now permits cx.new result }
    ensures same { IsBySeat (looking_seat tried) result }
    ensures kept { Keeps cx.old cx.new }
{
    let Stage::Waits(owner) = stage else {
        unreachable!()
    };
    let semaphore = owner.semaphore();
    let raw = &semaphore.raw;
    let seat = match tried {
        Tried::Got(seat) => return Outcome::Got(seat),
        Tried::Short(seat) => seat,
        Tried::Changed(seat) => match raw.look_on(&semaphore.rt, seat, permits) {
            Ok(seat) => return Outcome::Got(seat),
            Err(seat) => seat,
        },
    };
    raw.poll_first(&semaphore.rt, cx, permits, seat)
}

/// A poll of what waits, by who has the semaphore.
#[inline(never)]
pub(crate) fn poll_waiting<R: Wait + Clock, O: Owns<Runtime = R>>(
    stage: &Stage<O>,
    permits: u64,
    waiting: Waiting,
    cx: &mut Context<'_>,
) -> Outcome
    requires { WaitsAs O.semaphore_of stage.now permits waiting }
    ensures polled { OnPolled O.semaphore_of stage.now permits cx.new result }
    ensures same { IsBySeat waiting.seat result }
    ensures kept { Keeps cx.old cx.new }
{
    let Stage::Waits(owner) = stage else {
        unreachable!()
    };
    let semaphore = owner.semaphore();
    let raw = &semaphore.raw;
    raw.poll_waiting(&semaphore.rt, cx, permits, waiting)
}

/// What a dropped future gives back.
#[inline]
pub(crate) fn drop_stage<R: Wait, O: Owns<Runtime = R>>(
    stage: Stage<O>,
    permits: u64,
    waiting: Option<Waiting>,
)
    requires { IfSome waiting (WaitsAs O.semaphore_of stage permits) }
{
    match stage {
        Stage::Waits(owner) => leave::<R, O>(owner, permits, waiting),
        Stage::Unowned | Stage::Finished => nothing(waiting),
    }
}

// What a dropped future gives back that hasn't been ready, its share of the semaphore last. It stands apart, so that the drop
// of one that was ready is short.
#[inline(never)]
fn leave<R: Wait, O: Owns<Runtime = R>>(owner: O, permits: u64, waiting: Option<Waiting>)
    requires { IfSome waiting (WaitsFor (O.semaphore_of owner).raw permits) }
{
    let _ = permits;
    if let Some(waiting) = waiting {
        let semaphore = owner.semaphore();
        semaphore.raw.cancel(&semaphore.rt, waiting);
    }
    drop(owner);
}
