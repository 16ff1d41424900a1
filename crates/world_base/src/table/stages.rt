//! Which calls a party may begin, and how it stands after an answer.

ghost use Rattle.std.specs.Prelude.{◌≡◌};
ghost use Rattle.world_base.specs.Standings.{may_begin as may_begin_lem, rest_after as rest_after_lem};
ghost use Rattle.world_base.specs.table.Stages.{stage_after as stage_after_lem, polls_again as polls_again_lem};

use crate::standing::{Kind, Rest, Stage, Within};
use crate::{Answer, Call, What};
use lock_program::Refusal;

/// Whether a party that stands so may begin a call of this kind.
pub(crate) fn may_begin(was: Rest, kind: Kind) -> bool
    ensures { result ≡ may_begin_lem was kind }
{
    match was {
        Rest::Idle => matches!(kind, Kind::FirstPoll | Kind::Try | Kind::Add),
        Rest::Pending => matches!(kind, Kind::LaterPoll | Kind::Drop),
        Rest::Holding => matches!(
            kind,
            Kind::LaterPoll
                | Kind::Upgrade
                | Kind::TryUpgrade
                | Kind::Downgrade
                | Kind::Forget
                | Kind::Give
                | Kind::Put
                | Kind::Drop
        ),
        Rest::Finished => matches!(
            kind,
            Kind::FirstPoll | Kind::Try | Kind::Add | Kind::LaterPoll | Kind::Drop
        ),
    }
}

/// Whether a party polls a future that has been ready.
pub(crate) fn polls_again(stage: Stage, what: What) -> bool
    ensures { result ≡ polls_again_lem stage what }
{
    match stage {
        Stage::Outside(Rest::Holding | Rest::Finished) => {
            matches!(what, What::Begin(Call::Poll, _))
        }
        _ => false,
    }
}

/// How a party stands whose call has ended so; `ready` is how one stands whose future has been ready.
fn rest_after(ready: Rest, within: Within, answer: Answer) -> Rest
    ensures { result ≡ rest_after_lem ready within answer }
{
    match answer {
        Answer::Pending | Answer::Waiting => Rest::Pending,
        Answer::Ready(_) => ready,
        Answer::Granted(_) => match (ready, within.kind) {
            (Rest::Holding, Kind::Try) => Rest::Holding,
            _ => within.was,
        },
        Answer::GivenBack => match within.kind {
            Kind::Downgrade => Rest::Holding,
            _ => Rest::Idle,
        },
        Answer::Refused(number) => {
            if number == Refusal::Permits.number() || number == Refusal::Finished.number() {
                within.was
            } else {
                Rest::Pending
            }
        }
        _ => within.was,
    }
}

/// At which stage a party is after this answer.
pub(crate) fn stage_after(ready: Rest, within: Within, answer: Answer) -> Stage
    ensures { result ≡ stage_after_lem ready within answer }
{
    match answer {
        Answer::Stepped => Stage::Inside(within),
        _ => Stage::Outside(rest_after(ready, within, answer)),
    }
}
