//! What a party is answered whose call has ended.

ghost use Rattle.std.specs.Prelude.{◌≡◌};
ghost use Rattle.world_base.specs.table.Ends.{answer_of};

use crate::{Answer, Got};
use lock_program::End;

/// What the party is answered whose call ended so. `got` is what comes with success: a value, or nothing.
pub fn answer(end: End, got: Got) -> Answer
    ensures { result ≡ answer_of got end }
{
    match end {
        End::Got => Answer::Ready(got),
        End::Granted => Answer::Granted(got),
        End::Pending => Answer::Pending,
        End::Waiting => Answer::Waiting,
        End::NotFree => Answer::None,
        End::GivenBack => Answer::GivenBack,
        End::Refused(refusal) => Answer::Refused(refusal.number()),
    }
}
