//! What a World's call asks of a semaphore's programs.

ghost use Rattle.std.specs.Prelude.{◌≡◌};
ghost use Rattle.world_semaphore.specs.machine.Program.{asked_of, start_of};

use sync_program::permits::{self, Place, Position, SemaphoreCall};
use world_base::Call;

/// What a call asks; None of the calls that the programs don't have.
fn asked(call: Call) -> Option<SemaphoreCall>
    ensures { result ≡ asked_of call }
{
    match call {
        Call::Acquire(k) => Some(SemaphoreCall::Acquire(k)),
        Call::TryAcquire(k) => Some(SemaphoreCall::TryAcquire(k)),
        Call::Poll => Some(SemaphoreCall::Poll),
        Call::Forget => Some(SemaphoreCall::Forget),
        Call::AddPermits(n) => Some(SemaphoreCall::AddPermits(n)),
        Call::Drop => Some(SemaphoreCall::Drop),
        _ => None,
    }
}

/// The place at which a call begins for a party that stands there; None where it can't.
pub(crate) fn start(call: Call, at: Position) -> Option<Place>
    ensures { result ≡ start_of call at }
{
    match asked(call) {
        Some(call) => permits::start(call, at),
        None => None,
    }
}
