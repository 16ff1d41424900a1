//! What a World's call asks of a barrier's programs, and what a call leaves its party with.

ghost use Rattle.std.specs.Prelude.{◌≡◌};
ghost use Rattle.world_barrier.specs.program.Program.{asked_of, start_of, got_left as got_left_lem, position_left as position_left_lem};

use sync_program::barrier::{self, BarrierCall, Left, Place, Position};
use world_base::{Call, Got};

/// What a call asks; None of the calls that the programs don't have.
fn asked(call: Call) -> Option<BarrierCall>
    ensures { result ≡ asked_of call }
{
    match call {
        Call::Wait => Some(BarrierCall::Wait),
        Call::Poll => Some(BarrierCall::Poll),
        Call::Drop => Some(BarrierCall::Drop),
        _ => None,
    }
}

/// The place at which a call begins for a party that stands there; None where it can't.
pub fn start(call: Call, at: Position) -> Option<Place>
    ensures { result ≡ start_of call at }
{
    match asked(call) {
        Some(call) => barrier::start(call, at),
        None => None,
    }
}

/// What a call that has ended got: whether its party leads its generation, if its wait is ready.
pub fn got_left(left: Left) -> Got
    ensures { result ≡ got_left_lem left }
{
    match left {
        Left::Ready { leads } => Got::Leader(leads),
        Left::Outside(_) => Got::Plain,
    }
}

/// Where a party stands whose call has ended.
pub fn position_left(left: Left) -> Position
    ensures { result ≡ position_left_lem left }
{
    match left {
        Left::Ready { .. } => Position::Out,
        Left::Outside(position) => position,
    }
}
