//! What a World's call asks of a once-cell's programs, and what a call leaves its party with.

ghost use Rattle.std.specs.Prelude.{◌≡◌};
ghost use Rattle.world_once_cell.specs.program.Program.{asked_of, start_of, got_left as got_left_lem, position_left as position_left_lem};

use sync_program::once_cell::{self, CellCall, Left, Place, Position};
use world_base::{Call, Got};

/// What a call asks; None of the calls that the programs don't have.
fn asked(call: Call) -> Option<CellCall<u64>>
    ensures { result ≡ asked_of call }
{
    match call {
        Call::Initialize => Some(CellCall::Initialize),
        Call::Set(value) => Some(CellCall::Set(value)),
        Call::Wait => Some(CellCall::Wait),
        Call::TrySet(value) => Some(CellCall::TrySet(value)),
        Call::Poll => Some(CellCall::Poll),
        Call::Drop => Some(CellCall::Drop),
        _ => None,
    }
}

/// The place at which a call begins for a party that stands there; None where it can't.
pub fn start(call: Call, at: Position<u64>) -> Option<Place<u64>>
    ensures { result ≡ start_of call at }
{
    match asked(call) {
        Some(call) => once_cell::start(call, at),
        None => None,
    }
}

/// What a call that has ended got: what its future is ready with, and else nothing.
pub fn got_left(left: Left<u64>) -> Got
    ensures { result ≡ got_left_lem left }
{
    match left {
        Left::Ready(once_cell::Got::Value(value)) => Got::Value(value),
        Left::Ready(once_cell::Got::Taken(own)) => Got::Taken(own),
        Left::Ready(once_cell::Got::Failed) => Got::Failed,
        Left::Outside(_) => Got::Plain,
    }
}

/// Where a party stands whose call has ended.
pub fn position_left(left: Left<u64>) -> Position<u64>
    ensures { result ≡ position_left_lem left }
{
    match left {
        Left::Ready(_) => Position::Out,
        Left::Outside(position) => position,
    }
}
