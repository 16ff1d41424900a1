//! What a World's call asks of a pool's programs.

ghost use Rattle.std.specs.Prelude.{◌≡◌};
ghost use Rattle.world_pool.specs.program.Program.{asked_of, position_after, place_for as place_for_lem};

use crate::program::places::{self, Place, PoolCall, Position};
use lock_program::Next;
use world_base::{Call, What};

/// What a call asks; None of the calls that the programs don't have.
fn asked(call: Call) -> Option<PoolCall>
    ensures { result ≡ asked_of call }
{
    match call {
        Call::Take => Some(PoolCall::Take),
        Call::TryTake => Some(PoolCall::TryTake),
        Call::Give => Some(PoolCall::Give),
        Call::Poll => Some(PoolCall::Poll),
        Call::Drop => Some(PoolCall::Drop),
        _ => None,
    }
}

/// The place whose action a move carries out; None where the call can't begin or go on.
pub fn place_for(what: What, at: Position) -> Option<Place>
    ensures { result ≡ place_for_lem what at }
{
    match what {
        What::Begin(call, _) => match asked(call) {
            Some(call) => places::start(call, at),
            None => None,
        },
        What::Go(_) => match at {
            Position::At(place) => Some(place),
            _ => None,
        },
    }
}

/// Where a party stands after this.
pub fn after(next: Next<Place, Position>) -> Position
    ensures { result ≡ position_after next }
{
    match next {
        Next::Do(place) => Position::At(place),
        Next::End(_, position) => position,
    }
}
