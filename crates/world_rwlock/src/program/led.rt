//! What a step of the read-write lock's machine leads to, by the table of the lock's places.

ghost use Rattle.std.specs.Prelude.{◌≡◌};
ghost use Rattle.world_rwlock.specs.program.Program.{led_by};

use lock_program::{End, Next as TableNext};
use sync_program::rwlock::{Action, Place, action_at};

/// What a step leads to, as the machine tells it.
#[derive(Clone, Copy)]
pub enum Next {
    /// The action that is done at this place.
    Do(Action, Place),
    /// The call is over, and the party stands at this place.
    End(End, Place),
    /// The upgrade has begun, and its future, which stands at this place, is to be polled.
    Wait(Place),
}

/// What a step leads to whose place's row of the table says this.
pub fn led(next: TableNext<Place, Place>) -> Next
    ensures { result ≡ led_by next }
{
    match next {
        TableNext::Do(place) => Next::Do(action_at(place), place),
        TableNext::End(End::Waiting, place) => Next::Wait(place),
        TableNext::End(end, place) => Next::End(end, place),
    }
}
