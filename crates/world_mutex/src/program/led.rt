//! What a step of the mutex's machine leads to, by the table of the mutex's places.

ghost use Rattle.std.specs.Prelude.{◌≡◌};
ghost use Rattle.world_mutex.specs.program.Program.{led_by, stands_by, step_of};

use lock_program::mutex::{Action, Place, Step, action_at};
use lock_program::{End, Next as TableNext};

/// What a step leads to, as the machine tells it: its caller sees by the machine's places where the party stands.
#[derive(Clone, Copy)]
pub enum Next {
    /// The action that is done at this place.
    Do(Action, Place),
    /// The call is over.
    End(End),
}

/// What a step leads to whose place's row of the table says this.
pub fn led(next: TableNext<Place, Place>) -> Next
    ensures { result ≡ led_by next }
{
    match next {
        TableNext::Do(place) => Next::Do(action_at(place), place),
        TableNext::End(end, _) => Next::End(end),
    }
}

/// Where a party stands after a step whose place's row of the table says this.
pub fn after(next: TableNext<Place, Place>) -> Place
    ensures { result ≡ stands_by next }
{
    match next {
        TableNext::Do(place) | TableNext::End(_, place) => place,
    }
}

/// What is told of what a step leads to.
pub fn step_after(next: Next) -> Step
    ensures { result ≡ step_of next }
{
    match next {
        Next::Do(_, _) => Step::More,
        Next::End(end) => Step::End(end),
    }
}
