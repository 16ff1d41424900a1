//! What is done for a party at a place of its call: one action, on the word or on the list.

ghost use Rattle.world_mutex.specs.program.Carried.{Carried};
ghost use Rattle.world_mutex.specs.program.Seats.{CanDo};

use crate::program::word::Word;
use lock_program::mutex::{Action, Found};
use world_base::queue::WaitQueue;

/// Carries out one action for a party.
pub fn carry_out(
    word: &mut Word,
    list: &mut WaitQueue,
    party: u32,
    action: Action,
    memory: bool,
    starving: bool,
) -> Found
    requires { CanDo party action word.old list.old }
    ensures { Carried memory starving party action result word.old list.old word.new list.new }
{
    match action {
        Action::Nothing => Found::Done,
        Action::Take => word.take(starving),
        Action::TakeAlone => word.take_alone(),
        Action::Set => word.set(),
        Action::Count => word.count(),
        Action::Uncount => word.uncount(),
        Action::Clear => word.clear(),
        Action::Join if memory => {
            list.join(party);
            Found::Done
        }
        Action::Join => Found::NoMemory,
        Action::Ask => {
            if list.ask(party) {
                Found::Yes
            } else {
                Found::No
            }
        }
        Action::Leave => {
            list.leave(party);
            Found::Done
        }
        Action::Notify => {
            list.notify(1);
            Found::Done
        }
    }
}
