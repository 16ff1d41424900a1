//! What is done for a party at a place of its call: one action, on the word, on one of the lists or on the turn.

ghost use Rattle.std.specs.Prelude.{◌≡◌, ◌<◌};
ghost use Rattle.world_base.specs.queue.Parties.{entries_of};
ghost use Rattle.world_rwlock.specs.program.Effects.{CanDo};
ghost use Rattle.world_rwlock.specs.program.Parties.{Joins, Asks, HasMemory};
ghost use Rattle.world_rwlock.specs.program.Carried.{Carried};

use crate::program::word::Word;
use sync_program::rwlock::{Action, Found};
use world_base::queue::WaitQueue;
use world_mutex::machine::Mutex;

/// The party joins the list, if there is memory for it.
fn join(list: &mut WaitQueue, party: u32, memory: bool) -> Found
    requires known { party < list.old.parties }
    requires out { entries_of party list.old.entries ≡ 0 }
    ensures list { Joins party result list.old.entries list.new.entries }
    ensures parties { list.new.parties ≡ list.old.parties }
    ensures memory { HasMemory memory result }
{
    if memory {
        list.join(party);
        Found::Done
    } else {
        Found::NoMemory
    }
}

/// The party asks for its notification.
fn ask(list: &mut WaitQueue, party: u32) -> Found
    requires known { party < list.old.parties }
    requires listed { 0 < entries_of party list.old.entries }
    ensures list { Asks party result list.old.entries list.new.entries }
    ensures parties { list.new.parties ≡ list.old.parties }
{
    if list.ask(party) {
        Found::Yes
    } else {
        Found::No
    }
}

/// Carries out one action for a party.
pub fn carry_out(
    word: &mut Word,
    no_writer: &mut WaitQueue,
    no_readers: &mut WaitQueue,
    turn: &mut Mutex,
    party: u32,
    action: Action,
    memory: bool,
    starving: bool,
) -> Found
    requires { CanDo party action word.old no_writer.old no_readers.old turn.old }
    ensures { Carried memory starving party action result word.old no_writer.old no_readers.old turn.old word.new no_writer.new no_readers.new turn.new }
{
    match action {
        Action::Nothing => Found::Done,
        Action::Read => word.read(),
        Action::Add => word.add(),
        Action::Off => word.off(),
        Action::Load => word.load(),
        Action::Mark => word.mark(),
        Action::TryWrite => word.try_write(),
        Action::TryUpgrade => word.try_upgrade(),
        Action::Upgrade => word.upgrade(),
        Action::Down => word.down(),
        Action::Unmark => word.unmark(),
        Action::JoinNoWriter => join(no_writer, party, memory),
        Action::AskNoWriter => ask(no_writer, party),
        Action::LeaveNoWriter => {
            no_writer.leave(party);
            Found::Done
        }
        Action::NotifyNoWriter => {
            no_writer.notify(1);
            Found::Done
        }
        Action::JoinNoReaders => join(no_readers, party, memory),
        Action::AskNoReaders => ask(no_readers, party),
        Action::LeaveNoReaders => {
            no_readers.leave(party);
            Found::Done
        }
        Action::NotifyNoReaders => {
            no_readers.notify(1);
            Found::Done
        }
        Action::Begin(call) => Found::Turn(turn.begin(party, call, memory, starving)),
        Action::Go => Found::Turn(turn.go(party, memory, starving)),
    }
}
