//! What is done for a party at a place of its call: one action, on the words, on the list or on the inner lock.

ghost use Rattle.std.specs.Prelude.{◌≡◌, ◌<◌};
ghost use Rattle.world_base.specs.queue.Queues.{queue};
ghost use Rattle.world_base.specs.queue.Parties.{entries_of};
ghost use Rattle.sync_program.specs.declared.barrier.Action.TheVariants as acts;
ghost use Rattle.world_barrier.specs.program.Effects.{CanDo, Finds, FindsJoin, FindsAsk, words_after, arrival_after, entries_after};
ghost use Rattle.world_barrier.specs.program.Locks.{OnLock};

use crate::program::words::{Progress, Words};
use sync_program::barrier::{Action, Found};
use world_base::Inputs;
use world_base::queue::WaitQueue;
use world_mutex::machine::Mutex;

/// A party joins the list, where there is memory.
fn join_in(list: &mut WaitQueue, party: u32, memory: bool) -> Found
    requires known { party < list.old.parties }
    requires out { entries_of party list.old.entries ≡ 0 }
    ensures finds { FindsJoin memory result }
    ensures list { list.new ≡ queue list.old.parties (entries_after party acts.Join result list.old.entries) }
{
    if memory {
        list.join(party);
        Found::Done
    } else {
        Found::NoMemory
    }
}

/// A party asks for its notification in the list.
fn ask_in(list: &mut WaitQueue, party: u32) -> Found
    requires known { party < list.old.parties }
    requires listed { 0 < entries_of party list.old.entries }
    ensures finds { FindsAsk party result list.old.entries }
    ensures list { list.new ≡ queue list.old.parties (entries_after party acts.Ask result list.old.entries) }
{
    if list.ask(party) {
        Found::Yes
    } else {
        Found::No
    }
}

/// Carries out one action for a party. Its arrival is how far the barrier is once it is counted.
pub fn carry_out(
    words: &mut Words,
    arrival: &mut Progress,
    list: &mut WaitQueue,
    lock: &mut Mutex,
    party: u32,
    action: Action,
    inputs: Inputs,
) -> Found
    requires { CanDo party action words.old list.old lock.old }
    ensures finds { Finds inputs party action result words.old arrival.old list.old.entries }
    ensures words { words.new ≡ words_after action words.old }
    ensures arrival { arrival.new ≡ arrival_after action words.old arrival.old }
    ensures list { list.new ≡ queue list.old.parties (entries_after party action result list.old.entries) }
    ensures lock { OnLock inputs party action result lock.old lock.new }
{
    match action {
        Action::Look => return words.look(),
        Action::Check => return words.check(*arrival),
        Action::Join => return join_in(list, party, inputs.memory),
        Action::Ask => return ask_in(list, party),
        Action::Begin(call) => {
            return Found::Lock(lock.begin(party, call, inputs.memory, inputs.starving));
        }
        Action::Go => return Found::Lock(lock.go(party, inputs.memory, inputs.starving)),
        Action::Nothing => (),
        Action::Arrive => {
            words.arrive();
            *arrival = words.progress;
        }
        Action::Complete => {
            words.complete();
            *arrival = words.progress;
        }
        Action::Leave => list.leave(party),
        Action::NotifyAll => list.notify(usize::MAX),
    }
    Found::Done
}
