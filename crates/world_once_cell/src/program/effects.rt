//! What is done for a party at a place of its call: one action, on the words or on one of the lists.

ghost use Rattle.std.specs.Prelude.{◌≡◌};
ghost use Rattle.world_base.specs.queue.Queues.{queue};
ghost use Rattle.sync_program.specs.declared.once_cell.Action.TheVariants as acts;
ghost use Rattle.sync_program.specs.declared.once_cell.ListName.TheVariants as lists;
ghost use Rattle.world_once_cell.specs.program.Effects.{CanDo, CanList, Finds, FindsJoin, FindsAsk, FindsMade, effect_of, content_after, active_after, passive_after};
ghost use Rattle.world_once_cell.specs.program.Words.{content_of, kept_of};

use crate::program::words::Words;
use sync_program::once_cell::{Action, Found, ListName, Maker};
use world_base::queue::WaitQueue;
use world_base::{Inputs, Made};

/// What the maker of an initialisation gives.
fn polled(maker: Maker<u64>, made: Made) -> Found<u64>
    ensures { FindsMade maker made result }
{
    match maker {
        Maker::Given(value) => Found::Made(value),
        Maker::Closure => match made {
            Made::Pending => Found::NotYet,
            Made::Value(value) => Found::Made(value),
            Made::Fail => Found::Failed,
        },
    }
}

/// A party joins a list, where there is memory.
fn join_in(list: &mut WaitQueue, party: u32, memory: bool) -> Found<u64>
    requires { CanList party (acts.Join lists.Active) list.old }
    ensures finds { FindsJoin memory result }
    ensures list { list.new ≡ queue list.old.parties (active_after party (effect_of (acts.Join lists.Active) result) list.old.entries) }
{
    if memory {
        list.join(party);
        Found::Done
    } else {
        Found::NoMemory
    }
}

/// A party asks for its notification in a list.
fn ask_in(list: &mut WaitQueue, party: u32) -> Found<u64>
    requires { CanList party (acts.Ask lists.Active) list.old }
    ensures finds { FindsAsk party result list.old.entries }
    ensures list { list.new ≡ queue list.old.parties (active_after party (effect_of (acts.Ask lists.Active) result) list.old.entries) }
{
    if list.ask(party) {
        Found::Yes
    } else {
        Found::No
    }
}

/// Carries out one action for a party.
pub fn carry_out(
    words: &mut Words,
    active: &mut WaitQueue,
    passive: &mut WaitQueue,
    party: u32,
    action: Action<u64>,
    inputs: Inputs,
) -> Found<u64>
    requires can { CanDo party action active.old passive.old }
    requires kept { kept_of words.old ≡ content_of words.old }
    ensures finds { Finds inputs party action result (content_of words.old) active.old.entries passive.old.entries }
    ensures words { content_of words.new ≡ content_after party (effect_of action result) (content_of words.old) }
    ensures kept { kept_of words.new ≡ content_of words.new }
    ensures active { active.new ≡ queue active.old.parties (active_after party (effect_of action result) active.old.entries) }
    ensures passive { passive.new ≡ queue passive.old.parties (passive_after party (effect_of action result) passive.old.entries) }
{
    match action {
        Action::Look => return words.look(),
        Action::Claim => return words.claim(party),
        Action::Make(maker) => return polled(maker, inputs.made),
        Action::Join(ListName::Active) => return join_in(active, party, inputs.memory),
        Action::Join(ListName::Passive) => return join_in(passive, party, inputs.memory),
        Action::Ask(ListName::Active) => return ask_in(active, party),
        Action::Ask(ListName::Passive) => return ask_in(passive, party),
        Action::Nothing => (),
        Action::Fill(value) => words.fill(value),
        Action::Empty => words.empty(),
        Action::Leave(ListName::Active) => active.leave(party),
        Action::Leave(ListName::Passive) => passive.leave(party),
        Action::Notify(ListName::Active) => active.notify(1),
        Action::Notify(ListName::Passive) => passive.notify(1),
        Action::NotifyAll(ListName::Active) => active.notify_additional(usize::MAX),
        Action::NotifyAll(ListName::Passive) => passive.notify_additional(usize::MAX),
    }
    Found::Done
}
