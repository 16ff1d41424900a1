//! What a script asks of a World of any lock, and the text of its answer. Each lock's World, as a script plays on it, is a module of
//! its own here.

ghost use Rattle.std.specs.Prelude.{◌≡◌, ◌≤◌, ◌<◌, ◌^◌, ℕ, List};
ghost use Rattle.world_base.specs.Runs.{Runs};
ghost use Rattle.world_base.specs.Whole.{IsWholeCall};
ghost use Rattle.lockrun_play.specs.Answers.{Prints};
ghost use Rattle.lockrun_play.specs.Requests.{Does};

mod barrier;
mod cell;
mod mutex;
mod pool;
mod rwlock;
mod semaphore;

use crate::answer;
use lockrun_script::command::Request;
use std::io;
use std::io::Write;
use world_base::{Answer, AnyWorld, Call, Inputs, Move, What};

/// How a World replies where a value is put or taken from outside every call.
#[derive(Clone, Copy)]
pub enum Reply {
    /// It is done.
    Done,
    /// There is no value.
    Nothing,
    /// The value that was taken.
    Value(u64),
    /// Somebody is inside a call, or the World has no such value. Nothing changed.
    NotPossible,
}

/// A World that a script is played on: beyond the moves of its parties, a value is put and taken from
/// outside every call, and the state is shown.
///
/// The ghost members are the meaning of the calls.
pub trait Played: AnyWorld {
    ghost use Rattle.lockrun_play.specs.declared.played.Reply.{Reply};

    /// How a put of this value is replied, and the World that it leads to.
    ghost put_gives: { Self → ℕ → Reply × Self };

    /// How a take is replied, and the World that it leads to.
    ghost take_gives: { Self → Reply × Self };

    /// The text of the state.
    ghost text_of: { Self → List ℕ };

    /// Leaves this value from outside every call.
    fn put(&mut self, value: u64) -> Reply
        ensures reply { result ≡ (put_gives self.old value).0 }
        ensures put { self.new ≡ (put_gives self.old value).1 };

    /// Takes the value out from outside every call.
    fn take(&mut self) -> Reply
        ensures reply { result ≡ (take_gives self.old).0 }
        ensures taken { self.new ≡ (take_gives self.old).1 };

    /// Writes the state, as one line.
    fn show<O: Write>(&self, output: &mut O) -> io::Result<()>
        ensures { Prints (O.contents output.old) (O.contents output.new) result (text_of self.now) };
}

/// Carries out what is asked of a World, and writes the answer as one line. The clause says what the
/// World does, also where the answer can't be written.
pub fn carry_out<W: Played, O: Write>(
    request: Request,
    world: &mut W,
    output: &mut O,
) -> io::Result<()>
    ensures { (text : List ℕ)
        × Does W.legal (IsWholeCall (λ w. Runs W.legal W.learn W.is_well (W.known_of w) w) W.standing_of W.most_steps)
        W.promises W.put_gives W.take_gives W.text_of request world.old world.new text
        × Prints (O.contents output.old) (O.contents output.new) result text }
{
    match request {
        Request::Step { party, what } => answer::write_answer(step(world, party, what), output),
        Request::Whole {
            party,
            call,
            inputs,
        } => answer::write_answer(poll_whole(world, party, call, inputs), output),
        Request::Put(value) => answer::write_reply(world.put(value), output),
        Request::Take => answer::write_reply(world.take(), output),
        Request::Show => world.show(output),
    }
}

/// One move. A party whose number is past 32 bits is past the table.
fn step<W: AnyWorld>(world: &mut W, party: u64, what: What) -> Answer
    ensures legal { party < 2 ^ 32 → W.legal world.old (record { party = party; what = what }) result world.new }
    ensures past { 2 ^ 32 ≤ party → (result ≡ Answer.NotPossible) × (world.new ≡ world.old) }
{
    match u32::try_from(party) {
        Ok(party) => world.step(&Move { party, what }),
        Err(_) => Answer::NotPossible,
    }
}

/// A whole call. A party whose number is past 32 bits is past the table.
fn poll_whole<W: AnyWorld>(world: &mut W, party: u64, call: Call, inputs: Inputs) -> Answer
    ensures whole { party < 2 ^ 32
        → IsWholeCall (λ w. Runs W.legal W.learn W.is_well (W.known_of w) w) W.standing_of W.most_steps
        world.old party call inputs result world.new }
    ensures promised { party < 2 ^ 32 → W.promises world.old party call inputs result world.new }
    ensures past { 2 ^ 32 ≤ party → (result ≡ Answer.NotPossible) × (world.new ≡ world.old) }
{
    match u32::try_from(party) {
        Ok(party) => world.poll_whole(party, call, inputs),
        Err(_) => Answer::NotPossible,
    }
}
