//! The inputs of a call that words give.

ghost use Rattle.std.specs.Prelude.{◌≡◌, ◌↔◌, ◌++◌, ℕ, List, [], ◌∷◌, Some, codes, IfSome, IfNone, IsTrue};
ghost use Rattle.world_base.specs.declared.moves.Inputs.{Inputs};
ghost use Rattle.world_base.specs.declared.moves.Made.{Made};
ghost use Rattle.lockrun_script.specs.Inputs.{is_of_maker, WritesInputs, WritesMade};

use crate::line::{self, Words, is};
use world_base::{Inputs, Made};

/// The inputs that all further words give, each at most once, in any order. What is not given is the
/// plain case: memory is found, the party isn't starving, the maker is pending.
pub fn parse(words: &mut Words<'_>) -> Option<Inputs>
    ensures words { IfSome result (WritesInputs words.old) }
    ensures asked { (inputs : Inputs) → WritesInputs words.old inputs → result ≡ Some inputs }
{
    let mut inputs = Inputs {
        memory: true,
        starving: false,
        made: Made::Pending,
    };
    for word in words {
        inputs = with_word(inputs, word)?;
    }
    Some(inputs)
}

/// The inputs that some words give together with this one, after those. None where the word gives none,
/// or gives again what those gave.
fn with_word(mut inputs: Inputs, word: &[u8]) -> Option<Inputs>
    ensures words { (passed : List (List ℕ)) → WritesInputs passed inputs
        → IfSome result (WritesInputs (passed ++ word.now ∷ [])) }
    ensures none { (passed rest : List (List ℕ)) → WritesInputs passed inputs
        → IfNone result ((i : Inputs) → ¬ WritesInputs (passed ++ word.now ∷ rest) i) }
{
    match topic_of(word) {
        Topic::Memory if inputs.memory => inputs.memory = false,
        Topic::Starving if !inputs.starving => inputs.starving = true,
        Topic::Maker if is_pending(inputs.made) => inputs.made = made(word)?,
        _ => return None,
    }
    Some(inputs)
}

/// Whether nothing was given of the maker.
fn is_pending(made: Made) -> bool
    ensures { IsTrue result ↔ (made ≡ Made.Pending) }
{
    made == Made::Pending
}

/// What an input's word may tell of.
#[derive(Clone, Copy)]
enum Topic {
    Memory,
    Starving,
    Maker,
}

/// What this word tells of, if it gives an input.
fn topic_of(word: &[u8]) -> Topic
    ensures memory { result ≡ Topic.Memory → word.now ≡ codes "nomem" }
    ensures starving { result ≡ Topic.Starving → word.now ≡ codes "starving" }
    ensures maker { result ≡ Topic.Maker → IsTrue (is_of_maker word.now) }
{
    match word {
        _ if is(word, b"nomem") => Topic::Memory,
        _ if is(word, b"starving") => Topic::Starving,
        _ => Topic::Maker,
    }
}

/// What a word of the form `made=V` or `made=fail` gives.
fn made(word: &[u8]) -> Option<Made>
    ensures words { IfSome result (WritesMade word.now) }
    ensures asked { (m : Made) → WritesMade word.now m → result ≡ Some m }
{
    match word.strip_prefix(b"made=")? {
        value if is(value, b"fail") => Some(Made::Fail),
        value => Some(Made::Value(line::number(value)?)),
    }
}
