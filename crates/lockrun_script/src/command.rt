//! What a line of a script asks for.

ghost use Rattle.std.specs.Prelude.{◌≡◌, ◌↔◌, ◌≤◌, ℕ, List, [], ◌∷◌, Option, Some, IsSome, OnSome, IfSome, IfNone};
ghost use Rattle.world_base.specs.declared.moves.Call.{Call};
ghost use Rattle.world_base.specs.declared.moves.Inputs.{Inputs};
ghost use Rattle.lockrun_script.specs.Commands.{AsksPermits, WritesPermits};
ghost use Rattle.lockrun_script.specs.Commands.{verb_of, AreNumbersAndLimit, AreNumbersAndLimits, AreOfCall, Asks, BeginsWithCall, Details, IsWordOf, TakesNumber};
ghost use Rattle.lockrun_script.specs.Commands.{WritesLimit, WritesLimits};
ghost use Rattle.lockrun_script.specs.declared.command.Command.{Command};
ghost use Rattle.lockrun_script.specs.declared.verbs.Verb.{Verb};
ghost use Rattle.lockrun_script.specs.Lines.{words_of, IsPrintable, IsTrimmed, IsNumber, Writes};

use crate::inputs;
use crate::line::{self, Words, is};
use crate::verbs::{Verb, named};
use world_base::{Call, Inputs, What};

/// What a line asks for.
#[derive(Clone, Copy)]
pub enum Command {
    /// A new World takes the place of any old one.
    New(Model),
    /// Something is asked of the World that stands.
    On(Request),
}

/// A World to be made.
#[derive(Clone, Copy)]
pub enum Model {
    /// A mutex over this value, with so many parties, of which at most so many may be starved at a time:
    /// as many as a mutex allows, where no number is given.
    Mutex {
        parties: u32,
        value: u64,
        starved: Option<u64>,
    },
    /// A read-write lock over this value, with so many parties, of which at most so many may be starved for
    /// the turn at a time, and at most so many may read: as many as a read-write lock allows, where no
    /// number is given.
    RwLock {
        parties: u32,
        value: u64,
        starved: Option<u64>,
        readers: Option<u64>,
    },
    /// A semaphore with so many permits and parties, whose limit never passes `most`: the greatest number of
    /// 64 bits, where no number is given.
    Semaphore {
        parties: u32,
        permits: u64,
        most: Option<u64>,
    },
    /// A once-cell that is empty, with so many parties.
    Cell {
        parties: u32,
    },
    /// A barrier that waits for `size` parties, with so many parties, of which at most so many may be starved
    /// for its inner lock at a time, and which finishes at most so many generations: as many as a barrier
    /// allows, where no number is given.
    Barrier {
        parties: u32,
        size: u64,
        starved: Option<u64>,
        generations: Option<u64>,
    },
    /// A pool of so many items, from 0 on, with so many parties.
    Pool {
        parties: u32,
        items: u32,
    },
}

/// What is asked of a World.
#[derive(Clone, Copy)]
pub enum Request {
    /// One move of this party, whose number may be past any table.
    Step {
        party: u64,
        what: What,
    },
    /// A whole call of this party, to its end.
    Whole {
        party: u64,
        call: Call,
        inputs: Inputs,
    },
    /// This value is left from outside every call.
    Put(u64),
    /// The value is taken out from outside every call.
    Take,
    /// The state is shown.
    Show,
}

/// The greatest number of parties that a line may ask for.
pub const PARTIES: u64 = 64;

/// The greatest number of items that a line may ask for.
pub const ITEMS: u64 = 64;

/// The command of a line that is neither empty nor a comment. A line that is no command is none: one with
/// a byte that isn't printable or with a space at an end, an unknown word, a missing or spare number, a
/// number of more than 64 bits, an input given twice.
pub fn parse(text: &[u8]) -> Option<Command>
    ensures line { OnSome result (IsPrintable text.now × IsTrimmed text.now) }
    ensures words { IfSome result (Asks (words_of text.now)) }
    ensures asked { (c : Command) → IsPrintable text.now → IsTrimmed text.now → Asks (words_of text.now) c
        → result ≡ Some c }
{
    if line::is_printable(text) && line::is_trimmed(text) {
        whole(&mut Words::new(text))
    } else {
        None
    }
}

/// The command that these words ask for, all of them.
fn whole(words: &mut Words<'_>) -> Option<Command>
    ensures words { IfSome result (Asks words.old) }
    ensures asked { (c : Command) → Asks words.old c → result ≡ Some c }
{
    let verb = named(words.next()?)?;
    of_verb(words, verb)
}

/// The command that begins with this verb, by the words after it.
fn of_verb(words: &mut Words<'_>, verb: Verb) -> Option<Command>
    ensures words { IfSome result (λ c. (verb_of c ≡ verb) × Details words.old c) }
    ensures asked { (c : Command) → verb_of c ≡ verb → Details words.old c → result ≡ Some c }
{
    match verb {
        Verb::Mutex => mutex(words),
        Verb::RwLock => rwlock(words),
        Verb::Semaphore => semaphore(words),
        Verb::Cell => cell(words),
        Verb::Barrier => barrier(words),
        Verb::Pool => pool(words),
        Verb::Begin => begin(words),
        Verb::Go => go(words),
        Verb::Do => poll_whole(words),
        Verb::GetMut => put(words),
        Verb::Take => alone(words, Command::On(Request::Take)),
        Verb::Show => alone(words, Command::On(Request::Show)),
    }
}

/// A mutex, by the words after its name.
fn mutex(words: &mut Words<'_>) -> Option<Command>
    ensures words { IfSome result (λ c. (verb_of c ≡ Verb.Mutex) × Details words.old c) }
    ensures asked { (c : Command) → verb_of c ≡ Verb.Mutex → Details words.old c → result ≡ Some c }
{
    let (parties, value, starved) = numbers(words)?;
    Some(Command::New(Model::Mutex {
        parties,
        value,
        starved,
    }))
}

/// A semaphore, by the words after its name.
fn semaphore(words: &mut Words<'_>) -> Option<Command>
    ensures words { IfSome result (λ c. (verb_of c ≡ Verb.Semaphore) × Details words.old c) }
    ensures asked { (c : Command) → verb_of c ≡ Verb.Semaphore → Details words.old c → result ≡ Some c }
{
    let (parties, permits, most) = numbers(words)?;
    Some(Command::New(Model::Semaphore {
        parties,
        permits,
        most,
    }))
}

/// A once-cell, by the words after its name.
fn cell(words: &mut Words<'_>) -> Option<Command>
    ensures words { IfSome result (λ c. (verb_of c ≡ Verb.Cell) × Details words.old c) }
    ensures asked { (c : Command) → verb_of c ≡ Verb.Cell → Details words.old c → result ≡ Some c }
{
    let parties = parties(words)?;
    end(words)?;
    Some(Command::New(Model::Cell { parties }))
}

/// A pool, by the words after its name.
fn pool(words: &mut Words<'_>) -> Option<Command>
    ensures words { IfSome result (λ c. (verb_of c ≡ Verb.Pool) × Details words.old c) }
    ensures asked { (c : Command) → verb_of c ≡ Verb.Pool → Details words.old c → result ≡ Some c }
{
    let parties = parties(words)?;
    let items = items(words)?;
    end(words)?;
    Some(Command::New(Model::Pool { parties, items }))
}

/// The number of parties, the number after it, and the limit that the words left write, all of them.
fn numbers(words: &mut Words<'_>) -> Option<(u32, u64, Option<u64>)>
    ensures words { IfSome result (λ n. AreNumbersAndLimit words.old n.0 n.1 n.2) }
    ensures asked { (parties first : ℕ) (limit : Option ℕ) → AreNumbersAndLimit words.old parties first limit
        → result ≡ Some (parties, first, limit) }
{
    let parties = parties(words)?;
    let first = number(words)?;
    let limit = limit(words)?;
    Some((parties, first, limit))
}

/// A read-write lock, by the words after its name.
fn rwlock(words: &mut Words<'_>) -> Option<Command>
    ensures words { IfSome result (λ c. (verb_of c ≡ Verb.RwLock) × Details words.old c) }
    ensures asked { (c : Command) → verb_of c ≡ Verb.RwLock → Details words.old c → result ≡ Some c }
{
    let ((parties, value), (starved, readers)) = numbers_and_limits(words)?;
    Some(Command::New(Model::RwLock {
        parties,
        value,
        starved,
        readers,
    }))
}

/// A barrier, by the words after its name.
fn barrier(words: &mut Words<'_>) -> Option<Command>
    ensures words { IfSome result (λ c. (verb_of c ≡ Verb.Barrier) × Details words.old c) }
    ensures asked { (c : Command) → verb_of c ≡ Verb.Barrier → Details words.old c → result ≡ Some c }
{
    let ((parties, size), (starved, generations)) = numbers_and_limits(words)?;
    Some(Command::New(Model::Barrier {
        parties,
        size,
        starved,
        generations,
    }))
}

/// Two limits, each of which a line may leave out.
type Limits = (Option<u64>, Option<u64>);

/// The number of parties, the number after it, and the two limits that the words left write, all of them.
fn numbers_and_limits(words: &mut Words<'_>) -> Option<((u32, u64), Limits)>
    ensures words { IfSome result (λ n. AreNumbersAndLimits words.old n.0.0 n.0.1 n.1.0 n.1.1) }
    ensures asked { (parties first : ℕ) (limit further : Option ℕ)
        → AreNumbersAndLimits words.old parties first limit further
        → result ≡ Some ((parties, first), (limit, further)) }
{
    let parties = parties(words)?;
    let first = number(words)?;
    let limits = limits(words)?;
    Some(((parties, first), limits))
}

/// The two limits that the words left write, all of them: none where no word is left, and the first alone
/// where one is.
fn limits(words: &mut Words<'_>) -> Option<Limits>
    ensures words { IfSome result (λ l. WritesLimits words.old l.0 l.1) }
    ensures asked { (first second : Option ℕ) → WritesLimits words.old first second
        → result ≡ Some (first, second) }
{
    match words.next() {
        None => Some((None, None)),
        Some(word) => {
            let first = line::number(word)?;
            let second = limit(words)?;
            Some((Some(first), second))
        }
    }
}

/// The limit that the words left write, all of them: none where no word is left.
fn limit(words: &mut Words<'_>) -> Option<Option<u64>>
    ensures words { IfSome result (WritesLimit words.old) }
    ensures asked { (l : Option ℕ) → WritesLimit words.old l → result ≡ Some l }
{
    match words.next() {
        None => Some(None),
        Some(word) => {
            let limit = line::number(word)?;
            end(words)?;
            Some(Some(limit))
        }
    }
}

/// A call that begins, by the words after `begin`.
fn begin(words: &mut Words<'_>) -> Option<Command>
    ensures words { IfSome result (λ c. (verb_of c ≡ Verb.Begin) × Details words.old c) }
    ensures asked { (c : Command) → verb_of c ≡ Verb.Begin → Details words.old c → result ≡ Some c }
{
    let (party, call, inputs) = called(words)?;
    let what = What::Begin(call, inputs);
    Some(Command::On(Request::Step { party, what }))
}

/// A whole call, by the words after `do`.
fn poll_whole(words: &mut Words<'_>) -> Option<Command>
    ensures words { IfSome result (λ c. (verb_of c ≡ Verb.Do) × Details words.old c) }
    ensures asked { (c : Command) → verb_of c ≡ Verb.Do → Details words.old c → result ≡ Some c }
{
    let (party, call, inputs) = called(words)?;
    Some(Command::On(Request::Whole {
        party,
        call,
        inputs,
    }))
}

/// The party, the call and the inputs that the words left write, all of them.
fn called(words: &mut Words<'_>) -> Option<(u64, Call, Inputs)>
    ensures words { IfSome result (λ r. AreOfCall words.old r.0 r.1 r.2) }
    ensures asked { (party : ℕ) (call : Call) (inputs : Inputs) → AreOfCall words.old party call inputs
        → result ≡ Some (party, call, inputs) }
{
    let party = number(words)?;
    let call = call(words)?;
    let inputs = inputs::parse(words)?;
    Some((party, call, inputs))
}

/// A call that goes on, by the words after `go`.
fn go(words: &mut Words<'_>) -> Option<Command>
    ensures words { IfSome result (λ c. (verb_of c ≡ Verb.Go) × Details words.old c) }
    ensures asked { (c : Command) → verb_of c ≡ Verb.Go → Details words.old c → result ≡ Some c }
{
    let party = number(words)?;
    let inputs = inputs::parse(words)?;
    let what = What::Go(inputs);
    Some(Command::On(Request::Step { party, what }))
}

/// A value to be put, by the words after `getmut`.
fn put(words: &mut Words<'_>) -> Option<Command>
    ensures words { IfSome result (λ c. (verb_of c ≡ Verb.GetMut) × Details words.old c) }
    ensures asked { (c : Command) → verb_of c ≡ Verb.GetMut → Details words.old c → result ≡ Some c }
{
    let value = number(words)?;
    end(words)?;
    Some(Command::On(Request::Put(value)))
}

/// This command, where no word is left.
fn alone(words: &mut Words<'_>, command: Command) -> Option<Command>
    ensures words { IfSome result (λ c. (c ≡ command) × (words.old ≡ [])) }
    ensures asked { words.old ≡ [] → result ≡ Some command }
{
    end(words)?;
    Some(command)
}

/// Nothing, where no word is left.
fn end(words: &mut Words<'_>) -> Option<()>
    ensures { IsSome result ↔ (words.old ≡ []) }
{
    match words.next() {
        Some(_) => None,
        None => Some(()),
    }
}

/// The number that the next word writes.
fn number(words: &mut Words<'_>) -> Option<u64>
    ensures taken { IfSome result (λ n. (word : List ℕ) × (words.old ≡ word ∷ words.new) × Writes word n) }
    ensures none { (word : List ℕ) (rest : List (List ℕ)) → words.old ≡ word ∷ rest → IsNumber word → IsSome result }
{
    line::number(words.next()?)
}

/// The number of parties, from 1 to [`PARTIES`], that the next word writes.
fn parties(words: &mut Words<'_>) -> Option<u32>
    ensures taken { IfSome result (λ n. (word : List ℕ) × (words.old ≡ word ∷ words.new) × Writes word n
        × (1 ≤ n) × (n ≤ 64)) }
    ensures none { (word : List ℕ) (rest : List (List ℕ)) (n : ℕ) → words.old ≡ word ∷ rest → Writes word n
        → 1 ≤ n → n ≤ 64 → IsSome result }
{
    match number(words)? {
        0 => None,
        count if count <= PARTIES => Some(count as u32),
        _ => None,
    }
}

/// The number of items, at most [`ITEMS`], that the next word writes.
fn items(words: &mut Words<'_>) -> Option<u32>
    ensures taken { IfSome result (λ n. (word : List ℕ) × (words.old ≡ word ∷ words.new) × Writes word n × (n ≤ 64)) }
    ensures none { (word : List ℕ) (rest : List (List ℕ)) (n : ℕ) → words.old ≡ word ∷ rest → Writes word n
        → n ≤ 64 → IsSome result }
{
    match number(words)? {
        count if count <= ITEMS => Some(count as u32),
        _ => None,
    }
}

/// The call that the next word names, with the number that it takes.
fn call(words: &mut Words<'_>) -> Option<Call>
    ensures words { IfSome result (λ c. BeginsWithCall words.old c words.new) }
    ensures asked { (c : Call) (others : List (List ℕ)) → BeginsWithCall words.old c others
        → (result ≡ Some c) × (words.new ≡ others) }
{
    let word = words.next()?;
    if let Some(call) = plain_call(word) {
        return Some(call);
    }
    match permits_call(word, words) {
        Some(call) => Some(call),
        None => numbered_call(word, number(words)?),
    }
}

/// The call that a word names together with a number of permits, which the next word writes, or none, and
/// then it is one permit. Where the word names no such call, nothing is taken.
fn permits_call(word: &[u8], words: &mut Words<'_>) -> Option<Call>
    ensures words { IfSome result (λ c. AsksPermits word.now words.old c words.new) }
    ensures asked { (c : Call) (others : List (List ℕ)) → AsksPermits word.now words.old c others
        → (result ≡ Some c) × (words.new ≡ others) }
    ensures none { IfNone result (words.new ≡ words.old) }
{
    match word {
        _ if is(word, b"acquire") => Some(Call::Acquire(permits(words))),
        _ if is(word, b"tryacquire") => Some(Call::TryAcquire(permits(words))),
        _ => None,
    }
}

/// The number of permits that the next word writes; one, where it writes none or no word is left.
fn permits(words: &mut Words<'_>) -> u64
    ensures words { WritesPermits words.old result words.new }
    ensures only { (k : ℕ) (others : List (List ℕ)) → WritesPermits words.old k others
        → (result ≡ k) × (words.new ≡ others) }
{
    words.number().unwrap_or(1)
}

/// The call that a word names together with the number after it, if it takes one.
fn numbered_call(word: &[u8], number: u64) -> Option<Call>
    ensures word { IfSome result (TakesNumber word.now number) }
    ensures asked { (c : Call) → TakesNumber word.now number c → result ≡ Some c }
{
    match word {
        _ if is(word, b"put") => Some(Call::Put(number)),
        _ if is(word, b"add") => Some(Call::AddPermits(number)),
        _ if is(word, b"set") => Some(Call::Set(number)),
        _ if is(word, b"tryset") => Some(Call::TrySet(number)),
        _ => None,
    }
}

/// The call that a word names, if it takes no number.
fn plain_call(word: &[u8]) -> Option<Call>
    ensures word { IfSome result (IsWordOf word.now) }
    ensures asked { (c : Call) → IsWordOf word.now c → result ≡ Some c }
{
    match word {
        _ if is(word, b"lock") => Some(Call::Lock),
        _ if is(word, b"trylock") => Some(Call::TryLock),
        _ if is(word, b"read") => Some(Call::Read),
        _ if is(word, b"upread") => Some(Call::UpgradableRead),
        _ if is(word, b"write") => Some(Call::Write),
        _ if is(word, b"tryread") => Some(Call::TryRead),
        _ if is(word, b"tryupread") => Some(Call::TryUpgradableRead),
        _ if is(word, b"trywrite") => Some(Call::TryWrite),
        _ if is(word, b"upgrade") => Some(Call::Upgrade),
        _ if is(word, b"tryupgrade") => Some(Call::TryUpgrade),
        _ if is(word, b"downgrade") => Some(Call::Downgrade),
        _ if is(word, b"toupgradable") => Some(Call::DowngradeToUpgradable),
        _ if is(word, b"forget") => Some(Call::Forget),
        _ if is(word, b"init") => Some(Call::Initialize),
        _ if is(word, b"wait") => Some(Call::Wait),
        _ if is(word, b"poll") => Some(Call::Poll),
        _ if is(word, b"drop") => Some(Call::Drop),
        _ if is(word, b"take") => Some(Call::Take),
        _ if is(word, b"trytake") => Some(Call::TryTake),
        _ if is(word, b"give") => Some(Call::Give),
        _ => None,
    }
}
