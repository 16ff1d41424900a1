//! The arguments, and what they ask for.

ghost use Rattle.std.specs.Prelude.{◌≡◌, ◌≢◌, ◌↔◌, ◌⊎◌, ℕ, codes, length, map, string_bytes, None, IfSome, IfNone, IfErr, IsTrue};
ghost use Rattle.lockrun_play.specs.Scripts.{asked, AsksFor, IsWorkers};
ghost use Rattle.lockrun_play.specs.declared.task.Task.{Task};

use crate::fault::Fault;
use lockrun_script::line;
use std::alloc::Global;
use std::env;
use std::env::Args;
use std::io::ErrorKind;
use std::rt::Env;

/// What the arguments ask for.
#[derive(Clone, Copy)]
pub enum Task {
    /// To carry out the script of the input.
    Script,
    /// To let so many workers, from 1 to 1000, each add one under one lock.
    Threads(u32),
}

/// The greatest number of workers.
pub const WORKERS: u64 = 1000;

/// The arguments after the program's name.
///
/// [`Fault::Usage`] comes where one of them is no text, and [`Fault::Memory`] where memory is refused for them.
/// The contract says that no other fault comes. When one comes, and which words they are, it can't say, since
/// std says nothing of a process's arguments.
pub fn arguments<R: Env + AllocGlobal>(rt: &R) -> Result<Vec<String>, Fault>
    ensures { IfErr result (λ fault. (fault ≡ Fault.Usage) ⊎ (fault ≡ Fault.Memory)) }
{
    match env::args(rt) {
        Ok(all) => after_name(rt.alloc(), all),
        Err(e) => Err(fault_of(e.kind())),
    }
}

/// What it means for the run that the arguments can't be had: an argument that is no text is not the word that
/// is asked for.
fn fault_of(kind: ErrorKind) -> Fault
    ensures memory { result ≡ Fault.Memory ↔ (kind ≡ ErrorKind.OutOfMemory) }
    ensures usage { kind ≢ ErrorKind.OutOfMemory → result ≡ Fault.Usage }
{
    match kind {
        ErrorKind::OutOfMemory => Fault::Memory,
        _ => Fault::Usage,
    }
}

/// All words but the first, which is the program's name.
fn after_name(alloc: Global, all: Args) -> Result<Vec<String>, Fault>
    ensures { IfErr result (λ fault. fault ≡ Fault.Memory) }
{
    let mut words = Vec::new(alloc);
    for word in all.skip(1) {
        words.push(word).map_err(|_| Fault::Memory)?;
    }
    Ok(words)
}

/// What the words after the program's name ask for: `script` alone, or `threads` and a number of workers, of
/// 1 to 4 digits and from 1 to 1000. Any other words ask for nothing.
pub fn parse(words: &[String]) -> Option<Task>
    ensures asks { IfSome result (AsksFor (map string_bytes words.now)) }
    ensures none { IfNone result ((task : Task) → ¬ AsksFor (map string_bytes words.now) task) }
{
    match words {
        [word] if is_word(word, "script") => Some(Task::Script),
        [word, count] if is_word(word, "threads") => match workers(count.as_str().as_bytes()) {
            Some(count) => Some(Task::Threads(count)),
            None => None,
        },
        _ => None,
    }
}

/// Whether an argument is this word.
fn is_word(argument: &String, word: &str) -> bool
    ensures { IsTrue result ↔ (string_bytes argument.now ≡ word.now) }
{
    argument.as_str() == word
}

/// The number of workers that a word writes.
fn workers(word: &[u8]) -> Option<u32>
    ensures some { IfSome result (IsWorkers word.now) }
    ensures none { IfNone result ((count : ℕ) → ¬ IsWorkers word.now count) }
{
    if word.len() > 4 {
        return None;
    }
    match line::number(word) {
        Some(count) if 1 <= count && count <= WORKERS => Some(count as u32),
        _ => None,
    }
}
