//! A whole run, from its arguments to its status, over any reader and writers.

ghost use Rattle.std.specs.Prelude.{◌≡◌, ◌≢◌, ◌↔◌, ◌⊎◌, ◌+◌, ◌<◌, ◌≤◌, ℕ, length, map, string_bytes, Some, None, Ok, Err, IfErr, OnOk, IfSome};
ghost use Rattle.std.specs.Io.KnownBytes.{Keeps};
ghost use Rattle.lockrun_play.specs.Plays.{IsAtFault, IsPlayed, PrintsNumber};
ghost use Rattle.lockrun_play.specs.Scripts.{asked, AsksFor, IsScript};
ghost use Rattle.lockrun_play.specs.declared.task.Task.{Task as TaskOf};
ghost use Rattle.lockrun_play.specs.Faults.{status_of};

use crate::workers::{Gate, Stopped, public};
use lockrun_play::fault::Fault;
use lockrun_play::script::{LIMIT, print_number, report, run_script};
use lockrun_play::task::{self, Task};
use std::alloc::Global;
use std::io::{Read, Write};
use std::random::RandomSource;
use std::sync::Wait;
use std::thread::Threads;
use std::time::Clock;

/// Carries out the program on these arguments, the words after its name: with the one word `script` it
/// answers the lines of the input, and with `threads` and a number it lets so many threads each add one under
/// one mutex, once each has passed this gate ([`Open`] in the program), and prints the value that they leave.
///
/// The status is 0 where the whole script was answered (clauses `script` and `played`), or where the threads'
/// number was printed (`threads`); 1 where the input is at fault, longer than [`LIMIT`] or with a line that is
/// bad where it stands (`fault`), and then the lines before that one are answered, and none of a script that is
/// too long (`long`); 2 for other arguments (`usage`, `asked`); and 3 where reading or writing failed, memory
/// was refused, or a thread wasn't started. Each status but 0 is told of in one line of the error output, and
/// with status 0 it gets nothing (`quiet`).
pub fn run<R, G: Gate + Sync, I: Read, O: Write, E: Write>(
    rt: &R,
    alloc: Global,
    words: &[String],
    gate: &G,
    input: &mut I,
    output: &mut O,
    errors: &mut E,
) -> u8
where
    R: Threads + Wait + Clock + RandomSource + AllocGlobal + Sync + Copy + Drop,
    ensures status { result ≤ 3 }
    ensures usage { ((task : TaskOf) → ¬ AsksFor (map string_bytes words.now) task) → (result ≡ 2)
        × Keeps (O.contents output.old) (O.contents output.new)
        × Keeps (I.remaining input.old) (I.remaining input.new) }
    ensures asked { (task : TaskOf) → AsksFor (map string_bytes words.now) task → result ≢ 2 }
    ensures script { map string_bytes words.now ≡ asked → result ≡ 0
        → IfSome (I.remaining input.old) IsScript }
    ensures played { map string_bytes words.now ≡ asked → result ≡ 0
        → IfSome (I.remaining input.old) (λ text. IsPlayed text (O.contents output.old) (O.contents output.new)) }
    ensures threads { (count : ℕ) → AsksFor (map string_bytes words.now) (Task.Threads count)
        → Keeps (I.remaining input.old) (I.remaining input.new)
        × (result ≡ 0 → PrintsNumber (O.contents output.old) (O.contents output.new)) }
    ensures quiet { result ≡ 0 → Keeps (E.contents errors.old) (E.contents errors.new) }
    ensures fault { result ≡ 1 → IfSome (I.remaining input.old)
        (λ text. IsAtFault text (O.contents output.old) (O.contents output.new)) }
    ensures long { map string_bytes words.now ≡ asked
        → IfSome (I.remaining input.old) (λ text. LIMIT < length text → ((result ≡ 1) ⊎ (result ≡ 3))
        × Keeps (O.contents output.old) (O.contents output.new)) }
{
    match task::parse(words) {
        Some(Task::Script) => run_script(alloc, input, output, errors),
        Some(Task::Threads(workers)) => run_threads(rt, alloc, workers, gate, output, errors),
        None => report(Fault::Usage, errors),
    }
}

/// Lets so many threads work, and tells of what ended them early.
fn run_threads<R, G: Gate + Sync, O: Write, E: Write>(
    rt: &R,
    alloc: Global,
    workers: u32,
    gate: &G,
    output: &mut O,
    errors: &mut E,
) -> u8
where
    R: Threads + Wait + Clock + RandomSource + AllocGlobal + Sync + Copy + Drop,
    ensures status { (result ≡ 0) ⊎ (result ≡ 3) }
    ensures printed { result ≡ 0 → PrintsNumber (O.contents output.old) (O.contents output.new) }
    ensures quiet { result ≡ 0 → Keeps (E.contents errors.old) (E.contents errors.new) }
{
    match threads(rt, alloc, workers, gate, output) {
        Ok(()) => 0,
        Err(fault) => report(fault, errors),
    }
}

/// The gate of workers that need not wait.
#[derive(Drop)]
pub struct Open;

impl Gate for Open {
    fn pass(&self, _worker: u32) {}
}

/// Lets so many threads each add one under one mutex, once each has passed this gate, and prints the value that
/// they leave.
///
/// By the contract a number was printed as one line, or the fault is one of the system (`system`). That each worker
/// passed the gate, and which number they leave, no clause says.
pub fn threads<R, G: Gate + Sync, O: Write>(
    rt: &R,
    alloc: Global,
    workers: u32,
    gate: &G,
    output: &mut O,
) -> Result<(), Fault>
where
    R: Threads + Wait + Clock + RandomSource + AllocGlobal + Sync + Copy + Drop,
    ensures printed { OnOk result (PrintsNumber (O.contents output.old) (O.contents output.new)) }
    ensures system { IfErr result (λ fault. status_of fault ≡ 3) }
{
    let left = public(rt, alloc, workers, gate).map_err(stopped)?;
    print_number(left, output)
}

/// Why workers stopped, as a fault. No worker over a mutex is given an answer.
fn stopped(why: Stopped) -> Fault
    ensures status { status_of result ≡ 3 }
    ensures memory { result ≡ Fault.Memory ↔ (why ≡ Stopped.Memory) }
    ensures thread { why ≢ Stopped.Memory → result ≡ Fault.Thread }
{
    match why {
        Stopped::Memory => Fault::Memory,
        Stopped::Thread | Stopped::Answer(_) => Fault::Thread,
    }
}
