//! A script's whole run: its lines are read and answered, and what ended it early is told of.

ghost use Rattle.std.specs.Prelude.{◌≡◌, ◌≢◌, ◌⊎◌, ◌+◌, ◌<◌, ◌≤◌, ◌++◌, ℕ, List, [], ◌∷◌, All, length, vec_len, Some, None, Ok, Err, IsOk, IsErr, IfOk, IfErr, OnOk, OnErr, IfSome};
ghost use Rattle.std.specs.Io.{StartsWith, appended_bytes};
ghost use Rattle.std.specs.Io.KnownBytes.{Appends, Consumes, IsAtEnd, Keeps};
ghost use Rattle.lockrun_play.specs.Plays.{IsAtFault, IsBad, IsPlayed, LeadsTo, Makes, PlaysLine, PrintsThis, Tells, TellsOfLine};
ghost use Rattle.lockrun_play.specs.Scripts.{IsLine, IsScript, IsStartOfScript};
ghost use Rattle.lockrun_script.specs.Lines.{lines_of};
ghost use Rattle.lockrun_script.specs.declared.command.Command.TheVariants.{On};
ghost use Rattle.lockrun_script.specs.declared.command.Request.{Request};
ghost use Rattle.lockrun_play.specs.Faults.{status_of, text_of};
ghost use Rattle.lockrun_play.specs.Answers.{Prints};

use crate::answer;
use crate::fault::Fault;
use crate::played::Reply;
use crate::world::World;
use arrayvec::ArrayVec;
use lock_program::Refusal;
use lockrun_script::command::{self, Command, Model};
use lockrun_script::line;
use std::alloc::{AllocError, Global};
use std::io;
use std::io::{ErrorKind, Read, Write};

/// The greatest number of bytes that a script may have.
pub const LIMIT: usize = 1_048_576;

/// More bytes than the line of any fault has.
const LONGEST_FAULT: usize = 64;

/// How many bytes one read asks for.
const CHUNK: usize = 16_384;

/// Answers the script of the input, and tells of what ended it early.
pub fn run_script<I: Read, O: Write, E: Write>(
    alloc: Global,
    input: &mut I,
    output: &mut O,
    errors: &mut E,
) -> u8
    ensures status { result ≤ 3 }
    ensures asked { result ≢ 2 }
    ensures script { result ≡ 0 → IfSome (I.remaining input.old) IsScript }
    ensures played { result ≡ 0
        → IfSome (I.remaining input.old) (λ text. IsPlayed text (O.contents output.old) (O.contents output.new)) }
    ensures quiet { result ≡ 0 → Keeps (E.contents errors.old) (E.contents errors.new) }
    ensures fault { result ≡ 1 → IfSome (I.remaining input.old)
        (λ text. IsAtFault text (O.contents output.old) (O.contents output.new)) }
    ensures long { IfSome (I.remaining input.old) (λ text. LIMIT < length text → ((result ≡ 1) ⊎ (result ≡ 3))
        × Keeps (O.contents output.old) (O.contents output.new)) }
{
    match script(alloc, input, output) {
        Ok(()) => 0,
        Err(fault) => report(fault, errors),
    }
}

/// Writes the fault to the error output, as one line, and answers its status. Where the line can't be
/// written, the status is the same.
pub fn report<E: Write>(fault: Fault, errors: &mut E) -> u8
    ensures { result ≡ status_of fault }
{
    let _ = tell(fault, errors);
    let _ = errors.flush();
    fault.status()
}

/// Writes the fault as one line, by one write: so two processes that share the error output don't mix theirs.
fn tell<E: Write>(fault: Fault, errors: &mut E) -> io::Result<()>
    ensures { Prints (E.contents errors.old) (E.contents errors.new) result (text_of fault) }
{
    let mut line = ArrayVec::<u8, LONGEST_FAULT>::new();
    match writeln!(line, "{fault}") {
        Ok(()) => errors.write_all(line.as_slice()),
        // No fault's line is as long as that.
        Err(_) => writeln!(errors, "{fault}"),
    }
}

/// Writes this number as one line, and flushes it.
pub fn print_number<O: Write>(number: u64, output: &mut O) -> Result<(), Fault>
    ensures printed { OnOk result (PrintsThis number (O.contents output.old) (O.contents output.new)) }
    ensures system { IfErr result (λ fault. fault ≡ Fault.Write) }
{
    written(writeln!(output, "{number}"))?;
    written(output.flush())
}

/// Reads a whole script and answers its lines. The answers before a bad line, or before memory is
/// refused, are flushed, and the fault has the bad line's number (`fault`).
fn script<I: Read, O: Write>(alloc: Global, input: &mut I, output: &mut O) -> Result<(), Fault>
    ensures script { OnOk result (IfSome (I.remaining input.old) IsScript) }
    ensures played { OnOk result (IfSome (I.remaining input.old)
        (λ text. IsPlayed text (O.contents output.old) (O.contents output.new))) }
    ensures long { IfSome (I.remaining input.old) (λ text. LIMIT < length text
        → IsErr result × Keeps (O.contents output.old) (O.contents output.new)) }
    ensures fault { IfErr result (λ fault. IfSome (I.remaining input.old)
        (λ text. Tells fault text (O.contents output.old) (O.contents output.new))) }
    ensures asked { result ≢ Err Fault.Usage }
{
    let text = read_script(alloc, input)?;
    if text.len() > LIMIT {
        return Err(Fault::TooLong);
    }
    match answer_lines(alloc, text.as_slice(), output) {
        Err(Fault::Write) => Err(Fault::Write),
        ended => {
            written(output.flush())?;
            ended
        }
    }
}

/// Whether a reader has more to give.
#[derive(Clone, Copy)]
enum Reader {
    MayHaveMore,
    IsAtEnd,
}

/// The input's bytes, up to one byte more than a script may have.
fn read_script<I: Read>(alloc: Global, input: &mut I) -> Result<Vec<u8>, Fault>
    ensures start { IfOk result (λ text. IsStartOfScript (I.remaining input.old) (I.remaining input.new) text.items) }
    ensures system { IfErr result (λ fault. (fault ≡ Fault.Read) ⊎ (fault ≡ Fault.Memory)) }
{
    let mut text = Vec::new(alloc);
    let mut chunk = [0; CHUNK];
    for _ in 0..u64::MAX {
        let room = (LIMIT + 1 - text.len()).min(CHUNK);
        if room == 0 {
            return Ok(text);
        }
        match read_more(input, &mut chunk[..room], &mut text)? {
            Reader::MayHaveMore => {}
            Reader::IsAtEnd => return Ok(text),
        }
    }
    // No reader is asked this often and still says that it was interrupted.
    Err(Fault::Read)
}

/// One read, of at most as many bytes as the buffer has, which go to the end of the text. A read that failed
/// took nothing (`failed`).
fn read_more<I: Read>(input: &mut I, buffer: &mut [u8], text: &mut Vec<u8>) -> Result<Reader, Fault>
    ensures starts { StartsWith text.new.items text.old.items }
    ensures most { OnOk result (vec_len text.new ≤ vec_len text.old + length buffer.old) }
    ensures moved { OnOk result (Consumes (I.remaining input.old) (I.remaining input.new)
        (appended_bytes text.old.items text.new.items)) }
    ensures end { result ≡ Ok Reader.IsAtEnd → 0 < length buffer.old → IsAtEnd (I.remaining input.new) }
    ensures failed { result ≡ Err Fault.Read → Keeps (I.remaining input.old) (I.remaining input.new) }
    ensures system { IfErr result (λ fault. (fault ≡ Fault.Read) ⊎ (fault ≡ Fault.Memory)) }
{
    match input.read(buffer) {
        Ok(0) => Ok(Reader::IsAtEnd),
        Ok(count) => match text.extend_from_slice(&buffer[..count]) {
            Ok(()) => Ok(Reader::MayHaveMore),
            Err(AllocError) => Err(Fault::Memory),
        },
        // A read that was interrupted is made again.
        Err(e) if e.kind() == ErrorKind::Interrupted => Ok(Reader::MayHaveMore),
        Err(_) => Err(Fault::Read),
    }
}

/// Answers each line of a script in turn, up to the first fault.
fn answer_lines<O: Write>(alloc: Global, text: &[u8], output: &mut O) -> Result<(), Fault>
    requires { length text.now ≤ LIMIT }
    ensures lines { OnOk result (All IsLine (lines_of text.now)) }
    ensures played { OnOk result (IsPlayed text.now (O.contents output.old) (O.contents output.new)) }
    ensures fault { IfErr result (λ fault. Tells fault text.now (O.contents output.old) (O.contents output.new)) }
    ensures asked { result ≢ Err Fault.Usage }
{
    let mut world = None;
    answer_each(alloc, text, &mut world, output)
}

/// Answers each line of a script in turn by the World that stands here, which the script has yet to make.
fn answer_each<O: Write>(
    alloc: Global,
    text: &[u8],
    world: &mut Option<World>,
    output: &mut O,
) -> Result<(), Fault>
    requires short { length text.now ≤ LIMIT }
    requires first { world.old ≡ None }
    ensures lines { OnOk result (All IsLine (lines_of text.now)) }
    ensures played { OnOk result (IsPlayed text.now (O.contents output.old) (O.contents output.new)) }
    ensures fault { IfErr result (λ fault. Tells fault text.now (O.contents output.old) (O.contents output.new)) }
    ensures asked { result ≢ Err Fault.Usage }
{
    let mut number: u64 = 0;
    let mut rest = text;
    while !rest.is_empty() {
        let (line, after) = line::cut(rest, b'\n');
        number += 1;
        answer_line(alloc, number, line, world, output)?;
        rest = after;
    }
    Ok(())
}

/// Answers the line of this number.
fn answer_line<O: Write>(
    alloc: Global,
    number: u64,
    line: &[u8],
    world: &mut Option<World>,
    output: &mut O,
) -> Result<(), Fault>
    ensures line { OnOk result (IsLine line.now) }
    ensures played { OnOk result ((bytes : List ℕ) × PlaysLine line.now world.old world.new bytes
        × Appends (O.contents output.old) (O.contents output.new) bytes) }
    ensures fault { IfErr result (λ fault. TellsOfLine (λ n. (n ≡ number) × IsBad line.now world.old) fault
        (O.contents output.old) (O.contents output.new)) }
    ensures asked { result ≢ Err Fault.Usage }
{
    if line::is_skipped(line) {
        return Ok(());
    }
    let bad = Err(Fault::BadLine(number));
    match command::parse(line) {
        None => bad,
        Some(command) => answer_command(alloc, number, command, world, output),
    }
}

/// Answers the command of the line of this number.
fn answer_command<O: Write>(
    alloc: Global,
    number: u64,
    command: Command,
    world: &mut Option<World>,
    output: &mut O,
) -> Result<(), Fault>
    ensures leads { OnOk result ((text : List ℕ) × LeadsTo command world.old world.new text
        × Appends (O.contents output.old) (O.contents output.new) (text ++ 10 ∷ [])) }
    ensures fault { IfErr result (λ fault.
        TellsOfLine (λ n. (n ≡ number) × ((request : Request) × (command ≡ On request) × (world.old ≡ None))) fault
        (O.contents output.old) (O.contents output.new)) }
    ensures asked { result ≢ Err Fault.Usage }
{
    match command {
        Command::New(model) => make(alloc, model, world, output),
        Command::On(request) => match world {
            None => Err(Fault::BadLine(number)),
            Some(world) => written(world.carry_out(request, output)),
        },
    }
}

/// Puts a new World in place of any old one. Where it is refused, for its numbers or for memory, the old one
/// stays.
fn make<O: Write>(
    alloc: Global,
    model: Model,
    world: &mut Option<World>,
    output: &mut O,
) -> Result<(), Fault>
    ensures made { OnOk result ((text : List ℕ) × Makes model world.old world.new text
        × Appends (O.contents output.old) (O.contents output.new) (text ++ 10 ∷ [])) }
    ensures system { IfErr result (λ fault. TellsOfLine (λ n. ⊥) fault (O.contents output.old) (O.contents output.new)) }
{
    match World::new(alloc, model) {
        Ok(made) => {
            *world = Some(made);
            written(answer::write_reply(Reply::Done, output))
        }
        Err(Refusal::Permits) => {
            written(answer::write_refused(Refusal::Permits.number(), output))
        }
        Err(_) => Err(Fault::Memory),
    }
}

/// A write that failed, as a fault.
fn written(outcome: io::Result<()>) -> Result<(), Fault>
    ensures ok { OnOk outcome (IsOk result) }
    ensures err { OnErr outcome (result ≡ Err Fault.Write) }
{
    match outcome {
        Ok(()) => Ok(()),
        Err(_) => Err(Fault::Write),
    }
}
