//! The text of answers and lists.

ghost use Rattle.std.specs.Prelude.{◌≡◌, ◌++◌, ℕ, List, codes, decimal, length, slice_get, OnOk};
ghost use Rattle.std.specs.Io.KnownBytes.{Appends};
ghost use Rattle.lockrun_play.specs.Answers.{answer_text, entry_text, got_text, list_text, reply_text, Prints};

use crate::played::Reply;
use lock_event::{Entry, Mark};
use std::io;
use std::io::Write;
use world_base::{Answer, Got};

/// Writes the answer of a move, as one line.
pub fn write_answer<O: Write>(answer: Answer, output: &mut O) -> io::Result<()>
    ensures { Prints (O.contents output.old) (O.contents output.new) result (answer_text answer) }
{
    match answer {
        Answer::Stepped => write_line("stepped", output),
        Answer::Pending => write_line("pending", output),
        Answer::Ready(got) => write_got("ready", got, output),
        Answer::Granted(got) => write_got("granted", got, output),
        Answer::None => write_line("none", output),
        Answer::GivenBack => write_line("given back", output),
        Answer::Waiting => write_line("waiting", output),
        Answer::Refused(number) => write_refused(number, output),
        Answer::NotPossible => write_line("not possible", output),
    }
}

/// Writes that a call or a new World was refused for the reason of this number, as one line.
pub fn write_refused<O: Write>(number: u8, output: &mut O) -> io::Result<()>
    ensures { Prints (O.contents output.old) (O.contents output.new) result (codes "refused " ++ decimal number) }
{
    writeln!(output, "refused {number}")
}

/// Writes the reply to what was asked from outside every call, as one line. A new World is told of as
/// [`Reply::Done`].
pub fn write_reply<O: Write>(reply: Reply, output: &mut O) -> io::Result<()>
    ensures { Prints (O.contents output.old) (O.contents output.new) result (reply_text reply) }
{
    match reply {
        Reply::Done => write_line("ok", output),
        Reply::Nothing => write_line("none", output),
        Reply::Value(value) => writeln!(output, "{value}"),
        Reply::NotPossible => write_line("not possible", output),
    }
}

/// Writes this text as one line.
fn write_line<O: Write>(text: &str, output: &mut O) -> io::Result<()>
    ensures { Prints (O.contents output.old) (O.contents output.new) result text.now }
{
    writeln!(output, "{text}")
}

/// Writes how a call succeeded and what it got, as one line.
fn write_got<O: Write>(how: &str, got: Got, output: &mut O) -> io::Result<()>
    ensures { Prints (O.contents output.old) (O.contents output.new) result (how.now ++ got_text got) }
{
    match got {
        Got::Plain => write_line(how, output),
        Got::Value(value) => write_number(how, " ", value, output),
        Got::Leader(true) => write_both(how, " leader", output),
        Got::Leader(false) => write_both(how, " follower", output),
        Got::Taken(value) => write_number(how, " taken ", value, output),
        Got::Failed => write_both(how, " failed", output),
    }
}

/// Writes one text after the other, as one line.
fn write_both<O: Write>(first: &str, second: &str, output: &mut O) -> io::Result<()>
    ensures { Prints (O.contents output.old) (O.contents output.new) result (first.now ++ second.now) }
{
    writeln!(output, "{first}{second}")
}

/// Writes a number after two texts, as one line.
fn write_number<O: Write>(first: &str, second: &str, value: u64, output: &mut O) -> io::Result<()>
    ensures { Prints (O.contents output.old) (O.contents output.new) result (first.now ++ (second.now ++ decimal value)) }
{
    writeln!(output, "{first}{second}{value}")
}

/// A list of waiting parties, to be shown.
pub trait Listed {
    ghost use Rattle.lock_event.specs.declared.event.Entry.{Entry};

    /// Its entries, the front first.
    ghost entries: { Self → List (Entry ℕ) };

    /// How many entries it has.
    fn waiting(&self) -> usize
        ensures { result ≡ length (entries self.now) };

    /// The entry at this place, counted from the front. None past the last.
    fn entry(&self, index: usize) -> Option<Entry<u32>>
        ensures { result ≡ slice_get (entries self.now) index };
}

/// Writes a list of waiting parties.
pub fn write_list<L: Listed, O: Write>(list: &L, output: &mut O) -> io::Result<()>
    ensures { OnOk result (Appends (O.contents output.old) (O.contents output.new) (list_text (L.entries list.now))) }
{
    write!(output, "[")?;
    for index in 0..list.waiting() {
        let Some(entry) = list.entry(index) else {
            break;
        };
        let gap = if index == 0 { "" } else { " " };
        write_entry(gap, &entry, output)?;
    }
    write!(output, "]")
}

/// Writes a list of waiting parties after what names it.
pub fn write_named_list<L: Listed, O: Write>(name: &str, list: &L, output: &mut O) -> io::Result<()>
    ensures { OnOk result (Appends (O.contents output.old) (O.contents output.new) (name.now ++ list_text (L.entries list.now))) }
{
    write!(output, "{name}")?;
    write_list(list, output)
}

/// Writes an entry of a list, the party and its mark, after what sets it apart from the one before it. The
/// mark is a letter: `w` of one that waits, `n` of one that was notified, `a` of one that was notified
/// additionally.
pub fn write_entry<O: Write>(gap: &str, entry: &Entry<u32>, output: &mut O) -> io::Result<()>
    ensures { OnOk result (Appends (O.contents output.old) (O.contents output.new) (gap.now ++ entry_text entry.now)) }
{
    let party = entry.key;
    let letter = match entry.mark {
        Mark::Waiting => 'w',
        Mark::Notified => 'n',
        Mark::Additional => 'a',
    };
    write!(output, "{gap}{party}{letter}")
}
