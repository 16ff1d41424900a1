//! Why a run ends early.

ghost use Rattle.std.specs.Prelude.{◌≡◌, Some};
ghost use Rattle.lockrun_play.specs.Faults.{status_of, text_of};

use std::fmt;
use std::fmt::{Display, Formatter};

/// Why a run ends early. Its text is what the error output gets, without the line feed.
#[derive(Clone, Copy)]
pub enum Fault {
    /// The arguments are not those of the program.
    Usage,
    /// The input could not be read.
    Read,
    /// The input has more bytes than a script may have.
    TooLong,
    /// The line of this number, from 1, is none that a script may have at that place.
    BadLine(u64),
    /// The output could not be written.
    Write,
    /// Memory was refused.
    Memory,
    /// The system started no thread.
    Thread,
}

impl Fault {
    /// The status that a run which ends so answers.
    pub fn status(self) -> u8
        ensures { result ≡ status_of self }
    {
        match self {
            Fault::TooLong | Fault::BadLine(_) => 1,
            Fault::Usage => 2,
            Fault::Read | Fault::Write | Fault::Memory | Fault::Thread => 3,
        }
    }
}

impl Display for Fault {
    ghost output = { λ fault. Some (text_of fault) };

    fn fmt<W: fmt::Write>(&self, f: &mut Formatter<W>) -> fmt::Result {
        match self {
            Fault::Usage => write!(f, "usage: lockrun script | lockrun threads K"),
            Fault::Read => write!(f, "lockrun: read failed"),
            Fault::TooLong => write!(f, "lockrun: script too long"),
            Fault::BadLine(number) => write!(f, "lockrun: line {number}: bad"),
            Fault::Write => write!(f, "lockrun: write failed"),
            Fault::Memory => write!(f, "lockrun: no memory"),
            Fault::Thread => write!(f, "lockrun: thread failed"),
        }
    }
}
