//! The read-write lock's World, as a script plays on it.

ghost use Rattle.std.specs.Prelude.{◌≡◌, ◌++◌, OnOk};
ghost use Rattle.std.specs.Io.KnownBytes.{Appends};
ghost use Rattle.lockrun_play.specs.Answers.{list_text, Prints};
ghost use Rattle.lockrun_play.specs.RwLock.{list_of};

use super::{Played, Reply};
use crate::answer::{self, Listed};
use crate::states;
use lock_core::rwlock::World;
use lock_event::Entry;
use std::io;
use std::io::Write;

impl Played for World {
    ghost use Rattle.lockrun_play.specs.RwLock as rwlock;

    ghost put_gives = { rwlock.put_gives };

    ghost take_gives = { rwlock.take_gives };

    ghost text_of = { rwlock.text_of };

    fn put(&mut self, value: u64) -> Reply {
        if self.at_rest() {
            *self.get_mut() = value;
            Reply::Done
        } else {
            Reply::NotPossible
        }
    }

    fn take(&mut self) -> Reply {
        // No value of a read-write lock can be taken while the lock stays.
        Reply::NotPossible
    }

    fn show<O: Write>(&self, output: &mut O) -> io::Result<()> {
        states::write_rwlock(
            self.is_turn_held(),
            self.starved(),
            self.is_writer_marked(),
            self.readers(),
            self.value(),
            output,
        )?;
        write_list_of(self, Which::Turn, " turnlist=", output)?;
        write_list_of(self, Which::NoReaders, " noreaders=", output)?;
        write_list_of(self, Which::NoWriter, " nowriter=", output)?;
        writeln!(output)
    }
}

/// Writes a list of a read-write lock after what names it.
fn write_list_of<O: Write>(
    world: &World,
    which: Which,
    title: &str,
    output: &mut O,
) -> io::Result<()>
    ensures { OnOk result (Appends (O.contents output.old) (O.contents output.new) (title.now ++ list_text (list_of world.now which))) }
{
    answer::write_named_list(title, &OneList { world, which }, output)
}

/// Which list of a read-write lock.
#[derive(Clone, Copy)]
enum Which {
    /// Those that wait for the turn.
    Turn,
    /// Those that wait until no reader is left.
    NoReaders,
    /// Those that wait until no writer is left.
    NoWriter,
}

/// One list of a read-write lock.
#[derive(Clone, Copy)]
struct OneList<'a> {
    world: &'a World,
    which: Which,
}

impl<'a> Listed for OneList<'a> {
    ghost use Rattle.lockrun_play.specs.RwLock.{list_of};

    ghost entries = { λ l. list_of l.world.now l.which };

    fn waiting(&self) -> usize {
        match self.which {
            Which::Turn => self.world.turn_waiting(),
            Which::NoReaders => self.world.no_readers_waiting(),
            Which::NoWriter => self.world.no_writer_waiting(),
        }
    }

    fn entry(&self, index: usize) -> Option<Entry<u32>> {
        match self.which {
            Which::Turn => self.world.turn_entry(index),
            Which::NoReaders => self.world.no_readers_entry(index),
            Which::NoWriter => self.world.no_writer_entry(index),
        }
    }
}
