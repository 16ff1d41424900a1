//! The barrier's World, as a script plays on it.

ghost use Rattle.std.specs.Prelude.{◌≡◌, ◌++◌, OnOk};
ghost use Rattle.std.specs.Io.KnownBytes.{Appends};
ghost use Rattle.world_barrier.specs.State.{list_in};
ghost use Rattle.lockrun_play.specs.Answers.{list_text, Prints};

use super::{Played, Reply};
use crate::answer::{self, Listed};
use crate::states;
use lock_core::barrier::{ListName, World};
use lock_event::Entry;
use std::io;
use std::io::Write;

impl Played for World {
    ghost use Rattle.lockrun_play.specs.Barrier as barrier;

    ghost put_gives = { barrier.put_gives };

    ghost take_gives = { barrier.take_gives };

    ghost text_of = { barrier.text_of };

    fn put(&mut self, _value: u64) -> Reply {
        // A barrier has no value.
        Reply::NotPossible
    }

    fn take(&mut self) -> Reply {
        Reply::NotPossible
    }

    fn show<O: Write>(&self, output: &mut O) -> io::Result<()> {
        states::write_barrier(
            self.count(),
            self.generation(),
            self.is_locked(),
            self.starved(),
            output,
        )?;
        write_list_of(self, ListName::Lock, " lock=", output)?;
        write_list_of(self, ListName::Generation, " list=", output)?;
        writeln!(output)
    }
}

/// Writes a list of a barrier after what names it.
fn write_list_of<O: Write>(
    world: &World,
    name: ListName,
    title: &str,
    output: &mut O,
) -> io::Result<()>
    ensures { OnOk result (Appends (O.contents output.old) (O.contents output.new) (title.now ++ list_text (list_in name world.now))) }
{
    answer::write_named_list(title, &OneList { world, name }, output)
}

/// One list of a barrier.
#[derive(Clone, Copy)]
struct OneList<'a> {
    world: &'a World,
    name: ListName,
}

impl<'a> Listed for OneList<'a> {
    ghost use Rattle.world_barrier.specs.State.{list_in};

    ghost entries = { λ l. list_in l.name l.world.now };

    fn waiting(&self) -> usize {
        self.world.waiting(self.name)
    }

    fn entry(&self, index: usize) -> Option<Entry<u32>> {
        self.world.entry(self.name, index)
    }
}
