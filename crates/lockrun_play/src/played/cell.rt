//! The once-cell's World, as a script plays on it.

ghost use Rattle.std.specs.Prelude.{◌≡◌, ◌++◌, codes, OnOk};
ghost use Rattle.std.specs.Io.KnownBytes.{Appends};
ghost use Rattle.world_once_cell.specs.State.{list_in};
ghost use Rattle.lockrun_play.specs.Answers.{list_text, Prints};
ghost use Rattle.lockrun_play.specs.Cell.{content_text};

use super::{Played, Reply};
use crate::answer::{self, Listed};
use crate::states;
use lock_core::cell::{Content, ListName, World};
use lock_event::Entry;
use std::io;
use std::io::Write;

impl Played for World {
    ghost use Rattle.lockrun_play.specs.Cell as cell;

    ghost put_gives = { cell.put_gives };

    ghost take_gives = { cell.take_gives };

    ghost text_of = { cell.text_of };

    fn put(&mut self, value: u64) -> Reply {
        if !self.at_rest() {
            return Reply::NotPossible;
        }
        match self.get_mut() {
            Some(lent) => {
                *lent = value;
                Reply::Done
            }
            None => Reply::Nothing,
        }
    }

    fn take(&mut self) -> Reply {
        if !self.at_rest() {
            return Reply::NotPossible;
        }
        match World::take(self) {
            Some(value) => Reply::Value(value),
            None => Reply::Nothing,
        }
    }

    fn show<O: Write>(&self, output: &mut O) -> io::Result<()> {
        write_content(self.content(), output)?;
        write_list_of(self, ListName::Active, " active=", output)?;
        write_list_of(self, ListName::Passive, " passive=", output)?;
        writeln!(output)
    }
}

/// Writes what is in a cell.
fn write_content<O: Write>(content: Content, output: &mut O) -> io::Result<()>
    ensures { OnOk result (Appends (O.contents output.old) (O.contents output.new) (content_text content)) }
{
    match content {
        Content::Empty => states::write_cell(None, false, output),
        Content::BeingMade(_) => states::write_cell(None, true, output),
        Content::Full(value) => states::write_cell(Some(value), false, output),
    }
}

/// Writes a list of a once-cell after what names it.
fn write_list_of<O: Write>(
    world: &World,
    name: ListName,
    title: &str,
    output: &mut O,
) -> io::Result<()>
    ensures { OnOk result (Appends (O.contents output.old) (O.contents output.new) (title.now ++ list_text (list_in name world.now))) }
{
    answer::write_named_list(title, &OneList { world, name }, output)
}

/// One list of a once-cell.
#[derive(Clone, Copy)]
struct OneList<'a> {
    world: &'a World,
    name: ListName,
}

impl<'a> Listed for OneList<'a> {
    ghost use Rattle.world_once_cell.specs.State.{list_in};

    ghost entries = { λ l. list_in l.name l.world.now };

    fn waiting(&self) -> usize {
        self.world.waiting(self.name)
    }

    fn entry(&self, index: usize) -> Option<Entry<u32>> {
        self.world.entry(self.name, index)
    }
}
