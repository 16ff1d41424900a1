//! The pool's World, as a script plays on it.

ghost use Rattle.std.specs.Prelude.{◌≡◌, ◌++◌, OnOk};
ghost use Rattle.std.specs.Io.KnownBytes.{Appends};
ghost use Rattle.world_pool.specs.State.{list_in};
ghost use Rattle.lockrun_play.specs.Answers.{list_text, Prints};
ghost use Rattle.lockrun_play.specs.Pool.{items_text};

use super::{Played, Reply};
use crate::answer::{self, Listed};
use crate::states;
use lock_core::pool::{ListName, World};
use lock_event::Entry;
use std::io;
use std::io::Write;

impl Played for World {
    ghost use Rattle.lockrun_play.specs.Pool as pool;

    ghost put_gives = { pool.put_gives };

    ghost take_gives = { pool.take_gives };

    ghost text_of = { pool.text_of };

    fn put(&mut self, _value: u64) -> Reply {
        // A pool's items are put by its parties alone.
        Reply::NotPossible
    }

    fn take(&mut self) -> Reply {
        Reply::NotPossible
    }

    fn show<O: Write>(&self, output: &mut O) -> io::Result<()> {
        states::write_pool(self.available(), self.limit(), output)?;
        write_list_of(self, ListName::Permits, " list=", output)?;
        states::write_pool_lock(self.is_locked(), self.starved(), output)?;
        write_list_of(self, ListName::Lock, " lock=", output)?;
        write!(output, " items=")?;
        write_items(self, output)?;
        writeln!(output)
    }
}

/// Writes a list of a pool after what names it.
fn write_list_of<O: Write>(
    world: &World,
    name: ListName,
    title: &str,
    output: &mut O,
) -> io::Result<()>
    ensures { OnOk result (Appends (O.contents output.old) (O.contents output.new) (title.now ++ list_text (list_in name world.now))) }
{
    answer::write_named_list(title, &OneList { world, name }, output)
}

/// Writes the items in a pool's list.
fn write_items<O: Write>(world: &World, output: &mut O) -> io::Result<()>
    ensures { OnOk result (Appends (O.contents output.old) (O.contents output.new) (items_text world.now.items)) }
{
    write!(output, "[")?;
    for index in 0..world.len() {
        let Some(item) = world.item(index) else {
            break;
        };
        let gap = if index == 0 { "" } else { " " };
        write!(output, "{gap}{item}")?;
    }
    write!(output, "]")
}

/// One list of a pool.
#[derive(Clone, Copy)]
struct OneList<'a> {
    world: &'a World,
    name: ListName,
}

impl<'a> Listed for OneList<'a> {
    ghost use Rattle.world_pool.specs.State.{list_in};

    ghost entries = { λ l. list_in l.name l.world.now };

    fn waiting(&self) -> usize {
        self.world.waiting(self.name)
    }

    fn entry(&self, index: usize) -> Option<Entry<u32>> {
        self.world.entry(self.name, index)
    }
}
