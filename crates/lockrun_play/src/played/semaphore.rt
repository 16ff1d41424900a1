//! The semaphore's World, as a script plays on it.

ghost use Rattle.std.specs.Prelude.{◌≡◌};
ghost use Rattle.lockrun_play.specs.Answers.{Prints};

use super::{Played, Reply};
use crate::answer::{self, Listed};
use crate::states;
use lock_core::semaphore::World;
use lock_event::Entry;
use std::io;
use std::io::Write;

impl Played for World {
    ghost use Rattle.lockrun_play.specs.Semaphore as semaphore;

    ghost put_gives = { semaphore.put_gives };

    ghost take_gives = { semaphore.take_gives };

    ghost text_of = { semaphore.text_of };

    fn put(&mut self, _value: u64) -> Reply {
        // A semaphore has no value.
        Reply::NotPossible
    }

    fn take(&mut self) -> Reply {
        Reply::NotPossible
    }

    fn show<O: Write>(&self, output: &mut O) -> io::Result<()> {
        states::write_semaphore(self.available(), self.limit(), output)?;
        answer::write_named_list(" list=", &ListOf { world: self }, output)?;
        writeln!(output)
    }
}

/// The list of a semaphore.
#[derive(Clone, Copy)]
struct ListOf<'a> {
    world: &'a World,
}

impl<'a> Listed for ListOf<'a> {
    ghost entries = { λ l. l.world.now.entries };

    fn waiting(&self) -> usize {
        self.world.waiting()
    }

    fn entry(&self, index: usize) -> Option<Entry<u32>> {
        self.world.entry(index)
    }
}
