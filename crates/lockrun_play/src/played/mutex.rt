//! The mutex's World, as a script plays on it.

ghost use Rattle.std.specs.Prelude.{◌≡◌};
ghost use Rattle.lockrun_play.specs.Answers.{Prints};

use super::{Played, Reply};
use crate::answer::{self, Listed};
use crate::states;
use lock_core::mutex::World;
use lock_event::Entry;
use std::io;
use std::io::Write;

impl Played for World {
    ghost use Rattle.lockrun_play.specs.Mutex as mutex;

    ghost put_gives = { mutex.put_gives };

    ghost take_gives = { mutex.take_gives };

    ghost text_of = { mutex.text_of };

    fn put(&mut self, value: u64) -> Reply {
        if self.at_rest() {
            *self.get_mut() = value;
            Reply::Done
        } else {
            Reply::NotPossible
        }
    }

    fn take(&mut self) -> Reply {
        // No value of a mutex can be taken while the mutex stays.
        Reply::NotPossible
    }

    fn show<O: Write>(&self, output: &mut O) -> io::Result<()> {
        states::write_mutex(self.is_locked(), self.starved(), self.value(), output)?;
        answer::write_named_list(" list=", &ListOf { world: self }, output)?;
        writeln!(output)
    }
}

/// The list of a mutex.
#[derive(Clone, Copy)]
struct ListOf<'a> {
    world: &'a World,
}

impl<'a> Listed for ListOf<'a> {
    ghost entries = { λ l. l.world.now.entries };

    fn waiting(&self) -> usize {
        self.world.waiting()
    }

    fn entry(&self, index: usize) -> Option<Entry<u32>> {
        self.world.entry(index)
    }
}
