//! The word of a read-write lock: whether the writer's bit is set, and how many readers there are.

ghost use Rattle.std.specs.Prelude.{◌≡◌, ◌<◌};
ghost use Rattle.sync_program.specs.declared.rwlock.Action.TheVariants as act;
ghost use Rattle.world_rwlock.specs.program.Words.{OnWord, new_word};

use sync_program::rwlock::Found;

/// The word of a read-write lock: the bit of the writer that writes or waits to, how many readers there
/// are, and how many there may be.
#[derive(Clone, Copy)]
pub struct Word {
    pub writer: bool,
    pub readers: u32,
    pub limit: u32,
}

impl Word {
    /// The bit is clear, and nobody reads.
    pub fn new(limit: u32) -> Word
        ensures { result ≡ new_word limit }
    {
        Word {
            writer: false,
            readers: 0,
            limit,
        }
    }

    /// One more reader, if the bit is clear, below the limit.
    pub fn read(&mut self) -> Found
        ensures { OnWord act.Read result self.old self.new }
    {
        if self.writer {
            Found::Writer
        } else if self.readers < self.limit {
            self.readers += 1;
            Found::Done
        } else {
            Found::Full
        }
    }

    /// One more reader, below the limit.
    pub fn add(&mut self) -> Found
        ensures { OnWord act.Add result self.old self.new }
    {
        if self.readers < self.limit {
            self.readers += 1;
            Found::Done
        } else {
            Found::Full
        }
    }

    /// One reader fewer.
    pub fn off(&mut self) -> Found
        requires { 0 < self.old.readers }
        ensures { OnWord act.Off result self.old self.new }
    {
        self.readers -= 1;
        self.left()
    }

    /// Looks whether readers are left.
    pub fn load(&mut self) -> Found
        ensures { OnWord act.Load result self.old self.new }
    {
        self.left()
    }

    /// The bit is set.
    pub fn mark(&mut self) -> Found
        ensures { OnWord act.Mark result self.old self.new }
    {
        self.writer = true;
        self.left()
    }

    /// The bit is set, if it was clear and nobody reads.
    pub fn try_write(&mut self) -> Found
        ensures { OnWord act.TryWrite result self.old self.new }
    {
        if !self.writer && self.readers == 0 {
            self.writer = true;
            Found::Done
        } else {
            Found::NotFree
        }
    }

    /// The bit is set in place of the one reader, if it was clear and nobody else reads.
    pub fn try_upgrade(&mut self) -> Found
        ensures { OnWord act.TryUpgrade result self.old self.new }
    {
        if !self.writer && self.readers == 1 {
            self.writer = true;
            self.readers = 0;
            Found::Done
        } else {
            Found::NotFree
        }
    }

    /// The bit is set, and there is one reader fewer.
    pub fn upgrade(&mut self) -> Found
        requires { 0 < self.old.readers }
        ensures { OnWord act.Upgrade result self.old self.new }
    {
        let others = self.readers - 1;
        self.writer = true;
        self.readers = others;
        Found::Done
    }

    /// The bit is cleared, and there is one more reader. Nobody reads before, so that no limit is in
    /// the way.
    pub fn down(&mut self) -> Found
        requires { self.old.readers ≡ 0 }
        ensures { OnWord act.Down result self.old self.new }
    {
        self.writer = false;
        self.readers += 1;
        Found::Done
    }

    /// The bit is cleared.
    pub fn unmark(&mut self) -> Found
        ensures { OnWord act.Unmark result self.old self.new }
    {
        self.writer = false;
        Found::Done
    }

    /// Whether readers are left.
    fn left(&self) -> Found
        ensures { OnWord act.Load result self.now self.now }
    {
        if self.readers == 0 {
            Found::NoneLeft
        } else {
            Found::SomeLeft
        }
    }
}
