//! What a seat knows of itself.

ghost use Rattle.std.specs.Prelude.{ℕ};
ghost use Rattle.words_base.specs.Lists.{Listed, listed_coded};

use std::marker::Model;

/// What a seat knows of itself. No value of it is made.
pub struct View {
    /// Whether it has set the writer's bit: it waits to write, or writes.
    pub marks: bool,
    /// Whether it reads.
    pub reads: bool,
    /// Whether it writes.
    pub writes: bool,
    /// Whether it has to notify one of those that wait until the writer's bit is clear, or to look on their behalf.
    pub owes_readers: bool,
    /// Whether it has to notify who waits until no reader is inside, or to look on its behalf.
    pub owes_writer: bool,
    /// Whether it has an entry in the readers' list.
    pub in_readers: bool,
    /// Whether it has an entry in the writer's list.
    pub in_writer: bool,
    /// Whether it has joined a list, and has not looked at the state since, or found its right free.
    pub fresh: bool,
    /// Whether it has the lists out.
    pub has_lists: bool,
    /// The number of its entry.
    pub ghost entry: { ℕ },
    /// What its last look, its step into the readers, or its try in vain found in the state word.
    pub ghost found: { ℕ },
    /// The readers' list as it was when the seat took the lists out.
    pub ghost readers: { Listed } by { listed_coded },
    /// The writer's list as it was then.
    pub ghost writer: { Listed } by { listed_coded },
}

impl Model for View {
    ghost use base.Fml.{ftrue};

    ghost also_owns = { λ _. ftrue };
}
