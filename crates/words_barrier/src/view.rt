//! What a seat knows of itself.

ghost use Rattle.std.specs.Prelude.{ℕ};
ghost use Rattle.words_base.specs.Lists.{Listed, listed_coded};

use std::marker::Model;

/// What a seat knows of itself. No value of it is made.
pub struct View {
    /// Whether it has finished a generation, and has to notify all that stand in the list.
    pub owes: bool,
    /// Whether it has an entry in the list.
    pub listed: bool,
    /// Whether it has joined the list, and has not looked since how many generations are finished.
    pub fresh: bool,
    /// Whether its arrival was counted.
    pub counted: bool,
    /// Whether it has finished a generation.
    pub led: bool,
    /// Whether it has the list out.
    pub has_list: bool,
    /// The number of its entry.
    pub ghost entry: { ℕ },
    /// How many generations its last look found finished.
    pub ghost found: { ℕ },
    /// The generation that its arrival was counted in: how many were finished then.
    pub ghost generation: { ℕ },
    /// What the list had when the seat took it out.
    pub ghost list: { Listed } by { listed_coded },
}

impl Model for View {
    ghost use base.Fml.{ftrue};

    ghost also_owns = { λ _. ftrue };
}
