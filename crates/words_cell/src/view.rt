//! What a seat knows of itself.

ghost use Rattle.std.specs.Prelude.{ℕ};
ghost use Rattle.words_base.specs.Lists.{Listed, listed_coded};

use std::marker::Model;

/// What a seat knows of itself. No value of it is made.
pub struct View {
    /// Whether it has the right to make the cell's value.
    pub makes: bool,
    /// Whether it has to notify one that would make the value, or to claim on behalf of the others.
    pub owes: bool,
    /// Whether it has to notify all that would make the value.
    pub owes_active: bool,
    /// Whether it has to notify all that only wait for it.
    pub owes_passive: bool,
    /// Whether it has an entry in the list of those that would make the value.
    pub in_active: bool,
    /// Whether it has an entry in the list of those that only wait for it.
    pub in_passive: bool,
    /// Whether it has joined a list, and has not looked at the cell since, or found it full.
    pub fresh: bool,
    /// Whether it has the lists out.
    pub has_lists: bool,
    /// The number of its entry.
    pub ghost entry: { ℕ },
    /// What its last look or claim found, or what it made of the cell since.
    pub ghost found: { ℕ },
    /// How often it has filled the cell.
    pub ghost filled: { ℕ },
    /// How often it has emptied the full cell.
    pub ghost taken: { ℕ },
    /// The list of those that would make the value, as it was when the seat took the lists out.
    pub ghost active: { Listed } by { listed_coded },
    /// The list of those that only wait for it, as it was then.
    pub ghost passive: { Listed } by { listed_coded },
}

impl Model for View {
    ghost use base.Fml.{ftrue};

    ghost also_owns = { λ _. ftrue };
}
