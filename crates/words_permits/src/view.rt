//! What a seat knows of itself.

ghost use Rattle.std.specs.Prelude.{ℕ, List};
ghost use Rattle.words_permits.specs.Waiters.{Waiter, waiters_coded};

use std::marker::Model;

/// What a seat knows of itself. No value of it is made.
pub struct View {
    /// How many permits it has.
    pub ghost permits: { ℕ },
    /// By how many it has raised the limit without having given them yet.
    pub ghost under_way: { ℕ },
    /// How many permits its last step on the first word found available, or left there.
    pub ghost found: { ℕ },
    /// What its last look at the limit found.
    pub ghost limit: { ℕ },
    /// By how many it has raised the limit in all.
    pub ghost added: { ℕ },
    /// By how many it has lowered the limit in all.
    pub ghost forgotten: { ℕ },
    /// Whether it has to notify the first waiter for whom the available permits are enough.
    pub owes: bool,
    /// Whether it has seen how many are available since it owes.
    pub seen: bool,
    /// Whether it has an entry in the list.
    pub listed: bool,
    /// Whether it has joined the list, and no look of it has found too few since.
    pub fresh: bool,
    /// The number of its entry.
    pub ghost entry: { ℕ },
    /// For how many permits its entry waits.
    pub ghost weight: { ℕ },
    /// Whether it has the list out.
    pub has_list: bool,
    /// Who stood in the list when the seat took it out.
    pub ghost waiters: { List Waiter } by { waiters_coded },
    /// How many of them were notified.
    pub ghost marked: { ℕ },
}

impl Model for View {
    ghost use base.Fml.{ftrue};

    ghost also_owns = { λ _. ftrue };
}
