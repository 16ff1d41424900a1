//! An entry that has joined.

use lock_event::EntryId;
use words_base::Numbered;

/// An entry that has joined a list, by which the rules of tables name it.
#[derive(Drop)]
pub struct Joining {
    /// Its id.
    pub id: EntryId,
}

impl Numbered for Joining {
    ghost number = { λ joining. joining.id.number };
}
