//! A value in place, lent to many readers or one writer against the seats of a read-write lock's words.
//!
//! A reader's right is what its seat's view says, which the state word's own exchange gives. A [`Vault`] takes the seat
//! in pledge and hands out a [`Glance`], the right to read, or a [`Grip`], the right to write. Giving that back redeems
//! the seat. All of these are ghost steps, without an instruction. That nobody reads while somebody writes follows from
//! the rule of the words' table, which stands in `words_access`. Whoever has the writer lock also has a [`Memo`] of the value, which stays while
//! its right changes.
#![tactic(auto)]

mod lends;
mod memo;
mod vault;

pub use memo::Memo;
pub use vault::{Glance, Grip, Renewal, Vault};
