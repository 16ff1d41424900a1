//! The rule of a once-cell's table, and the single steps on it.
//!
//! The table has two words, the cell's and that of its two waiting lists, and one slot, in which both lists lie. What always holds between
//! any two atomic steps of any number of threads is [`CellRule`], of any lists that say who waits in them and how many are notified
//! ([`Content`]). [`no_lost_wakeup`] is what the rule says of an empty and of a full cell.
#![tactic(auto)]

mod laws;
mod list_word;
mod plays;
mod rule;
pub mod steps;
mod view;

pub use laws::no_lost_wakeup;
pub use list_word::{take_out, wake_next};
pub use plays::Keep;
pub use rule::{CellRule, Content};
pub use view::View;
