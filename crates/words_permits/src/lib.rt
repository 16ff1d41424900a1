//! The rule of a semaphore's table, and the single steps on it.
//!
//! The table has three words, how many permits are available, the word of the waiting list and the limit, and one slot, the list's.
//! What always holds between any two atomic steps of any number of threads is [`PermitRule`], of any list that says who stands in it
//! and how many of them are notified ([`Content`]). [`no_lost_wakeup`] is what the rule says of who waits.
#![tactic(auto)]

mod found;
mod laws;
mod list_word;
mod plays;
mod rule;
pub mod steps;
mod view;

pub use found::{Raising, Taking};
pub use laws::no_lost_wakeup;
pub use list_word::{take_out, wake_next};
pub use plays::{Keep, Sees};
pub use rule::{Content, PermitRule};
pub use view::View;
