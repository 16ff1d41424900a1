//! The rule of a mutex's table, and the single steps on it.
//!
//! The table has two words, the mutex's and its list's, and two slots, the list's and that of the right to the value. What always holds
//! between any two atomic steps of any number of threads is [`MutexRule`], of any list that says how many entries it has and how many of
//! them are notified ([`Content`]). [`no_lost_wakeup`] is what the rule says of a free lock, and [`never_two`] that two
//! seats never both hold it.
#![tactic(auto)]

mod counts;
mod laws;
mod list_word;
mod plays;
mod rule;
pub mod steps;
mod twins;
mod view;

pub use counts::{Full, tally, tally_listed};
pub use laws::no_lost_wakeup;
pub use list_word::{take_out, wake_next};
pub use plays::Keep;
pub use rule::{Content, MutexRule};
pub use twins::never_two;
pub use view::View;
