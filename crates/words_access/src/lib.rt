//! The rule of the table of a read-write lock's state, and the single steps on it.
//!
//! The table has two words, the state and the word of two waiting lists, and one slot, in which both lists lie. The state is the writer's
//! bit and the number of readers. Readers wait in the one list until the bit is clear, and who has set the bit waits in the other
//! until no reader is inside. What always holds between any two atomic steps of any number of threads is [`AccessRule`], of any lists that say which
//! entries stand in them, which of these wait, and how many are notified ([`Content`]). [`no_lost_wakeup`] is what the rule says of the lists,
//! [`exclusion`] what it says of who reads and who writes, and [`never_beside`] that a seat which writes and one which reads are absurd.
#![tactic(auto)]

mod laws;
mod list_word;
mod plays;
mod rule;
pub mod steps;
mod twins;
mod view;

pub use laws::{exclusion, no_lost_wakeup};
pub use list_word::{take_out, wake_next};
pub use plays::Keep;
pub use rule::{AccessRule, Content};
pub use twins::never_beside;
pub use view::View;
