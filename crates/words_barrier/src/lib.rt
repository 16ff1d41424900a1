//! The rule of a barrier's table, and the single steps on it.
//!
//! The table has two words, how many generations are finished and that of the waiting list, and one slot, in which the list lies. What
//! always holds between any two atomic steps of any number of threads is [`BarrierRule`], of any list that says who waits in it
//! ([`Content`]). [`no_lost_wakeup`] is what the rule says of who waits for a generation.
#![tactic(auto)]

mod laws;
mod list_word;
mod plays;
mod rule;
pub mod steps;
mod view;

pub use laws::no_lost_wakeup;
pub use list_word::{take_out, wake_next};
pub use plays::Looks;
pub use rule::{BarrierRule, Content};
pub use view::View;
