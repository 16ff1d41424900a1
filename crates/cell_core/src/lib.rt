//! A once-cell whose word and two waiting lists stand under one rule: no wake-up is lost.
#![tactic(auto)]

mod calls;
mod cell;
mod course;
mod giving_back;
mod joining;
mod lists;
mod maker;
mod making;
mod seat;
mod state;
mod stored;
mod turn;
mod waiting;
mod watch;

pub use cell::RawCell;
pub use joining::Joined;
pub use lists::Lists;
pub use maker::{Maker, Purpose, Sealed};
pub use seat::{Ended, Right, Seat};
pub use state::State;
pub use turn::{Making, Outcome, Resting, Waited, Waiting, WaitingToMake};
pub use watch::Watched;
pub use words_cell::{CellRule, Content, View, no_lost_wakeup};
