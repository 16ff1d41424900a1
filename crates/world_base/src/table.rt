//! A table of parties over any machine: at which stage of its calls each party is, which moves it may make,
//! and how its calls end. A World is a machine, a table over it, and what its callers see of both.

mod end;
mod machine;
mod stages;
mod table;

pub use end::answer;
pub use machine::{Machine, Valued};
pub use table::Table;
