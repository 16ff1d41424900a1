//! The programs of a pool's calls: the table of [`places`], and the [`calls`] of a World that ask for them.

pub mod calls;
pub mod places;
