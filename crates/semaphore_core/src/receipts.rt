//! What shows that permits were given, added or forgotten.

ghost use Rattle.std.specs.Prelude.{◌≡◌, ◌≤◌};
ghost use Rattle.semaphore_core.specs.Courses.{granted, outside};

use crate::seat::Ended;

/// A receipt: a seat gave so many of its permits back, by one step, which alone makes it.
#[derive(Drop)]
pub struct Given {
    pub(crate) permits: u64,
    // How many were available then.
    pub(crate) available: u64,
}

impl Given {
    /// Returns how many permits were available once these were given.
    #[inline]
    pub fn available(&self) -> u64
        ensures { result ≡ self.now.available }
    {
        self.available
    }
}

/// A receipt: by steps of one seat, which has ended, the limit was raised by so many permits, and these were made available. It is made
/// of that seat alone, once an addition has come to its end.
#[derive(Drop)]
pub struct Added {
    pub(crate) permits: u64,
    // How many were available then.
    pub(crate) available: u64,
    pub(crate) ended: Ended,
    ghost shown: { (ended.added ≡ permits) × (ended.forgotten ≡ 0) × (ended.course ≡ granted) },
}

impl Added {
    /// Returns how many permits were available once these were added.
    #[inline]
    pub fn available(&self) -> u64
        ensures { result ≡ self.now.available }
    {
        self.available
    }
}

/// A receipt: by steps of one seat, which has ended, the limit was lowered by so many of its permits. It is made of that seat alone.
#[derive(Drop)]
pub struct Lowered {
    pub(crate) permits: u64,
    pub(crate) ended: Ended,
    ghost shown: { (permits ≤ ended.forgotten) × (ended.course ≡ outside) },
}
