//! How many calls a seat has begun.

ghost use Rattle.std.specs.Prelude.{◌≡◌, ℕ, suc};
ghost use Rattle.std.specs.Coded.{coded_ℕ};
ghost use base.Fml.{ftrue};

use std::marker::Model;

/// How many calls a seat has begun. It has no bytes, so it never wraps.
pub struct Count {
    seal: (),
    pub ghost number: { ℕ } by { coded_ℕ },
}

impl Model for Count {
    ghost also_owns = { λ _. ftrue };
}

impl Count {
    // None.
    pub(crate) fn none() -> Count
        ensures { result.number ≡ 0 }
    {
        Count { seal: () }
    }

    // One more.
    pub(crate) fn and_one(&self) -> Count
        ensures { result.number ≡ suc self.now.number }
    {
        let _ = self;
        Count { seal: () }
    }
}

impl Drop for Count {
    fn drop(self) {
        let Self { seal: _ } = self;
    }
}

unsafe impl Send for Count {}

unsafe impl Sync for Count {}
