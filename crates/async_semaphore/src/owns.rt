//! Who has a semaphore.

ghost use Rattle.std.specs.Prelude.{◌≡◌};

use crate::semaphore::Semaphore;
use std::sync::Arc;

/// Who has a semaphore: by a reference to it, or as one of its owners. Guards and futures are written once, for both.
///
/// It is implemented for `&Semaphore` and for `Arc<Semaphore>`.
pub trait Owns: Drop {
    /// The runtime of the semaphore.
    type Runtime;

    ghost use Rattle.async_semaphore.specs.declared.semaphore.Semaphore.{Semaphore};

    /// The semaphore.
    ghost semaphore_of: { Self → Semaphore Self.Runtime };

    /// Returns the semaphore.
    fn semaphore(&self) -> &Semaphore<Self::Runtime>
        ensures { result.now ≡ semaphore_of self.now };

    /// Returns whether this is a share of the semaphore. The names under which futures and guards are shown differ by it.
    fn is_share() -> bool;
}

impl<'a, R> Owns for &'a Semaphore<R> {
    type Runtime = R;

    ghost semaphore_of = { λ o. o.now };

    #[inline]
    fn semaphore(&self) -> &Semaphore<R> {
        self
    }

    fn is_share() -> bool {
        false
    }
}

impl<R: Drop> Owns for Arc<Semaphore<R>> {
    type Runtime = R;

    ghost use Rattle.std.specs.Arc.{arc_value};

    ghost semaphore_of = { arc_value };

    #[inline]
    fn semaphore(&self) -> &Semaphore<R> {
        self
    }

    fn is_share() -> bool {
        true
    }
}
