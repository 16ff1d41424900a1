//! Who has a lock.

ghost use Rattle.std.specs.Prelude.{◌≡◌};

use crate::mutex::Mutex;
use std::sync::Arc;

/// Who has a lock: by a reference to it, or as one of its owners. Guards and futures are written once, for both.
///
/// It is implemented for `&Mutex` and for `Arc<Mutex>`.
pub trait Owns: Drop {
    /// The value of the lock.
    type Value;
    /// The runtime of the lock.
    type Runtime;

    ghost use Rattle.async_mutex.specs.declared.mutex.Mutex.{Mutex};

    /// The lock.
    ghost lock_of: { Self → Mutex Self.Value Self.Runtime };

    /// Returns the lock.
    fn lock(&self) -> &Mutex<Self::Value, Self::Runtime>
        ensures { result.now ≡ lock_of self.now };

    /// Returns whether this is a share of the lock. The names under which futures are shown differ by it.
    fn is_share() -> bool;
}

impl<'a, T, R> Owns for &'a Mutex<T, R> {
    type Value = T;

    type Runtime = R;

    ghost lock_of = { λ o. o.now };

    fn lock(&self) -> &Mutex<T, R> {
        self
    }

    fn is_share() -> bool {
        false
    }
}

impl<T: Drop, R: Drop> Owns for Arc<Mutex<T, R>> {
    type Value = T;

    type Runtime = R;

    ghost use Rattle.std.specs.Arc.{arc_value};

    ghost lock_of = { arc_value };

    fn lock(&self) -> &Mutex<T, R> {
        self
    }

    fn is_share() -> bool {
        true
    }
}
