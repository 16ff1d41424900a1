//! Where a cell's value lies.

ghost use Rattle.std.specs.Prelude.{◌≡◌, true, false, IfNone, IfSome};

use crate::seat::{Right, Seat};
use std::sync::{OnceLock, OnceToken, Wait};

/// Where a cell's value lies. One comes in as the cell is made, or against the right to make, and goes out against a step that emptied
/// the full cell.
pub(crate) struct Stored<T> {
    // It is set before the word says that the cell is full.
    lock: OnceLock<T>,
}

// By hand, so that a drop is one call to prove.
impl<T: Drop> Drop for Stored<T> {
    fn drop(self) {
        let Stored { lock: _ } = self;
    }
}

/// Shows whether a cell began with a value.
pub(crate) struct Begins {
    is_full: bool,
}

impl Drop for Begins {
    fn drop(self) {
        let Begins { is_full: _ } = self;
    }
}

/// Shows that a step emptied the full cell. It is made of such a step's seat alone.
pub(crate) struct Taken {
    seal: (),
}

impl Taken {
    // This seat's one take found the cell full.
    pub(crate) fn by(seat: &Seat) -> Taken
        requires { seat.now.taken ≡ 1 }
    {
        let _ = seat;
        Taken { seal: () }
    }
}

impl<T> Stored<T> {
    pub(crate) fn nothing() -> (Stored<T>, Begins)
        ensures { result.1.is_full ≡ false }
    {
        let stored = Stored {
            lock: OnceLock::new(),
        };
        (stored, Begins { is_full: false })
    }

    pub(crate) fn with(value: T) -> (Stored<T>, Begins)
    where
        T: Drop,
        ensures { result.1.is_full ≡ true }
    {
        let stored = Stored {
            lock: OnceLock::from(value),
        };
        (stored, Begins { is_full: true })
    }

    // Puts a value in: what shows the cell's value, and this value back where another stands there already.
    pub(crate) fn put<R: Wait>(
        &self,
        rt: &R,
        right: Right,
        value: T,
    ) -> (OnceToken<'_, T>, Option<T>)
        ensures shown { result.0.of ≡ self.now.lock.id }
        ensures set { IfNone result.1 (result.0.value ≡ value) }
        ensures back { IfSome result.1 (λ back. back ≡ value) }
    {
        drop(right);
        match self.lock.try_insert(rt, value) {
            Ok(shown) => (shown, None),
            Err((shown, value)) => (shown, Some(value)),
        }
    }

    pub(crate) fn get(&self) -> Option<&T> {
        self.lock.get()
    }

    pub(crate) fn witness(&self) -> Option<OnceToken<'_, T>>
        ensures { IfSome result (λ token. token.of ≡ self.now.lock.id) }
    {
        self.lock.witness()
    }

    pub(crate) fn value<'a>(&'a self, shown: &OnceToken<'a, T>) -> &'a T
        requires { shown.now.of ≡ self.now.lock.id }
        ensures { result.now ≡ shown.now.value }
    {
        self.lock.value(shown)
    }

    // Returns the value, or waits until there is one.
    pub(crate) fn wait<R: Wait>(&self, rt: &R) -> &T {
        self.lock.wait(rt)
    }

    pub(crate) fn get_mut(&mut self) -> Option<&mut T> {
        self.lock.get_mut()
    }

    pub(crate) fn take(&mut self, taken: Taken) -> Option<T> {
        let Taken { seal: _ } = taken;
        self.lock.take()
    }

    pub(crate) fn into_inner(self) -> Option<T> {
        let Stored { lock } = self;
        lock.into_inner()
    }
}
