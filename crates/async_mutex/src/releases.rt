//! What a guard and a try ask of the runtime.

ghost use Rattle.mutex_core.specs.Outcomes.{IsHeldOf};

use mutex_core::{Held, Words};
use std::sync::Wait;

/// A runtime by which a mutex is given back. Whatever may wait is one.
///
/// A function over it has nothing else to wait by, and the call waits no longer than for the list's short lock.
pub trait Releases {
    /// Gives the lock back, and notifies the first who waits.
    fn release<T>(&self, words: &Words<T>, held: Held<T>)
        requires { IsHeldOf words.now held };
}

impl<R: Wait> Releases for R {
    #[inline(always)]
    fn release<T>(&self, words: &Words<T>, held: Held<T>) {
        words.release(self, held);
    }
}
