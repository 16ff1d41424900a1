//! What a guard and a try ask of the runtime.

ghost use Rattle.std.specs.Prelude.{◌≡◌, IfSome};
ghost use Rattle.semaphore_core.specs.Outcomes.{IsTrying, Owes};
ghost use Rattle.semaphore_core.specs.Semaphores.{Holds};

use semaphore_core::{Given, Notifies, RawSemaphore, Seat};
use std::sync::Wait;

/// A runtime by which permits are tried for and given back. Whatever may wait is one.
///
/// A function over it has nothing else to wait by: neither call waits longer than for a list's short lock, or for a word that others change.
pub trait Releases {
    /// Goes on with a try whose word changed meanwhile, until it stands still.
    fn try_again(&self, semaphore: &RawSemaphore, seat: Seat, permits: u64) -> Option<Seat>
        requires { IsTrying semaphore.now permits seat }
        ensures { IfSome result (Holds semaphore.now permits) };

    /// Notifies the first waiter for whom the permits that were given are enough, under the list's short lock.
    fn notify(&self, semaphore: &RawSemaphore, notifies: Notifies) -> Given
        requires { Owes semaphore.now notifies }
        ensures { result ≡ notifies.given };
}

impl<R: Wait> Releases for R {
    #[inline(always)]
    fn try_again(&self, semaphore: &RawSemaphore, seat: Seat, permits: u64) -> Option<Seat> {
        semaphore.try_again(self, seat, permits)
    }

    #[inline(always)]
    fn notify(&self, semaphore: &RawSemaphore, notifies: Notifies) -> Given {
        semaphore.notify(self, notifies)
    }
}
