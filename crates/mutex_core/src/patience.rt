//! Since when a party waits, and whether that is too long.

ghost use Rattle.std.specs.Prelude.{◌≡◌, true, false};
ghost use Rattle.lock_program.specs.declared.mutex.Place.TheVariants as at;
ghost use Rattle.mutex_core.specs.Locks.{FindsHeld, FindsStarved, IsOf, TakesFrom};
ghost use Rattle.mutex_core.specs.Outcomes.{IsStillKnown, IsRightOf};
ghost use Rattle.lock_program.specs.declared.end.Next.TheVariants.{Do};
ghost use Rattle.words_base.specs.Tries.{OnTaking};

use crate::seat::Seat;
use crate::words::Words;
use lock_place::Hold;
use lock_program::mutex::{Found, Place};
use std::sync::Wait;
use std::time::{Clock, Duration, Instant};
use words_base::Taking;

/// How long a waiter is overtaken by newcomers before it counts as starved, in microseconds.
const PATIENCE: u64 = 500;

impl<T> Words<T> {
    /// Looks at the lock once the party was notified, as [`Words::look`]. Where it found the lock held it says whether the party has waited for
    /// too long since then.
    pub fn retry<R: Wait + Clock>(
        &self,
        rt: &R,
        seat: &mut Seat<T>,
        since: &Option<Instant>,
    ) -> (Taking<Hold<T>>, bool)
        requires of { IsOf self.now seat.old }
        requires course { seat.old.course ≡ Do at.Retry }
        requires idle { seat.old.holds ≡ false }
        requires stands { seat.old.starved ≡ true → seat.old.listed ≡ true }
        ensures { OnTaking result.0 (λ hold. TakesFrom self.now at.Retry seat.old seat.new 0 × IsRightOf self.now hold) (FindsHeld self.now at.Retry seat.old seat.new result.1) (FindsStarved self.now at.Retry seat.old seat.new) }
    {
        match self.look(rt, seat, Place::Retry) {
            Taking::Held => {
                let starving = has_waited_long(rt, since);
                seat.go(Place::Retry, Found::Held { starving });
                (Taking::Held, starving)
            }
            Taking::Got(hold) => (Taking::Got(hold), false),
            Taking::Starved => (Taking::Starved, false),
        }
    }
}

// The time, if the clock can be read.
#[inline(always)]
pub(crate) fn now<R: Clock>(rt: &R) -> Option<Instant> {
    // Not by `ok`, and nothing is added: else the compiled code copies the whole, and waits until its parts have been written.
    match Instant::now(rt) {
        Ok(now) => now.checked_add(Duration::ZERO),
        Err(_) => None,
    }
}

// When a party first waited, which waits now.
#[inline]
pub(crate) fn first_of<R: Clock>(rt: &R, since: Option<Instant>) -> Option<Instant>
    ensures { IsStillKnown since result }
{
    match since {
        Some(since) => Some(since),
        None => now(rt),
    }
}

// More than 500 microseconds since then. A clock that can't be read says no.
fn has_waited_long<R: Clock>(rt: &R, since: &Option<Instant>) -> bool {
    match since {
        Some(since) => match since.elapsed(rt) {
            Ok(waited) => waited > Duration::from_micros(PATIENCE),
            Err(_) => false,
        },
        None => false,
    }
}
