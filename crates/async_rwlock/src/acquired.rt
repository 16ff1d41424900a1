//! What a future of a lock waits for: a guard.

ghost use Rattle.std.specs.Prelude.{◌≡◌, MatchResult};
ghost use Rattle.futures.specs.Task.{Keeps};
ghost use Rattle.async_rwlock.specs.Stages.{GoesOn, IsPolled};

use crate::owns::Owns;
use futures::task::Context;
use rwlock_core::{Outcome, RawRwLock};
use std::sync::Wait;
use std::time::Clock;

/// A guard that a future waits for, and how a poll gets it. A read, an upgradable read and a write differ in this alone.
///
/// It is implemented for the guards of a lock, and for nothing else.
pub trait Acquired {
    /// Who has the lock.
    type Owner: Owns;

    /// A party that has the right.
    type Right;

    /// A party that has looked in vain.
    type Vain;

    /// A party that waits.
    type Waiting;

    ghost use Rattle.std.specs.Prelude.{ℕ, Option};
    ghost use Rattle.access_core.specs.Accesses.{Seated};
    ghost use Rattle.lock_program.specs.declared.refusal.Refusal.{Refusal};
    ghost use Rattle.lock_program.specs.declared.refusal.Refusal.TheVariants as refusals;
    ghost use Rattle.rwlock_core.specs.declared.rwlock.RawRwLock.{RawRwLock};
    ghost use Rattle.async_rwlock.specs.Guards.{Held};
    ghost use Rattle.async_rwlock.specs.Stages.{Listed};

    /// What contracts see of the guard.
    ghost held: { Self → Held Self.Owner.Value Self.Owner.Runtime };

    /// That a seat that reads came in where it found room.
    ghost has_room: { Self → Type 0 };

    /// That a party got the right at this lock.
    ghost is_let_in: { RawRwLock → Self.Right → Type 0 };

    /// Its seat.
    ghost seat_of: { Self.Right → Seated };

    /// The number of its seat of the writer lock, if it has that.
    ghost turn_of: { Self.Right → Option ℕ };

    /// That a party has looked at this lock, and has nothing.
    ghost has_looked: { RawRwLock → Self.Vain → Type 0 };

    /// That a party waits at this lock.
    ghost waits_at: { RawRwLock → Self.Waiting → Type 0 };

    /// Its entry.
    ghost entry: { Self.Waiting → Listed };

    /// That a poll may be refused for this reason.
    ghost refuses: { Refusal → Type 0 };

    /// The name that `Debug` shows of a future that borrows the lock.
    const NAME: &'static str;

    /// And of one that has a share of the lock.
    const SHARED_NAME: &'static str;

    /// Returns the guard of a party that has got the right.
    fn new(owner: Self::Owner, right: Self::Right) -> Self
        requires { is_let_in (Self.Owner.lock_of owner).raw right }
        ensures lock { (held result).lock ≡ Self.Owner.lock_of owner }
        ensures seat { (held result).seat ≡ seat_of right }
        ensures turn { (held result).turn_seat ≡ turn_of right }
        ensures few { has_room result };

    /// The first look of a poll, and what whoever has got the writer lock by it does next.
    fn first_look<R: Wait>(
        raw: &RawRwLock,
        rt: &R,
        cx: &mut Context<'_>,
    ) -> Result<Outcome<Self::Right, Self::Waiting>, Self::Vain>
        ensures outcome { MatchResult result (IsPolled is_let_in waits_at entry refuses raw.now cx.new) (has_looked raw.now) }
        ensures kept { Keeps cx.old cx.new };

    /// The rest of a first poll whose look was in vain. It isn't inlined, since what it takes room for would be cleared at each poll.
    fn first_poll<R: Wait + Clock>(
        raw: &RawRwLock,
        rt: &R,
        cx: &mut Context<'_>,
        vain: Self::Vain,
    ) -> Outcome<Self::Right, Self::Waiting>
        requires { has_looked raw.now vain }
        ensures outcome { IsPolled is_let_in waits_at entry refuses raw.now cx.new result }
        ensures kept { Keeps cx.old cx.new };

    /// A poll of a party that waits. It isn't inlined either, so that a poll is short where it is called that gets its right at once.
    fn later_poll<R: Wait + Clock>(
        raw: &RawRwLock,
        rt: &R,
        cx: &mut Context<'_>,
        waiting: Self::Waiting,
    ) -> Outcome<Self::Right, Self::Waiting>
        requires { waits_at raw.now waiting }
        ensures outcome { IsPolled is_let_in waits_at entry refuses raw.now cx.new result }
        ensures same { GoesOn seat_of turn_of entry (entry waiting) result }
        ensures kept { Keeps cx.old cx.new };

    /// Ends a party that waits: it gives back what it has.
    fn cancel<R: Wait>(raw: &RawRwLock, rt: &R, waiting: Self::Waiting)
        requires { waits_at raw.now waiting };

    /// A poll may be refused for memory.
    ghost for_memory: { refuses refusals.Memory };

    /// And none is as finished: that is the future's to say.
    ghost never_finished: { refuses refusals.Finished → ⊥ };
}
