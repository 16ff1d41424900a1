//! The calls of a semaphore that aren't polls, action by action as its program has them.
//!
//! Each action names its place in the table of `sync_program`, and asks that the call has come to it.

ghost use Rattle.std.specs.Prelude.{◌≡◌, ℕ, true, IfErr, IfOk, IfSome, MatchBool, MatchResult};
ghost use Rattle.lock_program.specs.declared.refusal.Refusal.TheVariants as refusals;
ghost use Rattle.semaphore_core.specs.Courses.{IsStart, unbegun};
ghost use Rattle.semaphore_core.specs.Outcomes.{IsJoining, IsLooking, IsTrying, IsVain, OnFirst, OnLooked, OnTried, Owes};
ghost use Rattle.semaphore_core.specs.Semaphores.{Has, HasAdded, HasUnderWay, Holds, IsAt, IsNew, IsPastLimit, IsSameSeat, IsShort, with_forgotten};
ghost use Rattle.lock_program.specs.declared.end.Next.TheVariants.{Do};
ghost use Rattle.sync_program.specs.Permits.{action_of, next_of};
ghost use Rattle.sync_program.specs.declared.permits.Action.TheVariants as act;
ghost use Rattle.sync_program.specs.declared.permits.Found.TheVariants as finds;
ghost use Rattle.sync_program.specs.declared.permits.Place.TheVariants as places;

use crate::raw::RawSemaphore;
use crate::receipts::{Added, Given, Lowered};
use crate::seat::Seat;
use crate::turn::{Notifies, Tried};
use lock_program::Refusal;
use std::sync::Wait;
use sync_program::permits::{Place, SemaphoreCall};
use words_permits::{Raising, Taking};

impl RawSemaphore {
    /// Takes this many permits at once, if as many are available. It waits for nobody: one look, and one exchange.
    ///
    /// It is the one action of a try. By the contract the seat that it returns has exactly these permits, and it is in vain only where its
    /// look found fewer.
    #[inline]
    pub fn try_take(&self, permits: u64) -> Tried
        ensures { OnTried self.now permits result }
    {
        self.take_first(
            SemaphoreCall::TryAcquire(permits),
            permits,
            Place::Try(permits),
        )
    }

    /// Takes this many permits at once, as [`RawSemaphore::try_take`] does, as the first action of a first poll: where that is in vain
    /// [`RawSemaphore::poll_first`] goes on.
    #[inline]
    pub fn first_look(&self, permits: u64) -> Tried
        ensures { OnLooked self.now permits result }
    {
        self.take_first(
            SemaphoreCall::Acquire(permits),
            permits,
            Place::Take {
                permits,
                listed: false,
                told: false,
            },
        )
    }

    // The first action of a call, which takes this many permits at this place: one look, and one exchange.
    #[inline(always)]
    fn take_first(&self, call: SemaphoreCall, permits: u64, at: Place) -> Tried
        requires course { IsStart call at unbegun }
        requires action { action_of at ≡ act.Take permits }
        ensures { OnFirst self.now permits at result }
    {
        let (mut seat, found) = self.sit_and_look();
        seat.begin(call, at);
        match self.take_from(&mut seat, found, permits, at) {
            Taking::Left(_) => Tried::Got(seat),
            Taking::Short(_) => Tried::Short(seat),
            Taking::Changed => Tried::Changed(seat),
        }
    }

    /// Ends a try that is in vain: its last look found fewer permits than it is for.
    #[inline]
    pub fn give_up(&self, seat: Seat, permits: u64)
        requires { IsVain self.now permits seat }
    {
        let _ = permits;
        seat.rise();
    }

    /// Goes on with a try whose word changed meanwhile, until it stands still.
    ///
    /// It stands apart, as does all else that may wait: after each such call the compiled code looks at a flag.
    #[cold]
    #[inline(never)]
    pub fn try_again<R: Wait>(&self, rt: &R, seat: Seat, permits: u64) -> Option<Seat>
        requires { IsTrying self.now permits seat }
        ensures { IfSome result (Holds self.now permits) }
    {
        let mut seat = seat;
        if self.take_on(rt, &mut seat, permits, Place::Try(permits)) {
            return Some(seat);
        }
        self.give_up(seat, permits);
        None
    }

    /// Goes on with the first look of a poll whose word changed meanwhile, until it stands still: the seat with the permits, or one that
    /// [`RawSemaphore::poll_first`] goes on with. It stands apart, as [`RawSemaphore::try_again`] does.
    #[cold]
    #[inline(never)]
    pub fn look_on<R: Wait>(&self, rt: &R, seat: Seat, permits: u64) -> Result<Seat, Seat>
        requires { IsLooking self.now permits seat }
        ensures got { IfOk result (Holds self.now permits) }
        ensures short { IfErr result (IsJoining self.now permits) }
        ensures same { MatchResult result (IsSameSeat seat) (IsSameSeat seat) }
    {
        let mut seat = seat;
        let at = Place::Take {
            permits,
            listed: false,
            told: false,
        };
        let has_got = self.take_on(rt, &mut seat, permits, at);
        if has_got { Ok(seat) } else { Err(seat) }
    }

    // Takes this many permits, if as many are available, however often the word changes meanwhile: in vain only where its last look
    // found fewer.
    #[inline]
    fn take_on<R: Wait>(&self, rt: &R, seat: &mut Seat, permits: u64, at: Place) -> bool
        requires nothing { Has self.now 0 seat.old }
        requires course { IsAt at (act.Take permits) seat.old }
        ensures taken { MatchBool result (Has self.now permits seat.new) (IsShort self.now permits seat.new) }
        ensures same { IsSameSeat seat.old seat.new }
        ensures course { MatchBool result (seat.new.course ≡ next_of at (finds.Left seat.new.found)) (seat.new.course ≡ next_of at (finds.Short seat.new.found)) }
    {
        for _ in rt.forever() {
            match self.take(seat, permits, at) {
                Taking::Left(_) => return true,
                Taking::Short(_) => return false,
                Taking::Changed => {}
            }
        }
        unreachable!()
    }

    /// Gives a guard's permits back. Its receipt says that they were given. It waits for nobody: where somebody may be waiting,
    /// [`RawSemaphore::notify`] has to go on.
    #[inline]
    pub fn give(&self, seat: Seat, permits: u64) -> Result<Given, Notifies>
        requires { Holds self.now permits seat }
        ensures given { IfOk result (λ given. given.permits ≡ permits) }
        ensures notifies { IfErr result (λ notifies. (notifies.given.permits ≡ permits) × Owes self.now notifies) }
    {
        let mut seat = seat;
        seat.begin(SemaphoreCall::Drop, Place::GiveBack(permits));
        let given = self.give_back(&mut seat, permits, Place::GiveBack(permits));
        let available = given.available();
        if self.may_have_entries(&mut seat, available, Place::FitGivenBack(available)) {
            return Err(Notifies { seat, given });
        }
        seat.rise();
        Ok(given)
    }

    /// Notifies the first waiter for whom the permits that were given are enough. The receipt of these comes back.
    #[inline(always)]
    pub fn notify<R: Wait>(&self, rt: &R, notifies: Notifies) -> Given
        requires { Owes self.now notifies }
        ensures { result ≡ notifies.given }
    {
        let Notifies { mut seat, given } = notifies;
        let available = given.available();
        self.fit_listed(rt, &mut seat, available, Place::FitGivenBack(available));
        seat.rise();
        given
    }

    /// Ends a guard's permits for good: the limit is lowered by as many, which its receipt says. It waits for nobody. By the contract the
    /// seat has done nothing else since (`seat`).
    pub fn forget(&self, seat: Seat, permits: u64) -> Lowered
        requires { Holds self.now permits seat }
        ensures permits { result.permits ≡ permits }
        ensures seat { result.ended ≡ with_forgotten permits seat }
    {
        let mut seat = seat;
        seat.begin(SemaphoreCall::Forget, Place::Lower(permits));
        self.lower(&mut seat, permits, Place::Lower(permits));
        Lowered {
            permits,
            ended: seat.end(),
        }
    }

    /// Adds this many permits, and notifies the first waiter for whom those that are then available are enough. It takes no
    /// memory. Its receipt says that they were added, by a seat that has added no others and forgotten none.
    ///
    /// If the limit would pass its greatest value, as its last look at the limit found, it returns [`Refusal::Permits`], and
    /// nothing has changed.
    pub fn add<R: Wait>(&self, rt: &R, permits: u64) -> Result<Added, Refusal>
        ensures added { IfOk result (λ added. (added.permits ≡ permits) × HasAdded self.now permits added.ended) }
        ensures refused { IfErr result (λ refusal. refusal ≡ refusals.Permits) }
    {
        let mut seat = self.sit();
        seat.begin(SemaphoreCall::AddPermits(permits), Place::Raise(permits));
        if !self.raise_on(rt, &mut seat, permits) {
            return Err(self.refuse(seat, permits));
        }
        let available = self.give_new(&mut seat, permits, Place::GiveAdded(permits));
        self.fit(rt, &mut seat, available, Place::FitAdded(available));
        Ok(Added {
            permits,
            available,
            ended: seat.end(),
        })
    }

    // Ends an addition that is refused: its last look found a limit that would pass its greatest value.
    fn refuse(&self, seat: Seat, permits: u64) -> Refusal
        requires limit { IsPastLimit self.now permits seat }
        requires course { seat.course ≡ next_of (places.Raise permits) finds.PastLimit }
        ensures { result ≡ refusals.Permits }
    {
        let _ = permits;
        seat.rise();
        Refusal::Permits
    }

    // Raises the limit by this many, if its greatest value allows it, however often the word changes meanwhile: it is refused only
    // where its last look found that it doesn't.
    fn raise_on<R: Wait>(&self, rt: &R, seat: &mut Seat, permits: u64) -> bool
        requires new { IsNew self.now seat.old }
        requires course { seat.old.course ≡ Do (places.Raise permits) }
        ensures raised { MatchBool result (HasUnderWay self.now permits seat.new) (IsPastLimit self.now permits seat.new) }
        ensures course { MatchBool result (seat.new.course ≡ Do (places.GiveAdded permits)) (seat.new.course ≡ next_of (places.Raise permits) finds.PastLimit) }
        ensures added { result ≡ true → HasAdded self.now permits seat.new }
    {
        for _ in rt.forever() {
            match self.raise(seat, permits, Place::Raise(permits)) {
                Raising::Raised => return true,
                Raising::PastLimit => return false,
                Raising::Changed => {}
            }
        }
        unreachable!()
    }
}
