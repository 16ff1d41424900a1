//! What a guard and a try ask of the runtime.

ghost use Rattle.std.specs.Prelude.{◌≡◌, ◌≤◌, ◌%◌, ◌/◌, ◌⊎◌, MatchResult};
ghost use Rattle.access_core.specs.Accesses.{IsOf, IsIdle, IsLetIn, IsReading, with_call, with_downgrade};
ghost use Rattle.mutex_core.specs.Outcomes.{IsHeldOf};
ghost use Rattle.rwlock_core.specs.Parties.{AreSeatsOf, IsDowngradingOf, IsUpgradableLetIn, IsUpgradableOf, IsWriterOf};
ghost use Rattle.rwlock_core.specs.Vain.{IsVainUpgradable, IsVainWrite};

use rwlock_core::{Downgrading, InVain, RawRwLock, Reader, Seat, Turn, Upgradable, Writer};
use std::sync::Wait;

/// A runtime by which rights are tried for, changed and given back. Whatever may wait is one.
///
/// A function over it has nothing else to wait by: no call waits longer than for a list's short lock, or for a word that others change.
pub trait Releases {
    /// Reads at once, if nobody writes or waits for readers to leave, and fewer read than may: it has found fewer than the lock's own limit.
    fn try_read(&self, lock: &RawRwLock) -> Result<Reader, Seat>
        ensures { MatchResult result (λ reader. IsLetIn lock.now.access reader.seat) (λ seat. IsOf lock.now.access seat × IsIdle seat × ((seat.found % 2 ≡ 1) ⊎ (lock.now.access.limit ≤ seat.found / 2))) };

    /// Reads at once with the right to upgrade, if nobody has it and nobody is starved for it, and fewer read than may.
    fn try_upgradable_read(&self, lock: &RawRwLock) -> Result<Upgradable, InVain>
        ensures { MatchResult result (IsUpgradableLetIn lock.now) (IsVainUpgradable lock.now) };

    /// Writes at once, if nobody is inside and nobody is starved for it.
    fn try_write(&self, lock: &RawRwLock) -> Result<Writer, InVain>
        ensures { MatchResult result (IsWriterOf lock.now) (IsVainWrite lock.now) };

    /// Reads no more, and notifies who waits for this, if anybody does.
    fn release_read(&self, lock: &RawRwLock, seat: Seat)
        requires of { IsOf lock.now.access seat }
        requires reads { IsReading seat };

    /// The same, of who may upgrade.
    fn release_upgradable(&self, lock: &RawRwLock, upgradable: Upgradable)
        requires { IsUpgradableOf lock.now upgradable };

    /// Writes no more, and notifies who waits for this, if anybody does.
    fn release_write(&self, lock: &RawRwLock, writer: Writer)
        requires { IsWriterOf lock.now writer };

    /// Gives back the writer lock of who may upgrade: its seat, in pledge meanwhile, reads on without the right to.
    fn downgrade_turn(&self, lock: &RawRwLock, turn: Turn)
        requires { IsHeldOf lock.now.turn turn };

    /// Ends a writer's downgrade, whose seat reads already: gives the writer lock back, and then notifies the readers that wait.
    fn end_downgrade(&self, lock: &RawRwLock, downgrading: Downgrading, turn: Turn)
        requires of { IsDowngradingOf lock.now downgrading }
        requires turn { IsHeldOf lock.now.turn turn };

    /// Reads in place of writing, by one step of the same seat, with the right to upgrade: the writer lock stays.
    fn downgrade_to_upgradable(&self, lock: &RawRwLock, writer: Writer) -> Upgradable
        requires { AreSeatsOf lock.now writer.seat writer.turn }
        ensures turn { result.turn ≡ writer.turn }
        ensures same { result.seat ≡ with_downgrade (with_call writer.seat) };
}

impl<R: Wait> Releases for R {
    #[inline(always)]
    fn try_read(&self, lock: &RawRwLock) -> Result<Reader, Seat> {
        lock.try_read(self)
    }

    #[inline(always)]
    fn try_upgradable_read(&self, lock: &RawRwLock) -> Result<Upgradable, InVain> {
        lock.try_upgradable_read(self)
    }

    #[inline(always)]
    fn try_write(&self, lock: &RawRwLock) -> Result<Writer, InVain> {
        lock.try_write(self)
    }

    #[inline(always)]
    fn release_read(&self, lock: &RawRwLock, seat: Seat) {
        lock.release_read(self, seat);
    }

    #[inline(always)]
    fn release_upgradable(&self, lock: &RawRwLock, upgradable: Upgradable) {
        lock.release_upgradable(self, upgradable);
    }

    #[inline(always)]
    fn release_write(&self, lock: &RawRwLock, writer: Writer) {
        lock.release_write(self, writer);
    }

    #[inline(always)]
    fn downgrade_turn(&self, lock: &RawRwLock, turn: Turn) {
        lock.downgrade_turn(self, turn);
    }

    #[inline(always)]
    fn end_downgrade(&self, lock: &RawRwLock, downgrading: Downgrading, turn: Turn) {
        lock.end_downgrade(self, downgrading, turn);
    }

    #[inline(always)]
    fn downgrade_to_upgradable(&self, lock: &RawRwLock, writer: Writer) -> Upgradable {
        lock.downgrade_to_upgradable(self, writer)
    }
}
