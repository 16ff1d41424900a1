//! The words of a semaphore: how many permits are available, and how many there are.

ghost use Rattle.std.specs.Prelude.{◌≡◌, ◌+◌, ◌-◌, ◌<◌, ◌≤◌, IfOk, IfErr};
ghost use Rattle.world_semaphore.specs.machine.Effects.{FindsPermits, FindsSo, FindsRoom, words, taken_after, raised_after};

use lock_program::Refusal;
use sync_program::permits::Found;

/// Whether a semaphore may begin with so many permits, whose limit never passes `most`. Refused as [`Refusal::Permits`] where there are
/// more of them.
pub fn may_begin_with(permits: u64, most: u64) -> Result<(), Refusal>
    ensures fits { IfOk result (λ u. permits ≤ most) }
    ensures refused { IfErr result (λ r. (r ≡ Refusal.Permits) × (most < permits)) }
{
    if permits <= most {
        Ok(())
    } else {
        Err(Refusal::Permits)
    }
}

/// The words of a semaphore: the permits that are available, the limit, which counts all permits, and the
/// greatest value of the limit.
#[derive(Clone, Copy)]
pub struct Words {
    pub available: u64,
    pub limit: u64,
    pub most: u64,
}

impl Words {
    /// How many permits are available.
    pub fn load(&self) -> Found
        ensures { FindsSo self.now.available result }
    {
        Found::Available(self.available)
    }

    /// Takes so many permits, if as many are available.
    pub fn take(&mut self, k: u64) -> Found
        ensures finds { FindsPermits k result self.old.available }
        ensures words { self.new ≡ taken_after k result self.old }
    {
        if self.available < k {
            Found::Short(self.available)
        } else {
            self.available -= k;
            Found::Left(self.available)
        }
    }

    /// Makes so many permits available, and finds how many are then.
    pub fn give(&mut self, n: u64) -> Found
        requires { self.old.available + n ≤ self.old.limit }
        ensures finds { FindsSo (self.old.available + n) result }
        ensures words { self.new ≡ words (self.old.available + n) self.old.limit self.old.most }
    {
        self.available += n;
        Found::Available(self.available)
    }

    /// Raises the limit by so many, if its greatest value allows it.
    pub fn raise(&mut self, n: u64) -> Found
        requires { self.old.limit ≤ self.old.most }
        ensures finds { FindsRoom n result self.old }
        ensures words { self.new ≡ raised_after n result self.old }
    {
        if n > self.most - self.limit {
            Found::PastLimit
        } else {
            self.limit += n;
            Found::Done
        }
    }

    /// Lowers the limit by so many.
    pub fn lower(&mut self, k: u64)
        requires { k ≤ self.old.limit }
        ensures { self.new ≡ words self.old.available (self.old.limit - k) self.old.most }
    {
        self.limit -= k;
    }
}
