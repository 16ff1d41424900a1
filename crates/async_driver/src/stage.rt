//! How far a future is of a lock that is borrowed or shared, and what its first look came to.

ghost use Rattle.std.specs.Prelude.{◌≡◌, false, IfSome, MatchBool};
ghost use Rattle.async_driver.specs.Stages.{IsFor, is_finished};
ghost use Rattle.lock_program.specs.declared.refusal.Refusal.TheVariants as refusals;

use lock_program::Refusal;

/// How far a future is.
#[derive(Drop)]
pub enum Stage<O> {
    /// No share of the lock could be had.
    Unowned,
    /// It hasn't been ready, and has the lock.
    Waits(O),
    /// It was ready, and who has the lock went to what it was ready with.
    Finished,
}

/// What a first look by who has the lock came to.
pub enum Look<G, V> {
    /// What the future is for.
    Got(G),
    /// This, which didn't get it.
    Vain(V),
    /// Nobody looked: who has the lock isn't there.
    NoShare,
}

/// Returns how far a future is that is new: it waits, if the lock could be had.
#[inline]
pub fn first<L, O>(share: Option<O>) -> Stage<O>
    ensures new { is_finished result ≡ false }
    ensures lock { (lock_of : O → L) (lock : L) → IfSome share (λ owner. lock ≡ lock_of owner) → IsFor lock_of result lock }
{
    match share {
        Some(owner) => Stage::Waits(owner),
        None => Stage::Unowned,
    }
}

/// Returns why a poll is refused if who has the lock isn't there: the future is over, or could have no share of the lock.
#[inline]
pub fn no_share<O>(stage: &Stage<O>) -> Refusal
    ensures { MatchBool (is_finished stage.now) (result ≡ refusals.Finished) (result ≡ refusals.Memory) }
{
    match stage {
        Stage::Finished => Refusal::Finished,
        Stage::Unowned | Stage::Waits(_) => Refusal::Memory,
    }
}
