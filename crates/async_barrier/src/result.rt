//! What a wait at a barrier gives.
//!
//! It stands apart, so that no other module can make one but of an arrival's evidence.

ghost use Rattle.std.specs.Prelude.{◌≡◌, ⊤};

use barrier_core::{Ended, EndedBy, RawBarrier, Verdict};
use std::alloc::AllocError;
use std::fmt;

/// How a wait at a barrier has ended.
///
/// It is made of the evidence that the arrival has: that it finished its generation at this barrier, or found it finished there.
///
/// Contracts see whether it leads (`is_leader`), and by which seat the wait has ended (`by`, which has no bytes).
#[derive(Drop)]
pub struct BarrierWaitResult {
    is_leader: bool,
    // The seat that has led or followed.
    by: EndedBy,
}

impl BarrierWaitResult {
    ghost use Rattle.async_barrier.specs.Futures.{IsResultAt};
    ghost use Rattle.barrier_core.specs.Counts.{IsFoundAt, leads, seat_by};

    // It is what the evidence tells, which was found at this barrier, with the seat that has found it.
    #[inline]
    pub(crate) fn new(raw: &RawBarrier, verdict: Verdict) -> (BarrierWaitResult, Ended)
        requires { IsFoundAt raw.now verdict }
        ensures told { (result.0.is_leader ≡ leads verdict) × (result.1 ≡ seat_by verdict) }
        ensures found { IsResultAt raw.now result.0 × (result.0.by.seat ≡ result.1) }
    {
        let _ = raw;
        let (is_leader, ended) = verdict.told();
        let by = EndedBy::of(&ended);
        (BarrierWaitResult { is_leader, by }, ended)
    }

    /// Returns whether this wait was the arrival that finished its generation. Of each generation exactly one is, which is tested.
    ///
    /// ```
    /// Ok(result.is_leader())
    /// ```
    pub fn is_leader(&self) -> bool
        ensures { result ≡ self.now.is_leader }
    {
        self.is_leader
    }
}

// By hand, since a clone takes its seat from the one before.
impl Clone for BarrierWaitResult {
    ghost is_clone = { λ result other. other ≡ result };

    ghost is_infallible = { λ _. ⊤ };

    fn clone(&self) -> Result<BarrierWaitResult, AllocError> {
        Ok(BarrierWaitResult {
            is_leader: self.is_leader,
            by: self.by.again(),
        })
    }
}

// By hand, so that the text is the Rust crate's: the seat is for contracts alone.
impl fmt::Debug for BarrierWaitResult {
    fn fmt<W: fmt::Write>(&self, f: &mut fmt::Formatter<W>) -> fmt::Result {
        f.debug_struct("BarrierWaitResult")
            .field("is_leader", &self.is_leader)
            .finish()
    }
}
