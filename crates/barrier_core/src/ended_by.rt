//! By which seat a wait has ended.

ghost use Rattle.std.specs.Prelude.{◌≡◌};
ghost use Rattle.barrier_core.specs.Barriers.{Seated, seated_coded};
ghost use base.Fml.{ftrue};

use crate::seat::Ended;
use std::marker::Model;

/// By which seat a wait has ended. It has no bytes, and may outlive the seat.
pub struct EndedBy {
    seal: (),
    pub ghost seat: { Seated } by { seated_coded },
}

impl Model for EndedBy {
    ghost also_owns = { λ _. ftrue };
}

impl EndedBy {
    /// It is this seat, which has ended.
    pub fn of(ended: &Ended) -> EndedBy
        ensures { result.seat ≡ ended.now }
    {
        let _ = ended;
        EndedBy { seal: () }
    }

    /// The same, once more.
    pub fn again(&self) -> EndedBy
        ensures { result ≡ self.now }
    {
        let _ = self;
        EndedBy { seal: () }
    }
}

impl Drop for EndedBy {
    fn drop(self) {
        let Self { seal: _ } = self;
    }
}

unsafe impl Send for EndedBy {}

unsafe impl Sync for EndedBy {}
