//! Where a party is in its program.

ghost use Rattle.std.specs.Prelude.{◌≡◌};
ghost use Rattle.barrier_core.specs.Courses.{Course as InTable, course_coded};
ghost use base.Fml.{ftrue};

use lock_program::Next;
use std::marker::Model;
use sync_program::barrier::{Left, Place};

/// Where a party is in its program: what it does next, or how its last call ended. It has no bytes.
pub struct Standing {
    seal: (),
    pub ghost next: { InTable } by { course_coded },
}

impl Model for Standing {
    ghost also_owns = { λ _. ftrue };
}

impl Standing {
    /// It is there.
    pub fn of(next: &Next<Place, Left>) -> Standing
        ensures { result.next ≡ next.now }
    {
        let _ = next;
        Standing { seal: () }
    }
}

impl Drop for Standing {
    fn drop(self) {
        let Self { seal: _ } = self;
    }
}

unsafe impl Send for Standing {}

unsafe impl Sync for Standing {}
