//! Where a party is in its program.

ghost use Rattle.std.specs.Prelude.{◌≡◌};
ghost use Rattle.semaphore_core.specs.Courses.{Course as InTable, course_coded};
ghost use base.Fml.{ftrue};

use lock_program::Next;
use std::marker::Model;
use sync_program::permits::{Place, Position};

/// Where a party is in its program: what it does next, or how its last call ended. It has no bytes.
pub struct Course {
    seal: (),
    pub ghost next: { InTable } by { course_coded },
}

impl Model for Course {
    ghost also_owns = { λ _. ftrue };
}

impl Course {
    /// It is there.
    pub fn of(next: &Next<Place, Position>) -> Course
        ensures { result.next ≡ next.now }
    {
        let _ = next;
        Course { seal: () }
    }
}

impl Drop for Course {
    fn drop(self) {
        let Self { seal: _ } = self;
    }
}

unsafe impl Send for Course {}

unsafe impl Sync for Course {}
