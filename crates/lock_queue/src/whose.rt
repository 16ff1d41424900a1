//! Whose waker an entry keeps.

ghost use Rattle.std.specs.Prelude.{◌≡◌, Option};
ghost use Rattle.lock_queue.specs.Tasks.{Woken, woken_coded};
ghost use base.Fml.{ftrue};

use futures::task::Waker;
use std::marker::Model;

/// Whose waker an entry keeps: that of a task, or none. It has no bytes.
pub struct Whose {
    seal: (),
    pub ghost task: { Option Woken } by { woken_coded },
}

impl Model for Whose {
    ghost also_owns = { λ _. ftrue };
}

impl Whose {
    ghost use Rattle.lock_queue.specs.Tasks.{woken_by};

    /// The task that this waker wakes, if there is one.
    pub fn of(waker: &Option<Waker>) -> Whose
        ensures { result.task ≡ woken_by waker.now }
    {
        let _ = waker;
        Whose { seal: () }
    }
}

impl Drop for Whose {
    fn drop(self) {
        let Self { seal: _ } = self;
    }
}

unsafe impl Send for Whose {}

unsafe impl Sync for Whose {}
