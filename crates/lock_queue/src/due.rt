//! Wakers that are due.

ghost use Rattle.std.specs.Prelude.{◌≡◌, is_some};

use futures::task::Waker;
use std::alloc::Global;

/// Shows that a waker was called. It is made by [`call`] alone.
#[derive(Drop)]
pub struct Called {
    seal: (),
}

// Calls a waker.
fn call(waker: Waker) -> Called {
    waker.wake();
    Called { seal: () }
}

/// The waker that was taken out of a list, if one was. It has no `Drop`: only [`Due::pay`] ends it, which calls the waker.
pub struct Due {
    waker: Option<Waker>,
}

impl Due {
    /// The waker that was taken out of a list, if one was.
    pub fn of(waker: Option<Waker>) -> Due
        ensures { result.waker ≡ waker }
    {
        Due { waker }
    }

    /// Calls the waker, if there is one: what is returned shows it.
    pub fn pay(self) -> Option<Called>
        ensures { is_some result ≡ is_some self.waker }
    {
        let Due { waker } = self;
        match waker {
            Some(waker) => Some(call(waker)),
            None => None,
        }
    }
}

/// Wakers that were taken out of a list of which all were notified. It has no `Drop`: only [`AllDue::pay`] ends it, which calls them.
pub struct AllDue {
    // Those for which there was memory, in their order.
    pub(crate) all: Vec<Due>,
    // The one for which memory was refused. More may be due then.
    pub(crate) next: Option<Due>,
}

impl AllDue {
    pub(crate) fn none(alloc: Global) -> AllDue {
        AllDue {
            all: Vec::new(alloc),
            next: None,
        }
    }

    /// Calls the wakers, in their order. Returns whether more may be due, which memory was refused for.
    pub fn pay(self) -> bool
        ensures { result ≡ is_some self.next }
    {
        let AllDue { all, next } = self;
        pay_all(all);
        match next {
            Some(due) => {
                drop(due.pay());
                true
            }
            None => false,
        }
    }
}

fn pay_all(all: Vec<Due>) {
    let mut rest = all.into_iter();
    while let Some(due) = rest.next() {
        drop(due.pay());
    }
    rest.destroy_empty();
}
