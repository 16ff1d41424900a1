//! How far a barrier is.

ghost use Rattle.std.specs.Prelude.{◌≡◌};

/// How many arrivals are counted towards the next generation. It lies in the barrier's inner lock.
///
/// How many arrivals make a generation (`size`), and how many generations may be finished (`most`), the barrier says: an arrival
/// is counted only where that leaves the count below the size, and a generation finished only below the limit.
pub struct Arrivals {
    pub(crate) count: u64,
}

impl Arrivals {
    // Nobody has arrived.
    pub(crate) fn new() -> Arrivals
        ensures { result.count ≡ 0 }
    {
        Arrivals { count: 0 }
    }

    /// Returns how many arrivals are counted. It is for tests.
    pub fn count(&self) -> u64
        ensures { result ≡ self.now.count }
    {
        self.count
    }
}

impl Drop for Arrivals {
    fn drop(self) {
        let Self { count: _ } = self;
    }
}

/// What an arrival has to do.
#[derive(Clone, Copy, Debug, PartialEq, Eq)]
pub enum Looked {
    /// More have to arrive before the generation is finished: it waits.
    MustWait,
    /// It finishes the generation, and leads.
    Leads,
    /// It would finish a generation past the limit.
    Past,
}
