//! How far a barrier is, and the words that say so.

ghost use Rattle.std.specs.Prelude.{◌≡◌, ◌+◌, ◌<◌};
ghost use Rattle.world_barrier.specs.program.Words.{FindsLook, FindsCheck, arrivals_at, progress, with_progress, new_words};

use sync_program::barrier::Found;

/// How far a barrier is: how many generations are finished, and how many arrivals are counted towards the
/// next one. Just after an arrival it tells that arrival's number.
#[derive(Clone, Copy)]
pub struct Progress {
    pub generation: u64,
    pub count: u64,
}

impl Progress {
    /// The number of the arrival after which a barrier for so many parties is this far.
    pub fn number(self, size: u64) -> u128
        ensures { result ≡ arrivals_at size self }
    {
        if size == 0 {
            self.generation as u128
        } else {
            size as u128 * self.generation as u128 + self.count as u128
        }
    }
}

/// How many parties a barrier waits for, how many generations it may finish, and how far it is. Only whoever
/// holds the inner lock touches them.
#[derive(Clone, Copy)]
pub struct Words {
    pub size: u64,
    pub most: u64,
    pub progress: Progress,
}

impl Words {
    /// Those of a barrier at which nobody has arrived.
    pub fn new(size: u64, most: u64) -> Words
        ensures { result ≡ new_words size most }
    {
        Words {
            size,
            most,
            progress: Progress {
                generation: 0,
                count: 0,
            },
        }
    }

    /// What the next arrival has to do: wait, since more have to come; lead its generation; or be refused,
    /// since it would finish a generation past the limit.
    pub fn look(&self) -> Found
        ensures { FindsLook result self.now }
    {
        if self.size > 0 && self.progress.count < self.size - 1 {
            Found::MustWait
        } else if self.progress.generation < self.most {
            Found::Leads
        } else {
            Found::Past
        }
    }

    /// One more arrival is counted, which doesn't finish its generation.
    pub fn arrive(&mut self)
        requires { self.old.progress.count + 1 < self.old.size }
        ensures { self.new ≡ with_progress self.old (progress self.old.progress.generation (self.old.progress.count + 1)) }
    {
        self.progress.count += 1;
    }

    /// One more arrival is counted, which finishes its generation.
    pub fn complete(&mut self)
        requires { self.old.progress.generation < self.old.most }
        ensures { self.new ≡ with_progress self.old (progress (self.old.progress.generation + 1) 0) }
    {
        self.progress = Progress {
            generation: self.progress.generation + 1,
            count: 0,
        };
    }

    /// Whether the generation of this arrival is finished.
    pub fn check(&self, arrival: Progress) -> Found
        ensures { FindsCheck arrival result self.now }
    {
        if arrival.generation == self.progress.generation {
            Found::Unfinished
        } else {
            Found::Finished
        }
    }
}
