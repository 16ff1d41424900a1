//! The words that all Worlds share: moves, what a program needs from outside, and answers.

ghost use Rattle.std.specs.Prelude.{◌≡◌};
ghost use Rattle.world_base.specs.Frame.{put_in};
ghost use Rattle.world_base.specs.Standings.{inputs_of, is_stepped};

/// One event: a party begins a call, or goes on with the one that it is in.
#[derive(Clone, Copy, Debug, PartialEq, Eq)]
pub struct Move {
    /// The party's number, from 0.
    pub party: u32,
    pub what: What,
}

/// What a party does.
#[derive(Clone, Copy, Debug, PartialEq, Eq)]
pub enum What {
    /// Begins a call and carries out its first action.
    Begin(Call, Inputs),
    /// Carries out the next action of the call that the party is in.
    Go(Inputs),
}

impl What {
    /// What the move takes from outside the World.
    pub fn inputs(self) -> Inputs
        ensures { result ≡ inputs_of self }
    {
        match self {
            What::Begin(_, inputs) | What::Go(inputs) => inputs,
        }
    }

    /// The value that the move puts, if it puts one.
    pub fn put(self) -> Option<u64>
        ensures { result ≡ put_in self }
    {
        match self {
            What::Begin(Call::Put(value), _) => Some(value),
            _ => None,
        }
    }
}

/// The calls of all Worlds. One that a World doesn't know is not possible there.
#[derive(Clone, Copy, Debug, PartialEq, Eq)]
pub enum Call {
    /// The first poll of a mutex's lock.
    Lock,
    /// Takes a mutex's lock at once, or not at all.
    TryLock,
    /// The first poll of a read.
    Read,
    /// The first poll of an upgradable read.
    UpgradableRead,
    /// The first poll of a write.
    Write,
    /// Takes a read right at once, or not at all.
    TryRead,
    /// Takes the upgradable right at once, or not at all.
    TryUpgradableRead,
    /// Takes the write right at once, or not at all.
    TryWrite,
    /// Turns an upgradable right into a future write.
    Upgrade,
    /// Turns an upgradable right into a write right at once, or not at all.
    TryUpgrade,
    /// Turns an upgradable or a write right into a read right.
    Downgrade,
    /// Turns a write right into an upgradable one.
    DowngradeToUpgradable,
    /// The first poll of an acquire of so many permits.
    Acquire(u64),
    /// Takes so many permits at once, or none.
    TryAcquire(u64),
    /// Ends a guard's permits for good.
    Forget,
    /// Adds so many permits.
    AddPermits(u64),
    /// The first poll of a take of an item of a pool.
    Take,
    /// Takes an item of a pool at once, or none.
    TryTake,
    /// The first poll of a give of a leased item.
    Give,
    /// The first poll of an initialisation.
    Initialize,
    /// The first poll of a wait, on a cell or on a barrier.
    Wait,
    /// The first poll of a set to this value.
    Set(u64),
    /// Sets a cell at once, or not at all.
    TrySet(u64),
    /// A later poll.
    Poll,
    /// Drops the pending future, the guard or the finished future.
    Drop,
    /// Leaves this value, by the party with the sole right.
    Put(u64),
}

/// What an action takes from outside the World.
#[derive(Clone, Copy, Debug, PartialEq, Eq)]
pub struct Inputs {
    /// A join finds memory.
    pub memory: bool,
    /// The party has waited for too long.
    pub starving: bool,
    /// What a cell's maker gives.
    pub made: Made,
}

/// What a poll of a cell's maker gives.
#[derive(Clone, Copy, Debug, PartialEq, Eq)]
pub enum Made {
    Pending,
    Value(u64),
    Fail,
}

/// What a call that succeeded got.
#[derive(Clone, Copy, Debug, PartialEq, Eq)]
pub enum Got {
    /// Nothing beside the right.
    Plain,
    /// The value found.
    Value(u64),
    /// Whether the party leads its generation.
    Leader(bool),
    /// The argument of a set, since the cell was full.
    Taken(u64),
    /// The maker failed.
    Failed,
}

/// How a move is answered.
#[derive(Clone, Copy, Debug, PartialEq, Eq)]
pub enum Answer {
    /// The call goes on.
    Stepped,
    /// The future waits.
    Pending,
    /// The future is ready.
    Ready(Got),
    /// The call succeeded at once.
    Granted(Got),
    /// The call didn't succeed at once.
    None,
    /// The party gave back what it had.
    GivenBack,
    /// The upgrade began.
    Waiting,
    /// The call gave up, for the reason of this number: see `lock_program::Refusal`.
    Refused(u8),
    /// The party couldn't make this move. Nothing changed.
    NotPossible,
}

impl Answer {
    /// Whether the call goes on.
    pub fn is_stepped(self) -> bool
        ensures { result ≡ is_stepped self }
    {
        matches!(self, Answer::Stepped)
    }
}
