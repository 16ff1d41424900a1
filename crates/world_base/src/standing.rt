//! How a party stands: outside every call, inside one, or forgotten. All Worlds share this, and
//! specs/Standings says which moves a party may make, and how its calls end.

ghost use Rattle.std.specs.Prelude.{◌≡◌};
ghost use Rattle.world_base.specs.Standings.{kind_of, is_outside_stage, forgets};

use crate::Call;

/// How a party stands outside every call.
#[derive(Clone, Copy)]
pub enum Rest {
    /// It has nothing and asks for nothing.
    Idle,
    /// Its future waits to be polled, also after a refusal.
    Pending,
    /// It has a right.
    Holding,
    /// Its future has been ready, and there is no right to hold.
    Finished,
}

/// The kind of a call: it says who may begin it, and how it may end.
#[derive(Clone, Copy)]
pub enum Kind {
    /// The first poll of a future.
    FirstPoll,
    /// A later poll of a future.
    LaterPoll,
    /// Succeeds at once, or not at all.
    Try,
    /// Adds permits.
    Add,
    /// Begins to turn a guard's right into a greater one.
    Upgrade,
    /// Turns a guard's right into a greater one at once, or not at all.
    TryUpgrade,
    /// Turns a guard's right into a lesser one.
    Downgrade,
    /// Ends a guard's right for good.
    Forget,
    /// The first poll of a future that gives a guard's right back.
    Give,
    /// Leaves a value.
    Put,
    /// Drops the future or the guard.
    Drop,
}

/// The call that a party is in: its kind, and how the party stood as it began.
#[derive(Clone, Copy)]
pub struct Within {
    pub kind: Kind,
    pub was: Rest,
}

/// At which stage of its calls a party is.
#[derive(Clone, Copy)]
pub enum Stage {
    Outside(Rest),
    Inside(Within),
    /// Its future or guard is gone without a drop, and it moves no more.
    Forgotten,
}

impl Call {
    /// The kind of the call, as specs/Standings lists it.
    pub fn kind(self) -> Kind
        ensures { result ≡ kind_of self }
    {
        match self {
            Call::TryLock
            | Call::TryRead
            | Call::TryUpgradableRead
            | Call::TryWrite
            | Call::TryAcquire(_)
            | Call::TryTake
            | Call::TrySet(_) => Kind::Try,
            Call::AddPermits(_) => Kind::Add,
            Call::Upgrade => Kind::Upgrade,
            Call::TryUpgrade => Kind::TryUpgrade,
            Call::Downgrade | Call::DowngradeToUpgradable => Kind::Downgrade,
            Call::Forget => Kind::Forget,
            Call::Give => Kind::Give,
            Call::Put(_) => Kind::Put,
            Call::Drop => Kind::Drop,
            Call::Poll => Kind::LaterPoll,
            _ => Kind::FirstPoll,
        }
    }
}

impl Stage {
    /// The stage once a value was put from outside every call: whoever was pending or held a right is
    /// forgotten.
    pub fn forgotten(self) -> Stage
        ensures { result ≡ forgets self }
    {
        match self {
            Stage::Outside(Rest::Pending | Rest::Holding) => Stage::Forgotten,
            other => other,
        }
    }

    /// Whether the party is outside every call.
    pub fn is_outside(&self) -> bool
        ensures { result ≡ is_outside_stage self.now }
    {
        !matches!(self, Stage::Inside(_))
    }
}
