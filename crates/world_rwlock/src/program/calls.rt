//! Which calls a party may make by where it stands, and what they ask of the lock's programs.

ghost use Rattle.std.specs.Prelude.{◌≡◌};
ghost use Rattle.world_rwlock.specs.program.Calls.{knows_at};
ghost use Rattle.world_rwlock.specs.program.Program.{asked_of, start_of};

use sync_program::rwlock::{self, Place, RwLockCall};
use world_base::Call;

/// Whether a party that stands here may make this call, if it is outside every call: a guard's own calls are
/// known of that guard alone.
pub fn is_known(place: Place, call: Call) -> bool
    ensures { result ≡ knows_at place call }
{
    match call {
        Call::Read
        | Call::UpgradableRead
        | Call::Write
        | Call::TryRead
        | Call::TryUpgradableRead
        | Call::TryWrite
        | Call::Poll
        | Call::Drop => true,
        Call::Upgrade | Call::TryUpgrade => matches!(place, Place::Upgradable),
        Call::Downgrade => matches!(place, Place::Upgradable | Place::Writing),
        Call::DowngradeToUpgradable | Call::Put(_) => matches!(place, Place::Writing),
        _ => false,
    }
}

/// What a call asks of a read-write lock's programs; None of the calls that they don't have.
fn asked(call: Call) -> Option<RwLockCall>
    ensures { result ≡ asked_of call }
{
    match call {
        Call::Read => Some(RwLockCall::Read),
        Call::UpgradableRead => Some(RwLockCall::UpgradableRead),
        Call::Write => Some(RwLockCall::Write),
        Call::TryRead => Some(RwLockCall::TryRead),
        Call::TryUpgradableRead => Some(RwLockCall::TryUpgradableRead),
        Call::TryWrite => Some(RwLockCall::TryWrite),
        Call::Upgrade => Some(RwLockCall::Upgrade),
        Call::TryUpgrade => Some(RwLockCall::TryUpgrade),
        Call::Downgrade => Some(RwLockCall::Downgrade),
        Call::DowngradeToUpgradable => Some(RwLockCall::DowngradeToUpgradable),
        Call::Poll => Some(RwLockCall::Poll),
        Call::Drop => Some(RwLockCall::Drop),
        _ => None,
    }
}

/// The place at which a call begins for a party that stands there; None where it can't.
pub fn start(call: Call, at: Place) -> Option<Place>
    ensures { result ≡ start_of call at }
{
    match asked(call) {
        Some(call) => rwlock::start(call, at),
        None => None,
    }
}
