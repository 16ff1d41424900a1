//! The ledgers of an audit, one for each number that is counted.

ghost use Rattle.std.specs.Prelude.{◌≡◌};

use std::marker::{Brand, Model, PhantomData};
use std::sync::ledger::{Blank, Ledger};

/// The ledgers of one audit. The caller of a function that is generic over them picks them, by the blanks
/// that it hands in.
pub trait Ledgers {
    ghost use Rattle.lock_audit.specs.Ledgers.{Names};

    /// The names of the ledgers, and into how many parts each is cut.
    ghost names: { Names };
}

impl Ledgers for Brand {
    ghost names = { record { moves = 0; calls = 0; grants = 0; refusals = 0; gives_back = 0; granted = 0; parts = 0 } };
}

/// The ledger of moves.
pub struct Moves<L>(PhantomData<L>);

/// The ledger of calls that were begun.
pub struct Calls<L>(PhantomData<L>);

/// The ledger of calls that succeeded.
pub struct Grants<L>(PhantomData<L>);

/// The ledger of calls that were refused.
pub struct Refusals<L>(PhantomData<L>);

/// The ledger of calls that gave back.
pub struct GivesBack<L>(PhantomData<L>);

/// The ledger of the values that were granted.
pub struct Granted<L>(PhantomData<L>);

impl<L: Ledgers> Ledger for Moves<L> {
    ghost name = { L.names.moves };

    ghost parts = { L.names.parts };
}

impl<L: Ledgers> Ledger for Calls<L> {
    ghost name = { L.names.calls };

    ghost parts = { L.names.parts };
}

impl<L: Ledgers> Ledger for Grants<L> {
    ghost name = { L.names.grants };

    ghost parts = { L.names.parts };
}

impl<L: Ledgers> Ledger for Refusals<L> {
    ghost name = { L.names.refusals };

    ghost parts = { L.names.parts };
}

impl<L: Ledgers> Ledger for GivesBack<L> {
    ghost name = { L.names.gives_back };

    ghost parts = { L.names.parts };
}

impl<L: Ledgers> Ledger for Granted<L> {
    ghost name = { L.names.granted };

    ghost parts = { L.names.parts };
}

/// New ledgers, for which no type stands yet. Contracts see their names, and into how many parts each is
/// cut.
#[derive(Drop)]
pub struct Blanks {
    pub(crate) moves: Blank,
    pub(crate) calls: Blank,
    pub(crate) grants: Blank,
    pub(crate) refusals: Blank,
    pub(crate) gives_back: Blank,
    pub(crate) granted: Blank,
}

impl Model for Blanks {
    ghost use Rattle.std.specs.Prelude.{◌≡◌};
    ghost use Rattle.lock_audit.specs.Ledgers.{Names};

    ghost Value = { Names };

    ghost view = { λ b. record { moves = b.moves.name; calls = b.calls.name; grants = b.grants.name; refusals = b.refusals.name; gives_back = b.gives_back.name; granted = b.granted.name; parts = b.moves.parts } };

    ghost invariant = { λ b. (b.calls.parts ≡ b.moves.parts) × (b.grants.parts ≡ b.moves.parts) × (b.refusals.parts ≡ b.moves.parts) × (b.gives_back.parts ≡ b.moves.parts) × (b.granted.parts ≡ b.moves.parts) };
}

impl Blanks {
    /// New ledgers for so many shares.
    pub fn new(shares: u32) -> Blanks
        ensures { result.parts ≡ shares }
    {
        let parts = u64::from(shares);
        Blanks {
            moves: Blank::new(parts),
            calls: Blank::new(parts),
            grants: Blank::new(parts),
            refusals: Blank::new(parts),
            gives_back: Blank::new(parts),
            granted: Blank::new(parts),
        }
    }
}
