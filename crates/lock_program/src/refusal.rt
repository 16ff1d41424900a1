//! Why a call gave up.

ghost use Rattle.std.specs.Prelude.{◌≡◌};
ghost use Rattle.std.specs.IoError.{error_kind};
ghost use Rattle.lock_program.specs.Refusals.{number_of, kind_of};
ghost use Rattle.lock_program.specs.declared.refusal.Refusal.TheVariants.{Memory};

use std::alloc::{AllocError, AllocFailed};
use std::io;
use thiserror::Error;

/// Why a call gave up.
#[derive(Clone, Copy, Debug, PartialEq, Eq, Error)]
pub enum Refusal {
    /// A growth was refused; in a World, the input of a join said so.
    #[error("no memory")]
    Memory,
    /// The mutex has as many starved waiters as it may have.
    #[error("too many starved waiters")]
    Starved,
    /// The lock has as many readers as it may have.
    #[error("too many readers")]
    Readers,
    /// The semaphore's limit would pass its greatest value.
    #[error("too many permits")]
    Permits,
    /// The barrier has finished as many generations as it may.
    #[error("too many generations")]
    Generations,
    /// The future has been ready before.
    #[error("polled after it was ready")]
    Finished,
}

impl Refusal {
    /// The refusal's number, from 1, in the order above.
    pub fn number(self) -> u8
        ensures { result ≡ number_of self }
    {
        match self {
            Refusal::Memory => 1,
            Refusal::Starved => 2,
            Refusal::Readers => 3,
            Refusal::Permits => 4,
            Refusal::Generations => 5,
            Refusal::Finished => 6,
        }
    }
}

/// So that `?` takes an allocation that failed to a call that is refused.
impl From<AllocError> for Refusal {
    ghost from_gives = { λ _ refusal. refusal ≡ Memory };

    fn from(_error: AllocError) -> Refusal {
        Refusal::Memory
    }
}

/// As that of an [`AllocError`]; the value that wasn't stored is dropped.
impl<T: Drop> From<AllocFailed<T>> for Refusal {
    ghost from_gives = { λ _ refusal. refusal ≡ Memory };

    fn from(_refused: AllocFailed<T>) -> Refusal {
        Refusal::Memory
    }
}

/// So that `?` takes a refusal to an `io::Result`: [`Refusal::Memory`] is out of memory there, [`Refusal::Finished`] is invalid input,
/// and a number that is at its limit is a quota.
impl From<Refusal> for io::Error {
    ghost from_gives = { λ refusal error. error_kind error ≡ kind_of refusal };

    fn from(refusal: Refusal) -> io::Error {
        match refusal {
            Refusal::Memory => io::Error::from(io::ErrorKind::OutOfMemory),
            Refusal::Starved | Refusal::Readers | Refusal::Permits | Refusal::Generations => {
                io::Error::from(io::ErrorKind::QuotaExceeded)
            }
            Refusal::Finished => io::Error::from(io::ErrorKind::InvalidInput),
        }
    }
}
