//! Why an entry is not put.
ghost use Rattle.std.specs.Prelude.{◌≡◌};
ghost use Rattle.tx_sets.specs.declared.set_refusal.SetRefusal.TheVariants.{Memory as OutOfMemory};

use std::alloc::{AllocError, AllocFailed};
use thiserror::Error;

/// Why an entry is not put into a set.
#[derive(Clone, Copy, Debug, PartialEq, Eq, Error)]
pub enum SetRefusal {
    /// The location is new, and the set has `LOCATION_LIMIT` locations.
    #[error("TooLong")]
    TooLong,
    /// The location is new, there is no room, and no more memory was given.
    #[error("Memory")]
    Memory,
}

impl From<AllocError> for SetRefusal {
    ghost from_gives = { λ _ refusal. refusal ≡ OutOfMemory };

    fn from(_error: AllocError) -> SetRefusal {
        SetRefusal::Memory
    }
}

impl<T: Drop> From<AllocFailed<T>> for SetRefusal {
    ghost from_gives = { λ _ refusal. refusal ≡ OutOfMemory };

    fn from(_error: AllocFailed<T>) -> SetRefusal {
        SetRefusal::Memory
    }
}
