//! Why a router does not take what it hears.

use std::alloc::AllocError;
use thiserror::Error;

/// Why a router does not take what it hears.
#[derive(Clone, Copy, Debug, PartialEq, Eq, Error)]
pub enum AbsorbFault {
    /// Its board would tell more than the limit.
    #[error("Full")]
    Full,
    /// An allocation failed, or a count of owners is full.
    #[error("NoMemory")]
    NoMemory,
}

impl From<AllocError> for AbsorbFault {
    ghost use Rattle.std.specs.Prelude.{◌≡◌};
    ghost use Rattle.squall_router.specs.declared.fault.AbsorbFault.TheVariants.{NoMemory};

    ghost from_gives = { λ _ e. e ≡ NoMemory };

    fn from(_error: AllocError) -> AbsorbFault {
        AbsorbFault::NoMemory
    }
}
