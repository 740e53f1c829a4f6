//! Why a log does not grow.

ghost use Rattle.std.specs.Prelude.{◌≡◌};
ghost use Rattle.squall_log.specs.declared.fault.LogFault.TheVariants.{NoMemory};

use std::alloc::AllocError;
use thiserror::Error;

/// Why an entry is not added to a log.
#[derive(Clone, Copy, Debug, PartialEq, Eq, Error)]
pub enum LogFault {
    /// Its payload would have more than 1,073,741,824 bytes.
    #[error("TooLong")]
    TooLong,
    /// An allocation failed.
    #[error("NoMemory")]
    NoMemory,
}

impl From<AllocError> for LogFault {
    ghost from_gives = { λ _ e. e ≡ NoMemory };

    fn from(_error: AllocError) -> LogFault {
        LogFault::NoMemory
    }
}
