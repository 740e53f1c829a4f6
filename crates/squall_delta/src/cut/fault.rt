//! Why a board is not cut into pieces.

ghost use Rattle.std.specs.Prelude.{Some};
ghost use Rattle.squall_delta.specs.FaultText.{text_of_cut_fault};

use std::alloc::AllocError;
use std::error::Error;
use std::fmt;

/// Why a board has no pieces within a limit.
#[derive(Clone, Copy, Debug, PartialEq, Eq)]
pub enum CutFault {
    /// The frame of an item alone would be longer than the limit.
    TooLong,
    /// An allocation failed.
    NoMemory,
}

/// The name of the fault.
impl fmt::Display for CutFault {
    ghost output = { λ e. Some (text_of_cut_fault e) };

    fn fmt<W: fmt::Write>(&self, f: &mut fmt::Formatter<W>) -> fmt::Result {
        match self {
            CutFault::TooLong => write!(f, "TooLong"),
            CutFault::NoMemory => write!(f, "NoMemory"),
        }
    }
}

impl Error for CutFault {}

impl From<AllocError> for CutFault {
    ghost use Rattle.std.specs.Prelude.{◌≡◌};
    ghost use Rattle.squall_delta.specs.declared.cut.fault.CutFault.TheVariants.{NoMemory};

    ghost from_gives = { λ _ e. e ≡ NoMemory };

    fn from(_e: AllocError) -> CutFault {
        CutFault::NoMemory
    }
}
