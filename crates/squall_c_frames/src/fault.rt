//! Why frames are not made.

use squall_delta::CutFault;
use squall_wire::EncodeFault;
use std::alloc::AllocError;
use thiserror::Error;

/// Why frames are not made.
#[derive(Debug, Drop, Error)]
pub enum FrameFault {
    /// A frame would have more bytes than it may have.
    #[error("TooLong")]
    TooLong,
    /// An allocation failed.
    #[error("NoMemory")]
    NoMemory,
}

impl From<CutFault> for FrameFault {
    ghost use Rattle.std.specs.Prelude.{◌≡◌};
    ghost use Rattle.squall_c_frames.specs.BoardFrames.{fault_of_cut};

    ghost from_gives = { λ fault e. e ≡ fault_of_cut fault };

    fn from(fault: CutFault) -> FrameFault {
        match fault {
            CutFault::TooLong => FrameFault::TooLong,
            CutFault::NoMemory => FrameFault::NoMemory,
        }
    }
}

impl From<EncodeFault> for FrameFault {
    ghost use Rattle.std.specs.Prelude.{◌≡◌};
    ghost use Rattle.squall_c_frames.specs.BoardFrames.{fault_of_encoding};

    ghost from_gives = { λ fault e. e ≡ fault_of_encoding fault };

    fn from(fault: EncodeFault) -> FrameFault {
        match fault {
            EncodeFault::TooLong => FrameFault::TooLong,
            EncodeFault::NoMemory => FrameFault::NoMemory,
        }
    }
}

impl From<AllocError> for FrameFault {
    ghost use Rattle.std.specs.Prelude.{◌≡◌};
    ghost use Rattle.squall_c_frames.specs.declared.fault.FrameFault.TheVariants.{NoMemory};

    ghost from_gives = { λ _ e. e ≡ NoMemory };

    fn from(_error: AllocError) -> FrameFault {
        FrameFault::NoMemory
    }
}
