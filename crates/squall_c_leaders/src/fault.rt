//! Why a repair is not made, and why there is no text of where a course leaves the keys.

use squall_c_frames::FrameFault;
use squall_leader::LeftFault;
use std::alloc::AllocError;
use thiserror::Error;

/// Why a repair is not made.
#[derive(Debug, Drop, Error)]
pub enum RepairFault {
    /// No digest was heard.
    #[error("NoDigest")]
    NoDigest,
    /// A frame would have more bytes than it may have.
    #[error("TooLong")]
    TooLong,
    /// An allocation failed.
    #[error("NoMemory")]
    NoMemory,
}

impl From<FrameFault> for RepairFault {
    ghost use Rattle.std.specs.Prelude.{◌≡◌};
    ghost use Rattle.squall_c_leaders.specs.Nodes.{repair_fault};

    ghost from_gives = { λ fault e. e ≡ repair_fault fault };

    fn from(fault: FrameFault) -> RepairFault {
        match fault {
            FrameFault::TooLong => RepairFault::TooLong,
            FrameFault::NoMemory => RepairFault::NoMemory,
        }
    }
}

/// Why there is no text of the plan of where a course leaves the keys.
#[derive(Debug, Drop, Error)]
pub enum LeftTextFault {
    /// A span has no key, or ends above all keys.
    #[error("Limit")]
    Limit,
    /// The plan would have more than 4096 ranges.
    #[error("TooMany")]
    TooMany,
    /// An allocation failed.
    #[error("NoMemory")]
    NoMemory,
}

impl From<AllocError> for LeftTextFault {
    ghost use Rattle.std.specs.Prelude.{◌≡◌};
    ghost use Rattle.squall_c_leaders.specs.declared.fault.LeftTextFault.{LeftTextFault};

    ghost from_gives = { λ _ e. e ≡ LeftTextFault.NoMemory };

    fn from(_error: AllocError) -> LeftTextFault {
        LeftTextFault::NoMemory
    }
}

impl From<LeftFault> for LeftTextFault {
    ghost use Rattle.std.specs.Prelude.{◌≡◌};
    ghost use Rattle.squall_c_leaders.specs.LeftText.{left_text_fault};

    ghost from_gives = { λ fault e. e ≡ left_text_fault fault };

    fn from(fault: LeftFault) -> LeftTextFault {
        match fault {
            LeftFault::TooMany => LeftTextFault::TooMany,
            LeftFault::NoMemory => LeftTextFault::NoMemory,
        }
    }
}
