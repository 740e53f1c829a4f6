//! Why a leader refuses to begin a course or to open a sub-plan, and why there is no plan of where a
//! course leaves the keys.

ghost use Rattle.std.specs.Prelude.{◌≡◌};
ghost use Rattle.squall_leader.specs.declared.fault.LeaderFault.TheVariants.{NoMemory};

use squall_key::PartId;
use std::alloc::AllocError;
use thiserror::Error;

/// Why a leader does not begin or open.
#[derive(Debug, Drop, Error)]
pub enum LeaderFault {
    /// The course begun last is not over.
    #[error("Running")]
    Running,
    /// The greatest number is used.
    #[error("NoNumber")]
    NoNumber,
    /// No course is begun.
    #[error("Idle")]
    Idle,
    /// In the sub-plan opened last, `part` is the least partition that receives keys and has not
    /// reported that it has all of them.
    #[error("NotDone {sub} {part}")]
    NotDone {
        /// The sub-plan.
        sub: u32,
        /// The partition.
        part: PartId,
    },
    /// All sub-plans are opened, and the last one is done.
    #[error("NoMore")]
    NoMore,
    /// An allocation failed.
    #[error("NoMemory")]
    NoMemory,
}

impl From<AllocError> for LeaderFault {
    ghost from_gives = { λ _ e. e ≡ NoMemory };

    fn from(_error: AllocError) -> LeaderFault {
        LeaderFault::NoMemory
    }
}

/// Why there is no plan of where a course leaves the keys.
#[derive(Debug, Drop, Error)]
pub enum LeftFault {
    /// The plan would have more than 4096 ranges.
    #[error("TooMany")]
    TooMany,
    /// An allocation failed.
    #[error("NoMemory")]
    NoMemory,
}

impl From<AllocError> for LeftFault {
    ghost use Rattle.squall_leader.specs.declared.fault.LeftFault.{LeftFault};

    ghost from_gives = { λ _ e. e ≡ LeftFault.NoMemory };

    fn from(_error: AllocError) -> LeftFault {
        LeftFault::NoMemory
    }
}
