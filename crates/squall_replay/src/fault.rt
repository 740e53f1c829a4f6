//! Why a call is not answered.

ghost use Rattle.std.specs.Prelude.{◌≡◌};
ghost use Rattle.squall_replay.specs.declared.fault.CallFault.TheVariants.{Give as NotGiven, Load as NotLoaded, Finish as NotFinished, NoMemory};

use squall_part::{FinishFault, GiveFault, LoadFault};
use std::alloc::AllocError;
use thiserror::Error;

/// Why a partition refuses a call.
#[derive(Debug, Drop, Error)]
pub enum CallFault {
    /// It gives nothing.
    #[error("give {0}")]
    Give(GiveFault),
    /// It does not load the chunk.
    #[error("load {0}")]
    Load(LoadFault),
    /// It does not finish the sub-plan.
    #[error("finish {0}")]
    Finish(FinishFault),
    /// An allocation failed while it absorbed a delta.
    #[error("NoMemory")]
    NoMemory,
}

impl From<AllocError> for CallFault {
    ghost from_gives = { λ _ e. e ≡ NoMemory };

    fn from(_error: AllocError) -> CallFault {
        CallFault::NoMemory
    }
}

impl From<GiveFault> for CallFault {
    ghost from_gives = { λ fault e. e ≡ NotGiven fault };

    fn from(fault: GiveFault) -> CallFault {
        CallFault::Give(fault)
    }
}

impl From<LoadFault> for CallFault {
    ghost from_gives = { λ fault e. e ≡ NotLoaded fault };

    fn from(fault: LoadFault) -> CallFault {
        CallFault::Load(fault)
    }
}

impl From<FinishFault> for CallFault {
    ghost from_gives = { λ fault e. e ≡ NotFinished fault };

    fn from(fault: FinishFault) -> CallFault {
        CallFault::Finish(fault)
    }
}
