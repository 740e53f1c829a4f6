//! Answers of stores, and why a call is not made.

ghost use Rattle.std.specs.Prelude.{◌≡◌};
ghost use Rattle.squall_store_log.specs.declared.answer.MakeFault.TheVariants.{Refused, NoMemory};

use squall_errand::Reply;
use squall_replay::{Answer as PartAnswer, CallFault};
use squall_store::Bytes;
use std::alloc::AllocError;

/// The answer to a call that a store did not refuse.
#[derive(Drop)]
pub enum Answer {
    /// The key was held, and this was its value before.
    Row(Option<Bytes>),
    /// The partition answers.
    Part(PartAnswer),
}

/// Why a store does not make a call.
#[derive(Drop)]
pub enum MakeFault {
    /// The partition does not hold the key: its reply, which leads on.
    NotHeld(Reply),
    /// The partition refuses the call.
    Refused(CallFault),
    /// An allocation failed.
    NoMemory,
    /// Its record would be too long: a payload of more than 1,073,741,824 bytes, or a delta that has
    /// no frame.
    TooLong,
}

impl From<AllocError> for MakeFault {
    ghost from_gives = { λ _ e. e ≡ NoMemory };

    fn from(_error: AllocError) -> MakeFault {
        MakeFault::NoMemory
    }
}

impl From<CallFault> for MakeFault {
    ghost from_gives = { λ fault e. e ≡ Refused fault };

    fn from(fault: CallFault) -> MakeFault {
        MakeFault::Refused(fault)
    }
}
