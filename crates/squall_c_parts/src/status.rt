//! The numbers that say how a call of a partition ended.

ghost use Rattle.std.specs.Prelude.{◌≡◌};
ghost use Rattle.squall_c_parts.specs.PartStatus.{give_status, load_fault_status, load_status, finish_status};

use squall_part::{Chunk, FinishFault, GiveFault, Load, LoadFault};
use squall_report::Report;

/// It was done.
pub(crate) const OK: u32 = 0;

/// An allocation failed.
pub(crate) const NO_MEMORY: u32 = 1;

/// A number or a rank lies outside its limits, or a span has no key.
pub(crate) const LIMIT: u32 = 2;

/// A frame would have more bytes than it may have.
pub(crate) const TOO_LONG: u32 = 5;

/// No digest was heard.
pub(crate) const NO_DIGEST: u32 = 6;

/// As far as the partition knows, the sub-plan is not opened.
const NOT_OPEN: u32 = 71;

/// The number of the answer to a demand for keys.
pub(crate) fn give_status(answer: &Result<Chunk, GiveFault>) -> u32
    ensures { result ≡ give_status answer.now }
{
    match answer {
        Ok(_) => OK,
        Err(GiveFault::NotOpen) => NOT_OPEN,
        Err(GiveFault::NothingLeft) => 72,
        Err(GiveFault::ZeroMax) => 73,
        Err(GiveFault::NotOutgoing) => 74,
        Err(GiveFault::Given) => 75,
        Err(GiveFault::NotHeld) => 76,
        Err(GiveFault::Ended) => 81,
        Err(GiveFault::NoMemory) => NO_MEMORY,
    }
}

/// The number of the reason why a chunk is not loaded.
pub(crate) fn load_fault_status(fault: &LoadFault) -> u32
    ensures { result ≡ load_fault_status fault.now }
{
    match fault {
        LoadFault::NotOpen => NOT_OPEN,
        LoadFault::Stranger => 77,
        LoadFault::NoMemory => NO_MEMORY,
    }
}

/// The number of the answer to a chunk.
pub(crate) fn load_status(answer: &Result<Load, LoadFault>) -> u32
    ensures { result ≡ load_status answer.now }
{
    match answer {
        Ok(Load::Loaded(_)) => OK,
        Ok(Load::Again) => 80,
        Err(fault) => load_fault_status(fault),
    }
}

/// The number of the answer when a sub-plan is to be finished.
pub(crate) fn finish_status(answer: &Result<Report, FinishFault>) -> u32
    ensures { result ≡ finish_status answer.now }
{
    match answer {
        Ok(_) => OK,
        Err(FinishFault::NotOpen) => NOT_OPEN,
        Err(FinishFault::NotAll(_)) => 78,
        Err(FinishFault::NothingDue) => 79,
        Err(FinishFault::NoMemory) => NO_MEMORY,
    }
}
