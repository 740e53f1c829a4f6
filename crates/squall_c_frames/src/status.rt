//! The numbers by which calls that take frames say how they ended.

ghost use Rattle.std.specs.Prelude.{◌≡◌, is_ok, if◌then◌else◌};
ghost use Rattle.squall_c_frames.specs.FrameStatus.{ok, no_memory, wire_status, heard_status, hear_status, feed_status};

use squall_wire::{FeedFault, WireFault};
use std::alloc::AllocError;

/// It was done.
const OK: u32 = 0;

/// An allocation failed.
const NO_MEMORY: u32 = 1;

/// A fault ended the stream of frames before.
const FAILED: u32 = 4;

/// The number of a fault of a frame. A feed tells neither `Short` nor a failed allocation.
pub fn wire_status(fault: WireFault) -> u32
    ensures { result ≡ wire_status fault }
{
    match fault {
        WireFault::Magic => 51,
        WireFault::Version => 52,
        WireFault::Kind => 53,
        WireFault::TooLong => 54,
        WireFault::Short => 55,
        WireFault::Count => 56,
        WireFault::Range => 57,
        WireFault::Order => 58,
        WireFault::Spare => 59,
        WireFault::NoMemory => NO_MEMORY,
    }
}

/// The number of the fault that ended a stream, or that nothing did.
pub fn heard_status(fault: Option<WireFault>) -> u32
    ensures { result ≡ heard_status fault }
{
    match fault {
        Some(fault) => wire_status(fault),
        None => OK,
    }
}

/// The number of how it ended that a whole frame came.
pub fn hear_status(answer: Result<(), WireFault>) -> u32
    ensures { result ≡ hear_status answer }
{
    match answer {
        Ok(()) => OK,
        Err(fault) => wire_status(fault),
    }
}

/// The number of how it ended that a piece of a stream came.
pub fn feed_status(answer: Result<Option<WireFault>, FeedFault>) -> u32
    ensures { result ≡ feed_status answer }
{
    match answer {
        Ok(fault) => heard_status(fault),
        Err(FeedFault::Failed) => FAILED,
        Err(FeedFault::NoMemory) => NO_MEMORY,
    }
}

/// How a call ended that fails only if an allocation fails, or if a count of owners is full.
pub fn memory_status(outcome: Result<(), AllocError>) -> u32
    ensures { result ≡ (if is_ok outcome then ok else no_memory) }
{
    match outcome {
        Ok(()) => OK,
        Err(_) => NO_MEMORY,
    }
}
