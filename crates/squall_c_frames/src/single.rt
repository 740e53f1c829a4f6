//! Single frames, for hosts whose messages come one by one.

ghost use Rattle.std.specs.Prelude.{◌≡◌, ◌≢◌, Err, IfOk, OnOk, OnErr};
ghost use Rattle.squall_wire.specs.declared.fault.WireFault.TheVariants.{NoMemory, Spare};
ghost use Rattle.squall_wire.specs.Messages.{IsMessage, body_of, spell};
ghost use Rattle.squall_wire.specs.Reading.{Gives};
ghost use Rattle.squall_c_frames.specs.WholeFrames.{HasFrame, whole_at};

use crate::head::look_at_head;
use squall_wire::{Message, WireFault, decode};
use std::alloc::Global;

/// Nothing if a frame of `taken` bytes takes all `count` bytes. Else `Spare`, and no other fault.
fn takes_all(taken: usize, count: usize) -> Result<(), WireFault>
    ensures all { OnOk result (taken ≡ count) }
    ensures spare { OnErr result (result ≡ Err Spare) }
    ensures fewer { OnErr result (taken ≢ count) }
{
    if taken != count {
        return Err(WireFault::Spare);
    }
    Ok(())
}

/// The message whose frame the bytes are, no more and no less. Else their first fault. `NoMemory` if an
/// allocation failed, which only a whole frame at their beginning needs.
pub fn whole(alloc: Global, frame: &[u8]) -> Result<Message, WireFault>
    ensures answer { Gives body_of result (whole_at frame.now) }
    ensures frame { OnOk result (HasFrame frame.now) }
    ensures memory { result ≡ Err NoMemory → HasFrame frame.now }
    ensures spelled { IfOk result (λ m. IsMessage m × (frame.now ≡ spell m)) }
{
    look_at_head(frame)?;
    let (message, taken) = decode(alloc, frame)?;
    takes_all(taken, frame.len())?;
    Ok(message)
}
