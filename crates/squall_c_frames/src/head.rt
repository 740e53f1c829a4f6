//! The heads of frames, which show some faults before anything is allocated.

ghost use Rattle.std.specs.Prelude.{◌≡◌, ◌≢◌, Err, IfErr, OnOk};
ghost use Rattle.squall_wire.specs.declared.fault.WireFault.TheVariants.{NoMemory};
ghost use Rattle.squall_wire.specs.Reading.{frame_at};
ghost use Rattle.squall_c_frames.specs.WholeFrames.{HasFrame};

use squall_wire::WireFault;

/// How many bytes come before a body.
const HEAD_LENGTH: usize = 8;

/// The longest body.
const BODY_LIMIT: usize = 1048576;

/// Nothing if the bytes begin with a whole frame, whatever its body says. Else the first fault from their
/// beginning. It allocates nothing, so the fault is not `NoMemory`.
#[tactic(auto, unfolding(squall_wire::specs::Reading::frame_at))]
pub(crate) fn look_at_head(bytes: &[u8]) -> Result<(), WireFault>
    ensures frame { OnOk result (HasFrame bytes.now) }
    ensures fault { IfErr result (λ fault. frame_at bytes.now ≡ Err fault) }
    ensures memory { result ≢ Err NoMemory }
{
    let count = bytes.len();
    if (count > 0 && bytes[0] != 0x53) || (count > 1 && bytes[1] != 0x51) {
        return Err(WireFault::Magic);
    }
    if count > 2 && bytes[2] != 1 && bytes[2] != 2 {
        return Err(WireFault::Version);
    }
    if count > 3 && bytes[3] != 1 && bytes[3] != 2 {
        return Err(WireFault::Kind);
    }
    if count < HEAD_LENGTH {
        return Err(WireFault::Short);
    }
    let (head, rest) = bytes.split_at(HEAD_LENGTH);
    let length = u32::from_be_bytes([head[4], head[5], head[6], head[7]]) as usize;
    if length > BODY_LIMIT {
        return Err(WireFault::TooLong);
    }
    if rest.len() < length {
        return Err(WireFault::Short);
    }
    Ok(())
}
