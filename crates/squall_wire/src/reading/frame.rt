//! Frames.

ghost use Rattle.std.specs.Prelude.{IfOk};
ghost use Rattle.squall_wire.specs.BodyLaws.{IsVersion};
ghost use Rattle.squall_wire.specs.Reading.{Gives, frame_at};
ghost use Rattle.squall_wire.specs.Views.{frame_seen};

use crate::fault::WireFault;

/// How many bytes come before a body.
const HEAD_LENGTH: usize = 8;

/// The longest body.
const BODY_LIMIT: usize = 1048576;

/// A frame that begins bytes.
#[derive(Clone, Copy)]
pub(crate) struct Frame<'a> {
    /// 1 or 2.
    pub(crate) version: u8,
    /// 1 for a delta, 2 for a digest.
    pub(crate) kind: u8,
    /// What comes after the head.
    pub(crate) body: &'a [u8],
}

/// The frame that begins the bytes. The error is the first fault from the beginning.
#[tactic(auto, unfolding(crate::specs::Reading::frame_at))]
pub(crate) fn frame_of(bytes: &[u8]) -> Result<Frame<'_>, WireFault>
    ensures frame { Gives frame_seen result (frame_at bytes.now) }
    ensures version { IfOk result (λ f. IsVersion f.version) }
{
    let count = bytes.len();
    if (count > 0 && bytes[0] != 0x53) || (count > 1 && bytes[1] != 0x51) {
        return Err(WireFault::Magic);
    }
    if count > 2 && bytes[2] != 1 && bytes[2] != 2 {
        return Err(WireFault::Version);
    }
    if count > 3 && bytes[3] != 1 && bytes[3] != 2 {
        return Err(WireFault::Kind);
    }
    if count < HEAD_LENGTH {
        return Err(WireFault::Short);
    }
    let (head, rest) = bytes.split_at(HEAD_LENGTH);
    let length = u32::from_be_bytes([head[4], head[5], head[6], head[7]]) as usize;
    if length > BODY_LIMIT {
        return Err(WireFault::TooLong);
    }
    if rest.len() < length {
        return Err(WireFault::Short);
    }
    let (body, _) = rest.split_at(length);
    Ok(Frame {
        version: head[2],
        kind: head[3],
        body,
    })
}
