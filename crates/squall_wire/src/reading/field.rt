//! Fields that begin bytes.

ghost use Rattle.std.specs.Prelude.{◌≡◌, length};
ghost use Rattle.std.specs.Int.{w32, w64};
ghost use Rattle.squall_wire.specs.Reading.{Gives, number_at, byte_at, hash_at};

use crate::fault::WireFault;

/// How many bytes a hash has.
const HASH_LENGTH: usize = 32;

/// The number of the first four bytes, and the bytes after it.
pub(crate) fn word_at(bytes: &[u8]) -> Result<(u32, &[u8]), WireFault>
    ensures { Gives (λ x. (x.0, x.1.now)) result (number_at w32 bytes.now) }
{
    if bytes.len() < 4 {
        return Err(WireFault::Count);
    }
    let (front, rest) = bytes.split_at(4);
    let number = u32::from_be_bytes([front[0], front[1], front[2], front[3]]);
    Ok((number, rest))
}

/// The number of the first eight bytes, and the bytes after it.
pub(crate) fn rank_at(bytes: &[u8]) -> Result<(u64, &[u8]), WireFault>
    ensures { Gives (λ x. (x.0, x.1.now)) result (number_at w64 bytes.now) }
{
    if bytes.len() < 8 {
        return Err(WireFault::Count);
    }
    let (front, rest) = bytes.split_at(8);
    let number = u64::from_be_bytes([
        front[0], front[1], front[2], front[3], front[4], front[5], front[6], front[7],
    ]);
    Ok((number, rest))
}

/// The first byte, and the bytes after it.
pub(crate) fn byte_at(bytes: &[u8]) -> Result<(u8, &[u8]), WireFault>
    ensures { Gives (λ x. (x.0, x.1.now)) result (byte_at bytes.now) }
{
    match bytes {
        [] => Err(WireFault::Count),
        [byte, rest @ ..] => Ok((*byte, rest)),
    }
}

/// The hash that begins the bytes, and the bytes after it.
#[tactic(auto, unfolding(crate::specs::Reading::hash_at))]
pub(crate) fn hash_at(bytes: &[u8]) -> Result<([u8; HASH_LENGTH], &[u8]), WireFault>
    ensures { Gives (λ x. (x.0, x.1.now)) result (hash_at bytes.now) }
{
    if bytes.len() < HASH_LENGTH {
        return Err(WireFault::Count);
    }
    let (front, rest) = bytes.split_at(HASH_LENGTH);
    let mut hash = [0; HASH_LENGTH];
    hash.copy_from_slice(front);
    Ok((hash, rest))
}
