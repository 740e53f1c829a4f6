//! Fields that begin bytes.

ghost use Rattle.std.specs.Prelude.{◌≡◌, ◌≢◌, ◌++◌, ◌<◌, ℕ, List, length, IfSome, IfNone, OnOk};
ghost use Rattle.squall_key.specs.Keys.{top};
ghost use Rattle.squall_store_log.specs.Records.{word, rank};

use squall_key::Key;
use std::alloc::AllocError;

/// The number of the first four bytes, and the bytes after it.
pub(crate) fn word_at(bytes: &[u8]) -> Option<(u32, &[u8])>
    ensures some { IfSome result (λ x. bytes.now ≡ word x.0 ++ x.1.now) }
    ensures none { IfNone result (length bytes.now < 4) }
{
    if bytes.len() < 4 {
        return None;
    }
    let (front, rest) = bytes.split_at(4);
    let number = u32::from_be_bytes([front[0], front[1], front[2], front[3]]);
    Some((number, rest))
}

/// The number of the first eight bytes, and the bytes after it.
pub(crate) fn rank_at(bytes: &[u8]) -> Option<(u64, &[u8])>
    ensures some { IfSome result (λ x. bytes.now ≡ rank x.0 ++ x.1.now) }
    ensures none { IfNone result (length bytes.now < 8) }
{
    if bytes.len() < 8 {
        return None;
    }
    let (front, rest) = bytes.split_at(8);
    let number = u64::from_be_bytes([
        front[0], front[1], front[2], front[3], front[4], front[5], front[6], front[7],
    ]);
    Some((number, rest))
}

/// The key of the first eight bytes, and the bytes after it.
pub(crate) fn key_at(bytes: &[u8]) -> Option<(Key, &[u8])>
    ensures some { IfSome result (λ x. (x.0 < top) × (bytes.now ≡ rank x.0 ++ x.1.now)) }
    ensures none { IfNone result ((k : ℕ) (rest : List ℕ) → k < top → bytes.now ≢ rank k ++ rest) }
{
    let (number, rest) = rank_at(bytes)?;
    let key = Key::of_rank(number)?;
    Some((key, rest))
}

/// Adds the four bytes of a number. An error means that an allocation failed.
pub(crate) fn write_word(out: &mut Vec<u8>, number: u32) -> Result<(), AllocError>
    ensures { OnOk result (out.new.items ≡ out.old.items ++ word number) }
{
    out.extend_from_slice(&number.to_be_bytes())
}

/// Adds the eight bytes of a number. An error means that an allocation failed.
pub(crate) fn write_rank(out: &mut Vec<u8>, number: u64) -> Result<(), AllocError>
    ensures { OnOk result (out.new.items ≡ out.old.items ++ rank number) }
{
    out.extend_from_slice(&number.to_be_bytes())
}
