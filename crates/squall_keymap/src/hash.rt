//! The key of a hash.

ghost use Rattle.std.specs.Prelude.{◌≡◌, ◌<◌};
ghost use Rattle.squall_key.specs.Keys.{top};
ghost use Rattle.squall_keymap.specs.KeyMap.{fnv, folded, mixed, scaled, hashed};

use squall_key::{Bound, Key};

/// FNV-1a of 64 bits.
fn fnv(bytes: &[u8]) -> u64
    ensures { result ≡ fnv bytes.now }
{
    bytes.iter().fold(0xcbf2_9ce4_8422_2325, |hash, byte| {
        (hash ^ u64::from(*byte)).wrapping_mul(0x0100_0000_01b3)
    })
}

/// The hash with its bits mixed.
fn mixed(hash: u64) -> u64
    ensures { result ≡ mixed hash }
{
    let low = (hash ^ (hash >> 32)).wrapping_mul(0x9e37_79b9_7f4a_7c15);
    low ^ (low >> 29)
}

/// The number as a rank below the end of all keys.
fn scaled(hash: u64) -> u64
    ensures value { result ≡ scaled hash }
    ensures below { result < top }
{
    ((u128::from(hash) * u128::from(Bound::TOP.rank())) >> 64) as u64
}

/// The key of the hash of the bytes.
pub(crate) fn hashed(bytes: &[u8]) -> Key
    ensures { result ≡ hashed bytes.now }
{
    match Key::of_rank(scaled(mixed(fnv(bytes)))) {
        Some(key) => key,
        None => unreachable!(),
    }
}
