//! The key of a row.

ghost use Rattle.std.specs.Prelude.{◌≡◌};
ghost use Rattle.squall_keymap.specs.KeyMap.{pair_of_words, pair_in_front, key_of_bytes};

use crate::hash::hashed;
use crate::tag::{hashed_part, split};
use squall_key::{Key, read_number};

/// The key of the numbers that the words write.
fn pair_of_words(first: &[u8], second: &[u8]) -> Option<Key>
    ensures { result ≡ pair_of_words first.now second.now }
{
    Key::new(read_number(first)?, read_number(second)?)
}

/// The key of the two numbers with which the bytes begin.
fn pair_in_front(bytes: &[u8]) -> Option<Key>
    ensures { result ≡ pair_in_front bytes.now }
{
    let (first, rest) = split(bytes, b':');
    let (second, _) = split(rest, b':');
    pair_of_words(first, second)
}

/// The key to which a row belongs whose own key is these bytes.
///
/// Bytes that begin with two numbers, as `2:7` or `2:7:cart`, belong to the key of these numbers. A
/// number has 1 to 10 decimal digits and is at most 4294967295, the first one at most 4294967294. All
/// other bytes belong to the key of a hash. It is that of the bytes between the first `{` and the
/// next `}` after it, if there is at least one, or else that of all bytes.
pub fn key_of(bytes: &[u8]) -> Key
    ensures { result ≡ key_of_bytes bytes.now }
{
    match pair_in_front(bytes) {
        Some(key) => key,
        None => hashed(hashed_part(bytes)),
    }
}
