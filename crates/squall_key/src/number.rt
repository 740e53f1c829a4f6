//! Numbers as they are written in a line, and pairs of them.

ghost use Rattle.std.specs.Prelude.{◌≡◌, ◌<◌, ◌∷◌, length, position, IfSome};
ghost use Rattle.std.specs.Option.{option_map};
ghost use Rattle.squall_key.specs.Numbers.{number_of};
ghost use Rattle.squall_key.specs.Keys.{is_colon, at_colon, pair_of};

/// The number that the bytes write: 1 to 10 decimal digits, leading zeros allowed, at most
/// 4294967295. None for any other bytes, such as a sign.
pub fn read_number(text: &[u8]) -> Option<u32>
    ensures { result ≡ number_of text.now }
{
    if text.is_empty() || text.len() > 10 {
        return None;
    }
    let mut value = 0u64;
    for b in text {
        if !b.is_ascii_digit() {
            return None;
        }
        value = value * 10 + u64::from(*b - b'0');
    }
    u32::try_from(value).ok()
}

fn first_colon(text: &[u8]) -> Option<usize>
    ensures value { result ≡ position is_colon text.now }
    ensures within { IfSome result (λ i. i < length text.now) }
{
    text.iter().position(|b| *b == b':')
}

/// The bytes before the first colon, and those after it.
fn split_colon(text: &[u8]) -> Option<(&[u8], &[u8])>
    ensures { option_map (λ p. (p.0.now, p.1.now)) result ≡ at_colon text.now }
{
    let at = first_colon(text)?;
    Some((&text[..at], &text[at + 1..]))
}

/// The numbers of a text `root:second`.
pub(crate) fn read_pair(text: &[u8]) -> Option<(u32, u32)>
    ensures { result ≡ pair_of text.now }
{
    let (root, second) = split_colon(text)?;
    Some((read_number(root)?, read_number(second)?))
}
