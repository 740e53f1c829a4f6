//! How many keys are asked for, as it is written in a line.

ghost use Rattle.std.specs.Prelude.{◌≡◌};
ghost use Rattle.squall_cli_events.specs.EventLines.{most_of};

/// The number that the bytes write: 1 to 20 decimal digits, leading zeros allowed, at most
/// 18446744073709551615. None for all else, a sign among it.
pub(crate) fn read_most(text: &[u8]) -> Option<u64>
    ensures { result ≡ most_of text.now }
{
    if text.is_empty() || text.len() > 20 {
        return None;
    }
    let mut value = 0u128;
    for b in text {
        if !b.is_ascii_digit() {
            return None;
        }
        value = value * 10 + u128::from(*b - b'0');
    }
    u64::try_from(value).ok()
}
