//! Two texts on one line.

ghost use Rattle.std.specs.Prelude.{◌≡◌, ◌≤◌, length};
ghost use Rattle.squall_cli_events.specs.EventLines.{opens_next, first_length};

use squall_cli_lines::words::after_blanks;

/// Whether the next byte that is no blank is a `{`.
fn opens_next(bytes: &[u8]) -> bool
    ensures { result ≡ opens_next bytes.now }
{
    matches!(after_blanks(bytes), [b'{', ..])
}

/// The length of the first of two texts: it ends with the first `}` after which the next byte that
/// is no blank is a `{`. If there is no such `}`, the first text is all.
pub(crate) fn first_length(text: &[u8]) -> usize
    ensures value { result ≡ first_length text.now }
    ensures within { result ≤ length text.now }
{
    for (i, b) in text.iter().enumerate() {
        if *b == b'}' && opens_next(&text[i + 1..]) {
            return i + 1;
        }
    }
    text.len()
}
