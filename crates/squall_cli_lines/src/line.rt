//! The first line of a text.
ghost use Rattle.std.specs.Prelude.{◌≡◌, [], ◌∷◌, ◌++◌, ◌<◌, length, IfSome, IfNone};
ghost use Rattle.squall_cli_lines.specs.Lines.{lines_of, IsOneLine};

use memchr::memchr;

/// The bytes before the first LF, and those after it.
pub(crate) fn first_line(bytes: &[u8]) -> Option<(&[u8], &[u8])>
    ensures line { IfSome result (λ r. (bytes.now ≡ r.0.now ++ 10 ∷ r.1.now) × IsOneLine r.0.now) }
    ensures shorter { IfSome result (λ r. length r.1.now < length bytes.now) }
    ensures none { IfNone result (IsOneLine bytes.now) }
{
    let at = memchr(b'\n', bytes)?;
    Some((&bytes[..at], &bytes[at + 1..]))
}

/// The first line of a text, without its LF, and the text that follows it: the other lines. None
/// if the text is empty.
pub fn next_line(text: &[u8]) -> Option<(&[u8], &[u8])>
    ensures lines { IfSome result (λ r. lines_of text.now ≡ r.0.now ∷ lines_of r.1.now) }
    ensures shorter { IfSome result (λ r. length r.1.now < length text.now) }
    ensures none { IfNone result (text.now ≡ []) }
{
    if text.is_empty() {
        return None;
    }
    match first_line(text) {
        Some((line, others)) => Some((line, others)),
        None => Some((text, &[])),
    }
}
