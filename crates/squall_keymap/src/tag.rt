//! Parts of bytes between marks: words and tags.

ghost use Rattle.std.specs.Prelude.{◌≡◌, ◌==◌, ◌<◌, length, position, IfSome};
ghost use Rattle.std.specs.List.{before_first, after_first};
ghost use Rattle.std.specs.Option.{option_map};
ghost use Rattle.squall_keymap.specs.KeyMap.{tag_of, hashed_part};

/// The place of the first byte that is the mark.
fn first(bytes: &[u8], mark: u8) -> Option<usize>
    ensures value { result ≡ position (λ b. b == mark) bytes.now }
    ensures within { IfSome result (λ at. at < length bytes.now) }
{
    bytes.iter().position(|b| *b == mark)
}

/// The bytes before the first mark, and those after it. If there is no mark, all bytes are before it.
pub(crate) fn split(bytes: &[u8], mark: u8) -> (&[u8], &[u8])
    ensures before { result.0.now ≡ before_first (λ b. b == mark) bytes.now }
    ensures after { result.1.now ≡ after_first (λ b. b == mark) bytes.now }
{
    let at = first(bytes, mark).unwrap_or(bytes.len());
    (&bytes[..at], bytes.get(at + 1..).unwrap_or_default())
}

/// What is between the first `{` and the next `}`. None if there is no such byte.
fn tag(bytes: &[u8]) -> Option<&[u8]>
    ensures { option_map (λ tag. tag.now) result ≡ tag_of bytes.now }
{
    let (_, rest) = split(bytes, b'{');
    let len = first(rest, b'}')?;
    if len == 0 {
        return None;
    }
    Some(&rest[..len])
}

/// The bytes whose hash counts: those of the tag, or all if there is no tag.
pub(crate) fn hashed_part(bytes: &[u8]) -> &[u8]
    ensures { result.now ≡ hashed_part bytes.now }
{
    tag(bytes).unwrap_or(bytes)
}
