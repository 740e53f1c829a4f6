//! Words of a line: the text between spaces and tabs.
ghost use Rattle.std.specs.Prelude.{◌≡◌, ℕ, List, [], ◌∷◌, ◌<◌, false, length, IfSome, IfNone};
ghost use Rattle.std.specs.List.{before_first};
ghost use Rattle.std.specs.Option.{option_map};
ghost use Rattle.squall_cli_lines.specs.Words.{is_blank, is_letter, from_first, words_of, only_word, first_word, after_word, after_first_word, without_cr};

/// Whether the byte is a blank.
fn is_blank(b: u8) -> bool
    ensures { result ≡ is_blank b }
{
    b == b' ' || b == b'\t'
}

/// The line without the blanks before its first word.
pub fn after_blanks(line: &[u8]) -> &[u8]
    ensures { result.now ≡ from_first is_letter line.now }
{
    for (i, b) in line.iter().enumerate() {
        if !is_blank(*b) {
            return &line[i..];
        }
    }
    &[]
}

/// The bytes before the first blank, and the rest from that blank on.
fn split_word(line: &[u8]) -> (&[u8], &[u8])
    ensures word { result.0.now ≡ before_first is_blank line.now }
    ensures rest { result.1.now ≡ from_first is_blank line.now }
{
    for (i, b) in line.iter().enumerate() {
        if is_blank(*b) {
            return (&line[..i], &line[i..]);
        }
    }
    (line, &[])
}

/// The first word, and the rest right after it, which is empty or begins with a blank.
/// `None` if the line has no word.
pub fn next_word(line: &[u8]) -> Option<(&[u8], &[u8])>
    ensures words { IfSome result (λ r. words_of line.now ≡ r.0.now ∷ words_of r.1.now) }
    ensures word { IfSome result (λ r. r.0.now ≡ first_word line.now) }
    ensures filled { IfSome result (λ r. 0 < length r.0.now) }
    ensures rest { IfSome result (λ r. r.1.now ≡ after_word line.now) }
    ensures argument { IfSome result (λ r. from_first is_letter r.1.now ≡ after_first_word line.now) }
    ensures none { IfNone result (words_of line.now ≡ []) }
    ensures blank { IfNone result (after_first_word line.now ≡ []) }
{
    let rest = after_blanks(line);
    if rest.is_empty() {
        return None;
    }
    Some(split_word(rest))
}

/// The word of a line that has one word. `None` if it has no word or several.
pub fn only_word(line: &[u8]) -> Option<&[u8]>
    ensures { option_map (λ word. word.now) result ≡ only_word (words_of line.now) }
{
    let (word, rest) = next_word(line)?;
    match next_word(rest) {
        None => Some(word),
        Some(_) => None,
    }
}

/// The line without the one CR that may be at its end.
pub fn without_cr(line: &[u8]) -> &[u8]
    ensures { result.now ≡ without_cr line.now }
{
    match line {
        [text @ .., b'\r'] => text,
        _ => line,
    }
}
