//! The words of a line: names before values, spans, and numbers before texts.

ghost use Rattle.std.specs.Prelude.{◌≡◌};
ghost use Rattle.std.specs.Option.{option_map};
ghost use Rattle.squall_cli_lines.specs.Words.{words_of};
ghost use Rattle.squall_cli_audit.specs.LogWords.{after_name, named_number, two_first, way_first, span_of, part_of, number_alone, number_then};

use squall_cli_lines::words::{next_word, only_word};
use squall_cli_words::words::number_first;
use squall_key::{Bound, PartId, read_number};
use squall_span::Span;

/// The rest after the name, if it is the first word.
pub(crate) fn after_name<'a>(name: &[u8], rest: &'a [u8]) -> Option<&'a [u8]>
    ensures { option_map (λ r. words_of r.now) result ≡ after_name name.now (words_of rest.now) }
{
    let (word, rest) = next_word(rest)?;
    if word == name { Some(rest) } else { None }
}

/// The number after the name, and the rest after it.
pub(crate) fn named_number<'a>(name: &[u8], rest: &'a [u8]) -> Option<(u32, &'a [u8])>
    ensures { option_map (λ r. (r.0, words_of r.1.now)) result ≡ named_number name.now (words_of rest.now) }
{
    number_first(after_name(name, rest)?)
}

/// The number that the only word writes.
pub(crate) fn number_alone(rest: &[u8]) -> Option<u32>
    ensures { result ≡ number_alone (words_of rest.now) }
{
    read_number(only_word(rest)?)
}

/// The first two words, and the rest after them.
pub(crate) fn two_first(rest: &[u8]) -> Option<(&[u8], &[u8], &[u8])>
    ensures { option_map (λ r. (r.0.now, r.1.now, words_of r.2.now)) result ≡ two_first (words_of rest.now) }
{
    let (first, rest) = next_word(rest)?;
    let (second, rest) = next_word(rest)?;
    Some((first, second, rest))
}

/// `WAY P course N sub S`, and the rest after these words.
pub(crate) fn way_first<'a>(way: &[u8], rest: &'a [u8]) -> Option<(u32, u32, u32, &'a [u8])>
    ensures { option_map (λ r. (r.0, r.1, r.2, words_of r.3.now)) result ≡ way_first way.now (words_of rest.now) }
{
    let (part, rest) = named_number(way, rest)?;
    let (number, rest) = named_number(b"course", rest)?;
    let (sub, rest) = named_number(b"sub", rest)?;
    Some((part, number, sub, rest))
}

/// The span of the bounds that the words write, if it has a key.
pub(crate) fn span_of(lo: &[u8], hi: &[u8]) -> Option<Span>
    ensures { result ≡ span_of lo.now hi.now }
{
    let lo = Bound::read_bytes(lo)?;
    let hi = Bound::read_bytes(hi)?;
    Span::new(lo, hi)
}

/// The partition of the number, if the number is within its limit.
pub(crate) fn part_of(number: u32) -> Option<PartId>
    ensures { result ≡ part_of number }
{
    PartId::new(number)
}

/// The number that the first word writes, and the rest right after it.
pub(crate) fn number_then(line: &[u8]) -> Option<(u32, &[u8])>
    ensures { option_map (λ r. (r.0, r.1.now)) result ≡ number_then line.now }
{
    let (word, rest) = next_word(line)?;
    Some((read_number(word)?, rest))
}
