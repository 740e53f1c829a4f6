//! The words of a line: numbers, places and bounds.

ghost use Rattle.std.specs.Prelude.{◌≡◌, ◌↔◌, [], IsSome};
ghost use Rattle.std.specs.Option.{option_map};
ghost use Rattle.squall_cli_lines.specs.Words.{words_of};
ghost use Rattle.squall_cli_words.specs.Forms.{number_first, two_words, cell_first, two_bounds};

use squall_cli_lines::words::{next_word, only_word};
use squall_key::{Bound, read_number};

/// None if a word is left.
pub fn no_word(rest: &[u8]) -> Option<()>
    ensures { IsSome result ↔ (words_of rest.now ≡ []) }
{
    match next_word(rest) {
        None => Some(()),
        Some(_) => None,
    }
}

/// The number that the first word writes, and the rest after it.
pub fn number_first(rest: &[u8]) -> Option<(u32, &[u8])>
    ensures { option_map (λ r. (r.0, words_of r.1.now)) result ≡ number_first (words_of rest.now) }
{
    let (word, rest) = next_word(rest)?;
    Some((read_number(word)?, rest))
}

/// The two words that there are.
pub fn two_words(rest: &[u8]) -> Option<(&[u8], &[u8])>
    ensures { option_map (λ r. (r.0.now, r.1.now)) result ≡ two_words (words_of rest.now) }
{
    let (first, rest) = next_word(rest)?;
    let second = only_word(rest)?;
    Some((first, second))
}

/// The numbers of a reconfiguration, a sub-plan and a partition, and the rest after them.
pub fn cell_first(rest: &[u8]) -> Option<(u32, u32, u32, &[u8])>
    ensures { option_map (λ r. (r.0, r.1, r.2, words_of r.3.now)) result ≡ cell_first (words_of rest.now) }
{
    let (number, rest) = number_first(rest)?;
    let (sub, rest) = number_first(rest)?;
    let (part, rest) = number_first(rest)?;
    Some((number, sub, part, rest))
}

/// The two bounds that are written.
pub fn two_bounds(rest: &[u8]) -> Option<(Bound, Bound)>
    ensures { result ≡ two_bounds (words_of rest.now) }
{
    let (lo, hi) = two_words(rest)?;
    let lo = Bound::read_bytes(lo)?;
    let hi = Bound::read_bytes(hi)?;
    Some((lo, hi))
}
