//! What a line of a race file says.

ghost use Rattle.std.specs.Prelude.{◌≡◌};
ghost use Rattle.std.specs.Option.{option_map};
ghost use Rattle.squall_cli_lines.specs.Words.{words_of, is_letter, from_first};
ghost use Rattle.squall_cli_race.specs.RaceLines.{number_alone, key_line, post_line, item_by, line_by, race_line};
ghost use Rattle.squall_cli_race.specs.Taken.{line_seen};

use squall_cli_lines::LONGEST_LINE;
use squall_cli_lines::words::{after_blanks, next_word, only_word};
use squall_cli_words::{Reason, ReportWords, report_line};
use squall_key::{Key, read_number};

/// What lines say of a race once both plans are read.
#[derive(Clone, Copy, Debug)]
pub(crate) enum Item {
    /// For how many letters the inbox has room.
    Capacity(u32),
    /// How many readers there are.
    Readers(u32),
    /// How many senders there are.
    Senders(u32),
    /// A report that the sender of that number posts.
    Post { sender: u32, report: ReportWords },
    /// A key to route.
    Ask(Key),
}

/// What a line says.
#[derive(Clone, Copy, Debug)]
pub(crate) enum LineWords<'a> {
    /// Nothing: it has no words, or is a remark.
    Skip,
    /// The old plan, by its text.
    Old(&'a [u8]),
    /// The new plan, by its text.
    New(&'a [u8]),
    Has(Item),
    Bad(Reason),
}

/// The number that the only word writes.
fn number_alone(rest: &[u8]) -> Option<u32>
    ensures { result ≡ number_alone (words_of rest.now) }
{
    read_number(only_word(rest)?)
}

/// `key K`
fn key_line(rest: &[u8]) -> Option<Item>
    ensures { result ≡ key_line (words_of rest.now) }
{
    Some(Item::Ask(Key::read_bytes(only_word(rest)?)?))
}

/// `N REPORT`
fn post_line(name: &[u8], rest: &[u8]) -> Option<Item>
    ensures { result ≡ post_line name.now (words_of rest.now) }
{
    let sender = read_number(name)?;
    let (name, rest) = next_word(rest)?;
    let report = report_line(name, rest)?;
    Some(Item::Post { sender, report })
}

/// The item that the first word and those after it write.
fn item_by(name: &[u8], rest: &[u8]) -> Option<Item>
    ensures { result ≡ item_by name.now (words_of rest.now) }
{
    if name == b"capacity".as_slice() {
        return Some(Item::Capacity(number_alone(rest)?));
    }
    if name == b"readers".as_slice() {
        return Some(Item::Readers(number_alone(rest)?));
    }
    if name == b"senders".as_slice() {
        return Some(Item::Senders(number_alone(rest)?));
    }
    if name == b"key".as_slice() {
        return key_line(rest);
    }
    post_line(name, rest)
}

/// What the first word and those after it say. `None` if they do not have the form of a line.
fn line_by<'a>(name: &[u8], rest: &'a [u8]) -> Option<LineWords<'a>>
    ensures { option_map line_seen result ≡ line_by name.now (words_of rest.now) (from_first is_letter rest.now) }
{
    if name == b"old".as_slice() {
        return Some(LineWords::Old(after_blanks(rest)));
    }
    if name == b"new".as_slice() {
        return Some(LineWords::New(after_blanks(rest)));
    }
    Some(LineWords::Has(item_by(name, rest)?))
}

/// What the line says, its line end taken off.
pub(crate) fn read_line(line: &[u8]) -> LineWords
    ensures { line_seen result ≡ race_line line.now }
{
    if line.len() > LONGEST_LINE {
        return LineWords::Bad(Reason::Long);
    }
    let Some((name, rest)) = next_word(line) else {
        return LineWords::Skip;
    };
    if name.first() == Some(&b'#') {
        return LineWords::Skip;
    }
    match line_by(name, rest) {
        Some(words) => words,
        None => LineWords::Bad(Reason::Word),
    }
}
