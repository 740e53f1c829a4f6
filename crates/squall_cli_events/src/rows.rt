//! Commands on rows as lines write them, and rows as they are shown.

ghost use Rattle.std.specs.Prelude.{◌≡◌, ◌++◌, Some, None, if◌then◌else◌, IfSome, OnOk, string_bytes};
ghost use Rattle.std.specs.Option.{option_map};
ghost use Rattle.squall_cli_lines.specs.Words.{words_of, is_letter, from_first, after_first_word};
ghost use Rattle.std.specs.Str.{is_utf8};
ghost use Rattle.squall_cli_events.specs.RowLines.{part_and_key, put_line, get_line, del_line, row_line, row_seen, is_line, row_text, row_answer};

use squall_cli_lines::words::{after_blanks, next_word};
use squall_cli_words::words::no_word;
use squall_key::{Key, read_number};
use std::alloc::AllocError;

/// A command on the row of a key at a partition as a line writes it, whatever the partition's number
/// is.
#[derive(Clone, Copy, Debug)]
pub enum RowWords<'a> {
    /// `put P K TEXT`
    Put {
        /// The partition.
        part: u32,
        /// The key.
        key: Key,
        /// The row, which has a byte.
        text: &'a [u8],
    },
    /// `get P K`
    Get {
        /// The partition.
        part: u32,
        /// The key.
        key: Key,
    },
    /// `del P K`
    Del {
        /// The partition.
        part: u32,
        /// The key.
        key: Key,
    },
}

impl RowWords<'_> {
    /// The partition.
    pub fn part(&self) -> u32
        ensures { result ≡ (row_seen self.now).part }
    {
        match self {
            RowWords::Put { part, .. } => *part,
            RowWords::Get { part, .. } | RowWords::Del { part, .. } => *part,
        }
    }

    /// The key.
    pub fn key(&self) -> Key
        ensures { result ≡ (row_seen self.now).key }
    {
        match self {
            RowWords::Put { key, .. } => *key,
            RowWords::Get { key, .. } | RowWords::Del { key, .. } => *key,
        }
    }
}

/// The partition and the key that the first two words write, and the rest after them.
#[tactic(auto, using(crate::proofs::LineWords::after_first_word_again))]
fn part_and_key(rest: &[u8]) -> Option<(u32, Key, &[u8])>
    ensures words { option_map (λ r. (r.0, r.1, words_of r.2.now)) result ≡ part_and_key (words_of rest.now) }
    ensures text { IfSome result (λ r. from_first is_letter r.2.now ≡ after_first_word (after_first_word (from_first is_letter rest.now))) }
{
    let (word, rest) = next_word(rest)?;
    let part = read_number(word)?;
    let (word, rest) = next_word(rest)?;
    let key = Key::read_bytes(word)?;
    Some((part, key, rest))
}

/// `put P K TEXT`
fn put_line(rest: &[u8]) -> Option<RowWords>
    ensures { option_map row_seen result ≡ put_line (words_of rest.now) (from_first is_letter rest.now) }
{
    let Some((part, key, rest)) = part_and_key(rest) else {
        return None;
    };
    let text = after_blanks(rest);
    if text.is_empty() {
        return None;
    }
    Some(RowWords::Put { part, key, text })
}

/// `get P K`
fn get_line(rest: &[u8]) -> Option<RowWords<'static>>
    ensures { option_map row_seen result ≡ get_line (words_of rest.now) }
{
    let Some((part, key, rest)) = part_and_key(rest) else {
        return None;
    };
    no_word(rest)?;
    Some(RowWords::Get { part, key })
}

/// `del P K`
fn del_line(rest: &[u8]) -> Option<RowWords<'static>>
    ensures { option_map row_seen result ≡ del_line (words_of rest.now) }
{
    let Some((part, key, rest)) = part_and_key(rest) else {
        return None;
    };
    no_word(rest)?;
    Some(RowWords::Del { part, key })
}

/// The command on a row that a line writes whose first word is the name. None if the name is that
/// of no command, or if the rest of the line does not have that command's form.
pub fn row_line<'a>(name: &[u8], rest: &'a [u8]) -> Option<RowWords<'a>>
    ensures { option_map row_seen result ≡ row_line name.now (words_of rest.now) (from_first is_letter rest.now) }
{
    if name == b"put".as_slice() {
        return put_line(rest);
    }
    if name == b"get".as_slice() {
        return get_line(rest);
    }
    if name == b"del".as_slice() {
        return del_line(rest);
    }
    None
}

/// The text of the bytes, if they are UTF-8.
fn utf8_of(bytes: &[u8]) -> Option<&str>
    ensures { option_map (λ text. text.now) result ≡ (if is_utf8 bytes.now then Some bytes.now else None) }
{
    match std::str::from_utf8(bytes) {
        Ok(text) => Some(text),
        Err(_) => None,
    }
}

/// The text of the bytes, if they are a text on one line.
fn line_of(bytes: &[u8]) -> Option<&str>
    ensures { option_map (λ text. text.now) result ≡ (if is_line bytes.now then Some bytes.now else None) }
{
    if bytes.contains(&b'\n') {
        return None;
    }
    utf8_of(bytes)
}

/// Adds the row, without its line end.
fn add_text(row: Option<&[u8]>, out: &mut String) -> Result<(), AllocError>
    ensures { OnOk result (string_bytes out.new ≡ string_bytes out.old ++ row_text (option_map (λ bytes. bytes.now) row.entry)) }
{
    let Some(bytes) = row else {
        return write!(out, "row");
    };
    match line_of(bytes) {
        Some(text) => write!(out, "row {text}"),
        None => {
            let digits = hex::encode(*out.allocator(), bytes)?;
            write!(out, "bytes {digits}")
        }
    }
}

/// Adds the line that shows a row.
pub fn add_row(row: Option<&[u8]>, out: &mut String) -> Result<(), AllocError>
    ensures { OnOk result (string_bytes out.new ≡ string_bytes out.old ++ row_answer (option_map (λ bytes. bytes.now) row.entry)) }
{
    add_text(row, out)?;
    write!(out, "\n")
}
