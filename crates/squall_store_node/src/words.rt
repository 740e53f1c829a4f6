//! What a line asks for.

use hex::FromHexError;
use squall_cli_lines::words::{after_blanks, next_word, only_word};
use squall_key::{Bound, Key, PartId, read_number};
use squall_protocol::Chunk;
use squall_span::Span;
use squall_store::Bytes;
use squall_store_log::{Listed, Record};
use squall_wire::{Message, decode};
use std::alloc::{AllocError, Global};

/// What a line asks for.
#[derive(Drop)]
pub(crate) enum Line {
    /// The row of a key.
    Get(Key),
    /// A call.
    Call(Record),
    /// The rows of a chunk that was given.
    Copy(Chunk),
    /// The frame of the board.
    Board,
}

/// A word as a number.
fn number(line: &[u8]) -> Option<(u32, &[u8])> {
    let (word, rest) = next_word(line)?;
    Some((read_number(word)?, rest))
}

/// A word as a bound.
fn bound(line: &[u8]) -> Option<(Bound, &[u8])> {
    let (word, rest) = next_word(line)?;
    Some((Bound::read_bytes(word)?, rest))
}

/// A word as a partition.
fn partition(line: &[u8]) -> Option<(PartId, &[u8])> {
    let (word, rest) = next_word(line)?;
    let number = read_number(word)?;
    match PartId::new(number) {
        Some(part) => Some((part, rest)),
        None => None,
    }
}

/// Two words as a span.
fn span(line: &[u8]) -> Option<(Span, &[u8])> {
    let Some((lo, rest)) = bound(line) else {
        return None;
    };
    let Some((hi, rest)) = bound(rest) else {
        return None;
    };
    match Span::new(lo, hi) {
        Some(span) => Some((span, rest)),
        None => None,
    }
}

/// The words of a chunk.
fn chunk(line: &[u8]) -> Option<(Chunk, &[u8])> {
    let (course, rest) = number(line)?;
    let (sub, rest) = number(rest)?;
    let Some((source, rest)) = partition(rest) else {
        return None;
    };
    let Some((dest, rest)) = partition(rest) else {
        return None;
    };
    let Some((span, rest)) = span(rest) else {
        return None;
    };
    match Chunk::new(course, sub, source, dest, span) {
        Some(chunk) => Some((chunk, rest)),
        None => None,
    }
}

/// The bytes that hexadecimal digits write. None if they write none.
fn bytes_of(alloc: Global, digits: &[u8]) -> Result<Option<Vec<u8>>, AllocError> {
    match hex::decode(alloc, digits) {
        Ok(bytes) => Ok(Some(bytes)),
        Err(FromHexError::OutOfMemory) => Err(AllocError),
        Err(_) => Ok(None),
    }
}

/// Where the sign between a key and its value stands.
fn sign_in(word: &[u8]) -> Option<usize> {
    word.iter().position(|byte| *byte == b'=')
}

/// A row of a load: a key and the digits of its value.
fn row(word: &[u8]) -> Option<(Key, &[u8])> {
    let at = sign_in(word)?;
    if at >= word.len() {
        return None;
    }
    let (key, value) = word.split_at(at);
    Some((Key::read_bytes(key)?, value.split_at(1).1))
}

/// Adds the row of a word. False if the word is none.
fn add_row(rows: &mut Listed, alloc: Global, word: &[u8]) -> Result<bool, AllocError> {
    let Some((key, digits)) = row(word) else {
        return Ok(false);
    };
    match bytes_of(alloc, digits)? {
        Some(value) => {
            rows.push(key, Bytes::new(alloc, &value)?)?;
            Ok(true)
        }
        None => Ok(false),
    }
}

/// The rows of the words of a load. None if one is no row.
fn rows(alloc: Global, line: &[u8]) -> Result<Option<Listed>, AllocError> {
    let mut rows = Listed::new(alloc);
    let mut rest = line;
    for _ in 0..line.len() {
        let Some((word, after)) = next_word(rest) else {
            break;
        };
        if !add_row(&mut rows, alloc, word)? {
            return Ok(None);
        }
        rest = after;
    }
    Ok(Some(rows))
}

/// A load.
fn load(alloc: Global, line: &[u8]) -> Result<Option<Line>, AllocError> {
    let Some((chunk, rest)) = chunk(line) else {
        return Ok(None);
    };
    match rows(alloc, rest)? {
        Some(rows) => Ok(Some(Line::Call(Record::Load(chunk, rows)))),
        None => Ok(None),
    }
}

/// A delta, from the digits of its frame.
fn hear(alloc: Global, line: &[u8]) -> Result<Option<Line>, AllocError> {
    let Some(digits) = only_word(line) else {
        return Ok(None);
    };
    let Some(frame) = bytes_of(alloc, digits)? else {
        return Ok(None);
    };
    let (message, _used) = match decode(alloc, &frame) {
        Ok(read) => read,
        Err(_fault) => return Ok(None),
    };
    match message {
        Message::Delta(delta) => Ok(Some(Line::Call(Record::Absorb(delta)))),
        Message::Digest(_digest) => Ok(None),
    }
}

/// A put: a key, and the text after it.
fn put(alloc: Global, line: &[u8]) -> Result<Option<Line>, AllocError> {
    let Some((word, rest)) = next_word(line) else {
        return Ok(None);
    };
    let Some(key) = Key::read_bytes(word) else {
        return Ok(None);
    };
    let value = Bytes::new(alloc, after_blanks(rest))?;
    Ok(Some(Line::Call(Record::Put(key, value))))
}

/// The key of the only word.
fn only_key(line: &[u8]) -> Option<Key> {
    Key::read_bytes(only_word(line)?)
}

/// The number of the only word.
fn only_number(line: &[u8]) -> Option<u32> {
    read_number(only_word(line)?)
}

/// The rows of a chunk.
fn copy(line: &[u8]) -> Option<Line> {
    let Some((chunk, rest)) = chunk(line) else {
        return None;
    };
    if next_word(rest).is_some() {
        return None;
    }
    Some(Line::Copy(chunk))
}

/// What a line of one word after its name asks for.
fn short(name: &[u8], rest: &[u8]) -> Option<Line> {
    if name == b"get".as_slice() {
        return Some(Line::Get(only_key(rest)?));
    }
    if name == b"del".as_slice() {
        return Some(Line::Call(Record::Delete(only_key(rest)?)));
    }
    if name == b"give".as_slice() {
        return Some(Line::Call(Record::Give(u64::from(only_number(rest)?))));
    }
    if name == b"finish".as_slice() {
        return Some(Line::Call(Record::Finish(only_number(rest)?)));
    }
    if name == b"copy".as_slice() {
        return copy(rest);
    }
    if name == b"close".as_slice() {
        return Some(Line::Call(Record::Close));
    }
    if name == b"board".as_slice() {
        return Some(Line::Board);
    }
    None
}

/// What a line asks for. None if it is no line that the program knows.
pub(crate) fn read(alloc: Global, line: &[u8]) -> Result<Option<Line>, AllocError> {
    let Some((name, rest)) = next_word(line) else {
        return Ok(None);
    };
    if name == b"put".as_slice() {
        return put(alloc, rest);
    }
    if name == b"load".as_slice() {
        return load(alloc, rest);
    }
    if name == b"hear".as_slice() {
        return hear(alloc, rest);
    }
    Ok(short(name, rest))
}
