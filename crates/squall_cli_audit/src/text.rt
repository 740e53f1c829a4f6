//! The text of a log, line by line.

ghost use Rattle.std.specs.Prelude.{◌≡◌, ◌+◌, ◌^◌, ◌<◌, ◌≤◌, [], ◌∷◌, length, IfOk, IfSome, IfNone};
ghost use Rattle.squall_cli_lines.specs.Words.{words_of};
ghost use Rattle.squall_cli_audit.specs.LogTexts.{is_remark, filled_lines};
ghost use Rattle.squall_cli_audit.specs.Read.{AreEntries, IsRead};

use crate::entry::read_entry;
use crate::node::node_line;
use squall_cli_lines::next_line;
use squall_cli_lines::words::{next_word, without_cr};
use squall_judge::{Entry, Log};
use squall_protocol::Node;
use std::alloc::{AllocError, Global};

/// A log, and the numbers of the lines of its entries.
#[derive(Drop)]
pub(crate) struct ReadLog {
    pub(crate) log: Log,
    pub(crate) lines: Vec<u64>,
}

/// Whether the line has no word, or its first word begins with `#` or is `forget`.
fn is_remark(line: &[u8]) -> bool
    ensures { result ≡ is_remark (words_of line.now) }
{
    match next_word(line) {
        Some((word, _)) => word.first() == Some(&b'#') || word == b"forget".as_slice(),
        None => true,
    }
}

/// The first line that says something, with its number and the text of the other lines. The text's first
/// line has the number `first`.
fn next_filled(text: &[u8], first: u64) -> Option<(u64, &[u8], &[u8])>
    requires { first + length text.now < 2 ^ 64 }
    ensures some { IfSome result (λ r. filled_lines first text.now ≡ (r.0, r.1.now) ∷ filled_lines (r.0 + 1) r.2.now) }
    ensures shorter { IfSome result (λ r. length r.2.now < length text.now) }
    ensures fits { IfSome result (λ r. (r.0 + 1) + length r.2.now < 2 ^ 64) }
    ensures none { IfNone result (filled_lines first text.now ≡ []) }
{
    let mut rest = text;
    let mut number = first;
    while let Some((line, others)) = next_line(rest) {
        let line = without_cr(line);
        if !is_remark(line) {
            return Some((number, line, others));
        }
        rest = others;
        number += 1;
    }
    None
}

/// The entries of a text without its first line, or the number of the first bad line. It fails (memory).
fn read_entries(
    alloc: Global,
    node: &Node,
    text: &[u8],
    first: u64,
) -> Result<Result<ReadLog, u64>, AllocError>
    requires { first + length text.now < 2 ^ 64 }
    ensures { IfOk result (λ read. AreEntries node.now (filled_lines first text.now) read) }
{
    let mut entries = Vec::new(alloc);
    let mut lines = Vec::new(alloc);
    let mut rest = text;
    let mut next = first;
    while let Some((number, line, others)) = next_filled(rest, next) {
        let Some(entry) = read_entry(alloc, node, line)? else {
            return Ok(Err(number));
        };
        entries.push(entry)?;
        lines.push(number)?;
        rest = others;
        next = number + 1;
    }
    let log = Log {
        node: *node,
        entries,
    };
    Ok(Ok(ReadLog { log, lines }))
}

/// The log of a text, or the number of the first bad line. A text that names no node lacks its first
/// line. It fails (memory).
pub(crate) fn read_log(alloc: Global, text: &[u8]) -> Result<Result<ReadLog, u64>, AllocError>
    ensures { IfOk result (λ read. IsRead (filled_lines 1 text.now) read) }
{
    let _size = text.len();
    let Some((number, line, others)) = next_filled(text, 1) else {
        return Ok(Err(1));
    };
    match node_line(line) {
        Some(node) => read_entries(alloc, &node, others, number + 1),
        None => Ok(Err(number)),
    }
}
