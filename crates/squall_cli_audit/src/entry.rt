//! What a line of a log says.

ghost use Rattle.std.specs.Prelude.{◌≡◌, IfOk};
ghost use Rattle.squall_cli_lines.specs.Words.{words_of};
ghost use Rattle.squall_cli_audit.specs.LogLines.{own_line, entry_by, entry_of};

use crate::leader::{heard_line, leader_line};
use crate::part::{part_line, router_line};
use squall_cli_lines::words::next_word;
use squall_judge::Entry;
use squall_protocol::Node;
use std::alloc::{AllocError, Global};

/// The entry of what the node did, from a line that begins with the name. It fails (memory).
fn own_line(
    alloc: Global,
    node: &Node,
    name: &[u8],
    rest: &[u8],
) -> Result<Option<Entry>, AllocError>
    ensures { IfOk result (λ entry. entry ≡ own_line node.now name.now rest.now) }
{
    match node {
        Node::Leader => leader_line(alloc, name, rest),
        Node::Part(part) => Ok(part_line(*part, name, rest)),
        Node::Router(router) => Ok(router_line(*router, name, rest)),
    }
}

/// The entry of a line that begins with the name. It fails (memory).
fn entry_by(
    alloc: Global,
    node: &Node,
    name: &[u8],
    rest: &[u8],
) -> Result<Option<Entry>, AllocError>
    ensures { IfOk result (λ entry. entry ≡ entry_by node.now name.now rest.now) }
{
    if name == b"heard".as_slice() {
        return heard_line(alloc, rest);
    }
    own_line(alloc, node, name, rest)
}

/// What a line of the node's log says. None if it has the form of no such line. It fails (memory).
pub(crate) fn read_entry(
    alloc: Global,
    node: &Node,
    line: &[u8],
) -> Result<Option<Entry>, AllocError>
    ensures { IfOk result (λ entry. entry ≡ entry_of node.now line.now) }
{
    match next_word(line) {
        Some((name, rest)) => entry_by(alloc, node, name, rest),
        None => Ok(None),
    }
}
