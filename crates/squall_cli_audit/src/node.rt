//! The first line of a log.

ghost use Rattle.std.specs.Prelude.{◌≡◌};
ghost use Rattle.squall_cli_lines.specs.Words.{words_of};
ghost use Rattle.squall_cli_audit.specs.LogLines.{node_by, node_line};

use crate::words::{after_name, number_alone, part_of};
use squall_cli_lines::words::next_word;
use squall_cli_words::words::no_word;
use squall_protocol::Node;

/// The node of the role and the words after it.
fn node_by(role: &[u8], rest: &[u8]) -> Option<Node>
    ensures { result ≡ node_by role.now (words_of rest.now) }
{
    if role == b"leader".as_slice() {
        no_word(rest)?;
        return Some(Node::Leader);
    }
    if role == b"part".as_slice() {
        return Some(Node::Part(part_of(number_alone(rest)?)?));
    }
    if role == b"router".as_slice() {
        return Some(Node::Router(number_alone(rest)?));
    }
    None
}

/// `node leader`, `node part P` or `node router R`
pub(crate) fn node_line(line: &[u8]) -> Option<Node>
    ensures { result ≡ node_line (words_of line.now) }
{
    let rest = after_name(b"node", line)?;
    let (role, rest) = next_word(rest)?;
    node_by(role, rest)
}
