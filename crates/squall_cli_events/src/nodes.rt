//! Nodes as lines write them.

ghost use Rattle.std.specs.Prelude.{◌≡◌};
ghost use Rattle.squall_cli_events.specs.EventLines.{node_of};

use crate::words::NodeWords;
use squall_key::read_number;

/// The node that the word writes: `l`, the leader; `p` and a partition's number; `r` and a router's
/// number. None for all else.
pub(crate) fn read_node(word: &[u8]) -> Option<NodeWords>
    ensures { result ≡ node_of word.now }
{
    if word == b"l".as_slice() {
        return Some(NodeWords::Leader);
    }
    match word {
        [b'p', digits @ ..] => Some(NodeWords::Part(read_number(digits)?)),
        [b'r', digits @ ..] => Some(NodeWords::Router(read_number(digits)?)),
        _ => None,
    }
}
