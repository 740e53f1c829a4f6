//! Logs of nodes.

use squall_judge::{Entry, Log};
use squall_protocol::Node;
use std::alloc::Global;

/// The log of a node. None if an allocation fails.
pub(crate) fn log<const N: usize>(alloc: Global, node: Node, entries: [Entry; N]) -> Option<Log> {
    let entries = Vec::from_array(alloc, entries).ok()?;
    Some(Log { node, entries })
}
