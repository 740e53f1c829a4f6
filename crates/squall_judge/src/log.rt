//! Logs of nodes.

use squall_protocol::{Answer, Chunk, Event, Node};
use squall_report::Report;

/// What a node wrote of one thing that it did or received. Chunks and messages are named by what is in
/// them, since no node knows their indices in a world.
///
/// A node writes nothing of what it sends, and nothing if the answer was that something is not so yet:
/// `NoSuch`, and `Running` if it was to begin a course early.
#[derive(Drop)]
pub enum Entry {
    /// The node did this, and this was the answer. A gift and an arrival have entries of their own.
    Own(Event, Answer),
    /// The node gave the chunk by this event.
    Gift(Event, Chunk),
    /// The chunk came to the node, and this was the answer.
    Arrival(Chunk, Answer),
    /// The node received the report. A message of several reports has an entry for each of them.
    Heard(Report),
}

/// The log of a node: what it did and received, in the order in which it wrote it.
#[derive(Drop)]
pub struct Log {
    /// The node that wrote it.
    pub node: Node,
    /// Its entries.
    pub entries: Vec<Entry>,
}
