//! What clients ask of rows in memory.

use crate::bytes::Bytes;

/// A request for one row. Its reply is the row as it was before.
#[derive(Drop)]
pub enum Command {
    /// Leaves the row as it is.
    Get,
    /// Gives the key this value.
    Put(Bytes),
    /// Takes the key's value away.
    Delete,
}
