//! Records of a store's calls.

use crate::listed::Listed;
use squall_board::Delta;
use squall_key::Key;
use squall_protocol::Chunk;
use squall_store::Bytes;

/// A call that changed a store, as its log keeps it.
#[derive(Drop)]
pub enum Record {
    /// The key got this value.
    Put(Key, Bytes),
    /// The key lost its value.
    Delete(Key),
    /// The store gave its first keys that were to go, up to that number of keys.
    Give(u64),
    /// It gave one key.
    GiveAt(Key),
    /// It loaded the chunk with these rows.
    Load(Chunk, Listed),
    /// It absorbed the delta.
    Absorb(Delta),
    /// It finished the sub-plan.
    Finish(u32),
    /// It gave no more in its newest course.
    Close,
}
