//! What a source gives up to its end.

ghost use Rattle.std.specs.Prelude.{◌≡◌, ◌≢◌, ℕ, List, length, IfOk, OnOk, Err};
ghost use Rattle.squall_cli_device.specs.States.{GaveBytes, GaveAll};
ghost use Rattle.squall_cli_lines.specs.Heeding.{HeedsReads};

use super::{BLOCK_SIZE, MOST_READS, RunFault};
use squall_cli_device::Source;
use std::alloc::{AllocError, Global};

/// Room for a block of `size` bytes.
pub(crate) fn block_room(alloc: Global, size: usize) -> Result<Vec<u8>, AllocError>
    ensures { IfOk result (λ room. length room.items ≡ size) }
{
    vec![in alloc; 0u8; size]
}

/// All that the source gives up to its end.
///
/// `Read` if a read failed, or if [`MOST_READS`] reads came to no end; `NoMemory` if an allocation
/// failed. What was read stays read.
pub fn read_all<S: Source>(alloc: Global, source: &mut S) -> Result<Vec<u8>, RunFault>
    // The bytes are those that were read, up to a read that found the end.
    ensures bytes { (read : List ℕ) × GaveBytes (S.state source.old) (S.state source.new) read × IfOk result (λ bytes. bytes.items ≡ read) }
    ensures all { OnOk result (GaveAll (S.state source.old) (S.state source.new)) }

    // The source is the cause of `Read`, no failed read is passed over, and reads are limited.
    ensures heeds { HeedsReads result (S.state source.old) (S.state source.new) }
    ensures only { result ≢ Err RunFault.Write }
{
    let mut room = block_room(alloc, BLOCK_SIZE)?;
    let block = room.as_mut_slice();
    let mut bytes = Vec::new(alloc);
    for turn in 0..MOST_READS {
        let Ok(n) = source.read(block) else {
            return Err(RunFault::Read);
        };
        if n == 0 {
            return Ok(bytes);
        }
        bytes.extend_from_slice(&block[..n])?;
    }
    Err(RunFault::Read)
}
