//! Hashes of what a board holds.

ghost use Rattle.std.specs.Prelude.{◌≡◌, IfOk};
ghost use Rattle.std.specs.Arc.{arc_value};
ghost use Rattle.squall_join.specs.Flats.{flat_map};
ghost use Rattle.squall_board.specs.Listed.{AreCellsOfParts};
ghost use Rattle.squall_delta.specs.Hashes.{row_hash, issue_hash};

use sha2::{Digest, Sha256};
use squall_board::CellParts;
use squall_join::{Flat, JoinMap};
use squall_report::{CellId, Issue};
use squall_wire::{issue_bytes, write_lent_cell};
use std::alloc::{AllocError, Global};
use std::sync::Arc;

/// The hash of a row: of its cells, one after the other. Each is written over the one before it.
pub(crate) fn row_hash(
    buffer: &mut Vec<u8>,
    number: u32,
    sub: u32,
    row: &JoinMap<u32, CellParts>,
) -> Result<[u8; 32], AllocError>
    requires { AreCellsOfParts number sub row.now }
    ensures { IfOk result (λ hash. hash ≡ row_hash number sub row.now) }
{
    let mut hasher = Sha256::new();
    for entry in row.entries() {
        buffer.clear();
        write_lent_cell(buffer, CellId::of(number, sub, entry.0), &entry.1)?;
        hasher.update(buffer.as_slice());
    }
    Ok(hasher.finalize())
}

/// The hash of what is issued under the number.
pub(crate) fn issue_hash(
    alloc: Global,
    number: u32,
    issue: &Flat<Arc<Issue>>,
) -> Result<[u8; 32], AllocError>
    ensures { IfOk result (λ hash. hash ≡ issue_hash number (flat_map arc_value issue.now)) }
{
    let bytes = issue_bytes(alloc, number, issue)?;
    Ok(Sha256::digest(bytes.as_slice()))
}
