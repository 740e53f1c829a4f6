//! Stores between plans whose moves were worked out by hand. The keys from 2:0 up to 3:0 go from
//! partition 1 to 3 in sub-plan 0, which is opened.

use squall_board::Board;
use squall_key::PartId;
use squall_part::Part;
use squall_report::Report;
use squall_store::{Asked, Bytes, Command, MemoryRows, Store};
use squall_test_example::course;
use std::alloc::{AllocError, Global};
use std::sync::Arc;

/// A partition that has heard that sub-plan 0 of course 1 is opened.
fn opened_part(alloc: Global, number: u32) -> Option<Part> {
    let id = PartId::new(number)?;
    let course = Arc::new(alloc, course(alloc)?).ok()?;
    let mut part = Part::new(alloc, id, &course).ok()?;
    let mut delta = Board::new(alloc);
    delta.take(&Report::opened(1, 0)?).ok()?;
    part.absorb(&delta).ok()?;
    Some(part)
}

/// The store of the partition, without a row.
pub(crate) fn store(alloc: Global, number: u32) -> Option<Store<MemoryRows>> {
    let part = opened_part(alloc, number)?;
    Some(Store::new(part, MemoryRows::new(alloc)))
}

/// The reply of a command that ran.
pub(crate) fn ran(asked: Result<Asked<Option<Bytes>>, AllocError>) -> Option<Option<Bytes>> {
    match asked.ok()? {
        Asked::Ran(reply) => Some(reply),
        Asked::NotHeld(_) => None,
    }
}

/// The command that puts these bytes.
pub(crate) fn put(alloc: Global, bytes: &[u8]) -> Option<Command> {
    Some(Command::Put(Bytes::new(alloc, bytes).ok()?))
}

/// Whether the row has these bytes, or no value if there are none.
pub(crate) fn is_row(row: &Option<Bytes>, bytes: Option<&[u8]>) -> bool {
    match (row, bytes) {
        (Some(value), Some(bytes)) => value.as_slice() == bytes,
        (None, None) => true,
        _ => false,
    }
}
