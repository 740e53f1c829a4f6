//! If an allocation fails nothing has changed. Of other calls the tests in C show it.

use super::digests::{CELLS, ISSUES, look_at_items};
use super::frames::EACH;
use super::*;
use squall_board::Board;
use squall_test_example::holds;
use std::alloc::Global;
use std::process::Abort;

/// Writes the frame of the board, and the bytes of its issues and of its cells.
fn write_items(rt: &impl Abort, alloc: Global, board: &Board) {
    match is_framed_as(alloc, board, EACH) {
        Ok(is_same) => holds!(rt; is_same),
        Err(fault) => holds!(rt; fault == EncodeFault::NoMemory),
    }
    if look_at_items(rt, alloc, board, ISSUES, CELLS).is_err() {
        is_still(rt, alloc, board, EACH);
    }
}

#[test]
fn tolerant_items(rt: HostRuntime) {
    if let Ok(board) = board_of(rt.alloc(), EACH) {
        write_items(&rt, rt.alloc(), &board);
    }
}

#[test]
fn tolerant_digest_of(rt: HostRuntime) {
    let row = super::digests::row(1, 0);
    match Digest::of(rt.alloc(), &[], &[], &[row]) {
        Ok(digest) => {
            holds!(&rt; digest.rows() == [row].as_slice());
            holds!(&rt; digest.openings().is_empty() && digest.issue_rows().is_empty());
        }
        Err(fault) => holds!(&rt; fault == DigestFault::NoMemory),
    }
}
