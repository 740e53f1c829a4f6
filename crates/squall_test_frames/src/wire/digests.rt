//! Digests, the bytes of issues and cells, and what faults are printed as.

use super::*;
use squall_board::{Board, Cell, CellParts, Opening};
use squall_join::Flat;
use squall_report::{CellId, Issue};
use squall_test_example::holds;
use std::alloc::{AllocError, Global};
use std::process::Abort;
use std::sync::Arc;

/// A row with a hash of zeros.
pub(crate) fn row(number: u32, sub: u32) -> DigestRow {
    DigestRow {
        number,
        sub,
        hash: [0; 32],
    }
}

/// The issue of number 1 with a hash of zeros.
const ISSUE_ROW: IssueRow = IssueRow {
    number: 1,
    hash: [0; 32],
};

/// The count of openings of number 1.
fn opened(count: u32) -> Opening {
    Opening { number: 1, count }
}

#[test]
fn the_frame_of_a_digest(rt: HostRuntime) {
    let text = concat!(
        "53510202 00000060 00000001 00000001 00002710 00000001 00000001 ",
        "0000000000000000000000000000000000000000000000000000000000000000 00000001 00000001 0000270f ",
        "0000000000000000000000000000000000000000000000000000000000000000",
    );
    let digest = Digest::of(rt.alloc(), &[opened(10000)], &[ISSUE_ROW], &[row(1, 9999)]).expect(
        &rt, "memory",
    );
    holds!(&rt; digest_is_framed_as(rt.alloc(), digest, text).expect(&rt, "memory"));
}

#[test]
fn rows_of_no_digest(rt: HostRuntime) {
    let alloc = rt.alloc();
    let bad = Some(DigestFault::BadDigest);
    for (first, second) in [
        (row(1, 0), row(1, 0)),
        (row(2, 0), row(1, 9999)),
        (row(0, 0), row(1, 0)),
        (row(1, 9999), row(1, 10000)),
    ] {
        holds!(&rt; Digest::of(alloc, &[], &[], &[first, second]).err() == bad);
    }
    holds!(&rt; Digest::of(alloc, &[], &[], &[row(1, 9999), row(2, 0)]).err() == None);
    holds!(&rt; Digest::of(alloc, &[], &[ISSUE_ROW, ISSUE_ROW], &[]).err() == bad);
    holds!(&rt; Digest::of(alloc, &[opened(10001)], &[], &[]).err() == bad);
}

/// Whether the bytes of the issues, one after the other, are those that the text writes.
fn issues_are(
    alloc: Global,
    issues: &[(u32, Flat<Arc<Issue>>)],
    text: &str,
) -> Result<bool, AllocError> {
    let mut bytes = Vec::new(alloc);
    for issue in issues {
        bytes.extend_from_slice(&issue_bytes(alloc, issue.0, &issue.1)?)?;
    }
    are_of(alloc, &bytes, text)
}

/// Whether the bytes of the cells, one after the other, are those that the text writes.
fn cells_are(alloc: Global, cells: &[Cell], text: &str) -> Result<bool, AllocError> {
    let mut bytes = Vec::new(alloc);
    for cell in cells {
        bytes.extend_from_slice(&cell_bytes(alloc, cell)?)?;
    }
    are_of(alloc, &bytes, text)
}

/// Whether the bytes of the lent cells, one after the other, are those that the text writes.
fn lent_cells_are(
    alloc: Global,
    cells: &[(CellId, &CellParts)],
    text: &str,
) -> Result<bool, AllocError> {
    let mut bytes = Vec::new(alloc);
    for cell in cells {
        write_lent_cell(&mut bytes, cell.0, cell.1)?;
    }
    are_of(alloc, &bytes, text)
}

/// The issues and the cells of the board have these bytes.
pub(crate) fn look_at_items(
    rt: &impl Abort,
    alloc: Global,
    board: &Board,
    issues: &str,
    cells: &str,
) -> Result<(), AllocError> {
    holds!(rt; issues_are(alloc, &board.issues()?, issues)?);
    holds!(rt; cells_are(alloc, &board.cells()?, cells)?);
    holds!(rt; lent_cells_are(alloc, &board.lent_cells()?, cells)?);
    Ok(())
}

/// The bytes of the issues of the frame of each item.
pub(crate) const ISSUES: &str =
    "00000001 01 00000001 ffffffff00000000 00000001 00000001 ffffffff00000000 00000002 00000002 02";

/// The bytes of the cells of that frame.
pub(crate) const CELLS: &str =
    "00000001 00000000 00000003 00 00000001 0000000200000000 0000000300000000 ffffffff 0000270f 0000270f 01 00000000";

#[test]
fn the_bytes_of_issues_and_cells(rt: HostRuntime) {
    let board = board_of(rt.alloc(), super::frames::EACH).expect(&rt, "memory");
    look_at_items(&rt, rt.alloc(), &board, ISSUES, CELLS).expect(&rt, "memory");
}

#[test]
fn printed_faults(rt: HostRuntime) {
    let (wire, encoding) = (WireFault::TooLong, EncodeFault::TooLong);
    let (digest, feed) = (DigestFault::BadDigest, FeedFault::Failed);
    let first = format!(in rt.alloc(); "{wire} {encoding} {digest} {feed}").expect(&rt, "memory");
    holds!(&rt; first.as_str() == "TooLong TooLong BadDigest Failed");
    let (wire, encoding) = (WireFault::NoMemory, EncodeFault::NoMemory);
    let (digest, feed) = (DigestFault::NoMemory, FeedFault::NoMemory);
    let second = format!(in rt.alloc(); "{wire}, {encoding}, {digest}, {feed}").expect(
        &rt, "memory",
    );
    holds!(&rt; second.as_str() == "NoMemory, NoMemory, NoMemory, NoMemory");
}
