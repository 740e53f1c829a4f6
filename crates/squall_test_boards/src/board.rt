//! Tests of boards. What reports and merges make of them, and their routes, the cases of the built program show; that a
//! refused allocation changes nothing, of most calls the tests in C.

mod clients;
mod example;
mod route_clients;
mod tolerant;

use squall_board::*;
use squall_join::Flat;
use squall_report::Report;
use squall_test_example::{issue, load, take};
use std::alloc::Global;

/// The reports of a load at partition 3 and of the completion of partition 4.
pub(crate) fn two_reports() -> Option<[Report; 2]> {
    Some([load("2:0", "3:0")?, Report::done(1, 0, 4)?])
}

/// The report that the plan of a text follows that of another under the number.
pub(crate) fn issued(alloc: Global, number: u32, old: &str, new: &str) -> Option<Report> {
    Report::issued(number, issue(alloc, old, new)?)
}

/// Takes that one plan follows the other under the number. None if an allocation fails.
///
/// A helper of its own, as most here are: it owns no board. A proof of a test costs more with each
/// value that the test owns, on each way out of it. So a test makes its boards, and lends them to a
/// function that looks at them.
fn take_issue(alloc: Global, board: &mut Board, number: u32, old: &str, new: &str) -> Option<()> {
    take(board, issued(alloc, number, old, new))
}

/// Whether one issue of the number is known.
fn has_one_issue(board: &Board, number: u32) -> bool {
    matches!(board.issuing(number), Flat::One(_))
}
