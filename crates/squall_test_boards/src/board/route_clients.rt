//! What callers of a borrowed board can learn of its counts and routes.

ghost use Rattle.std.specs.Prelude.{◌≡◌, List, IfOk};
ghost use Rattle.squall_report.specs.declared.report.ReportKind.{ReportKind};
ghost use Rattle.squall_report.specs.Issues.{PlanPair};
ghost use Rattle.squall_report.specs.Openings.{opened_by};
ghost use Rattle.squall_board.specs.Boards.{HasTaken};
ghost use Rattle.squall_board.specs.CourseRoute.{route_by_newest, route_by_reports};

use super::take_issue;
use squall_board::Board;
use squall_board::laws::{taken_openings_count, taken_reports_route};
use squall_course::Course;
use squall_key::{Key, PartId};
use squall_report::Report;
use squall_test_example::{NEW, OLD, course, holds, take};
use std::alloc::{AllocError, Global};
use std::process::Abort;

/// How many sub-plans of the number are opened by the reports that the board has taken.
fn opened_by_reports(board: &Board, number: u32) -> u32
    ensures { (rs : List (ReportKind PlanPair)) → HasTaken board.now rs → result ≡ opened_by rs number }
{
    taken_openings_count(board);
    board.opened(number)
}

/// The partition of the key by the newest course after the first one that the board knows.
fn newest_route(
    alloc: Global,
    first: &Course,
    board: &Board,
    key: Key,
) -> Result<PartId, AllocError>
    ensures board { IfOk result (λ part. part ≡ route_by_newest first.now board.now key) }
    ensures reports { IfOk result (λ part. (rs : List (ReportKind PlanPair)) → HasTaken board.now rs → part ≡ route_by_reports first.now rs key) }
{
    taken_reports_route(board);
    match board.newest_course(alloc, first)? {
        Some(course) => Ok(board.route(&course, key)),
        None => Ok(board.route(first, key)),
    }
}

/// Takes an issue, and an opening under its number. None if an allocation fails.
fn take_change(alloc: Global, board: &mut Board) -> Option<()> {
    take_issue(alloc, board, 2, NEW, OLD)?;
    take(board, Report::opened(2, 0))
}

/// Whether the board sends the key to the partition by its newest course after course 1. None if an
/// allocation fails.
fn sends_by_newest(alloc: Global, board: &Board, key: Key, part: u32) -> Option<bool> {
    let first = course(alloc)?;
    Some(newest_route(alloc, &first, board, key).ok() == PartId::new(part))
}

/// Takes the change, and looks at the route of a key and at the count of openings.
fn look_at_change(rt: &impl Abort, alloc: Global, board: &mut Board) {
    let key = Key::read("2:0").expect(rt, "key");
    take_change(alloc, board).expect(rt, "memory");
    holds!(rt; sends_by_newest(alloc, board, key, 3).expect(rt, "memory"));
    holds!(rt; opened_by_reports(board, 2) == 1);
}

#[test]
fn clients_of_routes(rt: HostRuntime) {
    let mut taken = Board::new(rt.alloc());
    look_at_change(&rt, rt.alloc(), &mut taken)
}
