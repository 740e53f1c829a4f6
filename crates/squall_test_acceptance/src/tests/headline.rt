//! The headline as a caller meets it, over public names alone.

ghost use Rattle.std.specs.Prelude.{◌≡◌, IfOk};
ghost use Rattle.squall_report.specs.Facts.{reports_say};
ghost use Rattle.squall_board.specs.Route.{route};

use squall_board::Board;
use squall_course::Course;
use squall_delta::delta_of;
use squall_key::{Key, PartId};
use squall_report::Report;
use squall_test_example::{course, holds, load};
use std::alloc::{AllocError, Global};
use std::process::Abort;

/// The partition to which the reports send the key: by a board that takes all of them.
fn routed(
    alloc: Global,
    course: &Course,
    reports: &[Report],
    key: Key,
) -> Result<PartId, AllocError>
    ensures { IfOk result (λ part. part ≡ route course.now (reports_say reports.now) key) }
{
    let mut board = Board::new(alloc);
    board.take_all(reports)?;
    Ok(board.route(course, key))
}

/// The board that took the reports one by one.
fn one_by_one(alloc: Global, list: &[Report]) -> Result<Board, AllocError> {
    let mut board = Board::new(alloc);
    for report in list {
        board.take(report)?;
    }
    Ok(board)
}

/// Whether the board is that of the list, taken report by report.
fn is_board_of(alloc: Global, board: &Board, list: &[Report]) -> Result<bool, AllocError> {
    let other = one_by_one(alloc, list)?;
    Ok(*board == other)
}

/// Whether the boards of both lists are equal, one taken at once and the other report by report.
fn same_boards(alloc: Global, first: &[Report], second: &[Report]) -> Result<bool, AllocError> {
    let mut board = Board::new(alloc);
    board.take_all(first)?;
    is_board_of(alloc, &board, second)
}

/// The completion of partition 4. None if an allocation fails.
fn completion() -> Option<Report> {
    Some(Report::done(1, 0, 4)?)
}

/// A load, and the completion. None if an allocation fails.
fn two_reports() -> Option<[Report; 2]> {
    Some([load("2:0", "3:0")?, completion()?])
}

/// The same in another order, and one of them twice. None if an allocation fails.
fn three_reports() -> Option<[Report; 3]> {
    Some([completion()?, load("2:0", "3:0")?, completion()?])
}

/// Keys go to where the reports send them, and before the reports to where the old plan has them.
fn keys_go(rt: &impl Abort, alloc: Global, course: &Course, reports: &[Report]) {
    for (key, before, after) in [("2:0", 1, 3), ("6:0", 3, 4), ("3:0", 2, 2)] {
        let key = Key::read(key).expect(rt, "key");
        holds!(rt; routed(alloc, course, &[], key).expect(rt, "memory").get() == before);
        holds!(rt; routed(alloc, course, reports, key).expect(rt, "memory").get() == after);
    }
}

/// Keys go to where two reports send them.
fn reports_route(rt: &impl Abort, alloc: Global, course: &Course) {
    let reports = two_reports().expect(rt, "memory");
    keys_go(rt, alloc, course, &reports)
}

/// Whether the reports in another order, one of them twice, make the same board. None if an
/// allocation fails.
fn same_again(alloc: Global, reports: &[Report]) -> Option<bool> {
    let again = three_reports()?;
    same_boards(alloc, reports, &again).ok()
}

/// Whether the completion alone makes the same board. None if an allocation fails.
fn same_alone(alloc: Global, reports: &[Report]) -> Option<bool> {
    let alone = [completion()?];
    same_boards(alloc, reports, &alone).ok()
}

/// The board has the reports, in any order and number, and no fewer of them.
fn only_reports_count(rt: &impl Abort, alloc: Global, reports: &[Report]) {
    holds!(rt; same_again(alloc, reports).expect(rt, "memory"));
    holds!(rt; !same_alone(alloc, reports).expect(rt, "memory"));
}

/// The worked reconfiguration of two moves.
#[test]
fn reports_route_keys(rt: HostRuntime) {
    let course = course(rt.alloc()).expect(&rt, "a course");
    reports_route(&rt, rt.alloc(), &course)
}

/// The same reports in another order, one of them twice.
#[test]
fn order_and_repetition_change_nothing(rt: HostRuntime) {
    let reports = two_reports().expect(&rt, "memory");
    only_reports_count(&rt, rt.alloc(), &reports)
}

/// The delta of a report is the board that took it alone.
#[test]
fn a_report_is_its_delta(rt: HostRuntime) {
    let report = load("2:0", "3:0").expect(&rt, "load");
    let delta = delta_of(rt.alloc(), &report).expect(&rt, "memory");
    holds!(&rt; is_board_of(rt.alloc(), &delta, &[report]).expect(&rt, "memory"));
}
