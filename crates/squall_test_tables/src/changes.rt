//! Two tables of the example course. For which keys they differ the tests in C show.

mod example;

use squall_board::Board;
use squall_course::Course;
use squall_report::Report;
use squall_table::RouteTable;
use squall_test_example::load;
use std::alloc::Global;
use std::test::Fail;

/// Takes the report, if there is one.
fn take(board: &mut Board, report: Option<Report>) -> Result<(), Fail> {
    let report = report.ok_or("report")?;
    board.take(&report)?;
    Ok(())
}

/// The table of the course before any report.
fn old_table(alloc: Global, course: &Course) -> Result<RouteTable, Fail> {
    let board = Board::new(alloc);
    Ok(RouteTable::build(alloc, course, &board)?)
}

/// Takes the load from 2:0 to 2:5, and the completion of partition 4.
fn take_two(board: &mut Board) -> Result<(), Fail> {
    take(board, load("2:0", "2:5"))?;
    take(board, Report::done(1, 0, 4))
}

/// The table of the course after them.
fn new_table(alloc: Global, course: &Course) -> Result<RouteTable, Fail> {
    let mut board = Board::new(alloc);
    take_two(&mut board)?;
    Ok(RouteTable::build(alloc, course, &board)?)
}
