//! If an allocation fails a board is unchanged. Here are the calls that neither the program nor the C library makes with a
//! board of its own, and the tests in C show the same of the others.

use crate::board::{has_one_issue, issued, two_reports};
use squall_board::{Board, Cell};
use squall_report::Report;
use squall_span::SpanSet;
use squall_test_example::{NEW, OLD, holds, load, take};
use std::alloc::Global;
use std::process::Abort;

/// Takes a load and an opening.
fn take_small(board: &mut Board) -> Option<()> {
    take(board, load("2:0", "3:0"))?;
    take(board, Report::opened(1, 0))
}

/// A board of a load and an opening.
fn small_board(alloc: Global) -> Option<Board> {
    let mut board = Board::new(alloc);
    take_small(&mut board)?;
    Some(board)
}

/// The board has what a small one has, and more only if it has grown. It looks only if no
/// allocation fails.
fn is_small_or_grown(rt: &impl Abort, alloc: Global, board: &Board, grown: bool) {
    if let Some(before) = small_board(alloc) {
        holds!(rt; board.covers(&before) && grown == (*board != before));
    }
}

/// What is done with a small board.
#[derive(Clone, Copy)]
enum Step {
    /// It takes a load and a completion.
    TakeAll,
    /// It takes a completion and an issue.
    TakeAllIssue,
    /// A completion is put into it.
    PutCell,
    /// Its cells are listed.
    Cells,
}

/// Whether the board took a load and a completion, and whether it has the completion. None if these
/// could not be made, which is the same in all that follow.
fn takes_two(board: &mut Board) -> Option<(bool, bool)> {
    let reports = two_reports()?;
    let taken = board.take_all(&reports).is_ok();
    Some((taken, board.says_done(1, 0, 4)))
}

/// Whether the board took a completion and an issue, and whether it has both.
fn takes_two_with_issue(alloc: Global, board: &mut Board) -> Option<(bool, bool)> {
    let reports = [Report::done(1, 0, 4)?, issued(alloc, 2, NEW, OLD)?];
    let taken = board.take_all(&reports).is_ok();
    let tells = board.says_done(1, 0, 4) && has_one_issue(board, 2);
    Some((taken, tells))
}

/// Whether the completion of partition 3 was put into the board, and whether the board has it.
fn puts_completion(alloc: Global, board: &mut Board) -> Option<(bool, bool)> {
    let cell = Cell::new(2, 1, 3, true, SpanSet::empty(alloc))?;
    let put = board.put_cell(&cell).is_ok();
    Some((put, board.says_done(2, 1, 3)))
}

/// Lists the one cell of the board, if no allocation fails. The board has not grown.
fn lists_cells(rt: &impl Abort, board: &Board) -> Option<(bool, bool)> {
    if let Ok(cells) = board.cells() {
        holds!(rt; cells.len() == 1);
    }
    Some((false, false))
}

/// Whether the step was taken with the board, and whether the board has what it brings.
fn step_with(
    rt: &impl Abort,
    alloc: Global,
    board: &mut Board,
    step: Step,
) -> Option<(bool, bool)> {
    match step {
        Step::TakeAll => takes_two(board),
        Step::TakeAllIssue => takes_two_with_issue(alloc, board),
        Step::PutCell => puts_completion(alloc, board),
        Step::Cells => lists_cells(rt, board),
    }
}

/// Takes the step with the board, which has what it brings then or is an unchanged small one.
fn is_grown_or_not(rt: &impl Abort, alloc: Global, board: &mut Board, step: Step) {
    let (taken, has) = step_with(rt, alloc, board, step).unwrap_or((false, false));
    holds!(rt; taken == has);
    is_small_or_grown(rt, alloc, board, taken);
}

/// The same of a small board, if no allocation fails before.
fn step_with_small(rt: &impl Abort, alloc: Global, step: Step) {
    if let Some(mut board) = small_board(alloc) {
        is_grown_or_not(rt, alloc, &mut board, step);
    }
}

#[test]
fn tolerant_take_all(rt: HostRuntime) {
    step_with_small(&rt, rt.alloc(), Step::TakeAll);
    step_with_small(&rt, rt.alloc(), Step::TakeAllIssue);
}

#[test]
fn tolerant_put_cell(rt: HostRuntime) {
    step_with_small(&rt, rt.alloc(), Step::PutCell);
}

#[test]
fn tolerant_cells(rt: HostRuntime) {
    step_with_small(&rt, rt.alloc(), Step::Cells);
}
