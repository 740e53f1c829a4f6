//! Boards from the lists of a delta.

ghost use Rattle.std.specs.Prelude.{◌≡◌, ◌≤◌, IfOk, OnOk};
ghost use Rattle.std.specs.List.{AllByRecursion};
ghost use Rattle.squall_board.specs.Listed.{IsOpening};
ghost use Rattle.squall_wire.specs.BoardOf.{with_openings, with_issues, with_cells, board_of_lists};
ghost use Rattle.squall_wire.specs.Messages.{lists_of, lists_with, AreLists};

use crate::issue::IssueItem;
use squall_board::{Board, Cell, Opening};
use std::alloc::{AllocError, Global};

/// Puts the openings into the board.
fn put_openings(board: &mut Board, openings: &[Opening]) -> Result<(), AllocError>
    requires { AllByRecursion IsOpening openings.now }
    ensures { OnOk result (board.new ≡ with_openings board.old openings.now) }
{
    for opening in openings {
        board.put_opening(opening)?;
    }
    Ok(())
}

/// Puts the issues into the board.
fn put_issues(board: &mut Board, issues: &[IssueItem]) -> Result<(), AllocError>
    requires { AllByRecursion (λ e. 1 ≤ e.0) issues.now }
    ensures { OnOk result (board.new ≡ with_issues board.old issues.now) }
{
    for item in issues {
        board.put_issue(item.number(), item.issue())?;
    }
    Ok(())
}

/// Moves the cells into the board.
fn put_cells(board: &mut Board, cells: Vec<Cell>) -> Result<(), AllocError>
    ensures { OnOk result (board.new ≡ with_cells board.old cells.items) }
{
    for cell in cells {
        board.take_cell(cell)?;
    }
    Ok(())
}

/// The board of the lists, into which the cells are moved. An error means that an allocation failed, or that the count of an
/// issue's owners is full.
pub(crate) fn board_of(
    alloc: Global,
    openings: &[Opening],
    issues: &[IssueItem],
    cells: Vec<Cell>,
) -> Result<Board, AllocError>
    requires { AreLists (lists_with openings.now issues.now cells.items) }
    ensures lists { IfOk result (λ board. lists_of board ≡ lists_with openings.now issues.now cells.items) }
    ensures value { IfOk result (λ board. board ≡ board_of_lists (lists_with openings.now issues.now cells.items)) }
{
    let mut board = Board::new(alloc);
    put_openings(&mut board, openings)?;
    put_issues(&mut board, issues)?;
    put_cells(&mut board, cells)?;
    Ok(board)
}
