//! What callers learn of a borrowed board or cell, from public names alone.

ghost use Rattle.std.specs.Prelude.{◌≡◌, true, List};
ghost use Rattle.squall_report.specs.Cells.{is_cell_place};
ghost use Rattle.squall_report.specs.Facts.{Fact, is_fact};
ghost use Rattle.squall_board.specs.Boards.{says};
ghost use Rattle.squall_board.specs.Listed.{CellEntry, AreCells};

use squall_board::laws::{facts_lie_within_the_limits, one_list_of_cells};
use squall_board::{Board, Cell};
use squall_span::SpanSet;
use squall_test_example::holds;
use std::alloc::Global;
use std::process::Abort;

/// Each fact that the board says lies within the limits of facts.
fn facts_are_within(board: &Board)
    ensures { (fact : Fact) → says board.now fact ≡ true → is_fact fact ≡ true }
{
    facts_lie_within_the_limits(board);
}

/// Two lists of a board's cells are one.
fn lists_are_one(board: &Board)
    ensures { (cs ds : List CellEntry) → AreCells board.now cs → AreCells board.now ds → cs ≡ ds }
{
    one_list_of_cells(board);
}

/// The place of a cell lies within its limits.
fn place_is_within(cell: &Cell)
    ensures { is_cell_place cell.now.cell ≡ true }
{
    cell.known();
}

/// Puts the completion of partition 3 into the board. None if an allocation fails.
fn put_completion(alloc: Global, board: &mut Board) -> Option<()> {
    let cell = Cell::new(1, 0, 3, true, SpanSet::empty(alloc))?;
    place_is_within(&cell);
    board.put_cell(&cell).ok()?;
    Some(())
}

/// Puts the completion into the board, and looks at what callers learn of it then.
fn learn(rt: &impl Abort, alloc: Global, board: &mut Board) {
    put_completion(alloc, board).expect(rt, "memory");
    facts_are_within(board);
    lists_are_one(board);
    holds!(rt; board.says_done(1, 0, 3));
}

#[test]
fn callers_learn(rt: HostRuntime) {
    let mut board = Board::new(rt.alloc());
    learn(&rt, rt.alloc(), &mut board)
}
