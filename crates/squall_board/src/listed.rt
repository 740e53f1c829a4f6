//! What the lists of a board tell, each law the contract of a function that does nothing.

ghost use Rattle.std.specs.Prelude.{◌≡◌, ℕ, List, Some};
ghost use Rattle.std.specs.List.{AllByRecursion};
ghost use Rattle.squall_join.specs.declared.flat.Flat.{Flat};
ghost use Rattle.squall_report.specs.Issues.{PlanPair};
ghost use Rattle.squall_board.specs.declared.opening.Opening.{Opening};
ghost use Rattle.squall_report.specs.Told.{SameTold};
ghost use Rattle.squall_board.specs.Boards.{cell_of, told};
ghost use Rattle.squall_board.specs.Listed.{CellEntry, entry_value, AreOpenings, AreIssues, AreCells, openings_of, issues_of, cells_of, told_by_lists};

use crate::board::Board;

/// The openings, the issues and the cells of a board tell together what the board tells, and
/// nothing else.
pub fn lists_tell_the_board(board: &Board)
    ensures { SameTold (told board.now) (told_by_lists (openings_of board.now) (issues_of board.now) (cells_of board.now)) }
{
    board.known();
}

/// A board that tells what the lists of another tell is equal to that other.
pub fn lists_determine_the_board(board: &Board, other: &Board)
    ensures { SameTold (told other.now) (told_by_lists (openings_of board.now) (issues_of board.now) (cells_of board.now)) → other.now ≡ board.now }
{
    board.known();
    other.known();
}

/// A list of the openings of a board is the board's own list of them.
pub fn one_list_of_openings(board: &Board)
    ensures { (openings : List Opening) → AreOpenings board.now openings → openings ≡ openings_of board.now }
{
    board.known();
}

/// A list of the issues of a board is the board's own list of them.
pub fn one_list_of_issues(board: &Board)
    ensures { (issues : List (ℕ × Flat PlanPair)) → AreIssues board.now issues → issues ≡ issues_of board.now }
{
    board.known();
}

/// A list of the cells of a board is the board's own list of them.
pub fn one_list_of_cells(board: &Board)
    ensures { (cells : List CellEntry) → AreCells board.now cells → cells ≡ cells_of board.now }
{
    board.known();
}

/// Each cell of a board is found at its place.
pub fn cells_at_their_places(board: &Board)
    ensures { AllByRecursion (λ c. cell_of board.now c.cell ≡ Some (entry_value c)) (cells_of board.now) }
{
    board.known();
}
