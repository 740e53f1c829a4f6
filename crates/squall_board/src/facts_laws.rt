//! What a board that has taken reports answers, each law the contract of a function that does
//! nothing.

ghost use Rattle.std.specs.Prelude.{◌≡◌, ◌↔◌, ℕ, List};
ghost use Rattle.squall_report.specs.declared.report.ReportKind.{ReportKind};
ghost use Rattle.squall_report.specs.Issues.{PlanPair};
ghost use Rattle.squall_report.specs.Told.{told_by_report, told_by, SameTold, TellsBoth};
ghost use Rattle.squall_report.specs.Openings.{opened_by};
ghost use Rattle.squall_report.specs.Newest.{newest_by};
ghost use Rattle.squall_report.specs.Queries.{SameQueries, joined_queries, queries_by, queries_by_report, told_by_queries};
ghost use Rattle.squall_board.specs.Boards.{BoardValue, HasTaken, opened_count, told};
ghost use Rattle.squall_board.specs.Newest.{newest_of};
ghost use Rattle.squall_board.specs.BoardQueries.{queries_of};

use crate::Board;

/// A board that has taken reports has as many sub-plans opened as the reports open.
pub fn taken_openings_count(board: &Board)
    ensures { (rs : List (ReportKind PlanPair)) (n : ℕ) → HasTaken board.now rs → opened_count board.now n ≡ opened_by rs n }
{}

/// The newest course of a board that has taken reports is that of the reports.
pub fn newest_of_taken_reports(board: &Board)
    ensures { (rs : List (ReportKind PlanPair)) (low : ℕ) → HasTaken board.now rs → newest_of board.now low ≡ newest_by rs low }
{
    board.known();
}

/// The answers of a board to all queries say what it tells.
pub fn board_tells_its_queries(board: &Board)
    ensures { SameTold (told board.now) (told_by_queries (queries_of board.now)) }
{}

/// A board has taken a list of reports exactly if it answers each query as the list does.
pub fn taken_where_queries_agree(board: &Board)
    ensures { (rs : List (ReportKind PlanPair)) → HasTaken board.now rs ↔ SameQueries (queries_of board.now) (queries_by rs) }
{}

/// A board tells what two others tell, and nothing else, exactly if its answers are the joined
/// answers of both. So a merge joins answers.
pub fn merges_join_queries()
    ensures { (merged x y : BoardValue) → TellsBoth (told merged) (told x) (told y)
        ↔ SameQueries (queries_of merged) (joined_queries (queries_of x) (queries_of y)) }
{}

/// A board tells what another tells and what a report or a list of reports tells, and nothing
/// else, exactly if its answers are the joined answers of both. So a board that takes reports joins
/// in their answers.
pub fn taken_reports_join_queries()
    ensures report { (after before : BoardValue) (r : ReportKind PlanPair) → TellsBoth (told after) (told before) (told_by_report r)
        ↔ SameQueries (queries_of after) (joined_queries (queries_of before) (queries_by_report r)) }
    ensures list { (after before : BoardValue) (rs : List (ReportKind PlanPair)) → TellsBoth (told after) (told before) (told_by rs)
        ↔ SameQueries (queries_of after) (joined_queries (queries_of before) (queries_by rs)) }
{}

/// Boards that answer all queries alike are equal.
pub fn same_queries_equal_boards(first: &Board, second: &Board)
    ensures { SameQueries (queries_of first.now) (queries_of second.now) → first.now ≡ second.now }
{
    first.known();
    second.known();
}
