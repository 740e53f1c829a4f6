//! Laws of boards, each the contract of a function that does nothing.

ghost use Rattle.std.specs.Prelude.{◌≡◌, ◌≤◌, ℕ, true, List};
ghost use Rattle.squall_join.specs.declared.flat.Flat.TheVariants.{Unknown};
ghost use Rattle.squall_report.specs.Facts.{Fact, is_fact};
ghost use Rattle.squall_report.specs.declared.report.ReportKind.{ReportKind};
ghost use Rattle.squall_report.specs.Issues.{PlanPair};
ghost use Rattle.squall_report.specs.Told.{told_by, SameTold, AreSameReports};
ghost use Rattle.squall_board.specs.Boards.{HasTaken, says, issued, told};

use crate::Board;
pub use crate::beyond::{beyond_covered_is_empty, one_beyond};
pub use crate::facts_laws::{
    board_tells_its_queries, merges_join_queries, newest_of_taken_reports,
    same_queries_equal_boards, taken_openings_count, taken_reports_join_queries,
    taken_where_queries_agree,
};
pub use crate::listed::{
    cells_at_their_places, lists_determine_the_board, lists_tell_the_board, one_list_of_cells,
    one_list_of_issues, one_list_of_openings,
};
pub use crate::route_laws::{
    coming_by_the_cell, course_by_board_queries, course_by_report_queries, course_of_taken_reports,
    moves_give_the_route, one_course, one_route, route_by_board_queries, route_by_report_queries,
    taken_reports_route,
};

/// Boards that tell the same are equal.
pub fn equal_facts_equal_boards(first: &Board, second: &Board)
    ensures { SameTold (told first.now) (told second.now) → first.now ≡ second.now }
{
    first.known();
    second.known();
}

/// Boards are equal if they say the same of each fact within the limits of facts, and issue the
/// same under each number from 1 on. Of keys, only those below the top count.
pub fn equal_facts_within_limits(first: &Board, second: &Board)
    ensures { ((fact : Fact) → is_fact fact ≡ true → says first.now fact ≡ says second.now fact)
        → ((number : ℕ) → 1 ≤ number → issued first.now number ≡ issued second.now number) → first.now ≡ second.now }
{
    first.known();
    second.known();
}

/// What a board says lies within the limits of facts, and it issues nothing under the number 0.
pub fn facts_lie_within_the_limits(board: &Board)
    ensures facts { (fact : Fact) → says board.now fact ≡ true → is_fact fact ≡ true }
    ensures issues { issued board.now 0 ≡ Unknown }
{
    board.known();
}

/// Boards that have taken lists of reports that tell the same are equal. The order of the reports,
/// how often each came, and how loads were cut into spans make no difference. Nor does it matter
/// whether they came alone, in lists or in merged boards.
///
/// That a board has taken a list is ensured by [`Board::new`], [`Board::take`],
/// [`Board::take_all`] and [`Board::merge`].
pub fn same_reports_equal_boards(first: &Board, second: &Board)
    ensures told { (rs qs : List (ReportKind PlanPair)) → HasTaken first.now rs → HasTaken second.now qs
        → SameTold (told_by rs) (told_by qs) → first.now ≡ second.now }
    ensures reports { (rs qs : List (ReportKind PlanPair)) → HasTaken first.now rs → HasTaken second.now qs → AreSameReports rs qs → first.now ≡ second.now }
{
    first.known();
    second.known();
}
