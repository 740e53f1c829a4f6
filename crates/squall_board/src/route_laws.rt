//! The route by a first course, and the route by moves, each law the contract of a function that
//! does nothing.

ghost use Rattle.std.specs.Prelude.{◌≡◌, ℕ, Bool, List};
ghost use Rattle.squall_course.specs.declared.moving.Move.{Move};
ghost use Rattle.squall_course.specs.Change.{Change};
ghost use Rattle.squall_course.specs.Moves.{AreMoves};
ghost use Rattle.squall_report.specs.declared.report.ReportKind.{ReportKind};
ghost use Rattle.squall_report.specs.Issues.{PlanPair};
ghost use Rattle.squall_report.specs.Cells.{CellPlace};
ghost use Rattle.squall_report.specs.Facts.{Fact};
ghost use Rattle.squall_report.specs.Queries.{Queries, queries_by};
ghost use Rattle.squall_board.specs.Boards.{HasTaken, says, cell_of};
ghost use Rattle.squall_board.specs.BoardQueries.{queries_of};
ghost use Rattle.squall_board.specs.Route.{route};
ghost use Rattle.squall_board.specs.CourseRoute.{course_of_board, course_of_reports, IsCourseBy, route_by_newest, route_by_reports, IsRoutedBy};
ghost use Rattle.squall_board.specs.MovesRoute.{has_come_to, cell_has_come, route_by_moves};

use crate::Board;

/// A board that has taken reports has the course of the reports.
pub fn course_of_taken_reports(board: &Board)
    ensures { (first : Change) (rs : List (ReportKind PlanPair)) → HasTaken board.now rs → course_of_board first board.now ≡ course_of_reports first rs }
{
    board.known();
}

/// A board has the course that its answers give.
pub fn course_by_board_queries(board: &Board)
    ensures { (first : Change) → IsCourseBy first (queries_of board.now) (course_of_board first board.now) }
{
    board.known();
}

/// A list of reports has the course that its answers give.
pub fn course_by_report_queries()
    ensures { (first : Change) (rs : List (ReportKind PlanPair)) → IsCourseBy first (queries_by rs) (course_of_reports first rs) }
{}

/// After a first course the answers give one course.
pub fn one_course()
    ensures { (first : Change) (t : Queries) (c d : Change) → IsCourseBy first t c → IsCourseBy first t d → c ≡ d }
{}

/// A board that has taken reports routes each key as the reports do.
pub fn taken_reports_route(board: &Board)
    ensures { (first : Change) (rs : List (ReportKind PlanPair)) (k : ℕ) → HasTaken board.now rs
        → route_by_newest first board.now k ≡ route_by_reports first rs k }
{
    board.known();
}

/// A board routes each key by its answers.
pub fn route_by_board_queries(board: &Board)
    ensures { (first : Change) (k : ℕ) → IsRoutedBy first (queries_of board.now) k (route_by_newest first board.now k) }
{
    board.known();
}

/// A list of reports routes each key by its answers.
pub fn route_by_report_queries()
    ensures { (first : Change) (rs : List (ReportKind PlanPair)) (k : ℕ) → IsRoutedBy first (queries_by rs) k (route_by_reports first rs k) }
{}

/// A first course and the answers send each key to one partition.
pub fn one_route()
    ensures { (first : Change) (t : Queries) (k p q : ℕ) → IsRoutedBy first t k p → IsRoutedBy first t k q → p ≡ q }
{}

/// The route by the moves of a course is the route by its plans, for each key and whatever is said.
pub fn moves_give_the_route()
    ensures { (c : Change) (says : Fact → Bool) (ms : List Move) (k : ℕ) → AreMoves c.old c.new ms → route_by_moves c.number c.old ms says k ≡ route c says k }
{}

/// The board's cell alone says whether a key has come to it.
pub fn coming_by_the_cell(board: &Board)
    ensures { (cell : CellPlace) (k : ℕ) → has_come_to (says board.now) cell k ≡ cell_has_come (cell_of board.now cell) k }
{}
