//! What lists of reports tell, each law the contract of a function that does nothing.

ghost use Rattle.std.specs.Prelude.{◌≡◌, ◌↔◌, ℕ, nat_lt, List, [], ◌∷◌, ◌++◌, Option};
ghost use Rattle.squall_join.specs.declared.flat.Flat.{Flat};
ghost use Rattle.squall_join.specs.Laws.{JoinLaws, Covers};
ghost use Rattle.squall_report.specs.declared.report.ReportKind.{ReportKind};
ghost use Rattle.squall_report.specs.Cells.{CellPlace, is_same_cell, cell_cmp};
ghost use Rattle.squall_report.specs.Issues.{PlanPair};
ghost use Rattle.squall_report.specs.Facts.{OpenedSub, reports_say};
ghost use Rattle.squall_report.specs.Told.{IsIssued, reports_issue, told_by_report, told_by, SameTold, TellsBoth, TellsAll, AreSameReports};
ghost use Rattle.squall_report.specs.Openings.{opened_by};
ghost use Rattle.squall_report.specs.Newest.{IsNewest, newest_by};
ghost use Rattle.squall_report.specs.Queries.{Queries, SameQueries, no_queries, joined_queries, queries_by, queries_by_report, told_by_queries};

use crate::CellId;

/// Cells rise by number, then by sub-plan, then by partition, and are equal if all three are.
pub fn cells_rise()
    ensures order { (c d : CellPlace) → ⟦<CellId as Ord>⟧.cmp c d ≡ cell_cmp c d }
    ensures same { (c d : CellPlace) → ⟦<CellId as PartialEq>⟧.eq c d ≡ is_same_cell c d }
{}

/// Under a number a list of reports issues nothing if no report issues under it. It issues one pair
/// of plans if a report issues it and none another, and a clash if two reports differ.
pub fn what_is_issued()
    ensures { (rs : List (ReportKind PlanPair)) (n : ℕ) → IsIssued rs n (reports_issue rs n) }
{}

/// A list after another tells what either tells, and nothing else.
pub fn append_tells_both()
    ensures { (rs qs : List (ReportKind PlanPair)) → TellsBoth (told_by (rs ++ qs)) (told_by rs) (told_by qs) }
{}

/// Lists of the same reports tell the same, in whatever order and however often.
pub fn same_reports_same_told()
    ensures { (rs qs : List (ReportKind PlanPair)) → AreSameReports rs qs → SameTold (told_by rs) (told_by qs) }
{}

/// A list of reports says those sub-plans opened that lie below its count, and no others.
pub fn openings_count()
    ensures { (rs : List (ReportKind PlanPair)) (n s : ℕ) → reports_say rs (OpenedSub n s) ≡ nat_lt s (opened_by rs n) }
{}

/// The newest course of a list of reports is the newest of what the list issues.
pub fn newest_of_reports()
    ensures { (rs : List (ReportKind PlanPair)) (low : ℕ) → IsNewest (reports_issue rs) low (newest_by rs low) }
{}

/// What is issued has one newest course above a number.
pub fn one_newest()
    ensures { (issues : ℕ → Flat PlanPair) (low : ℕ) (x y : Option (ℕ × PlanPair)) → IsNewest issues low x → IsNewest issues low y → x ≡ y }
{}

/// Queries that give the same answers are equal.
pub fn same_answers_same_queries()
    ensures { (a b : Queries) → SameQueries a b → a ≡ b }
{}

/// Answers join in any grouping and order, and any number of times, to the same answers.
pub fn queries_form_a_join()
    ensures { JoinLaws (λ (t : Queries). Unit {0}) no_queries joined_queries }
{}

/// Answers are the same exactly if they tell the same.
pub fn queries_determine_told()
    ensures { (a b : Queries) → SameQueries a b ↔ SameTold (told_by_queries a) (told_by_queries b) }
{}

/// Answers are the joined answers of two others exactly if they tell what those two tell, and
/// nothing else.
pub fn joined_queries_tell_both()
    ensures { (t a b : Queries) → SameQueries t (joined_queries a b) ↔ TellsBoth (told_by_queries t) (told_by_queries a) (told_by_queries b) }
{}

/// A join of two answers is the first of them exactly if the first tells all that the second tells.
pub fn told_joins_change_nothing()
    ensures { (a b : Queries) → Covers joined_queries a b ↔ TellsAll (told_by_queries a) (told_by_queries b) }
{}

/// The answers of a list of reports say what it tells.
pub fn list_tells_its_queries()
    ensures { (rs : List (ReportKind PlanPair)) → SameTold (told_by rs) (told_by_queries (queries_by rs)) }
{}

/// The answers of a report say what it tells.
pub fn reports_tell_their_queries()
    ensures { (r : ReportKind PlanPair) → SameTold (told_by_report r) (told_by_queries (queries_by_report r)) }
{}

/// Lists of reports answer all queries alike exactly if they tell the same.
pub fn equal_queries_equal_told()
    ensures { (rs qs : List (ReportKind PlanPair)) → SameQueries (queries_by rs) (queries_by qs) ↔ SameTold (told_by rs) (told_by qs) }
{}

/// A list after another has the joined answers of both.
pub fn append_joins_queries()
    ensures { (rs qs : List (ReportKind PlanPair)) → SameQueries (queries_by (rs ++ qs)) (joined_queries (queries_by rs) (queries_by qs)) }
{}

/// A list of one report answers as the report does.
pub fn queries_of_one_report()
    ensures { (r : ReportKind PlanPair) → SameQueries (queries_by (r ∷ [])) (queries_by_report r) }
{}
