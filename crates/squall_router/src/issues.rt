//! What is issued by a report, or by one board or another.

ghost use Rattle.std.specs.Prelude.{◌≡◌, ◌≤◌, ℕ, map, true, false, IfOk, OnOk};
ghost use Rattle.std.specs.List.{AllByRecursion};
ghost use Rattle.std.specs.Arc.{arc_value};
ghost use Rattle.squall_join.specs.declared.flat.Flat.TheVariants.{Unknown};
ghost use Rattle.squall_join.specs.Flats.{flat_map};
ghost use Rattle.squall_report.specs.Told.{both_issued};
ghost use Rattle.squall_board.specs.Boards.{issued, report_board};
ghost use Rattle.squall_board.specs.Listed.{entries_issue};

use squall_board::{Board, Delta};
use squall_join::Flat;
use squall_report::{Issue, Report, ReportKind};
use std::alloc::{AllocError, Global};
use std::sync::Arc;

/// Puts in each of the issues under its number. An error means that an allocation failed, or that
/// the count of an issue's owners is full.
fn put_entries(board: &mut Board, entries: &[(u32, Flat<Arc<Issue>>)]) -> Result<(), AllocError>
    requires { AllByRecursion (λ e. 1 ≤ e.0) entries.now }
    ensures { OnOk result ((n : ℕ)
        → issued board.new n ≡ both_issued (issued board.old n) (entries_issue (map (λ e. (e.0, flat_map arc_value e.1)) entries.now) n)) }
{
    for entry in entries {
        board.put_issue(entry.0, &entry.1)?;
    }
    Ok(())
}

/// Puts in what the other board issues, and nothing else. An error means that an allocation failed,
/// or that the count of an issue's owners is full.
fn put_issues(board: &mut Board, from: &Board) -> Result<(), AllocError>
    ensures { OnOk result ((n : ℕ) → issued board.new n ≡ both_issued (issued board.old n) (issued from.now n)) }
{
    let issues = from.issues()?;
    put_entries(board, &issues)
}

/// Whether the board issues nothing under the number.
pub(crate) fn issues_nothing(board: &Board, number: u32) -> bool
    ensures { result ≡ true → issued board.now number ≡ Unknown }
{
    matches!(board.issuing(number), Flat::Unknown)
}

/// A board that issues what both issue, and says nothing. An error means that an allocation failed,
/// or that the count of an issue's owners is full.
pub(crate) fn both_issues(alloc: Global, first: &Board, second: &Board) -> Result<Board, AllocError>
    ensures { IfOk result (λ b. (n : ℕ) → issued b n ≡ both_issued (issued first.now n) (issued second.now n)) }
{
    let mut board = Board::new(alloc);
    put_issues(&mut board, first)?;
    put_issues(&mut board, second)?;
    Ok(board)
}

/// The board that has taken the report alone. An error means that an allocation failed, or that the
/// count of an issue's owners is full.
pub(crate) fn issue_alone(alloc: Global, report: &Report) -> Result<Delta, AllocError>
    ensures { IfOk result (λ d. d ≡ report_board report.now) }
{
    let mut delta = Board::new(alloc);
    delta.take(report)?;
    // The proof learns that the delta is a board and the report one within its limits.
    delta.known();
    let _kind = report.kind();
    Ok(delta)
}

/// Whether the report issues a pair of plans.
pub(crate) fn is_issue(report: &Report) -> bool
    ensures { result ≡ false → (n : ℕ) → issued (report_board report.now) n ≡ Unknown }
{
    matches!(report.kind(), ReportKind::Issued { .. })
}
