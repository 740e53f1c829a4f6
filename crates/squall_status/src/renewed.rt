//! How far moves and sub-plans have come after news.

ghost use Rattle.std.specs.Prelude.{◌≡◌, ◌<◌, ◌≤◌, ℕ, Bool, false, map, IfOk};
ghost use Rattle.squall_key.specs.Keys.{part_limit};
ghost use Rattle.squall_course.specs.Subplans.{subplan_count};
ghost use Rattle.squall_report.specs.Cells.{place_at};
ghost use Rattle.squall_report.specs.Facts.{Fact, DonePart};
ghost use Rattle.squall_board.specs.Boards.{says};
ghost use Rattle.squall_board.specs.MovesRoute.{cell_to};
ghost use Rattle.squall_status.specs.News.{AreMovesBefore, AreSubplansBefore, Renews, RenewsSubplan};
ghost use Rattle.squall_status.specs.Summary.{AreMoveStatuses, subplan_status, subplan_statuses};

use crate::moving::progress_of;
use crate::progress::{MoveStatus, Progress};
use crate::subplan::{SubplanStatus, subplan_status};
use squall_board::Board;
use squall_course::Course;
use squall_report::CellId;
use std::alloc::{AllocError, Global};

/// How far a move has come after news: as before if they have nothing of its cell.
fn renewed_progress(number: u32, status: &MoveStatus, news: &Board, board: &Board) -> Progress
    requires number { 1 ≤ number }
    requires sub { status.now.moving.sub < part_limit }
    ensures { Renews (says news.now) (says board.now) (cell_to number status.now.moving) status.now.moving.span status.now.progress result }
{
    let moving = &status.moving;
    let cell = CellId::of(number, moving.sub, moving.dest.get());
    match news.cell_at(cell) {
        Some(_) => progress_of(board, number, moving),
        None => status.progress,
    }
}

/// The status of each move after news, in their order. Only those are looked up anew of whose cell
/// there are news.
pub(crate) fn renewed_moves(
    alloc: Global,
    course: &Course,
    statuses: &[MoveStatus],
    news: &Board,
    board: &Board,
) -> Result<Vec<MoveStatus>, AllocError>
    requires { AreMovesBefore course.now (says news.now) (says board.now) statuses.now }
    ensures { IfOk result (λ v. AreMoveStatuses course.now (says board.now) v.items) }
{
    // The proof learns that the course has two plans.
    let _subplans = course.subplans();
    let number = course.number();
    let mut renewed = Vec::with_capacity(alloc, statuses.len())?;
    for status in statuses {
        let progress = renewed_progress(number, status, news, board);
        renewed.push(MoveStatus {
            moving: status.moving,
            progress,
        })?;
    }
    Ok(renewed)
}

/// Whether the board has a cell of the sub-plan.
fn has_cells(board: &Board, number: u32, sub: u32) -> bool
    ensures { result ≡ false → (part : ℕ) → says board.now (DonePart (place_at number sub part)) ≡ false }
{
    match board.cell_map().get(&number) {
        Some(subs) => subs.get(&sub).is_some(),
        None => false,
    }
}

/// The status of a sub-plan after news.
fn renewed_subplan(
    alloc: Global,
    course: &Course,
    status: SubplanStatus,
    news: &Board,
    board: &Board,
) -> Result<SubplanStatus, AllocError>
    ensures { IfOk result (λ s. RenewsSubplan course.now (says news.now) (says board.now) status s) }
{
    let number = course.number();
    let sub = status.sub;
    if has_cells(news, number, sub) {
        return subplan_status(alloc, course, board, sub);
    }
    Ok(SubplanStatus {
        sub,
        receivers: status.receivers,
        done: status.done,
        opened: sub < board.opened(number),
    })
}

/// The status of each sub-plan after news, by rising number. Receivers are asked anew only of
/// sub-plans of which there are news.
pub(crate) fn renewed_subplans(
    alloc: Global,
    course: &Course,
    statuses: &[SubplanStatus],
    news: &Board,
    board: &Board,
) -> Result<Vec<SubplanStatus>, AllocError>
    requires { AreSubplansBefore course.now (says news.now) (says board.now) statuses.now }
    ensures { IfOk result (λ v. v.items ≡ subplan_statuses course.now (says board.now)) }
{
    let mut renewed = Vec::with_capacity(alloc, statuses.len())?;
    for status in statuses {
        let after = renewed_subplan(alloc, course, *status, news, board)?;
        renewed.push(after)?;
    }
    Ok(renewed)
}
