//! How far moves have come.

ghost use Rattle.std.specs.Prelude.{◌≡◌, ◌<◌, ◌≤◌, IfOk};
ghost use Rattle.std.specs.List.{sum_by};
ghost use Rattle.std.specs.Option.{option_copied};
ghost use Rattle.squall_key.specs.Keys.{top, part_limit};
ghost use Rattle.squall_board.specs.Boards.{says};
ghost use Rattle.squall_board.specs.MovesRoute.{cell_to, has_come_to, cell_has_come};
ghost use Rattle.squall_status.specs.Coming.{IsProgress};
ghost use Rattle.squall_status.specs.Summary.{move_keys, move_loaded, AreMoveStatuses};

use crate::progress::{MoveStatus, Progress};
use squall_board::{Board, CellParts};
use squall_course::{Course, Move};
use squall_report::CellId;
use squall_span::Span;
use std::alloc::{AllocError, Global};

/// How far the keys of the span have come, as their cell says.
fn progress_in(span: Span, cell: Option<&CellParts>) -> Progress
    ensures { IsProgress span (cell_has_come (option_copied cell.entry)) result }
{
    let Some(cell) = cell else {
        return Progress::NotStarted;
    };
    if cell.second.get() {
        Progress::Complete
    } else {
        Progress::of_set(span, &cell.first)
    }
}

/// How far a move of the reconfiguration of the number has come, from its cell.
pub(crate) fn progress_of(board: &Board, number: u32, moving: &Move) -> Progress
    requires number { 1 ≤ number }
    requires sub { moving.now.sub < part_limit }
    ensures { IsProgress moving.now.span (has_come_to (says board.now) (cell_to number moving.now)) result }
{
    let cell = CellId::of(number, moving.sub, moving.dest.get());
    progress_in(moving.span, board.cell_at(cell))
}

/// The status of each move of the course, in their order.
pub(crate) fn move_statuses(
    alloc: Global,
    course: &Course,
    board: &Board,
) -> Result<Vec<MoveStatus>, AllocError>
    ensures { IfOk result (λ v. AreMoveStatuses course.now (says board.now) v.items) }
{
    let number = course.number();
    let mut statuses = Vec::new(alloc);
    for moving in course.moves() {
        let progress = progress_of(board, number, moving);
        statuses.push(MoveStatus {
            moving: *moving,
            progress,
        })?;
    }
    Ok(statuses)
}

/// How many keys the moves have: no more than there are keys, since none lies in two moves. So the
/// sum fits in 64 bits.
pub(crate) fn sum_keys(moves: &[MoveStatus]) -> u64
    requires { sum_by move_keys moves.now ≤ top }
    ensures { result ≡ sum_by move_keys moves.now }
{
    let mut keys = 0;
    for status in moves {
        keys += status.keys();
    }
    keys
}

/// How many keys of the moves are loaded: no more than there are keys.
pub(crate) fn sum_loaded(moves: &[MoveStatus]) -> u64
    requires { sum_by move_loaded moves.now ≤ top }
    ensures { result ≡ sum_by move_loaded moves.now }
{
    let mut loaded = 0;
    for status in moves {
        loaded += status.loaded();
    }
    loaded
}
