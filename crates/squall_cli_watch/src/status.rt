//! The status of the newest course.

ghost use Rattle.std.specs.Prelude.{◌≡◌, IfOk};
ghost use Rattle.squall_status.specs.Shares.{are_over};
ghost use Rattle.squall_cli_watch.specs.Watched.{IsNewestStatus};
ghost use Rattle.squall_cli_watch.specs.Taken.{next_with};

use crate::ending::{Next, WatchEnd};
use squall_board::Board;
use squall_cli_command::WatchAsk;
use squall_course::Course;
use squall_status::{CourseStatus, complete_moves};
use std::alloc::{AllocError, Global};

/// How far the newest course has come of which the board tells, or else the first.
pub(crate) fn newest_status(
    alloc: Global,
    first: &Course,
    board: &Board,
) -> Result<CourseStatus, AllocError>
    ensures { IfOk result (λ status. IsNewestStatus first.now board.now status) }
{
    let newest = board.newest_course(alloc, first)?;
    let course = newest.as_ref().unwrap_or(first);
    CourseStatus::of(alloc, course, board)
}

/// Whether each move of the course is complete.
fn is_complete(status: &CourseStatus) -> bool
    ensures { result ≡ are_over status.now.moves }
{
    let moves = status.moves();
    complete_moves(moves) == moves.len()
}

/// What comes after a frame that is answered with the status.
pub(crate) fn next_with(how: WatchAsk, status: &CourseStatus) -> Next
    ensures { result ≡ next_with how status.now }
{
    if how.is_until_complete && is_complete(status) {
        Next::End(WatchEnd::Complete)
    } else {
        Next::On
    }
}
