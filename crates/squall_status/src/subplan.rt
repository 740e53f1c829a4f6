//! How far sub-plans have come.

ghost use Rattle.std.specs.Prelude.{◌≡◌, IfOk};
ghost use Rattle.std.specs.List.{count_by};
ghost use Rattle.squall_board.specs.Boards.{says};
ghost use Rattle.squall_status.specs.Summary.{is_done, subplan_status, subplan_statuses};

use squall_board::Board;
use squall_course::Course;
use squall_key::PartId;
use std::alloc::{AllocError, Global};

/// How far a sub-plan has come.
#[derive(Clone, Copy, Debug, PartialEq, Eq)]
pub struct SubplanStatus {
    /// Its number, from 0 on.
    pub sub: u32,
    /// How many partitions receive keys in it.
    pub receivers: u32,
    /// How many of these have reported that they are done.
    pub done: u32,
    /// Whether it is opened.
    pub opened: bool,
}

/// How many of the partitions are done with the sub-plan of the number.
fn count_done(board: &Board, number: u32, sub: u32, parts: &[PartId]) -> usize
    ensures { result ≡ count_by (is_done (says board.now) number sub) parts.now }
{
    let mut done = 0;
    for part in parts {
        if board.says_done(number, sub, part.get()) {
            done += 1;
        }
    }
    done
}

/// The status of a sub-plan of the course.
pub(crate) fn subplan_status(
    alloc: Global,
    course: &Course,
    board: &Board,
    sub: u32,
) -> Result<SubplanStatus, AllocError>
    ensures { IfOk result (λ s. s ≡ subplan_status course.now (says board.now) sub) }
{
    let number = course.number();
    let receivers = course.receivers(alloc, sub)?;
    let done = count_done(board, number, sub, &receivers);
    Ok(SubplanStatus {
        sub,
        receivers: receivers.len() as u32,
        done: done as u32,
        opened: sub < board.opened(number),
    })
}

/// The status of each sub-plan of the course, by rising number.
pub(crate) fn subplan_statuses(
    alloc: Global,
    course: &Course,
    board: &Board,
) -> Result<Vec<SubplanStatus>, AllocError>
    ensures { IfOk result (λ v. v.items ≡ subplan_statuses course.now (says board.now)) }
{
    let mut statuses = Vec::new(alloc);
    for sub in 0..course.subplans() {
        statuses.push(subplan_status(alloc, course, board, sub)?)?;
    }
    Ok(statuses)
}
