//! The newest course of two plans and of board files.

ghost use Rattle.std.specs.Prelude.{◌≡◌, IfOk, drop};
ghost use Rattle.squall_cli_boards.specs.Known.{newest_with, newest_of};
ghost use Rattle.squall_cli_boards.specs.Found.{IsFound};

use crate::answer::Answer;
use crate::file::NamedFile;
use crate::joining::join_all;
use crate::plans::plans_in;
use squall_board::Board;
use squall_cli_command::Form;
use squall_course::Course;
use squall_plan::Plan;
use std::alloc::{AllocError, Global};

/// A course, and a board that tells of it.
#[derive(Drop)]
pub struct Known {
    /// The course.
    pub course: Course,
    /// The board.
    pub board: Board,
}

/// The newest course of two plans and of board files, with the board of the files.
fn newest_with(
    alloc: Global,
    form: Form,
    old: &Plan,
    new: &Plan,
    files: &[NamedFile],
) -> Result<Result<Known, Answer>, AllocError>
    ensures { IfOk result (λ found. IsFound found (newest_with form old.now new.now files.now)) }
{
    let first = Course::first(alloc, old, new)?;
    match join_all(alloc, files)? {
        Ok(board) => {
            let course = board.newest_course(alloc, &first)?.unwrap_or(first);
            Ok(Ok(Known { course, board }))
        }
        Err(refusal) => Ok(Err(refusal.answer(alloc, form)?)),
    }
}

/// The files after the first two.
fn files_after(files: &[NamedFile]) -> &[NamedFile]
    ensures { result.now ≡ drop 2 files.now }
{
    files.split_at(files.len().min(2)).1
}

/// The newest course of the first two files, which are plans, and of the board files after them, with
/// the board of these. Or the answer in the form that refuses a plan or a board file.
#[tactic(auto, using(crate::proofs::Refused::refused_found))]
pub fn newest_of(
    alloc: Global,
    form: Form,
    files: &[NamedFile],
) -> Result<Result<Known, Answer>, AllocError>
    ensures { IfOk result (λ found. IsFound found (newest_of form files.now)) }
{
    match plans_in(alloc, form, files)? {
        Ok((old, new)) => newest_with(alloc, form, &old, &new, files_after(files)),
        Err(answer) => Ok(Err(answer)),
    }
}
