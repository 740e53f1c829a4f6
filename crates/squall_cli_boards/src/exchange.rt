//! What is asked of a board and another one, or a digest.

ghost use Rattle.std.specs.Prelude.{◌≡◌, IfOk, take, drop};
ghost use Rattle.squall_cli_boards.specs.Files.{board_of_files, digest_of_file, refused_file};
ghost use Rattle.squall_cli_boards.specs.Answers.{AnswersFor, AnswersBoth, ShowsBeyond, ShowsCover, ShowsRepair, AnswersRepair, refusing};

use crate::answer::Answer;
use crate::file::NamedFile;
use crate::frames::shown_frames;
use crate::hearing::read_digest;
use crate::joining::join_files;
use crate::refusals::FileRefusal;
use squall_board::Board;
use squall_cli_command::Form;
use squall_delta::{beyond, repair};
use squall_wire::WireFault;
use std::alloc::{AllocError, Global};

/// The first file, if there is one, and the others.
fn split_first(files: &[NamedFile]) -> (&[NamedFile], &[NamedFile])
    ensures first { result.0.now ≡ take 1 files.now }
    ensures others { result.1.now ≡ drop 1 files.now }
{
    files.split_at(files.len().min(1))
}

/// The frames of what the board tells that the files do not.
fn beyond_files(alloc: Global, board: &Board, files: &[NamedFile]) -> Result<Answer, AllocError>
    ensures { IfOk result (λ a. AnswersBoth ShowsBeyond files.now board.now a) }
{
    match join_files(alloc, files)? {
        Ok(other) => shown_beyond(alloc, board, &other),
        Err(line) => Answer::refusing(alloc, line.as_str()),
    }
}

/// The frames of what the board tells that the other does not.
fn shown_beyond(alloc: Global, board: &Board, other: &Board) -> Result<Answer, AllocError>
    ensures { IfOk result (λ a. ShowsBeyond board.now other.now a) }
{
    shown_frames(alloc, &beyond(alloc, board, other)?)
}

/// What the first file tells that the others do not, as frames: none if the others tell all of it. A
/// file that has a fault is refused.
pub(crate) fn beyond_answer(alloc: Global, files: &[NamedFile]) -> Result<Answer, AllocError>
    ensures { IfOk result (λ a. AnswersFor (AnswersBoth ShowsBeyond (drop 1 files.now)) (board_of_files (take 1 files.now)) a) }
{
    let (first, others) = split_first(files);
    match join_files(alloc, first)? {
        Ok(board) => beyond_files(alloc, &board, others),
        Err(line) => Answer::refusing(alloc, line.as_str()),
    }
}

/// Whether the files tell all that the board tells.
fn cover_files(alloc: Global, board: &Board, files: &[NamedFile]) -> Result<Answer, AllocError>
    ensures { IfOk result (λ a. AnswersBoth ShowsCover files.now board.now a) }
{
    match join_files(alloc, files)? {
        Ok(other) => Ok(Answer::silent(alloc, !other.covers(board))),
        Err(line) => Answer::refusing(alloc, line.as_str()),
    }
}

/// Whether the other files tell all that the first one tells. The answer has no bytes, and refuses
/// the files if they do not. A file that has a fault is refused by a line.
pub(crate) fn cover_answer(alloc: Global, files: &[NamedFile]) -> Result<Answer, AllocError>
    ensures { IfOk result (λ a. AnswersFor (AnswersBoth ShowsCover (drop 1 files.now)) (board_of_files (take 1 files.now)) a) }
{
    let (first, others) = split_first(files);
    match join_files(alloc, first)? {
        Ok(board) => cover_files(alloc, &board, others),
        Err(line) => Answer::refusing(alloc, line.as_str()),
    }
}

/// The line that refuses a file, as an answer.
fn refused(alloc: Global, name: &str, fault: WireFault) -> Result<Answer, AllocError>
    ensures { IfOk result (λ a. a ≡ refusing (refused_file name.now fault)) }
{
    FileRefusal::new(alloc, name, fault)?.answer(alloc, Form::Lines)
}

/// The frames of what the board has that the digest of a file does not show.
fn repair_by_file(alloc: Global, board: &Board, file: &NamedFile) -> Result<Answer, AllocError>
    ensures { IfOk result (λ a. ShowsRepair file.now.name (digest_of_file file.now.bytes) board.now a) }
{
    match read_digest(alloc, file.bytes())? {
        Ok(digest) => shown_frames(alloc, &repair(alloc, board, &digest)?),
        Err(fault) => refused(alloc, file.name(), fault),
    }
}

/// The same by the first of the files.
fn repair_by_files(alloc: Global, board: &Board, files: &[NamedFile]) -> Result<Answer, AllocError>
    ensures { IfOk result (λ a. AnswersRepair files.now board.now a) }
{
    match files {
        [file, ..] => repair_by_file(alloc, board, file),
        [] => refused(alloc, "", WireFault::Short),
    }
}

/// What the first file has that the digest of the second does not show, as frames: none if it shows
/// all of it. A file that has a fault is refused, and so is a digest's file that is not one frame of
/// a digest.
pub(crate) fn repair_answer(alloc: Global, files: &[NamedFile]) -> Result<Answer, AllocError>
    ensures { IfOk result (λ a. AnswersFor (AnswersRepair (drop 1 files.now)) (board_of_files (take 1 files.now)) a) }
{
    let (first, others) = split_first(files);
    match join_files(alloc, first)? {
        Ok(board) => repair_by_files(alloc, &board, others),
        Err(line) => Answer::refusing(alloc, line.as_str()),
    }
}
