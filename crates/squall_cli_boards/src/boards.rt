//! What is asked of one board.

ghost use Rattle.std.specs.Prelude.{◌≡◌, IfOk, string_bytes};
ghost use Rattle.squall_cli_boards.specs.Files.{board_of_files, files_joined};
ghost use Rattle.squall_cli_boards.specs.Answers.{AnswersFor, AnswersIn, board_in, ShowsBoard, ShowsFrames, ShowsDigest};

use crate::answer::Answer;
use crate::file::NamedFile;
use crate::frames::{shown_digest, shown_frames};
use crate::joining::{join_all, join_files};
use squall_board::Board;
use squall_cli_command::Form;
use squall_cli_json::board_json;
use squall_cli_words::add_board;
use squall_delta::digest;
use std::alloc::{AllocError, Global};

/// The board in the form.
fn board_text(alloc: Global, form: Form, board: &Board) -> Result<String, AllocError>
    ensures { IfOk result (λ s. string_bytes s ≡ board_in form board.now) }
{
    match form {
        Form::Lines => {
            let mut text = String::new(alloc);
            add_board(board, &mut text)?;
            Ok(text)
        }
        Form::Json => board_json(alloc, board),
    }
}

/// The board as an answer.
fn shown_board(alloc: Global, form: Form, board: &Board) -> Result<Answer, AllocError>
    ensures { IfOk result (λ a. ShowsBoard form board.now a) }
{
    let text = board_text(alloc, form, board)?;
    Answer::fine_text(alloc, text.as_str())
}

/// What the files tell, as the lines of a board: `opened N COUNT`, `issue N one` or `issue N clash`,
/// and `cell N S P`, then `done` or `open` and the spans; or `empty`. Or the same as JSON. A file
/// that has a fault is refused, and nothing else is said.
pub(crate) fn board_answer(
    alloc: Global,
    form: Form,
    files: &[NamedFile],
) -> Result<Answer, AllocError>
    ensures { IfOk result (λ a. AnswersIn form (ShowsBoard form) (files_joined files.now) a) }
{
    match join_all(alloc, files)? {
        Ok(board) => shown_board(alloc, form, &board),
        Err(refusal) => refusal.answer(alloc, form),
    }
}

/// What the files tell, as frames: as few as can be, and none if they tell nothing. A file that has
/// a fault is refused.
pub(crate) fn merge_answer(alloc: Global, files: &[NamedFile]) -> Result<Answer, AllocError>
    ensures { IfOk result (λ a. AnswersFor ShowsFrames (board_of_files files.now) a) }
{
    match join_files(alloc, files)? {
        Ok(board) => shown_frames(alloc, &board),
        Err(line) => Answer::refusing(alloc, line.as_str()),
    }
}

/// The frame of the digest of what the files tell, or `no TooLong` if it would be too long. A file
/// that has a fault is refused.
pub(crate) fn digest_answer(alloc: Global, files: &[NamedFile]) -> Result<Answer, AllocError>
    ensures { IfOk result (λ a. AnswersFor ShowsDigest (board_of_files files.now) a) }
{
    match join_files(alloc, files)? {
        Ok(board) => shown_digest(alloc, digest(alloc, &board)?),
        Err(line) => Answer::refusing(alloc, line.as_str()),
    }
}
