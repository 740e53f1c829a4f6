//! The board of board files.

ghost use Rattle.std.specs.Prelude.{◌≡◌, ◌∷◌, List, Option, Err, IfOk, if◌then◌else◌, string_bytes};
ghost use Rattle.squall_wire.specs.declared.fault.WireFault.{WireFault as Fault};
ghost use Rattle.squall_wire.specs.Messages.{Body, body_of};
ghost use Rattle.squall_cli_boards.specs.Files.{JoinsTo, joined_with, joined_file, files_joined, board_of_files};
ghost use Rattle.squall_cli_boards.specs.Joined.{IsJoined};

use crate::file::NamedFile;
use crate::hearing::first_frame;
use crate::refusals::FileRefusal;
use squall_board::Board;
use squall_wire::laws::lists_make_the_board;
use squall_wire::{Message, WireFault};
use std::alloc::{AllocError, Global};

/// Merges the board of a message. Whether it is one: a digest is none, and changes nothing.
fn merge_message(board: &mut Board, message: &Message) -> Result<bool, AllocError>
    ensures { IfOk result (λ merged. (bodies : List Body) (fault : Option Fault) → joined_with board.old (body_of message.now ∷ bodies) fault
        ≡ (if merged then joined_with board.new bodies fault else Err WireFault.Kind)) }
{
    match message {
        Message::Delta(delta) => {
            lists_make_the_board(delta);
            board.merge(delta)?;
            Ok(true)
        }
        Message::Digest(_) => Ok(false),
    }
}

/// Merges the boards of a file, frame by frame. The first fault, if there is one.
fn merge_file(
    alloc: Global,
    board: &mut Board,
    bytes: &[u8],
) -> Result<Option<WireFault>, AllocError>
    ensures { IfOk result (λ met. JoinsTo met board.new (joined_file board.old bytes.now)) }
{
    let mut rest = bytes;
    while !rest.is_empty() {
        let (message, others) = match first_frame(alloc, rest)? {
            Ok(first) => first,
            Err(fault) => return Ok(Some(fault)),
        };
        if !merge_message(board, &message)? {
            return Ok(Some(WireFault::Kind));
        }
        rest = others;
    }
    Ok(None)
}

/// The board of the files: the join of all boards in them. Or why the first file that has a fault is
/// refused.
pub(crate) fn join_all(
    alloc: Global,
    files: &[NamedFile],
) -> Result<Result<Board, FileRefusal>, AllocError>
    ensures { IfOk result (λ joined. joined ≡ files_joined files.now) }
{
    let mut board = Board::new(alloc);
    for file in files {
        if let Some(fault) = merge_file(alloc, &mut board, file.bytes())? {
            return Ok(Err(FileRefusal::new(alloc, file.name(), fault)?));
        }
    }
    Ok(Ok(board))
}

/// The board of the files: the join of all boards in them. Or the line that refuses the first file
/// that has a fault.
pub(crate) fn join_files(
    alloc: Global,
    files: &[NamedFile],
) -> Result<Result<Board, String>, AllocError>
    ensures { IfOk result (λ joined. IsJoined string_bytes joined (board_of_files files.now)) }
{
    match join_all(alloc, files)? {
        Ok(board) => Ok(Ok(board)),
        Err(refusal) => Ok(Err(refusal.line(alloc)?)),
    }
}
