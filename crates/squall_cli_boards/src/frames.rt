//! Frames as answers.

ghost use Rattle.std.specs.Prelude.{◌≡◌, IfOk};
ghost use Rattle.std.specs.List.{AllByRecursion};
ghost use Rattle.squall_wire.specs.declared.message.Message.TheVariants.{Delta as DeltaMessage};
ghost use Rattle.squall_wire.specs.Messages.{spell};
ghost use Rattle.squall_cli_boards.specs.Answers.{HasFrame, spell_boards, ShowsFrames, answer_of_digest};

use crate::answer::Answer;
use squall_board::{Board, Delta};
use squall_delta::pieces;
use squall_wire::{Digest, EncodeFault, Message, encode, encode_board};
use std::alloc::{AllocError, Global};

/// The frame of a piece of a board. It fails only if an allocation fails.
fn piece_frame(alloc: Global, piece: &Delta) -> Result<Vec<u8>, AllocError>
    ensures frame { IfOk result (λ frame. frame.items ≡ spell (DeltaMessage piece.now)) }
    ensures message { IfOk result (λ _. HasFrame piece.now) }
{
    match encode_board(alloc, piece) {
        Ok(frame) => Ok(frame),
        // Each piece fits a frame, so that only a failed allocation is left.
        Err(_) => Err(AllocError),
    }
}

/// The frames of the pieces, one after the other.
fn frames_of(alloc: Global, pieces: &[Delta]) -> Result<Vec<u8>, AllocError>
    ensures frames { IfOk result (λ bytes. bytes.items ≡ spell_boards pieces.now) }
    ensures messages { IfOk result (λ _. AllByRecursion HasFrame pieces.now) }
{
    let mut bytes = Vec::new(alloc);
    for piece in pieces {
        bytes.extend_from_slice(&piece_frame(alloc, piece)?)?;
    }
    Ok(bytes)
}

/// The frames of the board, as few as can be. A board that tells nothing has none.
pub(crate) fn shown_frames(alloc: Global, board: &Board) -> Result<Answer, AllocError>
    ensures { IfOk result (λ a. ShowsFrames board.now a) }
{
    let pieces = pieces(alloc, board)?;
    Ok(Answer::fine(frames_of(alloc, &pieces)?))
}

/// The frame of the digest, or that it would be too long.
pub(crate) fn shown_digest(alloc: Global, digest: Digest) -> Result<Answer, AllocError>
    ensures { IfOk result (λ a. a ≡ answer_of_digest digest) }
{
    match encode(alloc, &Message::Digest(digest)) {
        Ok(frame) => Ok(Answer::fine(frame)),
        Err(EncodeFault::TooLong) => Answer::refusing(alloc, "no TooLong\n"),
        Err(EncodeFault::NoMemory) => Err(AllocError),
    }
}
