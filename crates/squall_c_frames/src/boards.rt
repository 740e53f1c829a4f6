//! The frames of a board, of its digest and of a repair.

ghost use Rattle.std.specs.Prelude.{◌≡◌, ◌<◌, length, IfOk, OnOk, OnErr, Err};
ghost use Rattle.squall_wire.specs.declared.message.Message.TheVariants.{Delta as DeltaMessage};
ghost use Rattle.squall_wire.specs.Messages.{spell};
ghost use Rattle.squall_c_frames.specs.declared.fault.FrameFault.TheVariants.{TooLong};
ghost use Rattle.squall_c_frames.specs.BoardFrames.{frames_of, HasAtMost, IsBoardFrames, IsDigestFrame, IsRepairFrames};

use crate::fault::FrameFault;
use crate::frames::Frames;
use squall_board::{Board, Delta};
use squall_delta::{digest, pieces_within, repair};
use squall_wire::{Digest, Message, encode, encode_board};
use std::alloc::{AllocError, Global};

/// The frame of a piece of a board. It fails only if an allocation fails.
fn piece_frame(alloc: Global, piece: &Delta) -> Result<Vec<u8>, AllocError>
    ensures { IfOk result (λ frame. frame.items ≡ spell (DeltaMessage piece.now)) }
{
    match encode_board(alloc, piece) {
        Ok(frame) => Ok(frame),
        // Each piece fits a frame, so that only a failed allocation is left.
        Err(_) => Err(AllocError),
    }
}

/// The frames of the pieces.
fn frames_of(alloc: Global, pieces: &[Delta]) -> Result<Frames, AllocError>
    ensures { IfOk result (λ frames. frames ≡ frames_of pieces.now) }
{
    let mut frames = Frames::new(alloc);
    for piece in pieces {
        frames.push(piece_frame(alloc, piece)?)?;
    }
    Ok(frames)
}

/// The frames of the pieces of the board, each of which has at most `limit` bytes. `TooLong` if the frame
/// of some item alone is longer than the limit, which is so only if the limit is below 98,337 bytes.
/// `NoMemory` if an allocation failed.
pub fn board_frames(alloc: Global, board: &Board, limit: usize) -> Result<Frames, FrameFault>
    ensures { IsBoardFrames limit board.now result }
{
    let pieces = pieces_within(alloc, board, limit)?;
    Ok(frames_of(alloc, &pieces)?)
}

/// The frames of the pieces of the repair of the board by the digest, likewise. `NoMemory` also if the
/// count of an issue's owners is full.
pub fn repair_frames(
    alloc: Global,
    board: &Board,
    digest: &Digest,
    limit: usize,
) -> Result<Frames, FrameFault>
    ensures { IsRepairFrames limit board.now digest.now result }
{
    let repair = repair(alloc, board, digest)?;
    board_frames(alloc, &repair, limit)
}

/// The frame, if it has at most `limit` bytes. The fault is `TooLong` and no other one, and only of a
/// frame that has more.
fn short(frame: Vec<u8>, limit: usize) -> Result<Vec<u8>, FrameFault>
    ensures frame { IfOk result (λ short. short.items ≡ frame.items) }
    ensures short { OnOk result (HasAtMost limit frame.items) }
    ensures too_long { OnErr result (result ≡ Err TooLong) }
    ensures long { OnErr result (limit < length frame.items) }
{
    if frame.len() > limit {
        return Err(FrameFault::TooLong);
    }
    Ok(frame)
}

/// The frame of the digest of the board, which has at most `limit` bytes. `TooLong` if it would have
/// more, or its body more than 1,048,576. `NoMemory` if an allocation failed.
pub fn digest_frame(alloc: Global, board: &Board, limit: usize) -> Result<Frames, FrameFault>
    ensures { IsDigestFrame limit board.now result }
{
    let digest = digest(alloc, board)?;
    let frame = short(encode(alloc, &Message::Digest(digest))?, limit)?;
    let mut frames = Frames::new(alloc);
    frames.push(frame)?;
    Ok(frames)
}
