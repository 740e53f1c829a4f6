//! Boards in pieces that fit a frame.

mod cells;
mod cutter;
mod fault;
mod sizes;

ghost use Rattle.std.specs.Prelude.{◌≡◌, ◌≤◌, ◌<◌, IfOk, Err};
ghost use Rattle.std.specs.List.{AllByRecursion};
ghost use Rattle.squall_wire.specs.Limits.{body_limit};
ghost use Rattle.squall_delta.specs.declared.cut.fault.CutFault.TheVariants.{TooLong};
ghost use Rattle.squall_delta.specs.Pieces.{ArePieces, ArePiecesWithin, EachFitsWithin, FitsFrame, FitsWithin, body_within, joined_boards};

use self::cutter::Cutter;
pub use self::fault::CutFault;
use squall_board::{Board, Delta};
use std::alloc::{AllocError, Global};

/// The most bytes that a body of a frame has.
const BODY_LIMIT: usize = 1_048_576;

/// The bytes of a frame before its body.
const HEAD_BYTES: usize = 8;

/// The most bytes of a body whose frame has at most `limit` bytes.
fn body_within(limit: usize) -> usize
    ensures value { result ≡ body_within limit }
    ensures short { result ≤ body_limit }
{
    limit.saturating_sub(HEAD_BYTES).min(BODY_LIMIT)
}

/// The board in pieces, each of which has a frame of at most `limit` bytes. Each has as many of the
/// next items as fit such a frame. An item is an opening, an issue, the completion of a cell, or one
/// of its spans. The items have the order of the board's delta. A board that tells nothing has no
/// pieces, whatever the limit.
///
/// `TooLong` if the frame of some item alone is longer than the limit. An issue of two plans has the
/// longest, of at most 98,337 bytes, so a limit of that many or more always suffices. A frame has at
/// most 1,048,584 bytes, so a limit above that changes nothing. `NoMemory` if an allocation failed.
pub fn pieces_within(alloc: Global, board: &Board, limit: usize) -> Result<Vec<Delta>, CutFault>
    ensures pieces { IfOk result (λ ps. ArePiecesWithin limit board.now ps.items) }
    ensures joined { IfOk result (λ ps. joined_boards ps.items ≡ board.now) }
    ensures fit { IfOk result (λ ps. AllByRecursion (FitsWithin limit) ps.items) }
    ensures each { IfOk result (λ _. EachFitsWithin limit board.now) }
    ensures long { result ≡ Err TooLong → EachFitsWithin limit board.now → ⊥ }
    ensures low { result ≡ Err TooLong → limit < 98337 }
{
    board.known();
    let mut cutter = Cutter::new(alloc, body_within(limit));
    cutter.put_openings(&board.openings()?)?;
    cutter.put_issues(&board.issues()?)?;
    cutter.put_cells(&board.lent_cells()?)?;
    Ok(cutter.finish()?)
}

/// The board in pieces, each of which has a frame. Each has as many of the next items as fit a
/// frame, as [`pieces_within`] says with the longest frame as its limit. An error means that an
/// allocation failed.
pub fn pieces(alloc: Global, board: &Board) -> Result<Vec<Delta>, AllocError>
    ensures pieces { IfOk result (λ ps. ArePieces board.now ps.items) }
    ensures joined { IfOk result (λ ps. joined_boards ps.items ≡ board.now) }
    ensures fit { IfOk result (λ ps. AllByRecursion FitsFrame ps.items) }
{
    match pieces_within(alloc, board, HEAD_BYTES + BODY_LIMIT) {
        Ok(pieces) => Ok(pieces),
        // No item is longer than a frame can be, so only a failed allocation is left.
        Err(_) => Err(AllocError),
    }
}
