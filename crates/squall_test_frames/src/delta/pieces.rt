//! What a caller that cuts a board learns: each piece has a frame.

ghost use Rattle.std.specs.Prelude.{◌≢◌, Err};
ghost use Rattle.squall_wire.specs.declared.encoding.EncodeFault.TheVariants.{TooLong};

use crate::wire::{LOAD, are_of, board_of};
use squall_board::Board;
use squall_delta::laws::pieces_have_frames;
use squall_delta::pieces;
use squall_test_example::holds;
use squall_wire::{EncodeFault, encode_board};
use std::alloc::Global;
use std::process::Abort;

/// The frame of the first piece of the board. None if it has no piece.
fn first_frame(alloc: Global, board: &Board) -> Result<Option<Vec<u8>>, EncodeFault>
    ensures { result ≢ Err TooLong }
{
    let cut = pieces(alloc, board)?;
    match cut.first() {
        Some(piece) => {
            pieces_have_frames(piece);
            Ok(Some(encode_board(alloc, piece)?))
        }
        None => Ok(None),
    }
}

/// The frame of the first piece of the board is that of the load.
fn look_at_first(rt: &impl Abort, alloc: Global, board: &Board) {
    let frame = first_frame(alloc, board)
        .expect(rt, "memory")
        .expect(rt, "a piece");
    holds!(rt; are_of(alloc, &frame, LOAD).expect(rt, "memory"));
}

#[test]
fn a_piece_has_a_frame(rt: HostRuntime) {
    let board = board_of(rt.alloc(), LOAD).expect(&rt, "memory");
    look_at_first(&rt, rt.alloc(), &board)
}
