//! The example of the crate's first page.

use super::{LOAD, board_of};
use squall_board::Board;
use squall_wire::{Message, decode, encode_board};
use std::alloc::Global;
use std::process::Abort;
use std::test::Fail;

/// Encodes a board, and decodes its frame.
fn frame_and_back(rt: &impl Abort, alloc: Global, board: &Board) -> Result<(), Fail> {
    let frame = encode_board(alloc, board)?;
    let (message, used) = decode(alloc, &frame)?;
    assert!(rt; used == frame.len());
    assert!(rt; matches!(&message, Message::Delta(read) if *read == *board));
    Ok(())
}

#[test]
fn frame_of_a_load(rt: HostRuntime) -> Result<(), Fail> {
    let board = board_of(rt.alloc(), LOAD)?;
    frame_and_back(&rt, rt.alloc(), &board)
}
