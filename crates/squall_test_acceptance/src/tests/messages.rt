//! Boards that travel in frames, as a caller meets them, over public names alone.

ghost use Rattle.std.specs.Prelude.{◌≡◌, Some, IfOk};

use squall_board::Board;
use squall_test_example::{holds, load};
use squall_wire::{Message, decode, encode_board};
use std::alloc::Global;
use std::test::Fail;

/// The board as its frame brings it.
fn sent(alloc: Global, board: &Board) -> Result<Option<Board>, Fail>
    ensures { IfOk result (λ sent. sent ≡ Some board.now) }
{
    let frame = encode_board(alloc, board)?;
    let (message, _) = decode(alloc, &frame)?;
    match message {
        Message::Delta(sent) => Ok(Some(sent)),
        Message::Digest(_) => Ok(None),
    }
}

/// The board takes a load.
fn take_load(board: &mut Board) -> Result<(), Fail> {
    let report = load("2:0", "3:0").ok_or("load")?;
    Ok(board.take(&report)?)
}

/// Whether the board's frame brings it.
fn comes_back(alloc: Global, board: &Board) -> Result<bool, Fail> {
    let other = sent(alloc, board)?.ok_or("a board")?;
    Ok(other == *board)
}

/// A board that a frame brought is equal to the one that was sent, and routes as it does.
#[test]
fn a_board_sent(rt: HostRuntime) -> Result<(), Fail> {
    let mut board = Board::new(rt.alloc());
    take_load(&mut board)?;
    holds!(&rt; comes_back(rt.alloc(), &board)?);
    Ok(())
}
