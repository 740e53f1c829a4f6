//! The example of the crate's first page.

use crate::wire::{EMPTY_DELTA, LOAD, board_of};
use squall_board::Board;
use squall_delta::{digest, repair};
use std::alloc::{AllocError, Global};
use std::process::Abort;

/// Brings a board what another one has, by a digest and a repair.
fn repair_completes(
    rt: &impl Abort,
    alloc: Global,
    board: &mut Board,
    other: &Board,
) -> Result<(), AllocError> {
    let shown = digest(alloc, board)?;
    let missing = repair(alloc, other, &shown)?;
    assert!(rt; other.covers(&missing));
    board.merge(&missing)?;
    assert!(rt; board.covers(other));
    Ok(())
}

/// Repairs the board by that of the load.
fn repair_by_the_load(rt: &impl Abort, alloc: Global, board: &mut Board) {
    let other = board_of(alloc, LOAD).expect(rt, "memory");
    repair_completes(rt, alloc, board, &other).expect(rt, "memory")
}

#[test]
fn repair_of_an_empty_board(rt: HostRuntime) {
    let mut board = board_of(rt.alloc(), EMPTY_DELTA).expect(&rt, "memory");
    repair_by_the_load(&rt, rt.alloc(), &mut board)
}
