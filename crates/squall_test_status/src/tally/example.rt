//! The example of the crate's first page.

use squall_board::Board;
use squall_status::{Tally, clashes_above};
use squall_test_example::load;
use std::process::Abort;
use std::test::Fail;

fn counts_a_board(rt: &impl Abort, board: &mut Board) -> Result<(), Fail> {
    let report = load("2:0", "2:5").ok_or("load")?;
    board.take(&report)?;
    let tally = Tally::of(board)?;
    assert!(rt; tally.cells == 1 && tally.spans == 1);
    assert!(rt; tally.opened == 0 && tally.issues == 0);
    assert!(rt; !clashes_above(board, 1)?);
    Ok(())
}

#[test]
fn tally_of_a_load(rt: HostRuntime) -> Result<(), Fail> {
    let mut board = Board::new(rt.alloc());
    counts_a_board(&rt, &mut board)
}
