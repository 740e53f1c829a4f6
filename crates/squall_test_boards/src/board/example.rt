//! The example of the crate's first page.

use squall_board::Board;
use squall_course::Course;
use squall_key::Key;
use squall_test_example::{course, load};
use std::process::Abort;
use std::test::Fail;

/// Takes a load, and asks for one of its keys before and after.
fn load_moves_a_key(rt: &impl Abort, course: &Course, board: &mut Board) -> Result<(), Fail> {
    let key = Key::read("2:0").ok_or("key")?;
    assert!(rt; board.route(course, key).get() == 1);
    let report = load("2:0", "3:0").ok_or("load")?;
    board.take(&report)?;
    assert!(rt; board.says_loaded(1, 0, 3, key));
    assert!(rt; board.route(course, key).get() == 3);
    Ok(())
}

#[test]
fn route_of_an_example(rt: HostRuntime) -> Result<(), Fail> {
    let course = course(rt.alloc()).ok_or("course")?;
    let mut board = Board::new(rt.alloc());
    load_moves_a_key(&rt, &course, &mut board)
}
