//! The example of the crate's first page.

use squall_board::Board;
use squall_course::Course;
use squall_picture::picture;
use squall_test_example::course;
use std::alloc::Global;
use std::process::Abort;
use std::test::Fail;

/// Draws the course as far as the board says.
fn picture_is_svg(
    rt: &impl Abort,
    alloc: Global,
    course: &Course,
    board: &Board,
) -> Result<(), Fail> {
    let text = picture(alloc, course, board)?;
    assert!(rt; text.as_str().starts_with("<svg "));
    assert!(rt; text.as_str().ends_with("</svg>\n"));
    assert!(rt; text.as_str().contains("[2:0,3:0) from 1 to 3, sub-plan 0"));
    Ok(())
}

#[test]
fn picture_of_an_example(rt: HostRuntime) -> Result<(), Fail> {
    let course = course(rt.alloc()).ok_or("course")?;
    let board = Board::new(rt.alloc());
    picture_is_svg(&rt, rt.alloc(), &course, &board)
}
