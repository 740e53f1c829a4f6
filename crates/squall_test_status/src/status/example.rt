//! The example of the crate's first page.

use squall_board::Board;
use squall_course::Course;
use squall_report::Report;
use squall_status::CourseStatus;
use squall_test_example::course;
use std::alloc::Global;
use std::process::Abort;
use std::test::Fail;

fn one_of_two_moves(
    rt: &impl Abort,
    alloc: Global,
    course: &Course,
    board: &mut Board,
) -> Result<(), Fail> {
    board.take(&Report::done(1, 0, 4).ok_or("report")?)?;
    let status = CourseStatus::of(alloc, course, board)?;
    let moves = status.moves();
    assert!(rt;
        !moves
            .first()
            .ok_or("the first move")?
            .progress
            .is_complete()
    );
    assert!(rt;
        moves
            .get(1)
            .ok_or("the second move")?
            .progress
            .is_complete()
    );
    assert!(rt; status.thousandths() == 750);
    Ok(())
}

/// The same with a board.
fn one_of_the_moves(rt: &impl Abort, alloc: Global, course: &Course) -> Result<(), Fail> {
    let mut board = Board::new(alloc);
    one_of_two_moves(rt, alloc, course, &mut board)
}

#[test]
fn one_move_complete(rt: HostRuntime) -> Result<(), Fail> {
    let course = course(rt.alloc()).ok_or("a course")?;
    one_of_the_moves(&rt, rt.alloc(), &course)
}
