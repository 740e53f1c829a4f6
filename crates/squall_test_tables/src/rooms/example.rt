//! The example of the crate's first page.

use squall_c_values::put_receivers;
use squall_course::Course;
use squall_test_example::course;
use std::alloc::Global;
use std::process::Abort;
use std::test::Fail;

/// Two partitions load keys in sub-plan 0. They are written into a room for three, and into a room for
/// one.
fn writes_receivers(rt: &impl Abort, alloc: Global, course: &Course) -> Result<(), Fail> {
    let mut room = [7, 7, 7];
    assert!(rt; put_receivers(alloc, course, 0, &mut room)? == 2);
    assert!(rt; room[0] == 3 && room[1] == 4 && room[2] == 7);
    let mut short = [7];
    assert!(rt; put_receivers(alloc, course, 0, &mut short)? == 1);
    assert!(rt; short[0] == 3);
    Ok(())
}

#[test]
fn receivers_written(rt: HostRuntime) -> Result<(), Fail> {
    let course = course(rt.alloc()).ok_or("a course")?;
    writes_receivers(&rt, rt.alloc(), &course)
}
