//! The example of the crate's first page.

use squall_board::Board;
use squall_course::Course;
use squall_key::Key;
use squall_report::Report;
use squall_table::{News, RouteTable};
use squall_test_example::{course, load};
use std::alloc::Global;
use std::process::Abort;
use std::test::Fail;

/// The table sends 2:0 to its old partition, and to its new one after the load of its keys.
fn takes_a_load(
    rt: &impl Abort,
    alloc: Global,
    course: &Course,
    load: &Report,
) -> Result<(), Fail> {
    let key = Key::read("2:0").ok_or("a key")?;
    let mut board = Board::new(alloc);
    let table = RouteTable::build(alloc, course, &board)?;
    assert!(rt; table.owner(key).get() == 1);
    let ready = table.prepare(course, News::Report(load)).ok();
    let ready = ready.ok_or("a patch")?;
    board.take(load)?;
    assert!(rt; ready.make().owner(key).get() == 3);
    Ok(())
}

/// The same with the report of a load.
fn takes_the_load(rt: &impl Abort, alloc: Global, course: &Course) -> Result<(), Fail> {
    let load = load("2:0", "3:0").ok_or("a report")?;
    takes_a_load(rt, alloc, course, &load)
}

#[test]
fn load_taken(rt: HostRuntime) -> Result<(), Fail> {
    let course = course(rt.alloc()).ok_or("a course")?;
    takes_the_load(&rt, rt.alloc(), &course)
}
