//! The example of the crate's first page.

use super::{new_table, old_table};
use squall_c_changes::put_changes;
use squall_c_values::CSpan;
use squall_course::Course;
use squall_table::RouteTable;
use squall_test_example::course;
use std::alloc::Global;
use std::process::Abort;
use std::test::Fail;

fn lists_the_changes(rt: &impl Abort, before: &RouteTable, after: &RouteTable) {
    let mut room = [CSpan { lo: 0, hi: 0 }; 4];
    assert!(rt; put_changes(before, after, 0, u64::MAX, &mut room) == 2);
    // The keys from 2:0 on, below 2:5, and then those from 6:0 on, below 9:0.
    assert!(rt; room[0].lo == 8589934592 && room[0].hi == 8589934597);
    assert!(rt; room[1].lo == 25769803776 && room[1].hi == 38654705664);
    assert!(rt; put_changes(after, after, 0, u64::MAX, &mut room) == 0);
}

/// Lists the changes from the table to the one after the reports.
fn lists_from(
    rt: &impl Abort,
    alloc: Global,
    before: &RouteTable,
    course: &Course,
) -> Result<(), Fail> {
    let after = new_table(alloc, course)?;
    lists_the_changes(rt, before, &after);
    Ok(())
}

/// Lists the changes from the table of the course before any report.
fn lists_of(rt: &impl Abort, alloc: Global, course: &Course) -> Result<(), Fail> {
    let before = old_table(alloc, course)?;
    lists_from(rt, alloc, &before, course)
}

#[test]
fn changes_listed(rt: HostRuntime) -> Result<(), Fail> {
    let course = course(rt.alloc()).ok_or("course")?;
    lists_of(&rt, rt.alloc(), &course)
}
