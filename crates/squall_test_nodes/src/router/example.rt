//! The example of the crate's first page.

use crate::example::course;
use squall_course::Course;
use squall_key::Key;
use squall_report::Report;
use squall_router::Router;
use squall_test_example::load;
use std::alloc::Global;
use std::process::Abort;
use std::sync::Arc;
use std::test::Fail;

/// The router sends 2:0 to its old partition, and to its new one after the load of its keys.
fn takes_a_load(
    rt: &impl Abort,
    alloc: Global,
    course: &Arc<Course>,
    load: &Report,
) -> Result<(), Fail> {
    let key = Key::read("2:0").ok_or("a key")?;
    let mut router = Router::new(alloc, course)?;
    assert!(rt; router.route(key).get() == 1);
    router.take(load)?;
    assert!(rt; router.route(key).get() == 3);
    assert!(rt; router.course().number() == 1);
    Ok(())
}

/// The same with the report of a load.
fn takes_the_load(rt: &impl Abort, alloc: Global, course: &Arc<Course>) -> Result<(), Fail> {
    let load = load("2:0", "3:0").ok_or("a report")?;
    takes_a_load(rt, alloc, course, &load)
}

#[test]
fn load_taken(rt: HostRuntime) -> Result<(), Fail> {
    let course = course(rt.alloc()).ok_or("a course")?;
    takes_the_load(&rt, rt.alloc(), &course)
}
