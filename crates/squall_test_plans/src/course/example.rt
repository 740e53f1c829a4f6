//! The example of the crate's first page.

use squall_course::Course;
use squall_key::Key;
use squall_test_example::{NEW, OLD, plan};
use std::test::Fail;

#[test]
fn owners_of_a_key(rt: HostRuntime) -> Result<(), Fail> {
    let key = Key::new(2, 7).expect(&rt, "a key");
    let old = plan(rt.alloc(), OLD).ok_or("a plan")?;
    let new = plan(rt.alloc(), NEW).ok_or("a plan")?;
    let course = Course::first(rt.alloc(), &old, &new)?;
    let owners = course.owners(key);
    assert!(rt; (owners.old.get(), owners.new.get()) == (1, 3));
    assert!(rt; owners.sub == Some(0));
    assert!(rt; course.dest(0, owners.old) == Some(owners.new));
    assert!(rt; (course.moves().len(), course.subplans()) == (2, 1));
    Ok(())
}
