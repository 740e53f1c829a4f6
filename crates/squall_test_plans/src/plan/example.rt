//! The example of the crate's first page.

use squall_key::Key;
use squall_plan::{Plan, PlanFault};
use std::test::Fail;

#[test]
fn plan_of_two_ranges(rt: HostRuntime) -> Result<(), Fail> {
    let text = concat!(
        r#"{"plan":[{"part":3,"from":[2,0],"to":"end"},"#,
        r#"{"part":1,"from":[0,0],"to":[2,0]}]}"#,
    );
    let key = Key::new(2, 7).expect(&rt, "a key");
    let plan = Plan::read(rt.alloc(), text.as_bytes())?;
    assert!(rt; plan.owner(key).get() == 3);
    assert!(rt; plan.ranges().len() == 2);
    let other = Plan::read(rt.alloc(), b"{}".as_slice());
    assert!(rt; other.err() == Some(PlanFault::Shape(None)));
    Ok(())
}
