//! The example at the head of `squall_plan`, of `plan_text`.

use squall_plan::{Plan, plan_text};
use squall_test_example::{OLD, plan};
use std::alloc::Global;
use std::process::Abort;
use std::test::Fail;

fn reads_as_itself(rt: &impl Abort, alloc: Global, plan: &Plan) -> Result<(), Fail> {
    let text = plan_text(alloc, plan)?;
    assert!(rt; Plan::read(alloc, text.as_bytes())? == *plan);
    Ok(())
}

#[test]
fn example(rt: HostRuntime) -> Result<(), Fail> {
    let plan = plan(rt.alloc(), OLD).ok_or("a plan")?;
    reads_as_itself(&rt, rt.alloc(), &plan)
}
