//! The example at the head of `squall_plan_edit`.

use squall_key::{Bound, Key, PartId};
use squall_plan::Plan;
use squall_plan_edit::moved;
use squall_span::Span;
use squall_test_example::{OLD, plan};
use std::alloc::Global;
use std::process::Abort;
use std::test::Fail;

fn moves_a_span(rt: &impl Abort, alloc: Global, old: &Plan) -> Result<(), Fail> {
    let lo = Bound::new(2, 0).expect(rt, "a bound");
    let span = Span::new(lo, Bound::TOP).expect(rt, "a span");
    let part = PartId::new(9).expect(rt, "a partition");
    let new = moved(alloc, old, span, part)?;
    let key = Key::new(2, 7).expect(rt, "a key");
    assert!(rt; new.owner(key) == part);
    Ok(())
}

#[test]
fn example(rt: HostRuntime) -> Result<(), Fail> {
    let plan = plan(rt.alloc(), OLD).ok_or("a plan")?;
    moves_a_span(&rt, rt.alloc(), &plan)
}
