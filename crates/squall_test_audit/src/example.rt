//! The example at the head of `squall_judge`.

use crate::entries::log;
use squall_judge::{Entry, Judgment, judge};
use squall_plan::Plan;
use squall_protocol::Node;
use squall_report::Report;
use squall_test_example::{NEW, OLD, holds, plan};
use std::alloc::Global;

fn hearsay(alloc: Global, old: &Plan, new: &Plan) -> Option<bool> {
    let heard = Entry::Heard(Report::opened(1, 0)?);
    let router = log(alloc, Node::Router(0), [heard])?;
    let leader = log(alloc, Node::Leader, [])?;
    match judge(alloc, old, new, &[router, leader]) {
        Ok(Judgment::Refused { taken, .. }) => Some(taken.as_slice() == [0, 0].as_slice()),
        Ok(Judgment::Accepted) | Err(_) => Some(false),
    }
}

/// The example with the plans of all examples.
fn refused(alloc: Global) -> Option<bool> {
    let old = plan(alloc, OLD)?;
    let new = plan(alloc, NEW)?;
    hearsay(alloc, &old, &new)
}

#[test]
fn example(rt: HostRuntime) {
    holds!(&rt; refused(rt.alloc()) == Some(true));
}
