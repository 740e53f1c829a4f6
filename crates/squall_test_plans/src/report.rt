// Reports. Which of them there are, and their parts, the cases of the built program and the tests in C show.

mod example;
mod worked;

use squall_join::Exact;
use squall_report::Issue;
use squall_test_example::{OLD, holds, plan};
use std::alloc::Global;
use std::process::Abort;
use std::sync::Arc;

/// The issue of the plan and of a copy of it. None if an allocation fails.
fn still(alloc: Global) -> Option<Arc<Issue>> {
    let plan = plan(alloc, OLD)?;
    Issue::new(alloc, &plan, &plan).ok()
}

/// A copy of the issue is the issue.
fn copy_is_issue(rt: &impl Abort, alloc: Global, issue: &Issue) {
    if let Ok(copy) = issue.copied(alloc) {
        holds!(rt; copy.is_same(issue));
    }
    holds!(rt; *issue.old() == *issue.new_plan());
}

#[test]
fn tolerant_copied_issue(rt: HostRuntime) {
    if let Some(issue) = still(rt.alloc()) {
        copy_is_issue(&rt, rt.alloc(), &issue);
    }
}
