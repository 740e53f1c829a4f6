//! The example of the first page of `squall_leader`.

use crate::leader::leader;
use squall_board::Board;
use squall_leader::{Leader, LeaderFault};
use squall_plan::Plan;
use squall_report::Report;
use squall_test_example::{NEW, plan};
use std::alloc::Global;
use std::process::Abort;

/// A course of one sub-plan, whose receivers have reported in `done` that they have all keys.
fn course_runs(rt: &impl Abort, leader: &mut Leader, new: &Plan, done: &Board) -> Option<()> {
    assert!(rt; leader.begin(new).is_ok());
    assert!(rt; leader.open_next().is_ok());
    // The receivers of sub-plan 0 are waited for.
    assert!(rt; matches!(leader.open_next(), Err(LeaderFault::NotDone { sub: 0, .. })));
    assert!(rt; matches!(leader.begin(new), Err(LeaderFault::Running)));
    leader.absorb(done).ok()?;
    assert!(rt; matches!(leader.open_next(), Err(LeaderFault::NoMore)));
    assert!(rt; leader.finished());
    Some(())
}

/// The course to the plan runs. None if an allocation fails before.
fn runs_to(rt: &impl Abort, alloc: Global, leader: &mut Leader, new: &Plan) -> Option<()> {
    let mut done = Board::new(alloc);
    for part in [3, 4] {
        done.take(&Report::done(1, 0, part)?).ok()?;
    }
    course_runs(rt, leader, new, &done)
}

/// The course to the new plan runs. None if an allocation fails before.
fn runs(rt: &impl Abort, alloc: Global, leader: &mut Leader) -> Option<()> {
    let new = plan(alloc, NEW)?;
    runs_to(rt, alloc, leader, &new)
}

/// A leader of the old plan has the course run. None if an allocation fails before.
fn leads(rt: &impl Abort, alloc: Global) -> Option<()> {
    let mut leader = leader(alloc)?;
    runs(rt, alloc, &mut leader)
}

#[test]
fn leaders_open_sub_plans(rt: HostRuntime) {
    assert!(rt; leads(&rt, rt.alloc()).is_some());
}
