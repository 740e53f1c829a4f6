//! The calls of nodes with their laws, between plans whose moves were worked out by hand. The keys
//! from 2:0 up to 3:0 go from partition 1 to 3, in sub-plan 0.

mod example;

use crate::example::course;
use squall_board::Board;
use squall_key::{Key, PartId};
use squall_leader::Leader;
use squall_nodes::calls::{
    absorb_beside, begin_beside, begin_from_beside, close_beside, finish_beside, give_beside,
    load_beside, open_beside, route_beside,
};
use squall_part::{FinishFault, GiveFault, Part};
use squall_plan::Plan;
use squall_report::{Report, ReportKind};
use squall_router::Router;
use squall_test_example::{NEW, OLD, holds, plan};
use std::alloc::Global;
use std::process::Abort;

/// A partition that has heard nothing. None if an allocation fails.
fn fresh_part(alloc: Global, number: u32) -> Option<Part> {
    let id = PartId::new(number)?;
    let course = course(alloc)?;
    Part::new(alloc, id, &course).ok()
}

/// Whether the partition absorbed the report.
fn hears(alloc: Global, part: &mut Part, report: &Report) -> bool {
    let mut delta = Board::new(alloc);
    delta.take(report).is_ok() && absorb_beside(part, &delta).is_ok()
}

/// Whether the partition absorbed that sub-plan 0 of number 1 is opened.
fn hears_opening(alloc: Global, part: &mut Part) -> Option<bool> {
    let opening = Report::opened(1, 0)?;
    Some(hears(alloc, part, &opening))
}

/// The leader begins the course to the plan, and opens its first sub-plan.
fn leads(rt: &impl Abort, leader: &mut Leader, new: &Plan) -> Option<()> {
    let begun = begin_beside(leader, new).ok()?;
    holds!(rt; begun.number() == 1);
    let opened = open_beside(leader).ok()?;
    holds!(rt; matches!(opened.kind(), ReportKind::Opened { number: 1, sub: 0 }));
    Some(())
}

/// The course goes back before it is over.
fn turns_back(rt: &impl Abort, leader: &mut Leader, old: &Plan) -> Option<()> {
    let begun = begin_from_beside(leader, old, old).ok()?;
    holds!(rt; begun.number() == 2);
    Some(())
}

/// The same to the new plan.
fn leads_on(rt: &impl Abort, alloc: Global, leader: &mut Leader) -> Option<()> {
    let new = plan(alloc, NEW)?;
    leads(rt, leader, &new)
}

/// A leader of the old plan leads. None if an allocation fails before.
fn leader_leads(rt: &impl Abort, alloc: Global) -> Option<()> {
    let old = plan(alloc, OLD)?;
    let mut leader = Leader::new(alloc, &old).ok()?;
    leads_on(rt, alloc, &mut leader)?;
    turns_back(rt, &mut leader, &old)
}

#[test]
fn leaders_begin_and_open(rt: HostRuntime) {
    holds!(&rt; leader_leads(&rt, rt.alloc()).is_some());
}

/// All keys of the sub-plan go from one partition to the other, which then has all.
fn hands_over(rt: &impl Abort, source: &mut Part, dest: &mut Part) -> Option<()> {
    holds!(rt; matches!(finish_beside(dest, 0), Err(FinishFault::NotAll(_))));
    let chunk = give_beside(source, u64::MAX).ok()?;
    holds!(rt; matches!(give_beside(source, u64::MAX), Err(GiveFault::NothingLeft)));
    holds!(rt; close_beside(source) == 1);
    holds!(rt; matches!(give_beside(source, 1), Err(GiveFault::Ended)));
    load_beside(dest, &chunk).ok()?;
    finish_beside(dest, 0).ok()?;
    Some(())
}

/// The same from a partition to partition 3. None if an allocation fails before.
fn hands_on(rt: &impl Abort, alloc: Global, source: &mut Part) -> Option<()> {
    let mut dest = fresh_part(alloc, 3)?;
    holds!(rt; hears_opening(alloc, &mut dest)?);
    hands_over(rt, source, &mut dest)
}

/// The same from partition 1. None if an allocation fails before.
fn hands_all(rt: &impl Abort, alloc: Global) -> Option<()> {
    let mut source = fresh_part(alloc, 1)?;
    holds!(rt; hears_opening(alloc, &mut source)?);
    hands_on(rt, alloc, &mut source)
}

#[test]
fn partitions_hand_over(rt: HostRuntime) {
    holds!(&rt; hands_all(&rt, rt.alloc()).is_some());
}

/// A router that has heard nothing sends 2:0 to its old partition. None if an allocation fails.
fn routes(alloc: Global) -> Option<bool> {
    let course = course(alloc)?;
    let router = Router::new(alloc, &course).ok()?;
    Some(route_beside(&router, Key::new(2, 0)?).get() == 1)
}

#[test]
fn routers_route(rt: HostRuntime) {
    holds!(&rt; routes(rt.alloc()) == Some(true));
}
