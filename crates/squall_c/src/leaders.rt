//! Leaders behind handles: how they are opened and closed, and what they answer.

ghost use Rattle.std.specs.Prelude.{◌≡◌};
ghost use Rattle.squall_c.specs.LeaderSlots.{IsLeaderOpened, IsLeaderResumed, IsLeaderResumedOf, IsCourseBegun, TellsFinished, slot_of_leader};
ghost use Rattle.squall_c.specs.LeaderSlots.{no_leader, course_begun};

use crate::courses::{CourseSlot, HeldCourse, share, slot_with};
use crate::router::{may_cross, read_plan};
use crate::status::{CLOSED, Cause, IN_OLD_PLAN, NO_PLACE, OK};
use squall_c_leaders::LeaderNode;
use std::alloc::Global;

/// What lies behind the handle of a leader: a leader, or why there is none.
#[derive(Drop)]
pub struct LeaderSlot {
    /// 0, or why there is no leader.
    pub(crate) status: u32,
    /// The place of the last fault of a plan.
    pub(crate) fault_at: u64,
    pub(crate) node: Option<LeaderNode>,
}

/// No leader, for that reason.
fn no_leader(cause: Cause) -> LeaderSlot
    ensures { result ≡ no_leader cause }
{
    LeaderSlot {
        status: cause.status,
        fault_at: cause.at,
        node: None,
    }
}

/// The slot of the leader, or of why there is none.
fn slot_of(node: Result<LeaderNode, Cause>) -> LeaderSlot
    ensures { result ≡ slot_of_leader node }
{
    match node {
        Ok(node) => LeaderSlot {
            status: OK,
            fault_at: NO_PLACE,
            node: Some(node),
        },
        Err(cause) => no_leader(cause),
    }
}

/// The leader of data that lies as the plan of the text says, which goes on after the number `last`; or
/// why there is none.
fn leader_of(alloc: Global, plan: &[u8], last: u32) -> Result<LeaderNode, Cause>
    ensures { IsLeaderOpened plan.now last (slot_of_leader result) }
{
    let plan = read_plan(alloc, plan, IN_OLD_PLAN)?;
    Ok(LeaderNode::new(alloc, &plan, last)?)
}

/// The slot of that leader, or of why there is none.
pub(crate) fn open_leader(alloc: Global, plan: &[u8], last: u32) -> LeaderSlot
    ensures { IsLeaderOpened plan.now last result }
{
    slot_of(leader_of(alloc, plan, last))
}

/// The leader in the midst of the course; or why there is none.
fn resumed(alloc: Global, held: &HeldCourse) -> Result<LeaderNode, Cause>
    ensures { IsLeaderResumed held.now.course (slot_of_leader result) }
{
    Ok(LeaderNode::resumed(alloc, held.course.as_arc())?)
}

/// The slot of that leader where there may be no course.
pub(crate) fn resume_leader(alloc: Global, slot: &CourseSlot) -> LeaderSlot
    ensures { IsLeaderResumedOf slot.now.course result }
{
    match &slot.course {
        Some(held) => slot_of(resumed(alloc, held)),
        None => no_leader(Cause::with(CLOSED)),
    }
}

/// 0, or why there is no leader.
pub(crate) fn leader_status(slot: &LeaderSlot) -> u32
    ensures { result ≡ slot.now.status }
{
    slot.status
}

/// The place of the last fault of a plan, or `NO_PLACE`.
pub(crate) fn leader_fault_at(slot: &LeaderSlot) -> u64
    ensures { result ≡ slot.now.fault_at }
{
    slot.fault_at
}

/// 1 if the course that the leader began last is over, and 0 if it is not or there is none.
pub(crate) fn leader_finished(slot: &LeaderSlot) -> u32
    ensures { TellsFinished slot.now.node result }
{
    match &slot.node {
        Some(node) if node.finished() => 1,
        _ => 0,
    }
}

/// The course that the leader began last, or why there is none.
fn course_of(alloc: Global, node: &LeaderNode) -> CourseSlot
    ensures { IsCourseBegun node.now.leader.course result }
{
    match node.course() {
        Some(course) => slot_with(alloc, share(course.as_arc())),
        None => slot_with(alloc, Err(Cause::with(CLOSED))),
    }
}

/// The same where there may be no leader.
pub(crate) fn leader_course(alloc: Global, slot: &LeaderSlot) -> CourseSlot
    ensures { IsCourseBegun (course_begun slot.now.node) result }
{
    match &slot.node {
        Some(node) => course_of(alloc, node),
        None => slot_with(alloc, Err(Cause::with(CLOSED))),
    }
}

/// Drops the leader.
pub(crate) fn close_leader(slot: LeaderSlot) {}

/// The slot of a leader may cross threads.
pub fn leader_may_cross(slot: &LeaderSlot) {
    may_cross(slot)
}
