//! Leaders behind handles: what they hear, begin, open and send.

ghost use Rattle.std.specs.Prelude.{◌≡◌, length, take};
ghost use Rattle.squall_c_frames.specs.Queues.{room_after, first_length};
ghost use Rattle.squall_c_values.specs.Rooms.{over};
ghost use Rattle.squall_plan.specs.Form.{plan_of_text};
ghost use Rattle.squall_c.specs.Status.{GivesSeen};
ghost use Rattle.squall_c.specs.LeaderSlots.{both_plans, leader_number, begin_number, open_number, frame_number, repair_number};
ghost use Rattle.squall_c.specs.LeaderSlots.{numbers_told, frames_of_leader, leader_slot_after, leader_waiting_bytes};
ghost use Rattle.squall_c.specs.LeaderSlots.{LeaderHears, LeaderFeeds, LeaderBegins, LeaderBeginsFrom, LeaderOpens};
ghost use Rattle.squall_c.specs.LeaderSlots.{LeaderGathersBoard, LeaderGathersDigest, LeaderGathersRepair};

use crate::leaders::LeaderSlot;
use crate::numbers::put_numbers;
use crate::router::read_plan;
use crate::status::{CLOSED, Cause, IN_NEW_PLAN, IN_OLD_PLAN, NO_DIGEST, NO_MEMORY, OK, TOO_LONG};
use squall_c_frames::{FrameFault, feed_status, hear_status};
use squall_c_leaders::{LeaderNode, RepairFault};
use squall_leader::LeaderFault;
use squall_plan::Plan;
use std::alloc::Global;

/// The course begun last is not over.
const RUNNING: u32 = 91;

/// The greatest number is used.
const NO_NUMBER: u32 = 92;

/// No course is begun.
const IDLE: u32 = 93;

/// A partition has not reported that it has all keys of the sub-plan opened last.
const NOT_DONE: u32 = 94;

/// All sub-plans are opened, and the last one is done.
const NO_MORE: u32 = 95;

/// The number of why a leader does not go on.
fn leader_number(fault: &LeaderFault) -> u32
    ensures { result ≡ leader_number fault.now }
{
    match fault {
        LeaderFault::Running => RUNNING,
        LeaderFault::NoNumber => NO_NUMBER,
        LeaderFault::Idle => IDLE,
        LeaderFault::NotDone { .. } => NOT_DONE,
        LeaderFault::NoMore => NO_MORE,
        LeaderFault::NoMemory => NO_MEMORY,
    }
}

/// Hears one whole frame: its message is taken, or the status tells its fault and nothing changes.
pub(crate) fn leader_hear(slot: &mut LeaderSlot, frame: &[u8]) -> u32
    ensures { LeaderHears frame.now slot.old slot.new result }
{
    match &mut slot.node {
        Some(node) => hear_status(node.hear(frame)),
        None => CLOSED,
    }
}

/// Takes a piece of a stream of frames, cut anywhere: the messages whose frames end in it are heard,
/// up to the first fault, which the status tells. `FAILED` if a fault ended the stream before.
pub(crate) fn leader_feed(slot: &mut LeaderSlot, piece: &[u8]) -> u32
    ensures { LeaderFeeds piece.now slot.old slot.new result }
{
    match &mut slot.node {
        Some(node) => feed_status(node.feed(piece)),
        None => CLOSED,
    }
}

/// How many bytes that were fed wait for the rest of their frame, 0 if there is no leader.
pub(crate) fn leader_waiting(slot: &LeaderSlot) -> usize
    ensures { result ≡ leader_waiting_bytes slot.now.node }
{
    match &slot.node {
        Some(node) => node.waiting(),
        None => 0,
    }
}

/// How it ended that a leader was to begin a course.
fn begin_number(answer: Result<(), LeaderFault>) -> u32
    ensures { result ≡ begin_number answer }
{
    match answer {
        Ok(()) => OK,
        Err(fault) => leader_number(&fault),
    }
}

/// Begins the course to the plan of the text. The fault of the text if it is no plan, whose place the
/// slot keeps, and else why the leader does not begin it.
pub(crate) fn leader_begin(slot: &mut LeaderSlot, text: &[u8]) -> u32
    ensures { LeaderBegins text.now slot.old slot.new result }
{
    let Some(node) = &mut slot.node else {
        return CLOSED;
    };
    match read_plan(node.allocator(), text, IN_NEW_PLAN) {
        Ok(plan) => begin_number(node.begin(&plan)),
        Err(cause) => {
            if cause.status != NO_MEMORY {
                slot.fault_at = cause.at;
            }
            cause.status
        }
    }
}

/// The plans of both texts, or why the first that is no plan is none.
fn read_plans(alloc: Global, old: &[u8], new: &[u8]) -> Result<(Plan, Plan), Cause>
    ensures { GivesSeen (λ p. p) result (both_plans (plan_of_text old.now) (plan_of_text new.now)) }
{
    let old = read_plan(alloc, old, IN_OLD_PLAN)?;
    let new = read_plan(alloc, new, IN_NEW_PLAN)?;
    Ok((old, new))
}

/// Begins the course from the plan of the one text to that of the other. The fault of the first text that
/// is no plan, whose place the slot keeps, and else why the leader does not begin it.
pub(crate) fn leader_begin_from(slot: &mut LeaderSlot, old: &[u8], new: &[u8]) -> u32
    ensures { LeaderBeginsFrom old.now new.now slot.old slot.new result }
{
    let Some(node) = &mut slot.node else {
        return CLOSED;
    };
    match read_plans(node.allocator(), old, new) {
        Ok((old, new)) => begin_number(node.begin_from(&old, &new)),
        Err(cause) => {
            if cause.status != NO_MEMORY {
                slot.fault_at = cause.at;
            }
            cause.status
        }
    }
}

/// How it ended that a leader was to open a sub-plan. The room gets the sub-plan that was opened, or
/// the one that is not done and the partition that is waited for.
fn tell_opening(answer: Result<u32, LeaderFault>, room: &mut [u32]) -> u32
    ensures status { result ≡ open_number answer }
    ensures room { room.new ≡ over (take (length room.old) (numbers_told answer)) room.old }
{
    match answer {
        Ok(sub) => {
            put_numbers(&[sub], room);
            OK
        }
        Err(fault) => {
            if let LeaderFault::NotDone { sub, part } = &fault {
                put_numbers(&[*sub, part.get()], room);
            }
            leader_number(&fault)
        }
    }
}

/// Opens the next sub-plan. The room gets its number, as far as it holds it.
pub(crate) fn leader_open_next(slot: &mut LeaderSlot, room: &mut [u32]) -> u32
    ensures { LeaderOpens slot.old room.old slot.new room.new result }
{
    match &mut slot.node {
        Some(node) => tell_opening(node.open_next(), room),
        None => CLOSED,
    }
}

/// How it ended that frames were to be made.
fn frame_number(answer: Result<(), FrameFault>) -> u32
    ensures { result ≡ frame_number answer }
{
    match answer {
        Ok(()) => OK,
        Err(FrameFault::TooLong) => TOO_LONG,
        Err(FrameFault::NoMemory) => NO_MEMORY,
    }
}

/// Has the frames of all that the leader heard and reported itself wait, in place of those that waited
/// before. Each has at most `limit` bytes. `TOO_LONG` if an item of that has no such frame, and then
/// nothing changes.
pub(crate) fn leader_gather_board(slot: &mut LeaderSlot, limit: usize) -> u32
    ensures { LeaderGathersBoard limit slot.old slot.new result }
{
    match &mut slot.node {
        Some(node) => frame_number(node.gather_board(limit)),
        None => CLOSED,
    }
}

/// Has the frame of the digest of that wait, likewise. `TOO_LONG` if it would have more than `limit`
/// bytes, or more rows than fit a frame.
pub(crate) fn leader_gather_digest(slot: &mut LeaderSlot, limit: usize) -> u32
    ensures { LeaderGathersDigest limit slot.old slot.new result }
{
    match &mut slot.node {
        Some(node) => frame_number(node.gather_digest(limit)),
        None => CLOSED,
    }
}

/// How it ended that the frames of a repair were to be made.
fn repair_number(answer: Result<(), RepairFault>) -> u32
    ensures { result ≡ repair_number answer }
{
    match answer {
        Ok(()) => OK,
        Err(RepairFault::NoDigest) => NO_DIGEST,
        Err(RepairFault::TooLong) => TOO_LONG,
        Err(RepairFault::NoMemory) => NO_MEMORY,
    }
}

/// Has the frames of what the digest heard last does not show wait, likewise. `NO_DIGEST` if none was
/// heard.
pub(crate) fn leader_gather_repair(slot: &mut LeaderSlot, limit: usize) -> u32
    ensures { LeaderGathersRepair limit slot.old slot.new result }
{
    match &mut slot.node {
        Some(node) => repair_number(node.gather_repair(limit)),
        None => CLOSED,
    }
}

/// Writes the first frame that waits into the room from its start on, if that has as many bytes, and it
/// waits no longer then. Answers how long it is, and 0 if none waits.
pub(crate) fn leader_frame(slot: &mut LeaderSlot, room: &mut [u8]) -> usize
    ensures room { room.new ≡ room_after (frames_of_leader slot.old.node) room.old }
    ensures slot { slot.new ≡ leader_slot_after slot.old room.old }
    ensures count { result ≡ first_length (frames_of_leader slot.old.node) }
{
    match &mut slot.node {
        Some(node) => node.next_frame(room),
        None => 0,
    }
}
