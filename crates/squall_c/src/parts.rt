//! Partitions behind handles.

ghost use Rattle.std.specs.Prelude.{◌≡◌, length};
ghost use Rattle.squall_c_values.specs.Rooms.{over};
ghost use Rattle.squall_c_frames.specs.Queues.{first_length, room_after};
ghost use Rattle.squall_c.specs.PartSlots.{no_part, IsPartOpened, PartHears, PartFeeds, PartGives, PartGivesAt, PartLoads, PartFinds, PartFinishes, PartServes};
ghost use Rattle.squall_c.specs.PartSlots.{held_in, given_in, loaded_in, PartGathersBoard, PartGathersDigest, PartGathersRepair};
ghost use Rattle.squall_c.specs.PartSlots.{PartCloses, closed_number, part_frames, part_after, part_waiting_bytes};

use crate::courses::CourseSlot;
use crate::router::may_cross;
use crate::status::{CLOSED, LIMIT, NO_MEMORY, OK};
use squall_c_parts::{CAnswer, CChunk, Node};
use squall_c_values::CSpan;
use squall_key::PartId;
use std::alloc::Global;

/// What lies behind the handle of a partition: a node of it, or why there is none.
#[derive(Drop)]
pub struct PartSlot {
    pub(crate) status: u32,
    pub(crate) node: Option<Node>,
}

/// No partition, for that reason.
fn no_part(status: u32) -> PartSlot
    ensures { result ≡ no_part status }
{
    PartSlot { status, node: None }
}

/// The partition of that number with the keys that the old plan of the course gives it, or why there is
/// none: `CLOSED` if there is no course, `LIMIT` if the number is above 9999.
pub(crate) fn open_part(alloc: Global, id: u32, slot: &CourseSlot) -> PartSlot
    ensures { IsPartOpened id slot.now.course result }
{
    let Some(held) = &slot.course else {
        return no_part(CLOSED);
    };
    let Some(id) = PartId::new(id) else {
        return no_part(LIMIT);
    };
    match Node::new(alloc, id, held.course.as_arc()) {
        Ok(node) => PartSlot {
            status: OK,
            node: Some(node),
        },
        Err(_) => no_part(NO_MEMORY),
    }
}

/// 0, or why there is no partition.
pub(crate) fn part_status(slot: &PartSlot) -> u32
    ensures { result ≡ slot.now.status }
{
    slot.status
}

/// Has the partition hear one whole frame.
pub(crate) fn part_hear(slot: &mut PartSlot, frame: &[u8]) -> u32
    ensures { PartHears frame.now slot.old slot.new result }
{
    match &mut slot.node {
        Some(node) => node.hear(frame),
        None => CLOSED,
    }
}

/// Has the partition hear a piece of a stream of frames, cut anywhere.
pub(crate) fn part_feed(slot: &mut PartSlot, piece: &[u8]) -> u32
    ensures { PartFeeds piece.now slot.old slot.new result }
{
    match &mut slot.node {
        Some(node) => node.feed(piece),
        None => CLOSED,
    }
}

/// How many bytes that were fed wait for the rest of their frame, 0 if there is no partition.
pub(crate) fn part_waiting(slot: &PartSlot) -> usize
    ensures { result ≡ part_waiting_bytes slot.now.node }
{
    match &slot.node {
        Some(node) => node.waiting(),
        None => 0,
    }
}

/// Gives the first keys, at most `max`, that are left in the sub-plan opened last.
pub(crate) fn give(slot: &mut PartSlot, max: u64, out: &mut CChunk) -> u32
    ensures { PartGives max slot.old out.old slot.new out.new result }
{
    match &mut slot.node {
        Some(node) => node.give(max, out),
        None => CLOSED,
    }
}

/// Gives the key of that rank.
pub(crate) fn give_at(slot: &mut PartSlot, rank: u64, out: &mut CChunk) -> u32
    ensures { PartGivesAt rank slot.old out.old slot.new out.new result }
{
    match &mut slot.node {
        Some(node) => node.give_at(rank, out),
        None => CLOSED,
    }
}

/// Loads the chunk.
pub(crate) fn load(slot: &mut PartSlot, chunk: &CChunk) -> u32
    ensures { PartLoads chunk.now slot.old slot.new result }
{
    match &mut slot.node {
        Some(node) => node.load(chunk),
        None => CLOSED,
    }
}

/// Writes the first span of the new keys of the chunk that ends above the rank `from`.
pub(crate) fn fresh(slot: &PartSlot, chunk: &CChunk, from: u64, out: &mut CSpan) -> u32
    ensures { PartFinds chunk.now from slot.now out.old out.new result }
{
    match &slot.node {
        Some(node) => node.fresh(chunk, from, out),
        None => CLOSED,
    }
}

/// Closes the newest course that the partition knows, and answers its number: 0 if there is no
/// partition.
pub(crate) fn close_course(slot: &mut PartSlot) -> u32
    ensures { PartCloses slot.old slot.new result }
{
    match &mut slot.node {
        Some(node) => node.close_course(),
        None => 0,
    }
}

/// 1 if the partition gives no more under the number, and else 0.
pub(crate) fn course_closed(slot: &PartSlot, number: u32) -> u32
    ensures { result ≡ closed_number slot.now.node number }
{
    match &slot.node {
        Some(node) if node.closed(number) => 1,
        _ => 0,
    }
}

/// Finishes the sub-plan.
pub(crate) fn finish(slot: &mut PartSlot, sub: u32) -> u32
    ensures { PartFinishes sub slot.old slot.new result }
{
    match &mut slot.node {
        Some(node) => node.finish(sub),
        None => CLOSED,
    }
}

/// Writes the reply to a request for the key of that rank, which followed a `Moved` of the number.
pub(crate) fn serve(slot: &PartSlot, rank: u64, after: u32, out: &mut CAnswer) -> u32
    ensures { PartServes rank after slot.now out.old out.new result }
{
    match &slot.node {
        Some(node) => node.serve(rank, after, out),
        None => CLOSED,
    }
}

/// Writes the spans of the keys that the partition holds, from the place `from` on, into the room.
pub(crate) fn held(slot: &PartSlot, from: usize, room: &mut [CSpan]) -> usize
    ensures spans { room.new ≡ over (held_in slot.now.node from room.old) room.old }
    ensures count { result ≡ length (held_in slot.now.node from room.old) }
{
    match &slot.node {
        Some(node) => node.held(from, room),
        None => 0,
    }
}

/// The same of the keys that it gave under the number.
pub(crate) fn given(slot: &PartSlot, number: u32, from: usize, room: &mut [CSpan]) -> usize
    ensures spans { room.new ≡ over (given_in slot.now.node number from room.old) room.old }
    ensures count { result ≡ length (given_in slot.now.node number from room.old) }
{
    match &slot.node {
        Some(node) => node.given(number, from, room),
        None => 0,
    }
}

/// The same of the keys that it loaded under the number.
pub(crate) fn loaded(slot: &PartSlot, number: u32, from: usize, room: &mut [CSpan]) -> usize
    ensures spans { room.new ≡ over (loaded_in slot.now.node number from room.old) room.old }
    ensures count { result ≡ length (loaded_in slot.now.node number from room.old) }
{
    match &slot.node {
        Some(node) => node.loaded(number, from, room),
        None => 0,
    }
}

/// Has the frames of all that the partition knows and reports wait, each of at most `limit` bytes.
pub(crate) fn part_board(slot: &mut PartSlot, limit: usize) -> u32
    ensures { PartGathersBoard limit slot.old slot.new result }
{
    match &mut slot.node {
        Some(node) => node.gather_board(limit),
        None => CLOSED,
    }
}

/// Has the frame of a digest of that wait, likewise.
pub(crate) fn part_digest(slot: &mut PartSlot, limit: usize) -> u32
    ensures { PartGathersDigest limit slot.old slot.new result }
{
    match &mut slot.node {
        Some(node) => node.gather_digest(limit),
        None => CLOSED,
    }
}

/// Has the frames of what the digest heard last does not show wait, likewise.
pub(crate) fn part_repair(slot: &mut PartSlot, limit: usize) -> u32
    ensures { PartGathersRepair limit slot.old slot.new result }
{
    match &mut slot.node {
        Some(node) => node.gather_repair(limit),
        None => CLOSED,
    }
}

/// Writes the first frame that waits into the room, if the room has as many bytes. It waits no longer
/// then. Answers how long it is, and 0 if none waits.
pub(crate) fn part_frame(slot: &mut PartSlot, room: &mut [u8]) -> usize
    ensures room { room.new ≡ room_after (part_frames slot.old.node) room.old }
    ensures slot { slot.new ≡ part_after slot.old room.old }
    ensures count { result ≡ first_length (part_frames slot.old.node) }
{
    match &mut slot.node {
        Some(node) => node.frame(room),
        None => 0,
    }
}

/// Drops the partition.
pub(crate) fn close_part(slot: PartSlot) {}

/// The slot of a partition may cross threads.
pub fn part_may_cross(slot: &PartSlot) {
    may_cross(slot)
}
