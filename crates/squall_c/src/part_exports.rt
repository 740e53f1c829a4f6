//! Partitions as C calls them: what each holds, gives, loads, reports and replies while keys move. Each
//! export says of what lies at the handle what the function that it calls says of a slot.

ghost use Rattle.std.specs.Prelude.{◌≡◌, length};
ghost use Rattle.std.specs.Borrow.{sem};
ghost use Rattle.squall_c_values.specs.Rooms.{over};
ghost use Rattle.squall_c_frames.specs.Queues.{first_length, room_after};
ghost use Rattle.squall_c.specs.declared.courses.CourseSlot.{CourseSlot};
ghost use Rattle.squall_c.specs.declared.parts.PartSlot.{PartSlot};
ghost use Rattle.squall_c.specs.Handles.{course_at, part_bytes, part_room, part_at, part_such};
ghost use Rattle.squall_c.specs.PartSlots.{IsPartOpened, PartHears, PartFeeds, PartGives, PartGivesAt, PartLoads, PartFinds, PartFinishes, PartServes};
ghost use Rattle.squall_c.specs.PartSlots.{held_in, given_in, loaded_in, PartGathersBoard, PartGathersDigest, PartGathersRepair};
ghost use Rattle.squall_c.specs.PartSlots.{PartCloses, closed_number, part_frames, part_after, part_waiting_bytes};

use crate::courses::CourseSlot;
use crate::handles::{CCourse, CPart};
use crate::parts::{
    PartSlot, close_course, close_part, course_closed, finish, fresh, give, give_at, given, held,
    load, loaded, open_part, part_board, part_digest, part_feed, part_frame, part_hear,
    part_repair, part_status, part_waiting, serve,
};
use squall_c_parts::{CAnswer, CChunk};
use squall_c_values::CSpan;
use std::alloc::Global;

/// How many bytes the room of a partition has at least. It is aligned to 16.
#[unsafe(no_mangle)]
pub extern "C" fn squall_part_size() -> usize
    ensures { result ≡ part_bytes }
{
    size_of::<PartSlot>()
}

/// Puts into the room the partition of that number with the keys that the old plan of the course gives
/// it; or why there is none, which `squall_part_status` tells. Either way the room is to be closed. It
/// allocates.
#[unsafe(no_mangle)]
pub unsafe extern "C" fn squall_part_open(
    alloc: Global,
    id: u32,
    course: *const CCourse,
    room: *mut CPart,
)
    ghost s: { CourseSlot }
    requires* { sem 𝓛 (course_at course s) ∗ sem 𝓛 (part_room room) }
    ensures* { sem 𝓛 (course_at course s) ∗ sem 𝓛 (part_such room (λ now. IsPartOpened id s.course now)) }
{
    std::ptr::write(
        room as *mut PartSlot,
        open_part(alloc, id, &*(course as *const CourseSlot)),
    );
}

/// 0, or why there is no partition: no memory (1), the number is above 9999 (2), or no course (3).
#[unsafe(no_mangle)]
pub unsafe extern "C" fn squall_part_status(part: *const CPart) -> u32
    ghost s: { PartSlot }
    requires* { sem 𝓛 (part_at part s) }
    ensures* { sem 𝓛 (part_at part s) ∗ ⌜ result ≡ s.status ⌝ }
{
    part_status(&*(part as *const PartSlot))
}

/// Takes a piece of a stream of frames, cut anywhere: the messages whose frames end in it are taken, up
/// to the first fault, which ends the stream (51 to 54, 56 to 59). No memory (1), no partition (3), a
/// fault ended the stream before (4): then nothing changes.
#[unsafe(no_mangle)]
pub unsafe extern "C" fn squall_part_feed(part: *mut CPart, bytes: &[u8]) -> u32
    ghost s: { PartSlot }
    requires* { sem 𝓛 (part_at part s) }
    ensures* { sem 𝓛 (part_such part (λ now. PartFeeds bytes.now s now result)) }
{
    part_feed(&mut *(part as *mut PartSlot), bytes)
}

/// How many bytes that were fed wait for the rest of their frame: 0 if there is no partition. It
/// allocates nothing.
#[unsafe(no_mangle)]
pub unsafe extern "C" fn squall_part_waiting(part: *const CPart) -> usize
    ghost s: { PartSlot }
    requires* { sem 𝓛 (part_at part s) }
    ensures* { sem 𝓛 (part_at part s) ∗ ⌜ result ≡ part_waiting_bytes s.node ⌝ }
{
    part_waiting(&*(part as *const PartSlot))
}

/// Takes one whole frame: a delta is absorbed, a digest kept for a repair. What was fed of a stream waits
/// on, and no fault ends it. No memory (1), no partition (3), or the fault of the frame (51 to 59): then
/// nothing changes.
#[unsafe(no_mangle)]
pub unsafe extern "C" fn squall_part_hear(part: *mut CPart, bytes: &[u8]) -> u32
    ghost s: { PartSlot }
    requires* { sem 𝓛 (part_at part s) }
    ensures* { sem 𝓛 (part_such part (λ now. PartHears bytes.now s now result)) }
{
    part_hear(&mut *(part as *mut PartSlot), bytes)
}

/// Gives the first keys, at most `max`, of those that go out in the sub-plan opened last and that the
/// partition still holds, and writes their chunk. It holds them no longer. No memory (1), no partition
/// (3), no sub-plan is open (71), nothing is left (72), `max` is 0 (73): then nothing changes.
#[unsafe(no_mangle)]
pub unsafe extern "C" fn squall_part_give(part: *mut CPart, max: u64, out: &mut CChunk) -> u32
    ghost s: { PartSlot }
    requires* { sem 𝓛 (part_at part s) }
    ensures* { sem 𝓛 (part_such part (λ now. PartGives max s out.old now out.new result)) }
{
    give(&mut *(part as *mut PartSlot), max, out)
}

/// Gives the key of that rank, and writes its chunk. No memory (1), the rank is no key's (2), no
/// partition (3), no sub-plan is open (71), the key does not go out (74), it was given before (75), it is
/// not held (76): then nothing changes.
#[unsafe(no_mangle)]
pub unsafe extern "C" fn squall_part_give_at(part: *mut CPart, rank: u64, out: &mut CChunk) -> u32
    ghost s: { PartSlot }
    requires* { sem 𝓛 (part_at part s) }
    ensures* { sem 𝓛 (part_such part (λ now. PartGivesAt rank s out.old now out.new result)) }
{
    give_at(&mut *(part as *mut PartSlot), rank, out)
}

/// Takes a chunk: its keys are held and loaded, and the partition's board has the report. Each of its
/// keys was loaded before (80), no memory (1), the numbers are no chunk's (2), no partition (3), the
/// sub-plan is not open (71), the course does not bring the keys to this partition (77): then nothing
/// changes.
#[unsafe(no_mangle)]
pub unsafe extern "C" fn squall_part_load(part: *mut CPart, chunk: &CChunk) -> u32
    ghost s: { PartSlot }
    requires* { sem 𝓛 (part_at part s) }
    ensures* { sem 𝓛 (part_such part (λ now. PartLoads chunk.now s now result)) }
{
    load(&mut *(part as *mut PartSlot), chunk)
}

/// Writes the first span of the new keys of the chunk that ends above the rank `from`. New keys are
/// neither loaded nor held: the rows of these keys, and of no others, go in place before the chunk is
/// loaded. If there is no such span, one without a key is written. No memory (1), the numbers are no
/// chunk's or the rank is no bound's (2), no partition (3), the sub-plan is not open (71), the course does
/// not bring the keys to this partition (77): then nothing is written. It allocates.
#[unsafe(no_mangle)]
pub unsafe extern "C" fn squall_part_fresh(
    part: *const CPart,
    chunk: &CChunk,
    from: u64,
    out: &mut CSpan,
) -> u32
    ghost s: { PartSlot }
    requires* { sem 𝓛 (part_at part s) }
    ensures* { sem 𝓛 (part_at part s) ∗ ⌜ PartFinds chunk.now from s out.old out.new result ⌝ }
{
    fresh(&*(part as *const PartSlot), chunk, from, out)
}

/// Reports that the partition has all keys that the sub-plan brings it. No memory (1), no partition (3),
/// the sub-plan is not open (71), keys are missing (78), it brings none (79): then nothing changes.
#[unsafe(no_mangle)]
pub unsafe extern "C" fn squall_part_finish(part: *mut CPart, sub: u32) -> u32
    ghost s: { PartSlot }
    requires* { sem 𝓛 (part_at part s) }
    ensures* { sem 𝓛 (part_such part (λ now. PartFinishes sub s now result)) }
{
    finish(&mut *(part as *mut PartSlot), sub)
}

/// Ends what the partition gives in the newest course that it knows, and answers the number of that
/// course: 0 if there is no partition. It loads as before. A repeat changes nothing. It allocates nothing.
#[unsafe(no_mangle)]
pub unsafe extern "C" fn squall_part_close_course(part: *mut CPart) -> u32
    ghost s: { PartSlot }
    requires* { sem 𝓛 (part_at part s) }
    ensures* { sem 𝓛 (part_such part (λ now. PartCloses s now result)) }
{
    close_course(&mut *(part as *mut PartSlot))
}

/// 1 if the partition gives no more under the number, and else 0, also if there is no partition. It
/// allocates nothing.
#[unsafe(no_mangle)]
pub unsafe extern "C" fn squall_part_course_closed(part: *const CPart, number: u32) -> u32
    ghost s: { PartSlot }
    requires* { sem 𝓛 (part_at part s) }
    ensures* { sem 𝓛 (part_at part s) ∗ ⌜ result ≡ closed_number s.node number ⌝ }
{
    course_closed(&*(part as *const PartSlot), number)
}

/// Writes the reply to a request for the key of that rank. The request followed a reply "moved" of the
/// number `after` to this partition, or none if `after` is 0. The rank is no key's (2), or no partition
/// (3): then nothing is written. It allocates nothing.
#[unsafe(no_mangle)]
pub unsafe extern "C" fn squall_part_serve(
    part: *const CPart,
    rank: u64,
    after: u32,
    out: &mut CAnswer,
) -> u32
    ghost s: { PartSlot }
    requires* { sem 𝓛 (part_at part s) }
    ensures* { sem 𝓛 (part_at part s) ∗ ⌜ PartServes rank after s out.old out.new result ⌝ }
{
    serve(&*(part as *const PartSlot), rank, after, out)
}

/// Puts the spans of the keys that the partition holds, by rising key, from the place `from` on, into
/// the room, as many as it holds, and answers how many: 0 if there are no more, or no partition. The rest
/// of the room stays. It allocates nothing.
#[unsafe(no_mangle)]
pub unsafe extern "C" fn squall_part_held(
    part: *const CPart,
    from: usize,
    room: &mut [CSpan],
) -> usize
    ghost s: { PartSlot }
    requires* { sem 𝓛 (part_at part s) }
    ensures* { sem 𝓛 (part_at part s)
        ∗ ⌜ (room.new ≡ over (held_in s.node from room.old) room.old) × (result ≡ length (held_in s.node from room.old)) ⌝ }
{
    held(&*(part as *const PartSlot), from, room)
}

/// The same of the keys that it gave under the number: none if it does not know the course.
#[unsafe(no_mangle)]
pub unsafe extern "C" fn squall_part_given(
    part: *const CPart,
    number: u32,
    from: usize,
    room: &mut [CSpan],
) -> usize
    ghost s: { PartSlot }
    requires* { sem 𝓛 (part_at part s) }
    ensures* { sem 𝓛 (part_at part s)
        ∗ ⌜ (room.new ≡ over (given_in s.node number from room.old) room.old) × (result ≡ length (given_in s.node number from room.old)) ⌝ }
{
    given(&*(part as *const PartSlot), number, from, room)
}

/// The same of the keys that it loaded under the number.
#[unsafe(no_mangle)]
pub unsafe extern "C" fn squall_part_loaded(
    part: *const CPart,
    number: u32,
    from: usize,
    room: &mut [CSpan],
) -> usize
    ghost s: { PartSlot }
    requires* { sem 𝓛 (part_at part s) }
    ensures* { sem 𝓛 (part_at part s)
        ∗ ⌜ (room.new ≡ over (loaded_in s.node number from room.old) room.old) × (result ≡ length (loaded_in s.node number from room.old)) ⌝ }
{
    loaded(&*(part as *const PartSlot), number, from, room)
}

/// Has the frames of all that the partition knows and reports wait, in place of those that waited before.
/// Each has at most `limit` bytes. No memory (1), no partition (3), an item has no such frame (5): then
/// nothing changes.
#[unsafe(no_mangle)]
pub unsafe extern "C" fn squall_part_gather_board(part: *mut CPart, limit: usize) -> u32
    ghost s: { PartSlot }
    requires* { sem 𝓛 (part_at part s) }
    ensures* { sem 𝓛 (part_such part (λ now. PartGathersBoard limit s now result)) }
{
    part_board(&mut *(part as *mut PartSlot), limit)
}

/// Has the frame of a digest of that wait, in place of the frames that waited before. It has at most
/// `limit` bytes. No memory (1), no partition (3), the digest does not fit such a frame (5): then nothing
/// changes.
#[unsafe(no_mangle)]
pub unsafe extern "C" fn squall_part_gather_digest(part: *mut CPart, limit: usize) -> u32
    ghost s: { PartSlot }
    requires* { sem 𝓛 (part_at part s) }
    ensures* { sem 𝓛 (part_such part (λ now. PartGathersDigest limit s now result)) }
{
    part_digest(&mut *(part as *mut PartSlot), limit)
}

/// Has the frames of what the digest heard last does not show wait, in place of those that waited
/// before. Each has at most `limit` bytes. No memory (1), no partition (3), an item has no such frame
/// (5), no digest was heard (6): then nothing changes.
#[unsafe(no_mangle)]
pub unsafe extern "C" fn squall_part_gather_repair(part: *mut CPart, limit: usize) -> u32
    ghost s: { PartSlot }
    requires* { sem 𝓛 (part_at part s) }
    ensures* { sem 𝓛 (part_such part (λ now. PartGathersRepair limit s now result)) }
{
    part_repair(&mut *(part as *mut PartSlot), limit)
}

/// Puts the first frame that waits into the room, from its start on, and it waits no longer. If the room
/// is too short for it, nothing changes. Answers how many bytes the frame has, 0 if none waits. It
/// allocates nothing.
#[unsafe(no_mangle)]
pub unsafe extern "C" fn squall_part_frame(part: *mut CPart, room: &mut [u8]) -> usize
    ghost s: { PartSlot }
    requires* { sem 𝓛 (part_at part s) }
    ensures* { sem 𝓛 (part_such part (λ now. (room.new ≡ room_after (part_frames s.node) room.old) × (now ≡ part_after s room.old)
        × (result ≡ first_length (part_frames s.node)))) }
{
    part_frame(&mut *(part as *mut PartSlot), room)
}

/// Drops the partition, and gives the room back.
#[unsafe(no_mangle)]
pub unsafe extern "C" fn squall_part_close(part: *mut CPart)
    ghost s: { PartSlot }
    requires* { sem 𝓛 (part_at part s) }
    ensures* { sem 𝓛 (part_room part) }
{
    close_part(std::ptr::read(part as *const PartSlot))
}
