//! Leaders as C calls them: a leader begins one course after another and opens their sub-plans.

ghost use Rattle.std.specs.Prelude.{◌≡◌};
ghost use Rattle.std.specs.Borrow.{sem};
ghost use Rattle.squall_c.specs.declared.courses.CourseSlot.{CourseSlot};
ghost use Rattle.squall_c.specs.declared.leaders.LeaderSlot.{LeaderSlot};
ghost use Rattle.squall_c.specs.Handles.{course_at, course_room, course_such};
ghost use Rattle.squall_c.specs.LeaderHandles.{leader_bytes, leader_room, leader_at, leader_such};
ghost use Rattle.squall_c_frames.specs.Queues.{room_after, first_length};
ghost use Rattle.squall_c.specs.LeaderSlots.{IsLeaderOpened, IsLeaderResumedOf, IsCourseBegun, TellsFinished, course_begun};
ghost use Rattle.squall_c.specs.LeaderSlots.{LeaderHears, LeaderFeeds, LeaderBegins, LeaderBeginsFrom, LeaderOpens};
ghost use Rattle.squall_c.specs.LeaderSlots.{LeaderGathersBoard, LeaderGathersDigest, LeaderGathersRepair};
ghost use Rattle.squall_c.specs.LeaderSlots.{frames_of_leader, leader_slot_after, leader_waiting_bytes};

use crate::courses::CourseSlot;
use crate::handles::CCourse;
use crate::leaders::{
    LeaderSlot, close_leader, leader_course, leader_fault_at, leader_finished, leader_status,
    open_leader, resume_leader,
};
use crate::leading::{
    leader_begin, leader_begin_from, leader_feed, leader_frame, leader_gather_board,
    leader_gather_digest, leader_gather_repair, leader_hear, leader_open_next, leader_waiting,
};
use std::alloc::Global;

/// What C sees of a leader: nothing but its address, as of the other handles.
#[repr(C)]
#[derive(Drop)]
pub struct CLeader {
    _hidden: u8,
}

/// How many bytes the room of a leader has at least. It is aligned to 16.
#[unsafe(no_mangle)]
pub extern "C" fn squall_leader_size() -> usize
    ensures { result ≡ leader_bytes }
{
    size_of::<LeaderSlot>()
}

/// Puts into the room the leader of data that lies as the plan says, which goes on after the number
/// `last`; or why there is none, which `squall_leader_status` tells. Either way the room is to be
/// closed. It allocates.
#[unsafe(no_mangle)]
pub unsafe extern "C" fn squall_leader_open(
    alloc: Global,
    plan: &[u8],
    last: u32,
    room: *mut CLeader,
)
    requires* { sem 𝓛 (leader_room room) }
    ensures* { sem 𝓛 (leader_such room (λ now. IsLeaderOpened plan.now last now)) }
{
    std::ptr::write(room as *mut LeaderSlot, open_leader(alloc, plan, last));
}

/// Puts into the room the leader in the midst of the course, of which it knows nothing but that it was
/// issued; or why there is none, which `squall_leader_status` tells. Either way the room is to be
/// closed. It allocates.
#[unsafe(no_mangle)]
pub unsafe extern "C" fn squall_leader_resume(
    alloc: Global,
    course: *const CCourse,
    room: *mut CLeader,
)
    ghost s: { CourseSlot }
    requires* { sem 𝓛 (course_at course s) ∗ sem 𝓛 (leader_room room) }
    ensures* { sem 𝓛 (course_at course s) ∗ sem 𝓛 (leader_such room (λ now. IsLeaderResumedOf s.course now)) }
{
    std::ptr::write(
        room as *mut LeaderSlot,
        resume_leader(alloc, &*(course as *const CourseSlot)),
    );
}

/// 0, or why there is no leader: no memory (1), no course (3), or the fault of the plan (11 to 18).
#[unsafe(no_mangle)]
pub unsafe extern "C" fn squall_leader_status(leader: *const CLeader) -> u32
    ghost s: { LeaderSlot }
    requires* { sem 𝓛 (leader_at leader s) }
    ensures* { sem 𝓛 (leader_at leader s) ∗ ⌜ result ≡ s.status ⌝ }
{
    leader_status(&*(leader as *const LeaderSlot))
}

/// The place of the last fault of a plan: the index of its entry, or of an overlap or a gap the rank
/// of the bound that it names. It is 2^64 - 1 if there was none, or it has no place.
#[unsafe(no_mangle)]
pub unsafe extern "C" fn squall_leader_fault_at(leader: *const CLeader) -> u64
    ghost s: { LeaderSlot }
    requires* { sem 𝓛 (leader_at leader s) }
    ensures* { sem 𝓛 (leader_at leader s) ∗ ⌜ result ≡ s.fault_at ⌝ }
{
    leader_fault_at(&*(leader as *const LeaderSlot))
}

/// Takes a piece of a stream of frames, cut anywhere: the messages whose frames end in it are heard,
/// up to the first fault, which ends the stream (51 to 54, 56 to 59). No memory (1), no leader (3),
/// a fault ended the stream before (4): then nothing changes.
#[unsafe(no_mangle)]
pub unsafe extern "C" fn squall_leader_feed(leader: *mut CLeader, bytes: &[u8]) -> u32
    ghost s: { LeaderSlot }
    requires* { sem 𝓛 (leader_at leader s) }
    ensures* { sem 𝓛 (leader_such leader (λ now. LeaderFeeds bytes.now s now result)) }
{
    leader_feed(&mut *(leader as *mut LeaderSlot), bytes)
}

/// How many bytes that were fed wait for the rest of their frame: 0 if there is no leader. It allocates
/// nothing.
#[unsafe(no_mangle)]
pub unsafe extern "C" fn squall_leader_waiting(leader: *const CLeader) -> usize
    ghost s: { LeaderSlot }
    requires* { sem 𝓛 (leader_at leader s) }
    ensures* { sem 𝓛 (leader_at leader s) ∗ ⌜ result ≡ leader_waiting_bytes s.node ⌝ }
{
    leader_waiting(&*(leader as *const LeaderSlot))
}

/// Takes one whole frame, no more and no less: its message is heard, or the answer is its fault
/// (51 to 59). What was fed of a stream waits on, and no fault ends it. No memory (1), no leader (3),
/// a fault: then nothing changes.
#[unsafe(no_mangle)]
pub unsafe extern "C" fn squall_leader_hear(leader: *mut CLeader, frame: &[u8]) -> u32
    ghost s: { LeaderSlot }
    requires* { sem 𝓛 (leader_at leader s) }
    ensures* { sem 𝓛 (leader_such leader (λ now. LeaderHears frame.now s now result)) }
{
    leader_hear(&mut *(leader as *mut LeaderSlot), frame)
}

/// Begins the course that leads from the newest plan to that of the text, under the last number plus
/// 1. No memory (1), no leader (3), the text's fault (31 to 38), the course begun last is not over
/// (91), the greatest number is used (92): then nothing changes, but that `squall_leader_fault_at`
/// tells where a fault lies.
#[unsafe(no_mangle)]
pub unsafe extern "C" fn squall_leader_begin(leader: *mut CLeader, plan: &[u8]) -> u32
    ghost s: { LeaderSlot }
    requires* { sem 𝓛 (leader_at leader s) }
    ensures* { sem 𝓛 (leader_such leader (λ now. LeaderBegins plan.now s now result)) }
{
    leader_begin(&mut *(leader as *mut LeaderSlot), plan)
}

/// Begins the course that leads from the plan of the one text to that of the other, under the last number
/// plus 1, whether or not the course begun last is over. No memory (1), no leader (3), the fault of the
/// old text (11 to 18) or of the new one (31 to 38), the greatest number is used (92): then nothing
/// changes, but that `squall_leader_fault_at` tells where a fault lies.
#[unsafe(no_mangle)]
pub unsafe extern "C" fn squall_leader_begin_from(
    leader: *mut CLeader,
    old: &[u8],
    new: &[u8],
) -> u32
    ghost s: { LeaderSlot }
    requires* { sem 𝓛 (leader_at leader s) }
    ensures* { sem 𝓛 (leader_such leader (λ now. LeaderBeginsFrom old.now new.now s now result)) }
{
    leader_begin_from(&mut *(leader as *mut LeaderSlot), old, new)
}

/// Puts into the room the course that the leader began last; or why there is none, which
/// `squall_course_status` tells. The room is to be closed. It allocates nothing.
#[unsafe(no_mangle)]
pub unsafe extern "C" fn squall_leader_course(
    alloc: Global,
    leader: *const CLeader,
    room: *mut CCourse,
)
    ghost s: { LeaderSlot }
    requires* { sem 𝓛 (leader_at leader s) ∗ sem 𝓛 (course_room room) }
    ensures* { sem 𝓛 (leader_at leader s) ∗ sem 𝓛 (course_such room (λ now. IsCourseBegun (course_begun s.node) now)) }
{
    std::ptr::write(
        room as *mut CourseSlot,
        leader_course(alloc, &*(leader as *const LeaderSlot)),
    );
}

/// Opens the next sub-plan of the course begun last, and puts its number into the room, if that has a
/// place. No memory (1), no leader (3), no course is begun (93), no sub-plan is left (95): then nothing
/// changes. Nor if a partition has not reported that it has all keys of the sub-plan opened last (94):
/// then the sub-plan and the least such partition are put into the room, as far as it holds them.
#[unsafe(no_mangle)]
pub unsafe extern "C" fn squall_leader_open_next(leader: *mut CLeader, room: &mut [u32]) -> u32
    ghost s: { LeaderSlot }
    requires* { sem 𝓛 (leader_at leader s) }
    ensures* { sem 𝓛 (leader_such leader (λ now. LeaderOpens s room.old now room.new result)) }
{
    leader_open_next(&mut *(leader as *mut LeaderSlot), room)
}

/// 1 if a course is begun, all its sub-plans are opened, and all partitions that receive keys in the
/// last one have reported that they have all; 0 if not, or if there is no leader. It allocates nothing.
#[unsafe(no_mangle)]
pub unsafe extern "C" fn squall_leader_finished(leader: *const CLeader) -> u32
    ghost s: { LeaderSlot }
    requires* { sem 𝓛 (leader_at leader s) }
    ensures* { sem 𝓛 (leader_at leader s) ∗ ⌜ TellsFinished s.node result ⌝ }
{
    leader_finished(&*(leader as *const LeaderSlot))
}

/// Has the frames of all that the leader heard and reported itself wait, in place of those that waited
/// before: `squall_leader_frame` fetches them. Each has at most `limit` bytes. No memory (1), no leader
/// (3), an item has no such frame (5): then nothing changes.
#[unsafe(no_mangle)]
pub unsafe extern "C" fn squall_leader_gather_board(leader: *mut CLeader, limit: usize) -> u32
    ghost s: { LeaderSlot }
    requires* { sem 𝓛 (leader_at leader s) }
    ensures* { sem 𝓛 (leader_such leader (λ now. LeaderGathersBoard limit s now result)) }
{
    leader_gather_board(&mut *(leader as *mut LeaderSlot), limit)
}

/// Has the frame of a digest of all that wait, in place of the frames that waited before. It has at
/// most `limit` bytes. No memory (1), no leader (3), the digest does not fit such a frame (5): then
/// nothing changes.
#[unsafe(no_mangle)]
pub unsafe extern "C" fn squall_leader_gather_digest(leader: *mut CLeader, limit: usize) -> u32
    ghost s: { LeaderSlot }
    requires* { sem 𝓛 (leader_at leader s) }
    ensures* { sem 𝓛 (leader_such leader (λ now. LeaderGathersDigest limit s now result)) }
{
    leader_gather_digest(&mut *(leader as *mut LeaderSlot), limit)
}

/// Has the frames of what the digest heard last does not show wait, in place of those that waited
/// before. Each has at most `limit` bytes. No memory (1), no leader (3), an item has no such frame (5),
/// no digest was heard (6): then nothing changes.
#[unsafe(no_mangle)]
pub unsafe extern "C" fn squall_leader_gather_repair(leader: *mut CLeader, limit: usize) -> u32
    ghost s: { LeaderSlot }
    requires* { sem 𝓛 (leader_at leader s) }
    ensures* { sem 𝓛 (leader_such leader (λ now. LeaderGathersRepair limit s now result)) }
{
    leader_gather_repair(&mut *(leader as *mut LeaderSlot), limit)
}

/// Puts the first frame that waits into the room, from its start on, and it waits no longer. If the
/// room is too short for it, nothing changes. Answers how many bytes the frame has, 0 if none waits.
/// It allocates nothing.
#[unsafe(no_mangle)]
pub unsafe extern "C" fn squall_leader_frame(leader: *mut CLeader, room: &mut [u8]) -> usize
    ghost s: { LeaderSlot }
    requires* { sem 𝓛 (leader_at leader s) }
    ensures* { sem 𝓛 (leader_such leader (λ now. (room.new ≡ room_after (frames_of_leader s.node) room.old) × (now ≡ leader_slot_after s room.old)
        × (result ≡ first_length (frames_of_leader s.node)))) }
{
    leader_frame(&mut *(leader as *mut LeaderSlot), room)
}

/// Drops the leader, and gives the room back.
#[unsafe(no_mangle)]
pub unsafe extern "C" fn squall_leader_close(leader: *mut CLeader)
    ghost s: { LeaderSlot }
    requires* { sem 𝓛 (leader_at leader s) }
    ensures* { sem 𝓛 (leader_room leader) }
{
    close_leader(std::ptr::read(leader as *const LeaderSlot))
}
