//! Routers as C calls them. Each export says of what lies at the handle what the function that it
//! calls says of a slot. A pointer is never null, even where a length is 0.

ghost use Rattle.std.specs.Prelude.{◌≡◌, length};
ghost use Rattle.std.specs.Borrow.{sem};
ghost use Rattle.squall_report.specs.Facts.{done_of, opened_of};
ghost use Rattle.squall_c.specs.declared.router.RouterSlot.{RouterSlot};
ghost use Rattle.squall_c.specs.Handles.{router_bytes, router_room, router_at, router_such};
ghost use Rattle.squall_c.specs.Opening.{IsOpened};
ghost use Rattle.squall_c.specs.Reporting.{loaded_report, Takes, Issues};
ghost use Rattle.squall_c.specs.Feeding.{waiting_bytes, Feeds};
ghost use Rattle.squall_c.specs.WholeFrames.{HearsFrame};
ghost use Rattle.squall_c_frames.specs.Queues.{room_after, first_length};
ghost use Rattle.squall_c.specs.Frames.{GathersBoard, GathersDigest, GathersRepair, waiting_frames, slot_after};
ghost use Rattle.squall_c_values.specs.Rooms.{over};
ghost use Rattle.squall_c.specs.Showing.{routed, course_number, legs_of_station, that_fit};

use crate::feeding::{feed, waiting};
use crate::frames::{gather_board, gather_digest, gather_repair, next_frame};
use crate::handles::CRouter;
use crate::hearing::hear_frame;
use crate::reports::{done, issued, loaded, opened};
use crate::router::{RouterSlot, close, fault_at, legs, number, open, route, status};
use squall_c_values::CLeg;
use std::alloc::Global;

/// How many bytes the room of a router has at least. It is aligned to 16.
#[unsafe(no_mangle)]
pub extern "C" fn squall_router_size() -> usize
    ensures { result ≡ router_bytes }
{
    size_of::<RouterSlot>()
}

/// Puts into the room the router that goes from the old plan to the new one under the number, and
/// has heard nothing; or why there is none, which `squall_router_status` tells. Either way the room
/// is to be closed. It allocates.
#[unsafe(no_mangle)]
pub unsafe extern "C" fn squall_router_open(
    alloc: Global,
    number: u32,
    old: &[u8],
    new: &[u8],
    room: *mut CRouter,
)
    requires* { sem 𝓛 (router_room room) }
    ensures* { sem 𝓛 (router_such room (λ now. IsOpened number old.now new.now now)) }
{
    std::ptr::write(room as *mut RouterSlot, open(alloc, number, old, new));
}

/// 0, or why there is no router: no memory (1), the number is 0 (2), or the fault of the old plan
/// (11 to 18) or of the new one (31 to 38).
#[unsafe(no_mangle)]
pub unsafe extern "C" fn squall_router_status(router: *const CRouter) -> u32
    ghost s: { RouterSlot }
    requires* { sem 𝓛 (router_at router s) }
    ensures* { sem 𝓛 (router_at router s) ∗ ⌜ result ≡ s.status ⌝ }
{
    status(&*(router as *const RouterSlot))
}

/// The place of the last fault of a plan: the index of its entry, or of an overlap or a gap the rank
/// of the bound that it names. It is 2^64 - 1 if there was none, or it has no place.
#[unsafe(no_mangle)]
pub unsafe extern "C" fn squall_router_fault_at(router: *const CRouter) -> u64
    ghost s: { RouterSlot }
    requires* { sem 𝓛 (router_at router s) }
    ensures* { sem 𝓛 (router_at router s) ∗ ⌜ result ≡ s.fault_at ⌝ }
{
    fault_at(&*(router as *const RouterSlot))
}

/// Takes the report that in the sub-plan the partition has loaded the keys from rank `lo` on, below
/// rank `hi`. No memory (1), a number outside its limits or no key between the ranks (2), no router
/// (3): then nothing changes.
#[unsafe(no_mangle)]
pub unsafe extern "C" fn squall_router_loaded(
    router: *mut CRouter,
    number: u32,
    sub: u32,
    part: u32,
    lo: u64,
    hi: u64,
) -> u32
    ghost s: { RouterSlot }
    requires* { sem 𝓛 (router_at router s) }
    ensures* { sem 𝓛 (router_such router (λ now. Takes (loaded_report number sub part lo hi) s now result)) }
{
    loaded(&mut *(router as *mut RouterSlot), number, sub, part, lo, hi)
}

/// Takes the report that the partition has all the keys that the sub-plan brings it. No memory (1),
/// a number outside its limits (2), no router (3): then nothing changes.
#[unsafe(no_mangle)]
pub unsafe extern "C" fn squall_router_done(
    router: *mut CRouter,
    number: u32,
    sub: u32,
    part: u32,
) -> u32
    ghost s: { RouterSlot }
    requires* { sem 𝓛 (router_at router s) }
    ensures* { sem 𝓛 (router_such router (λ now. Takes (done_of number sub part) s now result)) }
{
    done(&mut *(router as *mut RouterSlot), number, sub, part)
}

/// Takes the report that the sub-plan is opened, and all those before it. No memory (1), a number
/// outside its limits (2), no router (3): then nothing changes.
#[unsafe(no_mangle)]
pub unsafe extern "C" fn squall_router_opened(router: *mut CRouter, number: u32, sub: u32) -> u32
    ghost s: { RouterSlot }
    requires* { sem 𝓛 (router_at router s) }
    ensures* { sem 𝓛 (router_such router (λ now. Takes (opened_of number sub) s now result)) }
{
    opened(&mut *(router as *mut RouterSlot), number, sub)
}

/// Takes the report that under the number the plan changes, from the new plan of the router's first
/// course to that of the text. No memory (1), the number is 0 (2), no router (3), the text's fault
/// (31 to 38): then nothing changes, but that `squall_router_fault_at` tells where the fault lies.
#[unsafe(no_mangle)]
pub unsafe extern "C" fn squall_router_issued(router: *mut CRouter, number: u32, plan: &[u8]) -> u32
    ghost s: { RouterSlot }
    requires* { sem 𝓛 (router_at router s) }
    ensures* { sem 𝓛 (router_such router (λ now. Issues number plan.now s now result)) }
{
    issued(&mut *(router as *mut RouterSlot), number, plan)
}

/// Takes a piece of a stream of frames, cut anywhere: the messages whose frames end in it are heard,
/// up to the first fault, which ends the stream (51 to 54, 56 to 59). No memory (1), no router (3),
/// a fault ended the stream before (4): then nothing changes.
#[unsafe(no_mangle)]
pub unsafe extern "C" fn squall_router_feed(router: *mut CRouter, bytes: &[u8]) -> u32
    ghost s: { RouterSlot }
    requires* { sem 𝓛 (router_at router s) }
    ensures* { sem 𝓛 (router_such router (λ now. Feeds bytes.now s now result)) }
{
    feed(&mut *(router as *mut RouterSlot), bytes)
}

/// How many bytes that were fed wait for the rest of their frame: 0 if there is no router. If a stream
/// ends while it is above 0, it was cut within a frame. It allocates nothing.
#[unsafe(no_mangle)]
pub unsafe extern "C" fn squall_router_waiting(router: *const CRouter) -> usize
    ghost s: { RouterSlot }
    requires* { sem 𝓛 (router_at router s) }
    ensures* { sem 𝓛 (router_at router s) ∗ ⌜ result ≡ waiting_bytes s.station ⌝ }
{
    waiting(&*(router as *const RouterSlot))
}

/// Takes one whole frame, no more and no less: its message is heard, or the answer is its fault
/// (51 to 59). What was fed of a stream waits on, and no fault ends it. No memory (1), no router (3), a fault:
/// then nothing changes.
#[unsafe(no_mangle)]
pub unsafe extern "C" fn squall_router_hear(router: *mut CRouter, frame: &[u8]) -> u32
    ghost s: { RouterSlot }
    requires* { sem 𝓛 (router_at router s) }
    ensures* { sem 𝓛 (router_such router (λ now. HearsFrame frame.now s now result)) }
{
    hear_frame(&mut *(router as *mut RouterSlot), frame)
}

/// The partition to ask for the key of that rank; 2^32 - 1 where the rank is no key's, or there is
/// no router. It allocates nothing.
#[unsafe(no_mangle)]
pub unsafe extern "C" fn squall_router_route(router: *const CRouter, rank: u64) -> u32
    ghost s: { RouterSlot }
    requires* { sem 𝓛 (router_at router s) }
    ensures* { sem 𝓛 (router_at router s) ∗ ⌜ result ≡ routed s.station rank ⌝ }
{
    route(&*(router as *const RouterSlot), rank)
}

/// Puts the legs from rank `lo` to rank `hi` into the room, as many as it holds, and
/// answers how many those are: 0 where no key lies between them, one is no bound, or there is no
/// router. The rest of the room stays. It allocates nothing.
#[unsafe(no_mangle)]
pub unsafe extern "C" fn squall_router_legs(
    router: *const CRouter,
    lo: u64,
    hi: u64,
    room: &mut [CLeg],
) -> usize
    ghost s: { RouterSlot }
    requires* { sem 𝓛 (router_at router s) }
    ensures* { sem 𝓛 (router_at router s)
        ∗ ⌜ (room.new ≡ over (that_fit (legs_of_station s.station lo hi) room.old) room.old)
        × (result ≡ length (that_fit (legs_of_station s.station lo hi) room.old)) ⌝ }
{
    legs(&*(router as *const RouterSlot), lo, hi, room)
}

/// The number of the router's course, the newest of which it has heard; 0 if there is no router.
#[unsafe(no_mangle)]
pub unsafe extern "C" fn squall_router_number(router: *const CRouter) -> u32
    ghost s: { RouterSlot }
    requires* { sem 𝓛 (router_at router s) }
    ensures* { sem 𝓛 (router_at router s) ∗ ⌜ result ≡ course_number s.station ⌝ }
{
    number(&*(router as *const RouterSlot))
}

/// Has the frames of all that the router has heard wait, in place of those that waited before:
/// `squall_router_frame` fetches them. Each has at most `limit` bytes. No memory (1), no router (3), an
/// item has no such frame (5): then nothing changes.
#[unsafe(no_mangle)]
pub unsafe extern "C" fn squall_router_gather_board(router: *mut CRouter, limit: usize) -> u32
    ghost s: { RouterSlot }
    requires* { sem 𝓛 (router_at router s) }
    ensures* { sem 𝓛 (router_such router (λ now. GathersBoard limit s now result)) }
{
    gather_board(&mut *(router as *mut RouterSlot), limit)
}

/// Has the frame of a digest of all that the router has heard wait, in place of the frames that
/// waited before. It has at most `limit` bytes. No memory (1), no router (3), the digest does not fit
/// such a frame (5): then nothing changes.
#[unsafe(no_mangle)]
pub unsafe extern "C" fn squall_router_gather_digest(router: *mut CRouter, limit: usize) -> u32
    ghost s: { RouterSlot }
    requires* { sem 𝓛 (router_at router s) }
    ensures* { sem 𝓛 (router_such router (λ now. GathersDigest limit s now result)) }
{
    gather_digest(&mut *(router as *mut RouterSlot), limit)
}

/// Has the frames of what the digest heard last does not show wait, in place of those that waited
/// before. Each has at most `limit` bytes. No memory (1), no router (3), an item has no such frame (5),
/// no digest was heard (6): then nothing changes.
#[unsafe(no_mangle)]
pub unsafe extern "C" fn squall_router_gather_repair(router: *mut CRouter, limit: usize) -> u32
    ghost s: { RouterSlot }
    requires* { sem 𝓛 (router_at router s) }
    ensures* { sem 𝓛 (router_such router (λ now. GathersRepair limit s now result)) }
{
    gather_repair(&mut *(router as *mut RouterSlot), limit)
}

/// Puts the first frame that waits into the room, from its start on, and it waits no longer. If the
/// room is too short for it, nothing changes. Answers how many bytes the frame has, 0 if none waits.
/// It allocates nothing.
#[unsafe(no_mangle)]
pub unsafe extern "C" fn squall_router_frame(router: *mut CRouter, room: &mut [u8]) -> usize
    ghost s: { RouterSlot }
    requires* { sem 𝓛 (router_at router s) }
    ensures* { sem 𝓛 (router_such router (λ now. (room.new ≡ room_after (waiting_frames s.station) room.old) × (now ≡ slot_after s room.old)
        × (result ≡ first_length (waiting_frames s.station)))) }
{
    next_frame(&mut *(router as *mut RouterSlot), room)
}

/// Drops the router, and gives the room back.
#[unsafe(no_mangle)]
pub unsafe extern "C" fn squall_router_close(router: *mut CRouter)
    ghost s: { RouterSlot }
    requires* { sem 𝓛 (router_at router s) }
    ensures* { sem 𝓛 (router_room router) }
{
    close(std::ptr::read(router as *const RouterSlot))
}
