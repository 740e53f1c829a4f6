//! Courses as C calls them: a number, an old and a new plan, and what moves between them. All handles
//! of a course share it: nothing is copied.

ghost use Rattle.std.specs.Prelude.{◌≡◌, length};
ghost use Rattle.std.specs.Borrow.{sem};
ghost use Rattle.squall_router.specs.Routers.{course_of_router};
ghost use Rattle.squall_c.specs.declared.router.RouterSlot.{RouterSlot};
ghost use Rattle.squall_c.specs.declared.courses.CourseSlot.{CourseSlot};
ghost use Rattle.squall_c.specs.Telling.{PutsOldText, PutsNewText, PutsLeftText};
ghost use Rattle.squall_c.specs.Handles.{course_bytes, router_at, course_room, course_at, course_such};
ghost use Rattle.squall_c_values.specs.Rooms.{over};
ghost use Rattle.squall_c.specs.Courses.{IsCourseOpened, IsCourseOf, number_of, subplans_of};
ghost use Rattle.squall_c.specs.Courses.{moves_of_slot, old_of_slot, new_of_slot, GivesReceivers, PutsIssue};

use crate::courses::{
    CourseSlot, close_course, course_fault_at, course_frame, course_moves, course_new,
    course_number, course_old, course_receivers, course_status, course_subplans, newest_course,
    open_course, opened_course,
};
use crate::handles::{CCourse, CRouter};
use crate::router::RouterSlot;
use crate::texts::{left_text, new_text, old_text};
use squall_c_values::{CLeg, CMove, CSpan};
use std::alloc::Global;

/// How many bytes the room of a course has at least. It is aligned to 16.
#[unsafe(no_mangle)]
pub extern "C" fn squall_course_size() -> usize
    ensures { result ≡ course_bytes }
{
    size_of::<CourseSlot>()
}

/// Puts into the room the course from the old plan to the new one under the number; or why there is
/// none, which `squall_course_status` tells. Either way the room is to be closed. It allocates.
#[unsafe(no_mangle)]
pub unsafe extern "C" fn squall_course_open(
    alloc: Global,
    number: u32,
    old: &[u8],
    new: &[u8],
    room: *mut CCourse,
)
    requires* { sem 𝓛 (course_room room) }
    ensures* { sem 𝓛 (course_such room (λ now. IsCourseOpened number old.now new.now now)) }
{
    std::ptr::write(
        room as *mut CourseSlot,
        open_course(alloc, number, old, new),
    );
}

/// Puts into the room the newest course of the router, by which it routes; or why there is none,
/// which `squall_course_status` tells. The room is to be closed. It allocates nothing.
#[unsafe(no_mangle)]
pub unsafe extern "C" fn squall_course_newest(router: *const CRouter, room: *mut CCourse)
    ghost s: { RouterSlot }
    requires* { sem 𝓛 (router_at router s) ∗ sem 𝓛 (course_room room) }
    ensures* { sem 𝓛 (router_at router s) ∗ sem 𝓛 (course_such room (λ now. IsCourseOf course_of_router s.station now)) }
{
    std::ptr::write(
        room as *mut CourseSlot,
        newest_course(&*(router as *const RouterSlot)),
    );
}

/// Puts into the room the course with which the router was opened; or why there is none, which
/// `squall_course_status` tells. The room is to be closed. It allocates nothing.
#[unsafe(no_mangle)]
pub unsafe extern "C" fn squall_course_first(router: *const CRouter, room: *mut CCourse)
    ghost s: { RouterSlot }
    requires* { sem 𝓛 (router_at router s) ∗ sem 𝓛 (course_room room) }
    ensures* { sem 𝓛 (router_at router s) ∗ sem 𝓛 (course_such room (λ now. IsCourseOf (λ r. r.first) s.station now)) }
{
    std::ptr::write(
        room as *mut CourseSlot,
        opened_course(&*(router as *const RouterSlot)),
    );
}

/// 0, or why there is no course: no memory (1), the number is 0 (2), no router (3), or the fault of
/// the old plan (11 to 18) or of the new one (31 to 38).
#[unsafe(no_mangle)]
pub unsafe extern "C" fn squall_course_status(course: *const CCourse) -> u32
    ghost s: { CourseSlot }
    requires* { sem 𝓛 (course_at course s) }
    ensures* { sem 𝓛 (course_at course s) ∗ ⌜ result ≡ s.status ⌝ }
{
    course_status(&*(course as *const CourseSlot))
}

/// The place of the fault of a plan: the index of its entry, or of an overlap or a gap the rank of
/// the bound that it names. It is 2^64 - 1 if there was none, or it has no place.
#[unsafe(no_mangle)]
pub unsafe extern "C" fn squall_course_fault_at(course: *const CCourse) -> u64
    ghost s: { CourseSlot }
    requires* { sem 𝓛 (course_at course s) }
    ensures* { sem 𝓛 (course_at course s) ∗ ⌜ result ≡ s.fault_at ⌝ }
{
    course_fault_at(&*(course as *const CourseSlot))
}

/// The number of the course; 0 if there is none.
#[unsafe(no_mangle)]
pub unsafe extern "C" fn squall_course_number(course: *const CCourse) -> u32
    ghost s: { CourseSlot }
    requires* { sem 𝓛 (course_at course s) }
    ensures* { sem 𝓛 (course_at course s) ∗ ⌜ result ≡ number_of s.course ⌝ }
{
    course_number(&*(course as *const CourseSlot))
}

/// How many sub-plans the course has: 0 if nothing moves, or there is no course.
#[unsafe(no_mangle)]
pub unsafe extern "C" fn squall_course_subplans(course: *const CCourse) -> u32
    ghost s: { CourseSlot }
    requires* { sem 𝓛 (course_at course s) }
    ensures* { sem 𝓛 (course_at course s) ∗ ⌜ result ≡ subplans_of s.course ⌝ }
{
    course_subplans(&*(course as *const CourseSlot))
}

/// Puts the moves of the course by rising key, from the place `from` on, into the room, as many as it
/// holds, and answers how many: 0 if there are no more, or no course. Each key that moves lies in
/// one of them. The rest of the room stays. It allocates nothing.
#[unsafe(no_mangle)]
pub unsafe extern "C" fn squall_course_moves(
    course: *const CCourse,
    from: usize,
    room: &mut [CMove],
) -> usize
    ghost s: { CourseSlot }
    requires* { sem 𝓛 (course_at course s) }
    ensures* { sem 𝓛 (course_at course s)
        ∗ ⌜ (room.new ≡ over (moves_of_slot s.course from room.old) room.old) × (result ≡ length (moves_of_slot s.course from room.old)) ⌝ }
{
    course_moves(&*(course as *const CourseSlot), from, room)
}

/// Puts the ranges of the old plan by rising key, from the place `from` on, into the room, as many as
/// it holds, and answers how many: 0 if there are no more, or no course. The rest of the room stays.
/// It allocates nothing.
#[unsafe(no_mangle)]
pub unsafe extern "C" fn squall_course_old(
    course: *const CCourse,
    from: usize,
    room: &mut [CLeg],
) -> usize
    ghost s: { CourseSlot }
    requires* { sem 𝓛 (course_at course s) }
    ensures* { sem 𝓛 (course_at course s)
        ∗ ⌜ (room.new ≡ over (old_of_slot s.course from room.old) room.old) × (result ≡ length (old_of_slot s.course from room.old)) ⌝ }
{
    course_old(&*(course as *const CourseSlot), from, room)
}

/// The same of the new plan.
#[unsafe(no_mangle)]
pub unsafe extern "C" fn squall_course_new(
    course: *const CCourse,
    from: usize,
    room: &mut [CLeg],
) -> usize
    ghost s: { CourseSlot }
    requires* { sem 𝓛 (course_at course s) }
    ensures* { sem 𝓛 (course_at course s)
        ∗ ⌜ (room.new ≡ over (new_of_slot s.course from room.old) room.old) × (result ≡ length (new_of_slot s.course from room.old)) ⌝ }
{
    course_new(&*(course as *const CourseSlot), from, room)
}

/// Puts the partitions to which keys move in the sub-plan, in rising number, from the place `from` on,
/// into the room, as many as it holds, and answers how many: 0 if there are no more, or no course. It
/// allocates: if that fails it answers the greatest number of its type, and the room stays. Else the
/// rest of the room stays.
#[unsafe(no_mangle)]
pub unsafe extern "C" fn squall_course_receivers(
    course: *const CCourse,
    sub: u32,
    from: usize,
    room: &mut [u32],
) -> usize
    ghost s: { CourseSlot }
    requires* { sem 𝓛 (course_at course s) }
    ensures* { sem 𝓛 (course_at course s) ∗ ⌜ GivesReceivers s.course sub from room.old room.new result ⌝ }
{
    course_receivers(&*(course as *const CourseSlot), sub, from, room)
}

/// Puts the frame of the report that the course was issued into the room, if that holds it, and
/// answers how many bytes it has. The answer is 0 if there is no course, and the greatest number of
/// its type if an allocation fails. If the room is too short, it stays.
#[unsafe(no_mangle)]
pub unsafe extern "C" fn squall_course_frame(course: *const CCourse, room: &mut [u8]) -> usize
    ghost s: { CourseSlot }
    requires* { sem 𝓛 (course_at course s) }
    ensures* { sem 𝓛 (course_at course s) ∗ ⌜ PutsIssue s.course room.old room.new result ⌝ }
{
    course_frame(&*(course as *const CourseSlot), room)
}

/// Puts the text of the course's old plan into the room, if that holds it, and answers how many bytes it
/// has. It reads as the same plan. The answer is 0 if there is no course, and the greatest number of its
/// type if an allocation fails. If the room is too short, it stays.
#[unsafe(no_mangle)]
pub unsafe extern "C" fn squall_course_old_text(course: *const CCourse, room: &mut [u8]) -> usize
    ghost s: { CourseSlot }
    requires* { sem 𝓛 (course_at course s) }
    ensures* { sem 𝓛 (course_at course s) ∗ ⌜ PutsOldText s.course room.old room.new result ⌝ }
{
    old_text(&*(course as *const CourseSlot), room)
}

/// The same of the new plan.
#[unsafe(no_mangle)]
pub unsafe extern "C" fn squall_course_new_text(course: *const CCourse, room: &mut [u8]) -> usize
    ghost s: { CourseSlot }
    requires* { sem 𝓛 (course_at course s) }
    ensures* { sem 𝓛 (course_at course s) ∗ ⌜ PutsNewText s.course room.old room.new result ⌝ }
{
    new_text(&*(course as *const CourseSlot), room)
}

/// Puts the text of the plan of where the course leaves the keys, if it ends early, into the room, if
/// that holds it, and answers how many bytes it has. A key of the spans, which may overlap and come in
/// any order, is at its new partition, and any other at its old one. The answer is 0 if there is no
/// course, if a span has no key or ends above all keys, or if the plan would have more than 4096 ranges.
/// It is the greatest number of its type if an allocation fails. If the room is too short, it stays.
#[unsafe(no_mangle)]
pub unsafe extern "C" fn squall_course_left(
    course: *const CCourse,
    loaded: &[CSpan],
    room: &mut [u8],
) -> usize
    ghost s: { CourseSlot }
    requires* { sem 𝓛 (course_at course s) }
    ensures* { sem 𝓛 (course_at course s) ∗ ⌜ PutsLeftText s.course loaded.now room.old room.new result ⌝ }
{
    left_text(&*(course as *const CourseSlot), loaded, room)
}

/// Drops the course, and gives the room back. It goes with its last handle, and its last router.
#[unsafe(no_mangle)]
pub unsafe extern "C" fn squall_course_close(course: *mut CCourse)
    ghost s: { CourseSlot }
    requires* { sem 𝓛 (course_at course s) }
    ensures* { sem 𝓛 (course_room course) }
{
    close_course(std::ptr::read(course as *const CourseSlot))
}
