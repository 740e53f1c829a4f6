//! Courses behind handles: which keys move, between which partitions, and in which sub-plan.

ghost use Rattle.std.specs.Prelude.{◌≡◌, IfOk, length};
ghost use Rattle.std.specs.Arc.{arc_value};
ghost use Rattle.squall_report.specs.declared.report.ReportKind.TheVariants.{Issued};
ghost use Rattle.squall_report.specs.Issues.{plan_pair};
ghost use Rattle.squall_router.specs.Routers.{course_of_router};
ghost use Rattle.squall_c_values.specs.Rooms.{over};
ghost use Rattle.squall_c.specs.Status.{GivesSeen, PlacesMemory, NeedsNumber};
ghost use Rattle.squall_c.specs.Opening.{first_course};
ghost use Rattle.squall_c.specs.Courses.{IsCourseOpened, IsCourseOf, IsSlotWith, course_seen, number_of};
ghost use Rattle.squall_c.specs.Courses.{subplans_of, moves_of_slot, old_of_slot, new_of_slot, receivers_from, GivesReceivers, PutsIssue};

use crate::numbers::put_numbers;
use crate::router::{RouterSlot, first_course, may_cross};
use crate::status::{CLOSED, Cause, NO_MEMORY, NO_PLACE, OK};
use squall_c_values::{CLeg, CMove, NO_COUNT, put_moves, put_ranges, put_report};
use squall_course::Course;
use squall_join::Shared;
use squall_report::{Issue, Report};
use std::alloc::{AllocError, Global};
use std::sync::Arc;

/// A course that handles and routers share, and what allocates for it.
#[derive(Drop)]
pub struct HeldCourse {
    pub(crate) alloc: Global,
    pub(crate) course: Shared<Course>,
}

/// What lies behind the handle of a course: a course, or why there is none.
#[derive(Drop)]
pub struct CourseSlot {
    /// 0, or why there is no course.
    pub(crate) status: u32,
    /// The place of the fault of a plan.
    pub(crate) fault_at: u64,
    pub(crate) course: Option<HeldCourse>,
}

/// The slot of the course, or of why there is none.
pub(crate) fn slot_with(alloc: Global, course: Result<Shared<Course>, Cause>) -> CourseSlot
    ensures { IsSlotWith course result }
{
    match course {
        Ok(course) => CourseSlot {
            status: OK,
            fault_at: NO_PLACE,
            course: Some(HeldCourse { alloc, course }),
        },
        Err(cause) => CourseSlot {
            status: cause.status,
            fault_at: cause.at,
            course: None,
        },
    }
}

/// The course as one that several may own. It fails if an allocation fails.
fn owned(alloc: Global, course: Course) -> Result<Shared<Course>, AllocError>
    ensures { IfOk result (λ c. c ≡ course) }
{
    Ok(Shared::new(Arc::new(alloc, course)?))
}

/// The course of the plans of both texts, or why there is none.
fn course_of_plans(
    alloc: Global,
    number: u32,
    old: &[u8],
    new: &[u8],
) -> Result<Shared<Course>, Cause>
    ensures course { GivesSeen (λ c. c) result (first_course number old.now new.now) }
    ensures place { PlacesMemory result }
    ensures numbered { NeedsNumber number result }
{
    let course = first_course(alloc, number, old, new)?;
    Ok(owned(alloc, course)?)
}

/// The course from the old plan to the new one under the number, or why there is none.
pub(crate) fn open_course(alloc: Global, number: u32, old: &[u8], new: &[u8]) -> CourseSlot
    ensures { IsCourseOpened number old.now new.now result }
{
    slot_with(alloc, course_of_plans(alloc, number, old, new))
}

/// One more owner of the course. It fails only if the count of its owners is full.
fn again(course: &Arc<Course>) -> Result<Shared<Course>, AllocError>
    ensures { IfOk result (λ c. c ≡ arc_value course.now) }
{
    Ok(Shared::new(Arc::try_clone(course)?))
}

/// The same, or that there was no memory for it.
pub(crate) fn share(course: &Arc<Course>) -> Result<Shared<Course>, Cause>
    ensures course { GivesSeen (λ c. c) result (course_seen (arc_value course.now)) }
    ensures place { PlacesMemory result }
{
    Ok(again(course)?)
}

/// The newest course of the router, or why there is none.
pub(crate) fn newest_course(slot: &RouterSlot) -> CourseSlot
    ensures { IsCourseOf course_of_router slot.now.station result }
{
    match &slot.station {
        Some(station) => slot_with(station.alloc, share(station.router.course())),
        None => CourseSlot {
            status: CLOSED,
            fault_at: NO_PLACE,
            course: None,
        },
    }
}

/// The course with which the router was opened, or why there is none.
pub(crate) fn opened_course(slot: &RouterSlot) -> CourseSlot
    ensures { IsCourseOf (λ r. r.first) slot.now.station result }
{
    match &slot.station {
        Some(station) => slot_with(station.alloc, share(station.router.first())),
        None => CourseSlot {
            status: CLOSED,
            fault_at: NO_PLACE,
            course: None,
        },
    }
}

/// 0, or why there is no course.
pub(crate) fn course_status(slot: &CourseSlot) -> u32
    ensures { result ≡ slot.now.status }
{
    slot.status
}

/// The place of the fault of a plan, or `NO_PLACE`.
pub(crate) fn course_fault_at(slot: &CourseSlot) -> u64
    ensures { result ≡ slot.now.fault_at }
{
    slot.fault_at
}

/// The number of the course, or 0 if there is none.
pub(crate) fn course_number(slot: &CourseSlot) -> u32
    ensures { result ≡ number_of slot.now.course }
{
    match &slot.course {
        Some(held) => held.course.as_arc().number(),
        None => 0,
    }
}

/// How many sub-plans it has: 0 if nothing moves, or there is no course.
pub(crate) fn course_subplans(slot: &CourseSlot) -> u32
    ensures { result ≡ subplans_of slot.now.course }
{
    match &slot.course {
        Some(held) => held.course.as_arc().subplans(),
        None => 0,
    }
}

/// Writes its moves by rising key, from the place `from` on, into the room, as many as it holds, and
/// answers how many: 0 if there is no course.
pub(crate) fn course_moves(slot: &CourseSlot, from: usize, room: &mut [CMove]) -> usize
    ensures moves { room.new ≡ over (moves_of_slot slot.now.course from room.old) room.old }
    ensures count { result ≡ length (moves_of_slot slot.now.course from room.old) }
{
    match &slot.course {
        Some(held) => put_moves(held.course.as_arc(), from, room),
        None => 0,
    }
}

/// Writes the ranges of its old plan by rising key, likewise.
pub(crate) fn course_old(slot: &CourseSlot, from: usize, room: &mut [CLeg]) -> usize
    ensures ranges { room.new ≡ over (old_of_slot slot.now.course from room.old) room.old }
    ensures count { result ≡ length (old_of_slot slot.now.course from room.old) }
{
    match &slot.course {
        Some(held) => put_ranges(held.course.as_arc().old_plan().ranges(), from, room),
        None => 0,
    }
}

/// Writes the ranges of its new plan by rising key, likewise.
pub(crate) fn course_new(slot: &CourseSlot, from: usize, room: &mut [CLeg]) -> usize
    ensures ranges { room.new ≡ over (new_of_slot slot.now.course from room.old) room.old }
    ensures count { result ≡ length (new_of_slot slot.now.course from room.old) }
{
    match &slot.course {
        Some(held) => put_ranges(held.course.as_arc().new_plan().ranges(), from, room),
        None => 0,
    }
}

/// The partitions to which keys move in the sub-plan, in rising number, from the place `from` on. It
/// fails if an allocation fails.
fn receivers(alloc: Global, course: &Course, sub: u32, from: usize) -> Result<Vec<u32>, AllocError>
    ensures { IfOk result (λ numbers. numbers.items ≡ receivers_from course.now sub from) }
{
    let parts = course.receivers(alloc, sub)?;
    parts
        .iter()
        .skip(from)
        .map(|part| part.get())
        .collect(alloc)
}

/// Writes the partitions to which keys move in the sub-plan, in rising number, from the place `from` on,
/// into the room, as many as it holds, and answers how many: 0 if there is no course. It answers
/// `NO_COUNT` and writes nothing if an allocation fails.
pub(crate) fn course_receivers(slot: &CourseSlot, sub: u32, from: usize, room: &mut [u32]) -> usize
    ensures { GivesReceivers slot.now.course sub from room.old room.new result }
{
    let Some(held) = &slot.course else {
        return 0;
    };
    match receivers(held.alloc, held.course.as_arc(), sub, from) {
        Ok(numbers) => put_numbers(&numbers, room),
        Err(_) => NO_COUNT,
    }
}

/// The report that the course was issued. It fails if an allocation fails.
fn issue_of(alloc: Global, course: &Course) -> Result<Report, AllocError>
    ensures { IfOk result (λ report. report ≡ Issued course.now.number (plan_pair course.now.old course.now.new)) }
{
    let issue = Issue::new(alloc, course.old_plan(), course.new_plan())?;
    match Report::issued(course.number(), issue) {
        Some(report) => Ok(report),
        // The number is not 0.
        None => Err(AllocError),
    }
}

/// Writes the frame of the report that the course was issued into the room, if that holds it, and
/// answers how many bytes it has: 0 if there is no course, `NO_COUNT` if an allocation fails.
pub(crate) fn course_frame(slot: &CourseSlot, room: &mut [u8]) -> usize
    ensures { PutsIssue slot.now.course room.old room.new result }
{
    let Some(held) = &slot.course else {
        return 0;
    };
    match issue_of(held.alloc, held.course.as_arc()) {
        Ok(report) => put_report(held.alloc, Some(report), room),
        Err(_) => NO_COUNT,
    }
}

/// Drops the course.
pub(crate) fn close_course(slot: CourseSlot) {}

/// The slot of a course may cross threads.
pub fn course_may_cross(slot: &CourseSlot) {
    may_cross(slot)
}
