//! Texts: how far a router's newest course has come, the picture of it, the plans of a course, and the plan of
//! where a course leaves the keys.

ghost use Rattle.std.specs.Prelude.{◌≡◌, IfOk, length, string_bytes};
ghost use Rattle.squall_board.specs.Boards.{says};
ghost use Rattle.squall_c_values.specs.ReportFrames.{room_with};
ghost use Rattle.squall_c.specs.Telling.{AreLinesOf, IsStatusText, IsPicture, PutsStatus, PutsPicture};
ghost use Rattle.squall_c.specs.Telling.{IsPlanText, PutsText, PutsOldText, PutsNewText, PutsLeft, PutsLeftText};

use crate::courses::CourseSlot;
use crate::router::{RouterSlot, Station};
use squall_board::Board;
use squall_c_leaders::LeftTextFault;
use squall_c_values::{CSpan, NO_COUNT};
use squall_course::Course;
use squall_picture::picture;
use squall_plan::{Plan, plan_text};
use squall_status::{CourseStatus, Shown, add_status};
use std::alloc::{AllocError, Global};

/// Writes the bytes into the room, if that holds them, and answers how many they are.
fn put_bytes(bytes: &[u8], room: &mut [u8]) -> usize
    ensures room { room.new ≡ room_with bytes.now room.old }
    ensures count { result ≡ length bytes.now }
{
    let count = bytes.len();
    if count <= room.len() {
        room[..count].copy_from_slice(bytes);
    }
    count
}

/// The lines of how far the course has come, as the board says. It fails only if an allocation fails.
fn lines_of(alloc: Global, course: &Course, board: &Board) -> Result<String, AllocError>
    ensures { IfOk result (λ text. AreLinesOf course.now (says board.now) (string_bytes text)) }
{
    let status = CourseStatus::of(alloc, course, board)?;
    let mut text = String::new(alloc);
    add_status(&status, Shown::EachMove, &mut text)?;
    Ok(text)
}

/// The lines of how far the router's newest course has come. It fails only if an allocation fails.
fn status_of(station: &Station) -> Result<String, AllocError>
    ensures { IfOk result (λ text. IsStatusText station.now.router (string_bytes text)) }
{
    lines_of(
        station.alloc,
        station.router.course(),
        station.router.board(),
    )
}

/// The picture of the router's newest course. It fails only if an allocation fails.
fn picture_of(station: &Station) -> Result<String, AllocError>
    ensures { IfOk result (λ text. IsPicture station.now.router (string_bytes text)) }
{
    picture(
        station.alloc,
        station.router.course(),
        station.router.board(),
    )
}

/// Writes the lines of how far the router's newest course has come into the room, if that holds them, and
/// answers how many bytes they have: 0 if there is no router, `NO_COUNT` if an allocation fails.
pub(crate) fn status_text(slot: &RouterSlot, room: &mut [u8]) -> usize
    ensures { PutsStatus slot.now.station room.old room.new result }
{
    let Some(station) = &slot.station else {
        return 0;
    };
    match status_of(station) {
        Ok(text) => put_bytes(text.as_bytes(), room),
        Err(_) => NO_COUNT,
    }
}

/// Writes the picture of the router's newest course into the room, if that holds it, and answers how many
/// bytes it has: 0 if there is no router, `NO_COUNT` if an allocation fails.
pub(crate) fn router_picture(slot: &RouterSlot, room: &mut [u8]) -> usize
    ensures { PutsPicture slot.now.station room.old room.new result }
{
    let Some(station) = &slot.station else {
        return 0;
    };
    match picture_of(station) {
        Ok(text) => put_bytes(text.as_bytes(), room),
        Err(_) => NO_COUNT,
    }
}

/// Writes the text of the plan into the room, if that holds it, and answers how many bytes it has:
/// `NO_COUNT` if an allocation fails.
fn put_plan(alloc: Global, plan: &Plan, room: &mut [u8]) -> usize
    ensures { PutsText (IsPlanText plan.now) room.old room.new result }
{
    match plan_text(alloc, plan) {
        Ok(text) => put_bytes(text.as_bytes(), room),
        Err(_) => NO_COUNT,
    }
}

/// Writes the text of the course's old plan into the room, if that holds it, and answers how many bytes
/// it has: 0 if there is no course, `NO_COUNT` if an allocation fails.
pub(crate) fn old_text(slot: &CourseSlot, room: &mut [u8]) -> usize
    ensures { PutsOldText slot.now.course room.old room.new result }
{
    match &slot.course {
        Some(held) => put_plan(held.alloc, held.course.as_arc().old_plan(), room),
        None => 0,
    }
}

/// The same of its new plan.
pub(crate) fn new_text(slot: &CourseSlot, room: &mut [u8]) -> usize
    ensures { PutsNewText slot.now.course room.old room.new result }
{
    match &slot.course {
        Some(held) => put_plan(held.alloc, held.course.as_arc().new_plan(), room),
        None => 0,
    }
}

/// Writes the text of the plan of where the course leaves the keys into the room, if that holds it. The
/// keys of the spans are loaded. Answers how many bytes the text has. 0 if a span has no key or ends above
/// all keys, or if the plan would have too many ranges. `NO_COUNT` if an allocation fails.
fn put_left(alloc: Global, course: &Course, loaded: &[CSpan], room: &mut [u8]) -> usize
    ensures { PutsLeft course.now loaded.now room.old room.new result }
{
    match squall_c_leaders::left_text(alloc, course, loaded) {
        Ok(text) => put_bytes(text.as_bytes(), room),
        Err(LeftTextFault::NoMemory) => NO_COUNT,
        Err(_) => 0,
    }
}

/// The same of the slot's course, and 0 if there is none.
pub(crate) fn left_text(slot: &CourseSlot, loaded: &[CSpan], room: &mut [u8]) -> usize
    ensures { PutsLeftText slot.now.course loaded.now room.old room.new result }
{
    match &slot.course {
        Some(held) => put_left(held.alloc, held.course.as_arc(), loaded, room),
        None => 0,
    }
}
