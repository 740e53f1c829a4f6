//! If an allocation fails, a table that is patched in place and its meter are unchanged.

ghost use Rattle.squall_table.specs.Tables.{IsTable};

use crate::table::legs::count;
use crate::table::patches::patch;
use squall_board::{Board, Delta};
use squall_course::Course;
use squall_table::RouteTable;
use squall_test_example::{course, load, take};
use std::alloc::{AllocError, Global};
use std::process::Abort;

/// Takes the load. None if an allocation fails.
fn take_load(delta: &mut Delta) -> Option<()> {
    take(delta, load("2:0", "2:7"))
}

/// The delta of a load. None if an allocation fails.
fn small_delta(alloc: Global) -> Option<Delta> {
    let mut delta = Board::new(alloc);
    take_load(&mut delta)?;
    Some(delta)
}

/// Whether the table of the board was patched for the delta, how many legs it has then, and what
/// its meter has counted. The error comes if an allocation failed before.
fn patch_and_count(
    alloc: Global,
    course: &Course,
    board: &mut Board,
    table: &mut RouteTable,
    delta: &Delta,
) -> Result<(bool, usize, u64), AllocError>
    requires { IsTable course.now board.old table.old }
{
    let (is_patched, taken) = patch(alloc, course, board, table, delta)?;
    Ok((is_patched, count(table.entries()), taken))
}

/// Whether a table was patched for the delta, how many legs it has then, and what its meter has
/// counted. The error comes if an allocation failed before.
fn patched(
    alloc: Global,
    course: &Course,
    delta: &Delta,
) -> Result<(bool, usize, u64), AllocError> {
    let mut board = Board::new(alloc);
    let mut table = RouteTable::build(alloc, course, &board)?;
    patch_and_count(alloc, course, &mut board, &mut table, delta)
}

/// The table is patched for the delta, or is unchanged.
fn patches_or_not(rt: &impl Abort, alloc: Global, course: &Course, delta: &Delta) {
    if let Ok((is_patched, legs, count)) = patched(alloc, course, delta) {
        assert!(rt; legs == if is_patched { 6 } else { 4 });
        assert!(rt; count == if is_patched { 2 } else { 0 });
    }
}

/// The same, if the delta can be made.
fn patches_with(rt: &impl Abort, alloc: Global, course: &Course) {
    if let Some(delta) = small_delta(alloc) {
        patches_or_not(rt, alloc, course, &delta);
    }
}

#[test]
fn tolerant_patch(rt: HostRuntime) {
    if let Some(course) = course(rt.alloc()) {
        patches_with(&rt, rt.alloc(), &course);
    }
}
