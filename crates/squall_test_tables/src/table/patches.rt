//! Patches of tables, each beside the table that is built of the same board.

ghost use Rattle.std.specs.Prelude.{◌<◌, ◌^◌, OnOk};
ghost use Rattle.squall_table.specs.Tables.{IsTable};
ghost use Rattle.squall_table.specs.Touched.{WasTable};

use crate::table::{Said, delta, has_rows, is_built};
use squall_board::{Board, Delta};
use squall_course::Course;
use squall_span::SpanSet;
use squall_table::{Meter, RouteTable, touched};
use squall_test_example::course;
use std::alloc::{AllocError, Global};
use std::test::Fail;

/// Partition 4 is done.
pub(crate) const DONE: Said = Said::Done {
    number: 1,
    sub: 0,
    part: 4,
};

/// The spans of the set as text.
fn spans(alloc: Global, set: &SpanSet) -> Result<String, Fail> {
    let mut out = String::new(alloc);
    for span in set.spans() {
        write!(out, "{span};")?;
    }
    Ok(out)
}

/// Whether the set has these spans.
fn has_spans(alloc: Global, set: &SpanSet, wanted: &str) -> Result<bool, Fail> {
    Ok(spans(alloc, set)?.as_str() == wanted)
}

/// Whether the delta touches these spans.
fn is_touched(alloc: Global, course: &Course, delta: &Delta, wanted: &str) -> Result<bool, Fail> {
    let set = touched(alloc, course, delta)?;
    has_spans(alloc, &set, wanted)
}

/// Whether the delta of the reports touches these spans.
fn touches(alloc: Global, course: &Course, said: &[Said], wanted: &str) -> Result<bool, Fail> {
    let delta = delta(alloc, said)?;
    is_touched(alloc, course, &delta, wanted)
}

#[test]
fn touched_keys(rt: HostRuntime) -> Result<(), Fail> {
    let course = course(rt.alloc()).ok_or("a course")?;
    let rows: [(&[Said], &str); 5] = [
        (&[Said::Opened { sub: 0 }], ""),
        (&[Said::Load("1:0", "2:5")], "[2:0,2:5);"),
        (
            &[Said::Load("2:6", "4:0"), Said::Load("0:0", "2:3")],
            "[2:0,2:3);[2:6,3:0);",
        ),
        (&[DONE, Said::Load("2:1", "2:2")], "[2:1,2:2);[6:0,9:0);"),
        (
            &[
                Said::Done {
                    number: 2,
                    sub: 0,
                    part: 4,
                },
                Said::Done {
                    number: 1,
                    sub: 1,
                    part: 4,
                },
            ],
            "",
        ),
    ];
    for (said, wanted) in rows {
        assert!(rt; touches(rt.alloc(), &course, said, wanted)?, "{wanted}");
    }
    Ok(())
}

/// Whether the table could be patched for the set, and what the meter has counted then.
fn metered(course: &Course, board: &Board, table: &mut RouteTable, set: &SpanSet) -> (bool, u64)
    requires { WasTable course.now board.now set.now table.old }
{
    let mut meter = Meter::new();
    let is_patched = table.patch(course, board, set, &mut meter).is_ok();
    (is_patched, meter.count())
}

/// Whether the table of the board could be patched for the delta, which the board takes, and what
/// the meter has counted then. The error comes if an allocation failed before.
pub(crate) fn patch(
    alloc: Global,
    course: &Course,
    board: &mut Board,
    table: &mut RouteTable,
    delta: &Delta,
) -> Result<(bool, u64), AllocError>
    requires { IsTable course.now board.old table.old }
{
    board.merge(delta)?;
    let set = touched(alloc, course, delta)?;
    Ok(metered(course, board, table, &set))
}

/// Whether the table is patched for the delta and has the rows then, and what the meter counts.
fn patches_to(
    alloc: Global,
    course: &Course,
    board: &mut Board,
    table: &mut RouteTable,
    delta: &Delta,
    rows: &str,
) -> Result<(bool, u64), Fail>
    requires { IsTable course.now board.old table.old }
{
    let (is_patched, count) = patch(alloc, course, board, table, delta)?;
    Ok((is_patched && has_rows(alloc, table, rows)?, count))
}

/// Whether the table of the course before any report is patched for the delta and has the rows then,
/// and what the meter counts.
fn patched(alloc: Global, course: &Course, delta: &Delta, rows: &str) -> Result<(bool, u64), Fail> {
    let mut board = Board::new(alloc);
    let mut table = RouteTable::build(alloc, course, &board)?;
    patches_to(alloc, course, &mut board, &mut table, delta, rows)
}

/// Whether the patched table of the course, and that which is built, has the rows, and the meter the
/// count.
fn is_patched(
    alloc: Global,
    course: &Course,
    delta: &Delta,
    rows: &str,
    count: u64,
) -> Result<bool, Fail> {
    let patched = patched(alloc, course, delta, rows)?;
    Ok(patched == (true, count) && is_built(alloc, course, delta, rows)?)
}

/// Whether the table of the example course is patched so for the delta.
fn is_patched_by(alloc: Global, delta: &Delta, rows: &str, count: u64) -> Result<bool, Fail> {
    let course = course(alloc).ok_or("a course")?;
    is_patched(alloc, &course, delta, rows, count)
}

/// Whether the table of the example course is patched so for the delta of what is said.
fn is_patched_for(alloc: Global, said: &[Said], rows: &str, count: u64) -> Result<bool, Fail> {
    let delta = delta(alloc, said)?;
    is_patched_by(alloc, &delta, rows, count)
}

#[test]
fn patches(rt: HostRuntime) -> Result<(), Fail> {
    let cases: [(&[Said], &str, u64); 5] = [
        // The move, and the leg that has its keys.
        (
            &[Said::Load("2:0", "2:7")],
            "1 [0:0,2:0);3 [2:0,2:7);1 [2:7,3:0);2 [3:0,5:0);3 [5:0,9:0);4 [9:0,end);",
            2,
        ),
        // The move, the leg that has its keys, and the leg that begins where it ends.
        (
            &[Said::Load("2:0", "3:0")],
            "1 [0:0,2:0);3 [2:0,3:0);2 [3:0,5:0);3 [5:0,9:0);4 [9:0,end);",
            3,
        ),
        (
            &[DONE],
            "1 [0:0,3:0);2 [3:0,5:0);3 [5:0,6:0);4 [6:0,end);",
            3,
        ),
        // The move and the leg share keys with both spans, and are counted once.
        (
            &[Said::Load("2:0", "2:3"), Said::Load("2:5", "2:7")],
            "1 [0:0,2:0);3 [2:0,2:3);1 [2:3,2:5);3 [2:5,2:7);1 [2:7,3:0);2 [3:0,5:0);3 [5:0,9:0);4 [9:0,end);",
            2,
        ),
        (
            &[Said::Done {
                number: 2,
                sub: 0,
                part: 4,
            }],
            "1 [0:0,3:0);2 [3:0,5:0);3 [5:0,9:0);4 [9:0,end);",
            0,
        ),
    ];
    for (said, rows, count) in cases {
        assert!(rt; is_patched_for(rt.alloc(), said, rows, count)?, "{rows}");
    }
    Ok(())
}

/// The board takes the delta, and its table is patched for it, by a meter that counts on.
fn patch_on(
    alloc: Global,
    course: &Course,
    board: &mut Board,
    table: &mut RouteTable,
    meter: &mut Meter,
    delta: &Delta,
) -> Result<(), AllocError>
    requires table { IsTable course.now board.old table.old }
    requires room { meter.old < 2 ^ 63 }
    ensures { OnOk result (IsTable course.now board.new table.new) }
{
    board.merge(delta)?;
    let set = touched(alloc, course, delta)?;
    table.patch(course, board, &set, meter)
}

/// What one meter has counted after the table was patched for the first delta, and after it was
/// patched for the second too.
fn patch_twice(
    alloc: Global,
    course: &Course,
    board: &mut Board,
    table: &mut RouteTable,
    first: &Delta,
    second: &Delta,
) -> Result<(u64, u64), Fail>
    requires { IsTable course.now board.old table.old }
{
    let mut meter = Meter::new();
    patch_on(alloc, course, board, table, &mut meter, first)?;
    let once = meter.count();
    if once > 1000 {
        return Err("a count".into());
    }
    patch_on(alloc, course, board, table, &mut meter, second)?;
    Ok((once, meter.count()))
}

/// Whether the table of the course is patched for both deltas, one after the other, and has the rows
/// then; and what one meter has counted after each.
fn patched_twice(
    alloc: Global,
    course: &Course,
    first: &Delta,
    second: &Delta,
    rows: &str,
) -> Result<(bool, (u64, u64)), Fail> {
    let mut board = Board::new(alloc);
    let mut table = RouteTable::build(alloc, course, &board)?;
    let counts = patch_twice(alloc, course, &mut board, &mut table, first, second)?;
    Ok((has_rows(alloc, &table, rows)?, counts))
}

/// The same for what is said.
fn patched_twice_for(
    alloc: Global,
    course: &Course,
    first: &Delta,
    second: Said,
    rows: &str,
) -> Result<(bool, (u64, u64)), Fail> {
    let second = delta(alloc, &[second])?;
    patched_twice(alloc, course, first, &second, rows)
}

#[test]
fn one_meter_counts_on(rt: HostRuntime) -> Result<(), Fail> {
    let course = course(rt.alloc()).ok_or("a course")?;
    let first = delta(rt.alloc(), &[Said::Load("2:0", "3:0")])?;
    let rows = "1 [0:0,2:0);3 [2:0,3:0);2 [3:0,5:0);3 [5:0,6:0);4 [6:0,end);";
    let patched = patched_twice_for(rt.alloc(), &course, &first, DONE, rows)?;
    assert!(rt; patched == (true, (3, 6)));
    Ok(())
}
