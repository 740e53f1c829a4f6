//! Tests of route tables: their rows were worked out by hand. What a router does with its table, and that a refused
//! allocation changes nothing, the tests in C show.

mod example;
mod legs;
mod patches;
mod tolerant;

use squall_board::{Board, Delta};
use squall_course::Course;
use squall_key::Key;
use squall_report::Report;
use squall_table::{Leg, Legs, RouteTable};
use squall_test_example::{course, load};
use std::alloc::Global;
use std::test::Fail;

/// What a report says, in sub-plan 0 of number 1 if it says no other.
#[derive(Clone, Copy)]
pub(crate) enum Said {
    /// Partition 3 has loaded the keys from a bound to another.
    Load(&'static str, &'static str),
    /// The partition is done in the sub-plan of the number.
    Done { number: u32, sub: u32, part: u32 },
    /// The sub-plan is opened, and all those before it.
    Opened { sub: u32 },
}

/// The report of what is said.
pub(crate) fn report(said: Said) -> Option<Report> {
    match said {
        Said::Load(lo, hi) => load(lo, hi),
        Said::Done { number, sub, part } => Report::done(number, sub, part),
        Said::Opened { sub } => Report::opened(1, sub),
    }
}

/// Takes the report of what is said.
fn take(delta: &mut Delta, said: Said) -> Result<(), Fail> {
    let report = report(said).ok_or("report")?;
    delta.take(&report)?;
    Ok(())
}

/// The delta of what is said.
///
/// A proof of a test costs more with each value that the test owns, on each way out of it. So a
/// function here makes one value, and lends it to another that looks at it or makes the next.
pub(crate) fn delta(alloc: Global, said: &[Said]) -> Result<Delta, Fail> {
    let mut delta = Board::new(alloc);
    for one in said {
        take(&mut delta, *one)?;
    }
    Ok(delta)
}

/// Writes a leg: its partition and its span.
fn write_leg(out: &mut String, leg: Leg) -> Result<(), Fail> {
    let part = leg.part;
    let span = leg.span;
    write!(out, "{part} {span};")?;
    Ok(())
}

/// Legs that a table lends as text: each its partition and its span.
fn shown_each(alloc: Global, legs: Legs) -> Result<String, Fail> {
    let mut out = String::new(alloc);
    for leg in legs {
        write_leg(&mut out, leg)?;
    }
    Ok(out)
}

/// Whether the table has the rows.
pub(crate) fn has_rows(alloc: Global, table: &RouteTable, rows: &str) -> Result<bool, Fail> {
    Ok(shown_each(alloc, table.entries())?.as_str() == rows)
}

/// Whether the table of the course and the board has the rows.
pub(crate) fn is_built(
    alloc: Global,
    course: &Course,
    board: &Board,
    rows: &str,
) -> Result<bool, Fail> {
    let table = RouteTable::build(alloc, course, board)?;
    has_rows(alloc, &table, rows)
}

/// The table of the course after one load.
fn table_after_a_load(alloc: Global, course: &Course) -> Result<RouteTable, Fail> {
    let board = delta(alloc, &[Said::Load("2:0", "2:7")])?;
    Ok(RouteTable::build(alloc, course, &board)?)
}

/// The table of the example course after one load.
fn table_of_a_load(alloc: Global) -> Result<RouteTable, Fail> {
    let course = course(alloc).ok_or("a course")?;
    table_after_a_load(alloc, &course)
}

/// Whether the table's legs from that of a key on are these.
fn is_from(alloc: Global, table: &RouteTable, key: &str, rows: &str) -> Result<bool, Fail> {
    let key = Key::read(key).ok_or("a key")?;
    Ok(shown_each(alloc, table.entries_from(key))?.as_str() == rows)
}

#[test]
fn legs_from_a_key_on(rt: HostRuntime) -> Result<(), Fail> {
    let table = table_of_a_load(rt.alloc())?;
    let all = "1 [0:0,2:0);3 [2:0,2:7);1 [2:7,3:0);2 [3:0,5:0);3 [5:0,9:0);4 [9:0,end);";
    let behind = "3 [2:0,2:7);1 [2:7,3:0);2 [3:0,5:0);3 [5:0,9:0);4 [9:0,end);";
    let cases: [(&str, &str); 8] = [
        // The first key, and the last of its leg.
        ("0:0", all),
        ("1:4294967295", all),
        // A leg comes whole, whichever of its keys is asked for.
        ("2:0", behind),
        ("2:3", behind),
        ("2:6", behind),
        ("3:0", "2 [3:0,5:0);3 [5:0,9:0);4 [9:0,end);"),
        ("9:0", "4 [9:0,end);"),
        ("4294967294:4294967295", "4 [9:0,end);"),
    ];
    for (key, rows) in cases {
        assert!(rt; is_from(rt.alloc(), &table, key, rows)?, "{key}");
    }
    Ok(())
}
