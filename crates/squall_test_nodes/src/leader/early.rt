//! Courses that end early: where they leave the keys.

use squall_course::Course;
use squall_key::Bound;
use squall_leader::LeftFault;
use squall_leader::left::left;
use squall_plan::{Plan, PlanRange};
use squall_span::{Span, SpanSet};
use squall_test_example::{course, holds, span};
use std::alloc::{AllocError, Global};
use std::process::Abort;

/// The spans of the keys that are loaded, as their bounds, and the plan of where the course leaves all.
type Row = (&'static [(&'static str, &'static str)], &'static str);

static ROWS: [Row; 5] = [
    (&[], "1 [0:0,3:0) 2 [3:0,5:0) 3 [5:0,9:0) 4 [9:0,end) "),
    (
        &[("2:0", "2:5")],
        "1 [0:0,2:0) 3 [2:0,2:5) 1 [2:5,3:0) 2 [3:0,5:0) 3 [5:0,9:0) 4 [9:0,end) ",
    ),
    (
        &[("2:7", "2:8"), ("8:0", "9:0")],
        "1 [0:0,2:7) 3 [2:7,2:8) 1 [2:8,3:0) 2 [3:0,5:0) 3 [5:0,8:0) 4 [8:0,end) ",
    ),
    (
        &[("2:0", "3:0"), ("6:0", "9:0")],
        "1 [0:0,2:0) 3 [2:0,3:0) 2 [3:0,5:0) 3 [5:0,6:0) 4 [6:0,end) ",
    ),
    // Keys that do not move are where they were.
    (
        &[("0:0", "1:0"), ("4:0", "6:0")],
        "1 [0:0,3:0) 2 [3:0,5:0) 3 [5:0,9:0) 4 [9:0,end) ",
    ),
];

/// The set of these spans. None if an allocation fails.
fn set_of(alloc: Global, bounds: &[(&str, &str)]) -> Option<SpanSet> {
    let mut set = SpanSet::empty(alloc);
    for (lo, hi) in bounds {
        set.insert(span(lo, hi)?).ok()?;
    }
    Some(set)
}

/// Writes the ranges of the plan.
fn write_plan(plan: &Plan, out: &mut String) -> Result<(), AllocError> {
    for range in plan.ranges() {
        let PlanRange { span, part } = *range;
        write!(out, "{part} {span} ")?;
    }
    Ok(())
}

/// Writes where the course leaves the keys if these are loaded. There is no other fault than NoMemory.
fn write_left(
    rt: &impl Abort,
    alloc: Global,
    course: &Course,
    loaded: &SpanSet,
    out: &mut String,
) -> Option<()> {
    match left(alloc, course, loaded) {
        Ok(plan) => write_plan(&plan, out).ok(),
        Err(fault) => {
            holds!(rt; matches!(fault, LeftFault::NoMemory));
            None
        }
    }
}

/// Whether the course leaves the keys as the row says. None if an allocation fails.
fn leaves(rt: &impl Abort, alloc: Global, course: &Course, row: &Row) -> Option<bool> {
    let loaded = set_of(alloc, row.0)?;
    let mut found = String::new(alloc);
    write_left(rt, alloc, course, &loaded, &mut found)?;
    Some(found.as_str() == row.1)
}

/// The same of the course from the old plan to the new one.
fn try_row(rt: &impl Abort, alloc: Global, row: &Row) -> Option<bool> {
    let course = course(alloc)?;
    leaves(rt, alloc, &course, row)
}

#[test]
fn keys_are_left_somewhere(rt: HostRuntime) {
    for row in &ROWS {
        holds!(&rt; try_row(&rt, rt.alloc(), row) == Some(true));
    }
}

#[test]
fn tolerant_left(rt: HostRuntime) {
    for row in &ROWS {
        let _left = try_row(&rt, rt.alloc(), row);
    }
}

/// Each second key from 2:0 on, so many. None if an allocation fails.
fn scattered(alloc: Global, count: u64) -> Option<SpanSet> {
    let mut set = SpanSet::empty(alloc);
    let first = span("2:0", "2:1")?.lo();
    for i in 0..count {
        let at = first.rank().checked_add(i.checked_mul(2)?)?;
        let (lo, hi) = (Bound::of_rank(at)?, Bound::of_rank(at.checked_add(1)?)?);
        set.insert(Span::new(lo, hi)?).ok()?;
    }
    Some(set)
}

/// Whether the plan of where the course leaves the keys has too many ranges, if each second one of so
/// many keys is loaded. None if an allocation fails.
fn is_too_much(alloc: Global, course: &Course, count: u64) -> Option<bool> {
    let loaded = scattered(alloc, count)?;
    match left(alloc, course, &loaded) {
        Ok(_) => Some(false),
        Err(LeftFault::TooMany) => Some(true),
        Err(LeftFault::NoMemory) => None,
    }
}

/// With 2046 keys there are 4096 ranges: one before them, two of each key, and three behind them.
#[test]
fn plans_have_at_most_4096_ranges(rt: HostRuntime) {
    let course = course(rt.alloc()).expect(&rt, "a course");
    holds!(&rt; is_too_much(rt.alloc(), &course, 2046) == Some(false));
    holds!(&rt; is_too_much(rt.alloc(), &course, 2047) == Some(true));
}
