//! Plans in which keys go to other partitions, and plans in which partitions share keys.

mod example;

use squall_key::{Bound, PartId};
use squall_plan::{Plan, PlanRange};
use squall_plan_edit::{EditFault, moved, moved_in_turn, shares_below, split};
use squall_test_example::{OLD, holds, plan, span};
use std::alloc::{AllocError, Global};
use std::process::Abort;

/// Bounds of spans, each with the partition of its keys, and the plan of the example that differs so.
type Row = (&'static [(&'static str, &'static str, u32)], &'static str);

static ROWS: [Row; 5] = [
    (&[], "1 [0:0,3:0) 2 [3:0,5:0) 3 [5:0,9:0) 4 [9:0,end) "),
    // Within a range, and up to its end.
    (
        &[("1:0", "2:0", 7), ("8:0", "9:0", 7)],
        "1 [0:0,1:0) 7 [1:0,2:0) 1 [2:0,3:0) 2 [3:0,5:0) 3 [5:0,8:0) 7 [8:0,9:0) 4 [9:0,end) ",
    ),
    // Over several ranges, and joined to a neighbour.
    (&[("2:0", "6:0", 3)], "1 [0:0,2:0) 3 [2:0,9:0) 4 [9:0,end) "),
    // The last span that has a key says where it goes.
    (
        &[("3:0", "7:0", 8), ("4:0", "5:0", 2), ("4:0", "4:1", 1)],
        "1 [0:0,3:0) 8 [3:0,4:0) 1 [4:0,4:1) 2 [4:1,5:0) 8 [5:0,7:0) 3 [7:0,9:0) 4 [9:0,end) ",
    ),
    (&[("0:0", "end", 9999)], "9999 [0:0,end) "),
];

/// The ranges that a row gives away. None if an allocation fails.
fn given(alloc: Global, row: &Row) -> Option<Vec<PlanRange>> {
    let mut given = Vec::new(alloc);
    for (lo, hi, part) in row.0 {
        let range = PlanRange {
            span: span(lo, hi)?,
            part: PartId::new(*part)?,
        };
        given.push(range).ok()?;
    }
    Some(given)
}

/// Writes the ranges of the plan.
fn write_plan(plan: &Plan, out: &mut String) -> Result<(), AllocError> {
    for range in plan.ranges() {
        let PlanRange { span, part } = *range;
        write!(out, "{part} {span} ")?;
    }
    Ok(())
}

/// The plan that comes of an edit. There is no other fault than NoMemory.
fn made(rt: &impl Abort, plan: Result<Plan, EditFault>) -> Option<Plan> {
    match plan {
        Ok(plan) => Some(plan),
        Err(fault) => {
            holds!(rt; fault == EditFault::NoMemory);
            None
        }
    }
}

/// Whether the plan of the example differs as the row says. None if an allocation fails.
fn try_row(rt: &impl Abort, alloc: Global, row: &Row) -> Option<bool> {
    let old = plan(alloc, OLD)?;
    let given = given(alloc, row)?;
    let new = made(rt, moved_in_turn(alloc, &old, &given))?;
    let mut found = String::new(alloc);
    write_plan(&new, &mut found).ok()?;
    Some(found.as_str() == row.1)
}

/// Whether one span moves as the only range of a list does. None if an allocation fails.
fn try_one(rt: &impl Abort, alloc: Global) -> Option<bool> {
    let old = plan(alloc, OLD)?;
    let (span, part) = (span("2:0", "6:0")?, PartId::new(3)?);
    let new = made(rt, moved(alloc, &old, span, part))?;
    let listed = made(rt, moved_in_turn(alloc, &old, &[PlanRange { span, part }]))?;
    Some(new == listed && new.ranges().len() == 3)
}

#[test]
fn keys_go_elsewhere(rt: HostRuntime) {
    for row in &ROWS {
        holds!(&rt; try_row(&rt, rt.alloc(), row) == Some(true));
    }
    holds!(&rt; try_one(&rt, rt.alloc()) == Some(true));
}

#[test]
fn tolerant_moved(rt: HostRuntime) {
    let _moved = try_one(&rt, rt.alloc());
}

#[test]
fn tolerant_moved_in_turn(rt: HostRuntime) {
    let _moved = try_row(&rt, rt.alloc(), &ROWS[3]);
}

/// A bound, how many partitions can share what is below it, partitions, and the plan in which they do.
type Shared = (&'static str, u64, &'static [u32], &'static str);

static SHARED: [Shared; 6] = [
    ("6:0", 6, &[7], "7 [0:0,end) "),
    ("7:0", 7, &[1, 2, 3], "1 [0:0,3:0) 2 [3:0,5:0) 3 [5:0,end) "),
    // A share of one root each, and neighbours that are one partition.
    ("3:0", 3, &[4, 4, 5], "4 [0:0,2:0) 5 [2:0,end) "),
    // Roots are parted if the bound is within one.
    ("0:5", 5, &[2, 1], "2 [0:0,0:3) 1 [0:3,end) "),
    (
        "1:1",
        4294967297,
        &[1, 2],
        "1 [0:0,0:2147483649) 2 [0:2147483649,end) ",
    ),
    (
        "end",
        4294967295,
        &[1, 2],
        "1 [0:0,2147483648:0) 2 [2147483648:0,end) ",
    ),
];

/// The partitions of the numbers. None if an allocation fails.
fn parts(alloc: Global, numbers: &[u32]) -> Option<Vec<PartId>> {
    let mut parts = Vec::new(alloc);
    for number in numbers {
        parts.push(PartId::new(*number)?).ok()?;
    }
    Some(parts)
}

/// Whether partitions share keys as the row says. None if an allocation fails.
fn try_shared(rt: &impl Abort, alloc: Global, row: &Shared) -> Option<bool> {
    let below = Bound::read(row.0)?;
    let parts = parts(alloc, row.2)?;
    if shares_below(below) != row.1 || parts.is_empty() || parts.len() as u64 > row.1 {
        return Some(false);
    }
    let new = made(rt, split(alloc, below, &parts))?;
    let mut found = String::new(alloc);
    write_plan(&new, &mut found).ok()?;
    Some(found.as_str() == row.3)
}

#[test]
fn keys_are_shared(rt: HostRuntime) {
    for row in &SHARED {
        holds!(&rt; try_shared(&rt, rt.alloc(), row) == Some(true));
    }
}

#[test]
fn tolerant_split(rt: HostRuntime) {
    let _shared = try_shared(&rt, rt.alloc(), &SHARED[1]);
}
