//! Where a course leaves the keys if it ends early.

ghost use Rattle.std.specs.Prelude.{◌≡◌, ℕ, ◌<◌, ◌≤◌, List, length, IfOk, Err};
ghost use Rattle.squall_key.specs.Keys.{top};
ghost use Rattle.squall_span.specs.Spans.{has};
ghost use Rattle.squall_plan.specs.declared.range.PlanRange.{PlanRange};
ghost use Rattle.squall_plan.specs.Ranges.{IsCanonical, AreRanges, owner_of};
ghost use Rattle.squall_plan.specs.Arranged.{range_limit, ended_at};
ghost use Rattle.squall_leader.specs.declared.fault.LeftFault.TheVariants.{TooMany};
ghost use Rattle.squall_leader.specs.Left.{left_at, AreLeft};
ghost use Rattle.squall_leader.specs.Leaving.{side_owner, IsHeld, IsLeg, AreLegs};

use crate::fault::LeftFault;
use squall_course::Course;
use squall_key::{Bound, ended};
use squall_plan::laws::{canonical_is_plan, one_answer, one_list};
use squall_plan::{Plan, PlanFault, PlanRange};
use squall_span::{Span, SpanSet};
use std::alloc::{AllocError, Global};

/// Whether the key at the bound is in the set, and a bound up to which that stays so.
fn stretch(set: &SpanSet, at: Bound) -> (bool, Bound)
    requires { at < top }
    ensures keys { (k : ℕ) → at ≤ k → k < result.1 → has set.now k ≡ result.0 }
    ensures beyond { at < result.1 }
{
    let Some(span) = set.first_beyond(at) else {
        return (false, Bound::TOP);
    };
    if at < span.lo() {
        (false, span.lo())
    } else {
        (true, span.hi())
    }
}

/// The range of the plan that has the key at the bound.
fn range_at(plan: &Plan, at: Bound) -> PlanRange
    requires { at < top }
    ensures { IsHeld (owner_of plan.now) at result }
{
    let ranges = plan.ranges();
    ranges[ended(ranges, at)]
}

/// The range of the course's new plan that has the key at the bound, or else of its old one.
fn side_at(course: &Course, is_new: bool, at: Bound) -> PlanRange
    requires { at < top }
    ensures { IsHeld (side_owner course.now is_new) at result }
{
    if is_new {
        range_at(course.new_plan(), at)
    } else {
        range_at(course.old_plan(), at)
    }
}

/// A range from the bound on whose keys the course leaves at its partition, if the keys of the set
/// are loaded.
fn leg_at(course: &Course, loaded: &SpanSet, at: Bound) -> PlanRange
    requires { at < top }
    ensures { IsLeg (left_at course.now loaded.now) at result }
{
    let (is_loaded, until) = stretch(loaded, at);
    let range = side_at(course, is_loaded, at);
    // The proof learns that the partition's number is at most 9999.
    let _part = range.part.get();
    let hi = range.span.hi().min(until);
    let span = Span::new(at, hi).unwrap_or(range.span);
    PlanRange {
        span,
        part: range.part,
    }
}

/// The range with its end at another bound.
fn reaching(range: PlanRange, hi: Bound) -> PlanRange
    requires { range.span.lo < hi }
    ensures { result ≡ ended_at range hi }
{
    let span = Span::new(range.span.lo(), hi).unwrap_or(range.span);
    PlanRange {
        span,
        part: range.part,
    }
}

/// The ranges by rising key, neighbours of different partitions, that have each key where the course
/// leaves it if the keys of the set are loaded.
fn legs(alloc: Global, course: &Course, loaded: &SpanSet) -> Result<Vec<PlanRange>, AllocError>
    ensures { IfOk result (λ legs. AreLegs (left_at course.now loaded.now) 0 top legs.items) }
{
    let mut legs = Vec::new(alloc);
    let mut run = leg_at(course, loaded, Bound::of_rank(0).unwrap_or(Bound::TOP));
    while run.span.hi() < Bound::TOP {
        let leg = leg_at(course, loaded, run.span.hi());
        if leg.part == run.part {
            run = reaching(run, leg.span.hi());
        } else {
            legs.push(run)?;
            run = leg;
        }
    }
    legs.push(run)?;
    Ok(legs)
}

/// The plan of ranges that are its canonical list, unless they are too many.
fn plan_of(alloc: Global, ranges: &[PlanRange]) -> Result<Plan, LeftFault>
    requires canonical { IsCanonical ranges.now }
    requires ranges { AreRanges ranges.now }
    ensures ok { IfOk result (λ plan. plan ≡ ranges.now) }
    ensures many { result ≡ Err TooMany → range_limit < length ranges.now }
{
    // The proof learns that a canonical list is a plan, and that a plan has no other one: so only
    // two faults are left.
    canonical_is_plan();
    one_answer();
    one_list();
    match Plan::from_ranges(alloc, ranges) {
        Ok(plan) => Ok(plan),
        Err(PlanFault::TooMany) => Err(LeftFault::TooMany),
        Err(PlanFault::NoMemory) => Err(LeftFault::NoMemory),
        Err(_) => unreachable!(),
    }
}

/// The plan that has each key where the course leaves it if it ends early. A key of the set `loaded`
/// is at its new partition, and any other at its old one.
///
/// `TooMany` if there is no such plan, since it would have more than 4096 ranges. `NoMemory` if an
/// allocation failed. All ranges are made before they are counted: there are at most as many as both
/// plans have ranges and the set has ends of spans. Each takes a binary search in a plan and in the set.
pub fn left(alloc: Global, course: &Course, loaded: &SpanSet) -> Result<Plan, LeftFault>
    ensures ok { IfOk result (λ plan. AreLeft course.now loaded.now plan) }
    ensures many { result ≡ Err TooMany → (plan : List PlanRange) → AreLeft course.now loaded.now plan → range_limit < length plan }
{
    let ranges = legs(alloc, course, loaded)?;
    plan_of(alloc, &ranges)
}
