//! The plan in which ranges of keys are at other partitions.

ghost use Rattle.std.specs.Prelude.{◌≡◌, ℕ, ◌<◌, ◌≤◌, ◌∷◌, ◌++◌, [], List, length, IfOk, OnOk, Err};
ghost use Rattle.squall_key.specs.Keys.{top};
ghost use Rattle.squall_plan.specs.declared.range.PlanRange.{PlanRange};
ghost use Rattle.squall_plan.specs.Ranges.{IsCanonical, AreRanges, owner_of};
ghost use Rattle.squall_plan.specs.Arranged.{range_limit, ended_at};
ghost use Rattle.squall_plan_edit.specs.declared.fault.EditFault.TheVariants.{Many};
ghost use Rattle.squall_plan_edit.specs.Moved.{owner_after, owner_moved, HasOwners};
ghost use Rattle.squall_plan_edit.specs.Legs.{IsHeld, IsLeg, AreLegs};

use crate::fault::EditFault;
use squall_key::{Bound, PartId, ended};
use squall_plan::laws::{canonical_is_plan, one_answer, one_list};
use squall_plan::{Plan, PlanFault, PlanRange};
use squall_span::Span;
use std::alloc::{AllocError, Global};

/// The range of the plan that has the key at the bound.
fn range_at(plan: &Plan, at: Bound) -> PlanRange
    requires { at < top }
    ensures { IsHeld (owner_of plan.now) at result }
{
    let ranges = plan.ranges();
    ranges[ended(ranges, at)]
}

/// What is left of the range from the bound on if another range takes its keys: that other range if
/// it has the key at the bound.
fn covered(held: PlanRange, given: &PlanRange, at: Bound) -> PlanRange
    ensures { (rs : List PlanRange) → IsHeld (owner_of rs) at held → IsHeld (owner_of (given.now ∷ rs)) at result }
{
    if given.span.hi() <= at {
        return held;
    }
    if given.span.lo() <= at {
        return *given;
    }
    let hi = held.span.hi().min(given.span.lo());
    let span = Span::new(at, hi).unwrap_or(held.span);
    PlanRange {
        span,
        part: held.part,
    }
}

/// A range whose keys from the bound on are at its partition once the ranges are given away.
fn held_at(old: &Plan, given: &[PlanRange], at: Bound) -> PlanRange
    requires { at < top }
    ensures { IsHeld (owner_after given.now old.now) at result }
{
    let mut held = range_at(old, at);
    for range in given {
        held = covered(held, range, at);
    }
    held
}

/// A range from the bound on whose keys are at its partition once the ranges are given away.
fn leg_at(old: &Plan, given: &[PlanRange], at: Bound) -> PlanRange
    requires { at < top }
    ensures { IsLeg (owner_after given.now old.now) at result }
{
    let held = held_at(old, given, at);
    // The proof learns that the partition's number is at most 9999.
    let _part = held.part.get();
    let span = Span::new(at, held.span.hi()).unwrap_or(held.span);
    PlanRange {
        span,
        part: held.part,
    }
}

/// The range with its end at another bound.
fn reaching(range: PlanRange, hi: Bound) -> PlanRange
    requires { range.span.lo < hi }
    ensures { result ≡ ended_at range hi }
{
    let span = Span::new(range.span.lo(), hi).unwrap_or(range.span);
    PlanRange {
        span,
        part: range.part,
    }
}

/// Adds a leg behind a run of keys of one partition, which follows all other legs. The run takes it up
/// if it has the same partition. Else the run is done, and the leg begins the next one.
pub(crate) fn follow(
    legs: &mut Vec<PlanRange>,
    run: &mut PlanRange,
    leg: PlanRange,
) -> Result<(), AllocError>
    requires { run.old.span.lo < leg.span.hi }
    ensures { OnOk result ((f : ℕ → ℕ) → AreLegs f 0 run.old.span.hi (legs.old.items ++ run.old ∷ []) → IsLeg f run.old.span.hi leg
        → (run.new.span.hi ≡ leg.span.hi) × AreLegs f 0 run.new.span.hi (legs.new.items ++ run.new ∷ [])) }
{
    if leg.part == run.part {
        *run = reaching(*run, leg.span.hi());
        return Ok(());
    }
    legs.push(*run)?;
    *run = leg;
    Ok(())
}

/// The ranges by rising key, neighbours of different partitions, that have each key at its partition
/// once the ranges are given away.
fn legs(alloc: Global, old: &Plan, given: &[PlanRange]) -> Result<Vec<PlanRange>, AllocError>
    ensures { IfOk result (λ legs. AreLegs (owner_after given.now old.now) 0 top legs.items) }
{
    let mut legs = Vec::new(alloc);
    let mut run = leg_at(old, given, Bound::of_rank(0).unwrap_or(Bound::TOP));
    while run.span.hi() < Bound::TOP {
        let leg = leg_at(old, given, run.span.hi());
        follow(&mut legs, &mut run, leg)?;
    }
    legs.push(run)?;
    Ok(legs)
}

/// The plan of ranges that are its canonical list, unless they are too many.
pub(crate) fn plan_of(alloc: Global, ranges: &[PlanRange]) -> Result<Plan, EditFault>
    requires canonical { IsCanonical ranges.now }
    requires ranges { AreRanges ranges.now }
    ensures ok { IfOk result (λ plan. plan ≡ ranges.now) }
    ensures many { result ≡ Err Many → range_limit < length ranges.now }
{
    // The proof learns that a canonical list is a plan, and that a plan has no other one: so only
    // two faults are left.
    canonical_is_plan();
    one_answer();
    one_list();
    match Plan::from_ranges(alloc, ranges) {
        Ok(plan) => Ok(plan),
        Err(PlanFault::TooMany) => Err(EditFault::Many),
        Err(PlanFault::NoMemory) => Err(EditFault::NoMemory),
        Err(_) => unreachable!(),
    }
}

/// The plan that is the old one, except that the keys of ranges are given to the partitions of these,
/// from the first range to the last: a key of several ranges goes to the partition of the last.
///
/// `Many` if there is no such plan, since it would have more than 4096 ranges. `NoMemory` if an
/// allocation failed. Each range of the old plan, and each end of a given one, costs a look at all
/// given ranges.
pub fn moved_in_turn(alloc: Global, old: &Plan, given: &[PlanRange]) -> Result<Plan, EditFault>
    ensures ok { IfOk result (λ plan. HasOwners (owner_after given.now old.now) plan) }
    ensures many { result ≡ Err Many → (plan : List PlanRange) → HasOwners (owner_after given.now old.now) plan → range_limit < length plan }
{
    let ranges = legs(alloc, old, given)?;
    plan_of(alloc, &ranges)
}

/// The plan that is the old one, except that the keys of the span are at the partition.
///
/// `Many` if there is no such plan, since it would have more than 4096 ranges. `NoMemory` if an
/// allocation failed.
pub fn moved(alloc: Global, old: &Plan, span: Span, part: PartId) -> Result<Plan, EditFault>
    ensures ok { IfOk result (λ plan. HasOwners (owner_moved span part old.now) plan) }
    ensures many { result ≡ Err Many → (plan : List PlanRange) → HasOwners (owner_moved span part old.now) plan → range_limit < length plan }
{
    moved_in_turn(alloc, old, &[PlanRange { span, part }])
}
