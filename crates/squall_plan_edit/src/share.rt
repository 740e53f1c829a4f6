//! The plan in which partitions share keys evenly.

ghost use Rattle.std.specs.Prelude.{◌≡◌, ℕ, ◌+◌, ◌-◌, ◌*◌, ◌/◌, ◌<◌, ◌≤◌, List, length, IfOk, Err};
ghost use Rattle.squall_key.specs.Keys.{top};
ghost use Rattle.squall_plan.specs.declared.range.PlanRange.{PlanRange};
ghost use Rattle.squall_plan.specs.Arranged.{range_limit};
ghost use Rattle.squall_plan_edit.specs.declared.fault.EditFault.TheVariants.{Many};
ghost use Rattle.squall_plan_edit.specs.Moved.{HasOwners};
ghost use Rattle.squall_plan_edit.specs.Legs.{IsLeg, AreLegs};
ghost use Rattle.squall_plan_edit.specs.Shares.{unit_of, units_below, share_at, share_of, share_end, end_of, owner_shared};

use crate::edit::{follow, plan_of};
use crate::fault::EditFault;
use squall_key::{Bound, PartId};
use squall_plan::{Plan, PlanRange};
use squall_span::Span;
use std::alloc::{AllocError, Global};

/// How many keys a unit has, whose keys are not parted.
fn unit_of(below: Bound) -> u64
    ensures value { result ≡ unit_of below }
    ensures some { 0 < result }
{
    if below.second() == 0 { 4294967296 } else { 1 }
}

/// How many partitions can share the keys below the bound: how many roots there are below it, or how
/// many keys if its second number is not 0.
pub fn shares_below(below: Bound) -> u64
    ensures { result ≡ units_below below }
{
    below.rank() / unit_of(below)
}

/// The share of a unit, counted from 0.
fn share_at(units: u64, shares: usize, unit: u64) -> usize
    requires unit { unit < units }
    requires some { 0 < shares }
    ensures value { result ≡ share_at units shares unit }
    ensures within { result < shares }
{
    (u128::from(unit) * shares as u128 / u128::from(units)) as usize
}

/// The share of the key at the bound, counted from 0.
fn share_of(below: Bound, shares: usize, at: Bound) -> usize
    requires { 0 < shares }
    ensures value { result ≡ share_of below shares at }
    ensures within { result < shares }
{
    if at >= below {
        return shares - 1;
    }
    share_at(shares_below(below), shares, at.rank() / unit_of(below))
}

/// How many units are in the shares up to the share, and in it.
fn share_end(units: u64, shares: usize, share: usize) -> u64
    requires share { share < shares }
    requires few { shares ≤ units }
    ensures value { result ≡ share_end units shares share }
    ensures within { result ≤ units }
{
    let reach = (share as u128 + 1) * u128::from(units);
    ((reach - 1) / shares as u128) as u64 + 1
}

/// The bound at which the share ends. The last share has all further keys.
fn end_of(below: Bound, shares: usize, share: usize) -> Bound
    requires share { share < shares }
    requires few { shares ≤ units_below below }
    ensures { result ≡ end_of below shares share }
{
    if share + 1 == shares {
        return Bound::TOP;
    }
    let end = share_end(shares_below(below), shares, share) * unit_of(below);
    Bound::of_rank(end).unwrap_or(Bound::TOP)
}

/// The rest of a share from the bound on.
fn share_from(below: Bound, parts: &[PartId], at: Bound) -> PlanRange
    requires some { 0 < length parts.now }
    requires few { length parts.now ≤ units_below below }
    requires at { at < top }
    ensures { IsLeg (owner_shared below parts.now) at result }
{
    let share = share_of(below, parts.len(), at);
    let part = parts[share];
    let hi = end_of(below, parts.len(), share);
    // The proof learns that the partition's number is at most 9999, and that no share ends past the top.
    let _known = (part.get(), hi.rank());
    match Span::new(at, hi) {
        Some(span) => PlanRange { span, part },
        None => unreachable!(),
    }
}

/// The ranges by rising key, neighbours of different partitions, that are the shares.
fn shares(alloc: Global, below: Bound, parts: &[PartId]) -> Result<Vec<PlanRange>, AllocError>
    requires some { 0 < length parts.now }
    requires few { length parts.now ≤ units_below below }
    ensures { IfOk result (λ legs. AreLegs (owner_shared below parts.now) 0 top legs.items) }
{
    let mut shares = Vec::new(alloc);
    let mut run = share_from(below, parts, Bound::of_rank(0).unwrap_or(Bound::TOP));
    while run.span.hi() < Bound::TOP {
        let leg = share_from(below, parts, run.span.hi());
        follow(&mut shares, &mut run, leg)?;
    }
    shares.push(run)?;
    Ok(shares)
}

/// The plan in which the partitions share the keys below the bound evenly, in the order of the
/// partitions. The last one also has all further keys. A partition that is listed twice has two shares.
///
/// Two shares differ by at most one root, or by one key if the second number of the bound is not 0:
/// [`shares_are_even`]. There may be at most as many shares as [`shares_below`] says.
///
/// `Many` if there is no such plan, since it would have more than 4096 ranges. `NoMemory` if an
/// allocation failed.
///
/// [`shares_are_even`]: crate::laws::shares_are_even
pub fn split(alloc: Global, below: Bound, parts: &[PartId]) -> Result<Plan, EditFault>
    requires some { 0 < length parts.now }
    requires few { length parts.now ≤ units_below below }
    ensures ok { IfOk result (λ plan. HasOwners (owner_shared below parts.now) plan) }
    ensures many { result ≡ Err Many → (plan : List PlanRange) → HasOwners (owner_shared below parts.now) plan → range_limit < length plan }
{
    let ranges = shares(alloc, below, parts)?;
    plan_of(alloc, &ranges)
}
