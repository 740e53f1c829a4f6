//! Plans.

ghost use Rattle.std.specs.Prelude.{Ok};
ghost use Rattle.squall_wire.specs.Limits.{FitsPlan};
ghost use Rattle.squall_wire.specs.Reading.{Gives, plan_at};

use crate::fault::WireFault;
use crate::reading::field::word_at;
use crate::reading::list::many;
use crate::reading::range::RangePoint;
use squall_plan::laws::one_list;
use squall_plan::{Plan, PlanRange, RANGE_LIMIT};
use std::alloc::Global;

/// The ranges of a plan that begin the bytes, and the bytes after them.
#[tactic(auto, unfolding(crate::specs::Reading::plan_at))]
fn ranges_of(alloc: Global, bytes: &[u8]) -> Result<(Vec<PlanRange>, &[u8]), WireFault>
    ensures { Gives (λ x. (x.0.items, x.1.now)) result (plan_at bytes.now) }
{
    let (count, rest) = word_at(bytes)?;
    if count < 1 || count as usize > RANGE_LIMIT {
        return Err(WireFault::Range);
    }
    many(alloc, count, RangePoint::start(count), rest)
}

/// The plan of ranges that are in the order of a plan.
fn plan_from(alloc: Global, ranges: &[PlanRange]) -> Result<Plan, WireFault>
    requires { FitsPlan ranges.now }
    ensures { Gives (λ p. p) result (Ok ranges.now) }
{
    one_list();
    match Plan::from_ranges(alloc, ranges) {
        Ok(plan) => Ok(plan),
        // The ranges are a plan, so only an allocation can fail.
        Err(_) => Err(WireFault::NoMemory),
    }
}

/// The plan that begins the bytes, and the bytes after it.
pub(crate) fn plan_of(alloc: Global, bytes: &[u8]) -> Result<(Plan, &[u8]), WireFault>
    ensures { Gives (λ x. (x.0, x.1.now)) result (plan_at bytes.now) }
{
    let (ranges, rest) = ranges_of(alloc, bytes)?;
    let plan = plan_from(alloc, &ranges)?;
    Ok((plan, rest))
}
