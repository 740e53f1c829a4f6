//! The ranges of a plan in a list.

ghost use Rattle.std.specs.Prelude.{◌≡◌};
ghost use Rattle.squall_wire.specs.Limits.{range_in_range, range_in_order, after_range, plan_start};
ghost use Rattle.squall_wire.specs.Reading.{Gives, checked, range_at};
ghost use Rattle.squall_wire.specs.Views.{range_of};

use crate::fault::WireFault;
use crate::reading::field::{rank_at, word_at};
use crate::reading::item::Item;
use squall_key::{Bound, PartId};
use squall_plan::PlanRange;
use squall_span::Span;
use std::alloc::Global;
use std::marker::Model;

/// The bound at which the next range begins, the partition of the range before it, and how many
/// ranges are left.
#[derive(Clone, Copy)]
pub(crate) struct RangePoint {
    from: Bound,
    before: Option<u32>,
    left: u32,
}

impl Model for RangePoint {
    ghost use Rattle.squall_wire.specs.Limits.{PlanPoint};

    ghost Value = { PlanPoint };

    ghost view = { λ p. record { from = p.from; before = p.before; left = p.left } };

    ghost inverse = { λ v. record { from = v.from; before = v.before; left = v.left } };
}

impl RangePoint {
    /// The point before the first of `count` ranges.
    pub(crate) fn start(count: u32) -> RangePoint
        ensures { result ≡ plan_start count }
    {
        RangePoint {
            // There is a bound of rank 0.
            from: Bound::of_rank(0).unwrap_or(Bound::TOP),
            before: None,
            left: count,
        }
    }

    /// The range from here to a bound, of a partition.
    fn range(self, hi: u64, part: u32) -> Result<PlanRange, WireFault>
        ensures { Gives (λ r. r) result
            (checked (range_in_range self (range_of self hi part)) (range_in_order self (range_of self hi part)) (range_of self hi part)) }
    {
        let to = Bound::of_rank(hi).ok_or(WireFault::Range)?;
        let owner = PartId::new(part).ok_or(WireFault::Range)?;
        if self.left == 1 && to != Bound::TOP {
            return Err(WireFault::Range);
        }
        if self.before == Some(part) {
            return Err(WireFault::Order);
        }
        let span = Span::new(self.from, to).ok_or(WireFault::Order)?;
        Ok(PlanRange { span, part: owner })
    }
}

/// The point is the bound at which the next range begins, the partition that it must not have, and
/// how many ranges are left.
impl Item for PlanRange {
    type Point = RangePoint;

    ghost read_at = { range_at };

    ghost next = { after_range };

    #[tactic(auto, unfolding(crate::specs::Reading::range_at))]
    fn read(
        _alloc: Global,
        point: RangePoint,
        bytes: &[u8],
    ) -> Result<(PlanRange, &[u8]), WireFault> {
        let (hi, rest) = rank_at(bytes)?;
        let (part, rest) = word_at(rest)?;
        let range = point.range(hi, part)?;
        Ok((range, rest))
    }

    fn after(&self, point: RangePoint) -> RangePoint {
        RangePoint {
            from: self.span.hi(),
            before: Some(self.part.get()),
            left: point.left.saturating_sub(1),
        }
    }
}
