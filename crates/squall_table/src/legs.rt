//! Lists of legs that grow at their end.

ghost use Rattle.std.specs.Prelude.{◌≤◌, OnOk};
ghost use Rattle.squall_plan.specs.Ranges.{owner_of, IsCanonical};
ghost use Rattle.squall_table.specs.Legs.{Grows};

use crate::search::{end_of, place_of};
use crate::table::Leg;
use squall_key::{Bound, PartId};
use squall_span::Span;
use std::alloc::AllocError;

/// Adds the keys from `lo` on, below `hi`, at the end. They join the last leg if it has the same
/// partition. After an error the list may have changed.
pub(crate) fn push_leg(
    out: &mut Vec<Leg>,
    lo: Bound,
    hi: Bound,
    part: PartId,
) -> Result<(), AllocError>
    requires { lo ≤ hi }
    ensures { OnOk result (Grows (λ _. part) lo hi out.old.items out.new.items) }
{
    let Some(span) = Span::new(lo, hi) else {
        return Ok(());
    };
    let count = out.len();
    if count > 0 {
        let last = out[count - 1];
        if last.part == part {
            if let Some(span) = Span::new(last.span.lo(), hi) {
                out[count - 1] = Leg { span, part };
                return Ok(());
            }
        }
    }
    out.push(Leg { span, part })?;
    Ok(())
}

/// Adds the legs of a plan from `lo` to `hi` at the end. After an error the list may have changed.
pub(crate) fn copy_legs(
    out: &mut Vec<Leg>,
    legs: &[Leg],
    lo: Bound,
    hi: Bound,
) -> Result<(), AllocError>
    requires canonical { IsCanonical legs.now }
    requires order { lo ≤ hi }
    ensures { OnOk result (Grows (owner_of legs.now) lo hi out.old.items out.new.items) }
{
    if lo.rank() == hi.rank() {
        return Ok(());
    }
    let first = place_of(legs, lo);
    let last = end_of(legs, hi);
    let head = legs[first];
    if last <= first {
        push_leg(out, lo, hi, head.part)?;
        return Ok(());
    }
    let tail = legs[last];
    push_leg(out, lo, head.span.hi(), head.part)?;
    out.extend_from_slice(&legs[first + 1..last])?;
    push_leg(out, tail.span.lo(), hi, tail.part)?;
    Ok(())
}
