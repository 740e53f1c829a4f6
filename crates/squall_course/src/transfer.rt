//! What ranges of one plan share with those of another.

ghost use Rattle.std.specs.Prelude.{◌≡◌, ◌++◌, ℕ, ◌≤◌, IfOk, OnOk};
ghost use Rattle.squall_plan.specs.declared.range.PlanRange.{PlanRange};
ghost use Rattle.squall_course.specs.Moves.{transfer, listed, row, transfers};
ghost use Rattle.squall_course.specs.Steps.{Follow};

use squall_key::PartId;
use squall_plan::PlanRange;
use squall_span::Span;
use std::alloc::{AllocError, Global};

/// The keys of `span` go from `source` to `dest`, in a sub-plan that is not yet known.
#[derive(Clone, Copy)]
pub(crate) struct Transfer {
    pub(crate) span: Span,
    pub(crate) source: PartId,
    pub(crate) dest: PartId,
}

/// The transfer from one range to another. None if they share no key, or have the same partition.
fn between(range: &PlanRange, other: &PlanRange) -> Option<Transfer>
    ensures { result ≡ transfer range.now other.now }
{
    let lo = range.span.lo().max(other.span.lo());
    let hi = range.span.hi().min(other.span.hi());
    let span = Span::new(lo, hi)?;
    if range.part == other.part {
        return None;
    }
    Some(Transfer {
        span,
        source: range.part,
        dest: other.part,
    })
}

/// Adds the transfer from one range to another, if there is one.
fn push_transfer(
    transfers: &mut Vec<Transfer>,
    range: &PlanRange,
    other: &PlanRange,
) -> Result<(), AllocError>
    ensures { OnOk result (transfers.new.items ≡ transfers.old.items ++ listed (transfer range.now other.now)) }
{
    if let Some(transfer) = between(range, other) {
        transfers.push(transfer)?;
    }
    Ok(())
}

/// Adds the transfers from a range to the others. Returns the others from the first one on that
/// ends beyond the range.
fn push_row<'a>(
    transfers: &mut Vec<Transfer>,
    range: &PlanRange,
    others: &'a [PlanRange],
) -> Result<&'a [PlanRange], AllocError>
    requires { Follow 0 others.now }
    ensures transfers { OnOk result (transfers.new.items ≡ transfers.old.items ++ row range.now others.now) }
    ensures later { IfOk result (λ rest. (later : PlanRange) → range.now.span.hi ≤ later.span.lo → row later rest.now ≡ row later others.now) }
    ensures follow { IfOk result (λ rest. Follow 0 rest.now) }
{
    for (index, other) in others.iter().enumerate() {
        push_transfer(transfers, range, other)?;
        if range.span.hi() < other.span.hi() {
            return Ok(&others[index..]);
        }
    }
    Ok(&[])
}

/// The transfers from ranges to others, by rising key.
pub(crate) fn transfers(
    alloc: Global,
    ranges: &[PlanRange],
    others: &[PlanRange],
) -> Result<Vec<Transfer>, AllocError>
    requires ranges { Follow 0 ranges.now }
    requires others { Follow 0 others.now }
    ensures { IfOk result (λ v. v.items ≡ transfers ranges.now others.now) }
{
    let mut transfers = Vec::new(alloc);
    let mut rest = others;
    for range in ranges {
        rest = push_row(&mut transfers, range, rest)?;
    }
    Ok(transfers)
}
