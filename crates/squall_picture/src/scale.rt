//! The bounds of both plans.

ghost use Rattle.std.specs.Prelude.{◌≡◌, ◌<◌, ◌≤◌, ℕ, length, slice_index_or, IfOk, OnOk};
ghost use Rattle.std.specs.List.Sorted.{IsNonDecreasing};
ghost use Rattle.squall_picture.specs.Scale.{column, is_tick, with_tick, with_ranges, ticks};

use squall_key::Bound;
use squall_plan::PlanRange;
use std::alloc::{AllocError, Global};

/// How many of the bounds lie below this one, by a binary search: they must not decrease.
pub(crate) fn column(ticks: &[Bound], bound: Bound) -> usize
    requires { IsNonDecreasing ticks.now }
    ensures value { result ≡ column ticks.now bound }
    ensures most { result ≤ length ticks.now }
    ensures before { (j d : ℕ) → j < result → slice_index_or ticks.now j d ≤ bound }
    ensures from { (j d : ℕ) → result ≤ j → j < length ticks.now → bound ≤ slice_index_or ticks.now j d }
{
    ticks.partition_point(|tick| *tick < bound)
}

/// Whether the bound follows the `at` bounds that lie below it.
fn is_tick(ticks: &[Bound], bound: Bound, at: usize) -> bool
    requires { at ≡ column ticks.now bound }
    ensures { result ≡ is_tick ticks.now bound }
{
    match ticks.get(at) {
        Some(tick) => *tick == bound,
        None => false,
    }
}

/// Inserts the bound behind those that lie below it, unless it is among the bounds.
fn add_tick(ticks: &mut Vec<Bound>, bound: Bound) -> Result<(), AllocError>
    requires { IsNonDecreasing ticks.old.items }
    ensures ticks { OnOk result (ticks.new.items ≡ with_tick ticks.old.items bound) }
    ensures rise { OnOk result (IsNonDecreasing ticks.new.items) }
{
    let at = column(ticks, bound);
    if !is_tick(ticks, bound, at) {
        ticks.insert(at, bound)?;
    }
    Ok(())
}

/// Inserts both bounds of each range.
fn add_ranges(ticks: &mut Vec<Bound>, ranges: &[PlanRange]) -> Result<(), AllocError>
    requires { IsNonDecreasing ticks.old.items }
    ensures ticks { OnOk result (ticks.new.items ≡ with_ranges ticks.old.items ranges.now) }
    ensures rise { OnOk result (IsNonDecreasing ticks.new.items) }
{
    for range in ranges {
        add_tick(ticks, range.span.lo())?;
        add_tick(ticks, range.span.hi())?;
    }
    Ok(())
}

/// The bounds of both plans, by rising rank, each once.
pub(crate) fn ticks(
    alloc: Global,
    old: &[PlanRange],
    new: &[PlanRange],
) -> Result<Vec<Bound>, AllocError>
    ensures ticks { IfOk result (λ v. v.items ≡ ticks old.now new.now) }
    ensures rise { IfOk result (λ v. IsNonDecreasing v.items) }
{
    let mut ticks = Vec::new(alloc);
    add_ranges(&mut ticks, old)?;
    add_ranges(&mut ticks, new)?;
    Ok(ticks)
}
