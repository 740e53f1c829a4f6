//! Searches for the leg of a key.

ghost use Rattle.std.specs.Prelude.{◌≡◌, ◌<◌, ◌≤◌, ◌*◌, ◌-◌, length};
ghost use Rattle.squall_key.specs.Keys.{top};
ghost use Rattle.squall_plan.specs.Ranges.{IsCanonical};
ghost use Rattle.squall_table.specs.Legs.{IsAt, IsAmong, EndsAt};

use crate::table::Leg;
use squall_key::Bound;

/// The step if the bound is beyond the key, and else 0, without a branch on the key.
#[inline(always)]
fn back(step: usize, bound: Bound, key: Bound) -> usize
    ensures beyond { key < bound → result ≡ step }
    ensures before { bound ≤ key → result ≡ 0 }
{
    bound.step_beyond(key, step)
}

/// Narrows the search to one of two parts.
#[inline(always)]
fn half(legs: &[Leg], base: usize, size: usize, step: usize, key: Bound) -> usize
    requires canonical { IsCanonical legs.now }
    requires among { IsAmong legs.now key base size }
    requires some { 0 < step }
    requires parts { 2 * step ≤ size }
    ensures { IsAmong legs.now key result (size - step) }
{
    let first = base + step;
    first - back(step, legs[first].span.lo(), key)
}

/// Narrows the search to one of three parts.
#[inline(always)]
fn third(legs: &[Leg], base: usize, size: usize, step: usize, key: Bound) -> usize
    requires canonical { IsCanonical legs.now }
    requires among { IsAmong legs.now key base size }
    requires some { 0 < step }
    requires parts { 3 * step ≤ size }
    ensures { IsAmong legs.now key result (size - 2 * step) }
{
    let first = base + step;
    let second = first + step;
    second - back(step, legs[first].span.lo(), key) - back(step, legs[second].span.lo(), key)
}

/// Narrows the search to one of four parts. Three bounds are read side by side.
#[inline(always)]
fn quarter(legs: &[Leg], base: usize, size: usize, step: usize, key: Bound) -> usize
    requires canonical { IsCanonical legs.now }
    requires among { IsAmong legs.now key base size }
    requires some { 0 < step }
    requires parts { 4 * step ≤ size }
    ensures { IsAmong legs.now key result (size - 3 * step) }
{
    let first = base + step;
    let second = first + step;
    let third = second + step;
    third
        - back(step, legs[first].span.lo(), key)
        - back(step, legs[second].span.lo(), key)
        - back(step, legs[third].span.lo(), key)
}

/// Index of the leg of a key, which is among the `count` legs from the index `first` on.
#[inline(always)]
pub(crate) fn place_among(legs: &[Leg], first: usize, count: usize, key: Bound) -> usize
    requires canonical { IsCanonical legs.now }
    requires among { IsAmong legs.now key first count }
    requires below { key < top }
    ensures { IsAt legs.now key result }
{
    let mut base = first;
    let mut size = count;
    while size > 3 {
        let step = size / 4;
        base = quarter(legs, base, size, step, key);
        size -= 3 * step;
    }
    match size {
        3 => third(legs, base, 3, 1, key),
        2 => half(legs, base, 2, 1, key),
        _ => base,
    }
}

/// Index of the leg of a key.
pub(crate) fn place_of(legs: &[Leg], key: Bound) -> usize
    requires canonical { IsCanonical legs.now }
    requires below { key < top }
    ensures { IsAt legs.now key result }
{
    place_among(legs, 0, legs.len(), key)
}

/// Index of the leg of the key before `bound`.
pub(crate) fn end_of(legs: &[Leg], bound: Bound) -> usize
    requires canonical { IsCanonical legs.now }
    requires above { 0 < bound }
    ensures { EndsAt legs.now bound result }
{
    if bound.rank() >= Bound::TOP.rank() {
        return legs.len() - 1;
    }
    let at = place_of(legs, bound);
    if legs[at].span.lo().rank() < bound.rank() {
        return at;
    }
    at - 1
}
