//! The keys that a sub-plan brings to a partition, or takes from it.

ghost use Rattle.std.specs.Prelude.{◌≡◌, ◌==◌, ◌&&◌, ℕ, map, filter, IfOk};
ghost use Rattle.std.specs.List.{list_any};
ghost use Rattle.std.specs.List.Sorted.{IsNonDecreasingBy};
ghost use Rattle.squall_span.specs.Spans.{has};
ghost use Rattle.squall_course.specs.Moves.{goes_to, move_has, in_moves};
ghost use Rattle.squall_course.specs.Steps.{leaves, leaving_place, arriving_place, AreByPlace, AreReceivers};

use crate::filing::{arriving_between, leaving_between, place};
use crate::moving::Move;
use squall_key::PartId;
use squall_span::SpanSet;
use std::alloc::{AllocError, Global};

/// The keys of the moves.
fn keys(alloc: Global, moves: &[Move]) -> Result<SpanSet, AllocError>
    ensures { IfOk result (λ set. (k : ℕ) → has set k ≡ in_moves k moves.now) }
{
    let mut keys = SpanSet::empty(alloc);
    for one in moves {
        keys.insert(one.span)?;
    }
    Ok(keys)
}

/// The keys of the moves to the partition in the sub-plan.
pub(crate) fn incoming(
    alloc: Global,
    arriving: &[Move],
    sub: u32,
    part: PartId,
) -> Result<SpanSet, AllocError>
    requires { AreByPlace arriving_place arriving.now }
    ensures { IfOk result (λ set. (k : ℕ) → has set k ≡ list_any (λ m. goes_to sub part m && move_has k m) arriving.now) }
{
    let from = place(sub, part);
    keys(alloc, arriving_between(arriving, from, from + 1))
}

/// The keys of the moves away from the partition in the sub-plan.
pub(crate) fn outgoing(
    alloc: Global,
    leaving: &[Move],
    sub: u32,
    part: PartId,
) -> Result<SpanSet, AllocError>
    requires { AreByPlace leaving_place leaving.now }
    ensures { IfOk result (λ set. (k : ℕ) → has set k ≡ list_any (λ m. leaves sub part m && move_has k m) leaving.now) }
{
    let from = place(sub, part);
    keys(alloc, leaving_between(leaving, from, from + 1))
}

/// The moves of the sub-plan, by rising destination.
pub(crate) fn arrivals(arriving: &[Move], sub: u32) -> &[Move]
    requires { AreByPlace arriving_place arriving.now }
    ensures value { result.now ≡ filter (λ m. m.sub == sub) arriving.now }
    ensures rise { IsNonDecreasingBy (λ m. m.dest) result.now }
{
    let from = u64::from(sub) * 10_000;
    arriving_between(arriving, from, from + 10_000)
}

/// The destination of each move.
fn dests(alloc: Global, moves: &[Move]) -> Result<Vec<PartId>, AllocError>
    ensures { IfOk result (λ v. v.items ≡ map (λ m. m.dest) moves.now) }
{
    moves.iter().map(|one| one.dest).collect(alloc)
}

/// The partitions to which moves go in the sub-plan, in rising number.
pub(crate) fn receivers(
    alloc: Global,
    arriving: &[Move],
    sub: u32,
) -> Result<Vec<PartId>, AllocError>
    requires { AreByPlace arriving_place arriving.now }
    ensures { IfOk result (λ v. AreReceivers arriving.now sub v.items) }
{
    let mut parts = dests(alloc, arrivals(arriving, sub))?;
    parts.dedup();
    Ok(parts)
}
