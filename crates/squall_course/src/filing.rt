//! Moves by sub-plan and partition.

ghost use Rattle.std.specs.Prelude.{◌≡◌, ◌+◌, ◌<◌, ◌^◌, ◌&&◌, nat_le, nat_lt, filter, IfOk};
ghost use Rattle.squall_key.specs.Keys.{part_limit};
ghost use Rattle.squall_course.specs.Steps.{place, leaving_place, arriving_place, AreFiled, AreByPlace};

use crate::moving::Move;
use squall_key::PartId;
use std::alloc::{AllocError, Global};

/// The place of a sub-plan and a partition, in the order by sub-plan, then by partition. It is
/// 10000, the limit of partitions, for each sub-plan before it, plus the number of the partition.
pub(crate) fn place(sub: u32, part: PartId) -> u64
    ensures value { result ≡ place sub part }
    ensures below { result + 1 < 2 ^ 64 }
    ensures limit { part < part_limit }
{
    u64::from(sub) * 10_000 + u64::from(part.get())
}

/// The moves by sub-plan, then by source; those with the same keep their order.
pub(crate) fn by_source(alloc: Global, moves: &[Move]) -> Result<Vec<Move>, AllocError>
    ensures { IfOk result (λ v. AreFiled leaving_place moves.now v.items) }
{
    let mut leaving = Vec::from_slice(alloc, moves)?;
    leaving.sort_by_key(|one| place(one.sub, one.source))?;
    Ok(leaving)
}

/// The moves by sub-plan, then by destination; those with the same keep their order.
pub(crate) fn by_dest(alloc: Global, moves: &[Move]) -> Result<Vec<Move>, AllocError>
    ensures { IfOk result (λ v. AreFiled arriving_place moves.now v.items) }
{
    let mut arriving = Vec::from_slice(alloc, moves)?;
    arriving.sort_by_key(|one| place(one.sub, one.dest))?;
    Ok(arriving)
}

/// The moves by source whose places are from a bound on, below another, by two binary searches.
pub(crate) fn leaving_between(leaving: &[Move], from: u64, to: u64) -> &[Move]
    requires { AreByPlace leaving_place leaving.now }
    ensures { result.now ≡ filter (λ m. nat_le from (leaving_place m) && nat_lt (leaving_place m) to) leaving.now }
{
    let first = leaving.partition_point(|one| place(one.sub, one.source) < from);
    let rest = &leaving[first..];
    let len = rest.partition_point(|one| place(one.sub, one.source) < to);
    &rest[..len]
}

/// The moves by destination whose places are from a bound on, below another, by two binary
/// searches.
pub(crate) fn arriving_between(arriving: &[Move], from: u64, to: u64) -> &[Move]
    requires { AreByPlace arriving_place arriving.now }
    ensures { result.now ≡ filter (λ m. nat_le from (arriving_place m) && nat_lt (arriving_place m) to) arriving.now }
{
    let first = arriving.partition_point(|one| place(one.sub, one.dest) < from);
    let rest = &arriving[first..];
    let len = rest.partition_point(|one| place(one.sub, one.dest) < to);
    &rest[..len]
}
