//! The spans of a cell.

ghost use Rattle.std.specs.Prelude.{◌≡◌, ◌≢◌, [], Err, IfOk, IfErr};
ghost use Rattle.squall_span.specs.Spans.{interval};
ghost use Rattle.squall_wire.specs.declared.fault.WireFault.TheVariants.{NoMemory};
ghost use Rattle.squall_wire.specs.Limits.{span_in_range, span_in_order, after_span};
ghost use Rattle.squall_wire.specs.Reading.{Gives, checked, many_at, span_at};
ghost use Rattle.squall_wire.specs.Views.{HasAdded, HasRoom};

use crate::fault::WireFault;
use crate::reading::field::rank_at;
use squall_key::Bound;
use squall_span::{ReadySet, Span, SpanSet};
use std::alloc::Global;

/// How many bytes a span has.
const SPAN_LENGTH: usize = 16;

/// The span of two ranks. It begins at the floor or above.
fn span_of(floor: u64, lo: u64, hi: u64) -> Result<Span, WireFault>
    ensures { Gives (λ s. s) result (checked (span_in_range (interval lo hi)) (span_in_order floor (interval lo hi)) (interval lo hi)) }
{
    let from = Bound::of_rank(lo).ok_or(WireFault::Range)?;
    let to = Bound::of_rank(hi).ok_or(WireFault::Range)?;
    if lo < floor {
        return Err(WireFault::Order);
    }
    Span::new(from, to).ok_or(WireFault::Order)
}

/// Adds the span that begins the bytes to the set, in spare capacity. It gives the floor of the
/// next span, and the bytes after this one.
#[tactic(auto, unfolding(crate::specs::Reading::span_at))]
fn add_span<'a>(
    spans: &mut ReadySet,
    floor: u64,
    bytes: &'a [u8],
) -> Result<(u64, &'a [u8]), WireFault>
    requires room { HasRoom 1 bytes.now spans.old.room }
    ensures ok { IfOk result (λ x. HasAdded floor bytes.now spans.old spans.new x.0 x.1.now) }
    ensures err { IfErr result (λ e. e ≢ NoMemory → span_at floor bytes.now ≡ Err e) }
{
    let (lo, rest) = rank_at(bytes)?;
    let (hi, rest) = rank_at(rest)?;
    let span = span_of(floor, lo, hi)?;
    spans.insert(span);
    Ok((span.hi().rank() + 1, rest))
}

/// The empty set, with room for `count` spans, but for no more than the bytes can hold. So a great
/// count before few bytes costs nothing.
fn room_for(alloc: Global, count: u32, bytes: &[u8]) -> Result<ReadySet, WireFault>
    ensures empty { IfOk result (λ r. r.set ≡ []) }
    ensures room { IfOk result (λ r. HasRoom count bytes.now r.room) }
    ensures err { IfErr result (λ e. e ≡ NoMemory) }
{
    let most = (count as usize).min(bytes.len() / SPAN_LENGTH);
    Ok(ReadySet::with_room(alloc, most)?)
}

/// The first `count` spans of the bytes as a set, and the bytes after them. Each begins above the
/// end of the one before it.
pub(crate) fn spans_of(
    alloc: Global,
    count: u32,
    bytes: &[u8],
) -> Result<(SpanSet, &[u8]), WireFault>
    ensures { Gives (λ x. (x.0, x.1.now)) result (many_at span_at after_span count 0 bytes.now) }
{
    let mut spans = room_for(alloc, count, bytes)?;
    let mut floor = 0;
    let mut rest = bytes;
    for _ in 0..count {
        let (next, after) = add_span(&mut spans, floor, rest)?;
        floor = next;
        rest = after;
    }
    Ok((spans.into_set(), rest))
}
