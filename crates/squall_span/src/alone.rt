//! The keys of a set that another one lacks.

ghost use Rattle.std.specs.Prelude.{◌≡◌, ℕ, ◌<◌, ◌&&◌, not, max, min, ◌∷◌, ◌++◌, IfOk, OnOk};
ghost use Rattle.squall_span.specs.Spans.{has, IsCanonical, EndsBeyond, span_at};
ghost use Rattle.squall_span.specs.Sweeps.{cut_first};

use crate::list::listed_with;
use crate::span::Span;
use crate::spans::Spans;
use squall_key::Bound;
use std::alloc::{AllocError, Global};

/// The keys of the span from the bound on that lie before the other span. None if there are none.
fn before(from: Bound, span: Span, other: Span) -> Option<Span>
    ensures { result ≡ span_at (max from span.lo) (min span.hi other.lo) }
{
    Span::new(from.max(span.lo()), span.hi().min(other.lo()))
}

/// Adds the keys of a span from the bound on, and the spans behind it. After an error some may have
/// been added.
fn push_rest(
    out: &mut Vec<Span>,
    span: Span,
    rest: Spans<'_>,
    from: Bound,
) -> Result<(), AllocError>
    requires { from < span.hi }
    ensures { OnOk result (out.new.items ≡ out.old.items ++ cut_first from (span ∷ rest.entry)) }
{
    out.push(Span::between(from.max(span.lo()), span.hi()))?;
    rest.append_to(out)
}

/// The spans of the keys of a list that the second one lacks, with room for `room` of them. The list
/// is given as its first span and the others, and all of the second list ends beyond where that span
/// begins. Of a span that both walks have reached, the keys from `from` on are still to come.
pub(crate) fn alone(
    alloc: Global,
    room: usize,
    one: Span,
    first: Spans<'_>,
    second: Spans<'_>,
) -> Result<Vec<Span>, AllocError>
    requires first { IsCanonical (one ∷ first) }
    requires second { IsCanonical second }
    requires ends { EndsBeyond one.lo second }
    ensures canonical { IfOk result (λ out. IsCanonical out.items) }
    ensures keys { IfOk result (λ out. (k : ℕ) → has out.items k ≡ (has (one ∷ first.entry) k && not (has second.entry k))) }
{
    let (mut first, mut second) = (first, second);
    let Some(two) = second.next() else {
        return listed_with(alloc, room, one, first);
    };
    let mut out = Vec::with_capacity(alloc, room)?;
    let (mut own, mut other, mut from) = (one, two, one.lo());
    loop {
        if let Some(span) = before(from, own, other) {
            out.push(span)?;
        }
        if own.hi() <= other.hi() {
            let Some(next) = first.next() else {
                return Ok(out);
            };
            own = next;
        } else {
            from = other.hi();
            let Some(next) = second.next() else {
                push_rest(&mut out, own, first, from)?;
                return Ok(out);
            };
            other = next;
        }
    }
}
