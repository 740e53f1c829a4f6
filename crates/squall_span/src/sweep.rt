//! The keys of either of two sets.

ghost use Rattle.std.specs.Prelude.{◌≡◌, ◌∷◌, IfOk, OnOk};
ghost use Rattle.squall_span.specs.Spans.{IsCanonical, StartsBy, insert_span, union};

use crate::list::{listed, listed_with};
use crate::span::Span;
use crate::spans::Spans;
use std::alloc::{AllocError, Global};

/// Adds a span that starts no earlier than those that are there.
fn push_span(out: &mut Vec<Span>, span: Span) -> Result<(), AllocError>
    requires canonical { IsCanonical out.old.items }
    requires starts { StartsBy span.lo out.old.items }
    ensures { OnOk result (out.new.items ≡ insert_span span out.old.items) }
{
    let count = out.len();
    if count > 0 {
        let last = out[count - 1];
        if span.lo() <= last.hi() {
            out[count - 1] = Span::between(last.lo(), last.hi().max(span.hi()));
            return Ok(());
        }
    }
    out.push(span)?;
    Ok(())
}

/// Adds a span and those behind it, the first of which starts no earlier than those that are there.
/// After an error some may have been added.
fn push_spans(out: &mut Vec<Span>, span: Span, rest: Spans<'_>) -> Result<(), AllocError>
    requires canonical { IsCanonical out.old.items }
    requires starts { StartsBy span.lo out.old.items }
    requires rest { IsCanonical (span ∷ rest) }
    ensures { OnOk result (out.new.items ≡ union out.old.items (span ∷ rest.entry)) }
{
    push_span(out, span)?;
    for next in rest {
        push_span(out, next)?;
    }
    Ok(())
}

/// The spans of the keys of either list, each of which is given as its first span and the others.
fn merge_both(
    alloc: Global,
    room: usize,
    one: Span,
    first: Spans<'_>,
    two: Span,
    second: Spans<'_>,
) -> Result<Vec<Span>, AllocError>
    requires first { IsCanonical (one ∷ first) }
    requires second { IsCanonical (two ∷ second) }
    ensures { IfOk result (λ out. out.items ≡ union (one ∷ first.entry) (two ∷ second.entry)) }
{
    let mut out = Vec::with_capacity(alloc, room)?;
    let (mut a, mut first) = (one, first);
    let (mut b, mut second) = (two, second);
    loop {
        if a.lo() <= b.lo() {
            push_span(&mut out, a)?;
            let Some(next) = first.next() else {
                push_spans(&mut out, b, second)?;
                return Ok(out);
            };
            a = next;
        } else {
            push_span(&mut out, b)?;
            let Some(next) = second.next() else {
                push_spans(&mut out, a, first)?;
                return Ok(out);
            };
            b = next;
        }
    }
}

/// The spans of the keys of either list, with room for `room` of them.
pub(crate) fn merge(
    alloc: Global,
    room: usize,
    first: Spans<'_>,
    second: Spans<'_>,
) -> Result<Vec<Span>, AllocError>
    requires first { IsCanonical first }
    requires second { IsCanonical second }
    ensures { IfOk result (λ out. out.items ≡ union first.entry second.entry) }
{
    let (mut first, mut second) = (first, second);
    let Some(one) = first.next() else {
        return listed(alloc, room, second);
    };
    let Some(two) = second.next() else {
        return listed_with(alloc, room, one, first);
    };
    merge_both(alloc, room, one, first, two, second)
}
