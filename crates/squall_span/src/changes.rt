//! What an edit of spans in blocks puts in their place.

ghost use Rattle.std.specs.Prelude.{◌≡◌, ◌-◌, ◌≤◌, ◌++◌, slice_get, option_to_list, option_copied, IfOk};
ghost use Rattle.squall_blocks.specs.Entries.{RiseFrom, last_from, beyond, replaced};
ghost use Rattle.squall_span.specs.Spans.{IsSet, insert_span, without_span};
ghost use Rattle.squall_span.specs.Many.{entries_of, spans_of, start_with, end_with, head_below, tail_from, cut_start, cut_end};

use crate::span::Span;
use squall_blocks::{BlocksRef, Entries, ReadyEntries};
use squall_key::Bound;
use std::alloc::{AllocError, Global};

/// The entries of spans. An error means that an allocation failed.
pub(crate) fn entries_of(alloc: Global, spans: &[Span]) -> Result<Entries<Bound>, AllocError>
    ensures { IfOk result (λ es. es ≡ entries_of spans.now) }
{
    let mut entries = ReadyEntries::with_room(alloc, spans.len())?;
    for span in spans {
        entries.push(span.hi(), span.lo());
    }
    Ok(entries.into_entries())
}

/// The fresh entries that come in place of those that end beyond `from` and not beyond `to`.
#[derive(Drop)]
pub(crate) struct Change {
    pub(crate) from: Bound,
    pub(crate) to: Bound,
    pub(crate) fresh: Entries<Bound>,
}

/// The bound before `bound`. For the least bound it is that bound itself.
fn bound_before(bound: Bound) -> Bound
    ensures { result ≡ bound - 1 }
{
    Bound::of_rank(bound.rank().saturating_sub(1)).unwrap_or(bound)
}

/// Where the span begins together with the first of those that end beyond `from`.
fn start_with(there: &BlocksRef<'_, Bound>, from: Bound, span: Span) -> Bound
    ensures { result ≡ start_with span (slice_get (beyond from there.now) 0) }
{
    match there.above(from) {
        Some(first) => first.1.min(span.lo()),
        None => span.lo(),
    }
}

/// Where the span ends together with the first of those that end beyond it, if it overlaps or
/// touches that one.
fn end_with(there: &BlocksRef<'_, Bound>, span: Span) -> Bound
    ensures { result ≡ end_with span (slice_get (beyond span.hi there.now) 0) }
{
    let hi = span.hi();
    match there.above(hi) {
        Some(last) if last.1.rank() <= hi.rank() => last.0,
        _ => hi,
    }
}

/// What comes in place of the spans that overlap or touch the span, if its keys are added: one span
/// from the lowest start to the highest end of all.
pub(crate) fn insertion(
    alloc: Global,
    there: &BlocksRef<'_, Bound>,
    span: Span,
) -> Result<Change, AllocError>
    requires { IsSet (spans_of there.now) }
    ensures rise { IfOk result (λ c. RiseFrom c.from c.fresh) }
    ensures last { IfOk result (λ c. last_from c.from c.fresh ≤ c.to) }
    ensures value { IfOk result (λ c. spans_of (replaced c.from c.to c.fresh there.now) ≡ insert_span span (spans_of there.now)) }
{
    let from = bound_before(span.lo());
    let lo = start_with(there, from, span);
    let to = end_with(there, span);
    let fresh = entries_of(alloc, &[Span::between(lo, to)])?;
    Ok(Change { from, to, fresh })
}

/// What is left below the bound of the first span that ends beyond it.
fn head_below(there: &BlocksRef<'_, Bound>, bound: Bound) -> Option<Span>
    ensures { result ≡ head_below bound (slice_get (beyond bound there.now) 0) }
{
    let first = there.above(bound)?;
    Span::new(first.1, bound)
}

/// What is left from the bound on of the first span that ends beyond it, if a part of that one goes.
fn tail_from(there: &BlocksRef<'_, Bound>, bound: Bound) -> Option<Span>
    ensures { result ≡ tail_from bound (slice_get (beyond bound there.now) 0) }
{
    let first = there.above(bound)?;
    if bound.rank() <= first.1.rank() {
        return None;
    }
    Span::new(bound, first.0)
}

/// The entries of two spans, each of which may be absent.
fn entries_of_both(
    alloc: Global,
    head: Option<&Span>,
    tail: Option<&Span>,
) -> Result<Entries<Bound>, AllocError>
    ensures { IfOk result (λ es. es ≡ entries_of (option_to_list (option_copied head.entry) ++ option_to_list (option_copied tail.entry))) }
{
    match (head, tail) {
        (Some(head), Some(tail)) => entries_of(alloc, &[*head, *tail]),
        (Some(one), None) | (None, Some(one)) => entries_of(alloc, &[*one]),
        (None, None) => Ok(Entries::new(alloc)),
    }
}

/// The bound by which the spans end that stay before the bound, if a head is cut there.
fn cut_start(bound: Bound, head: Option<Span>) -> Bound
    ensures { result ≡ cut_start bound head }
{
    match head {
        Some(_) => bound_before(bound),
        None => bound,
    }
}

/// The bound at which the last span ends that goes, if a tail of it is cut at the bound.
fn cut_end(bound: Bound, tail: Option<Span>) -> Bound
    ensures { result ≡ cut_end bound tail }
{
    match tail {
        Some(tail) => tail.hi(),
        None => bound,
    }
}

/// What comes in place of the spans that overlap the span, if its keys are removed: what is left of
/// the first below it, and of the last from its end on.
pub(crate) fn removal(
    alloc: Global,
    there: &BlocksRef<'_, Bound>,
    span: Span,
) -> Result<Change, AllocError>
    requires { IsSet (spans_of there.now) }
    ensures rise { IfOk result (λ c. RiseFrom c.from c.fresh) }
    ensures last { IfOk result (λ c. last_from c.from c.fresh ≤ c.to) }
    ensures value { IfOk result (λ c. spans_of (replaced c.from c.to c.fresh there.now) ≡ without_span span (spans_of there.now)) }
{
    let head = head_below(there, span.lo());
    let tail = tail_from(there, span.hi());
    let from = cut_start(span.lo(), head);
    let to = cut_end(span.hi(), tail);
    let fresh = entries_of_both(alloc, head.as_ref(), tail.as_ref())?;
    Ok(Change { from, to, fresh })
}
