//! The keys that two sets have in common.

ghost use Rattle.std.specs.Prelude.{◌≡◌, ℕ, ◌&&◌, ◌≤◌, max, min, ◌∷◌, drop, length, IfOk};
ghost use Rattle.squall_span.specs.Spans.{has, IsCanonical, span_at};

use crate::search::ended;
use crate::set::{SpanSet, Store};
use crate::span::Span;
use crate::spans::Spans;
use std::alloc::{AllocError, Global};

/// The keys that are in both spans. None if they share none.
fn shared(first: Span, second: Span) -> Option<Span>
    ensures { result ≡ span_at (max first.lo second.lo) (min first.hi second.hi) }
{
    Span::new(first.lo().max(second.lo()), first.hi().min(second.hi()))
}

/// How many spans of the first list end before the second list begins.
fn ahead(first: &[Span], second: &[Span]) -> usize
    requires first { IsCanonical first.now }
    requires second { IsCanonical second.now }
    ensures within { result ≤ length first.now }
    ensures same { (k : ℕ) → (has (drop result first.now) k && has second.now k) ≡ (has first.now k && has second.now k) }
{
    match second.first() {
        Some(start) => ended(first, start.lo()),
        None => 0,
    }
}

/// The spans of the keys that are in both lists, which are looked at from their beginnings on.
fn walk_both(alloc: Global, first: &[Span], second: &[Span]) -> Result<Vec<Span>, AllocError>
    requires first { IsCanonical first.now }
    requires second { IsCanonical second.now }
    ensures canonical { IfOk result (λ out. IsCanonical out.items) }
    ensures keys { IfOk result (λ out. (k : ℕ) → has out.items k ≡ (has first.now k && has second.now k)) }
{
    let mut out = Vec::new(alloc);
    let mut at = 0;
    let mut other = 0;
    while at < first.len() && other < second.len() {
        let (one, two) = (first[at], second[other]);
        if let Some(span) = shared(one, two) {
            out.push(span)?;
        }
        if one.hi() < two.hi() {
            at += 1;
        } else {
            other += 1;
        }
    }
    Ok(out)
}

/// The spans of the keys that are in both lists. Binary searches find where they begin.
fn common_lists(alloc: Global, first: &[Span], second: &[Span]) -> Result<Vec<Span>, AllocError>
    requires first { IsCanonical first.now }
    requires second { IsCanonical second.now }
    ensures canonical { IfOk result (λ out. IsCanonical out.items) }
    ensures keys { IfOk result (λ out. (k : ℕ) → has out.items k ≡ (has first.now k && has second.now k)) }
{
    let own = &first[ahead(first, second)..];
    let others = &second[ahead(second, own)..];
    walk_both(alloc, own, others)
}

/// The spans of the keys that are in both lists, each of which is given as its first span and the
/// others.
fn walk_spans(
    alloc: Global,
    one: Span,
    first: Spans<'_>,
    two: Span,
    second: Spans<'_>,
) -> Result<Vec<Span>, AllocError>
    requires first { IsCanonical (one ∷ first) }
    requires second { IsCanonical (two ∷ second) }
    ensures canonical { IfOk result (λ out. IsCanonical out.items) }
    ensures keys { IfOk result (λ out. (k : ℕ) → has out.items k ≡ (has (one ∷ first.entry) k && has (two ∷ second.entry) k)) }
{
    let mut out = Vec::new(alloc);
    let (mut own, mut first) = (one, first);
    let (mut other, mut second) = (two, second);
    loop {
        if let Some(span) = shared(own, other) {
            out.push(span)?;
        }
        if own.hi() < other.hi() {
            let Some(next) = first.next() else {
                return Ok(out);
            };
            own = next;
        } else {
            let Some(next) = second.next() else {
                return Ok(out);
            };
            other = next;
        }
    }
}

/// The spans of the keys that are in both sets. Searches find where they begin.
fn common_spans(alloc: Global, first: &SpanSet, second: &SpanSet) -> Result<Vec<Span>, AllocError>
    ensures canonical { IfOk result (λ out. IsCanonical out.items) }
    ensures keys { IfOk result (λ out. (k : ℕ) → has out.items k ≡ (has first.now k && has second.now k)) }
{
    let Some(start) = second.first() else {
        return Ok(Vec::new(alloc));
    };
    let mut own = first.spans_beyond(start.lo());
    let Some(one) = own.next() else {
        return Ok(Vec::new(alloc));
    };
    let mut others = second.spans_beyond(one.lo());
    let Some(two) = others.next() else {
        return Ok(Vec::new(alloc));
    };
    walk_spans(alloc, one, own, two, others)
}

/// The spans of the keys that are in both sets. A walk along two lists needs no branch to go on in
/// one of them, so it is kept beside that along blocks.
pub(crate) fn common(
    alloc: Global,
    first: &SpanSet,
    second: &SpanSet,
) -> Result<Vec<Span>, AllocError>
    ensures canonical { IfOk result (λ out. IsCanonical out.items) }
    ensures keys { IfOk result (λ out. (k : ℕ) → has out.items k ≡ (has first.now k && has second.now k)) }
{
    match (&first.store, &second.store) {
        (Store::Few(own), Store::Few(others)) => common_lists(alloc, own, others),
        _ => common_spans(alloc, first, second),
    }
}
