//! Each call that allocates, any one of whose allocations may fail: then nothing has changed.

use squall_key::Bound;
use squall_span::{Span, SpanSet};
use squall_test_example::holds;
use std::alloc::{AllocError, Global};
use std::process::Abort;
use std::test::Fail;

fn bound(rt: &impl Abort, rank: u64) -> Bound {
    Bound::of_rank(rank).expect(rt, "a bound")
}

fn span(rt: &impl Abort, lo: u64, hi: u64) -> Span {
    Span::new(bound(rt, lo), bound(rt, hi)).expect(rt, "a span")
}

/// A set of a few spans, from a key on.
fn few(rt: &impl Abort, alloc: Global, from: u64) -> Result<SpanSet, AllocError> {
    let mut set = SpanSet::empty(alloc);
    for place in 0..6u64 {
        let lo = from.saturating_add(10 * place);
        set.insert(span(rt, lo, lo.saturating_add(6)))?;
    }
    Ok(set)
}

/// The set is still that of a few spans from the key on. It looks only if no allocation fails.
fn is_few(rt: &impl Abort, alloc: Global, set: &SpanSet, from: u64) {
    if let Ok(before) = few(rt, alloc, from) {
        holds!(rt; *set == before);
    }
}

/// The set has `count` keys, if no allocation failed.
fn has_count(rt: &impl Abort, made: Result<SpanSet, AllocError>, count: u64) {
    if let Ok(set) = made {
        holds!(rt; set.count() == count);
    }
}

/// Splits the set of a few spans.
fn split_few(rt: &impl Abort, alloc: Global, set: &SpanSet) {
    if let Ok((below, others)) = set.split_at(alloc, bound(rt, 23)) {
        holds!(rt; below.count() == 15);
        holds!(rt; others.count() == 21);
    }
}

/// The set of its own list.
fn from_list(rt: &impl Abort, alloc: Global, set: &SpanSet) {
    if let Ok(list) = set.list(alloc) {
        has_count(rt, SpanSet::from_spans(alloc, list.spans()), 36);
    }
}

/// Each call that answers a new set, of the set and of a few other spans.
fn operate(rt: &impl Abort, alloc: Global, set: &SpanSet, other: &SpanSet) {
    has_count(rt, set.copied(alloc), 36);
    from_list(rt, alloc, set);
    has_count(rt, set.union(alloc, other), 54);
    has_count(rt, set.minus(alloc, other), 18);
    has_count(rt, set.meet(alloc, other), 18);
    split_few(rt, alloc, set);
}

/// Each call that answers a new set.
fn operate_with_few(rt: &impl Abort, alloc: Global, set: &SpanSet) {
    if let Ok(other) = few(rt, alloc, 3) {
        operate(rt, alloc, set, &other);
        is_few(rt, alloc, &other, 3);
    }
}

#[test]
fn tolerant_operations(rt: HostRuntime) {
    if let Ok(set) = few(&rt, rt.alloc(), 0) {
        operate_with_few(&rt, rt.alloc(), &set);
        is_few(&rt, rt.alloc(), &set, 0);
    }
}

#[test]
fn tolerant_remove(rt: HostRuntime) -> Result<(), Fail> {
    let Ok(mut set) = SpanSet::of(rt.alloc(), &span(&rt, 0, 1000)) else {
        return Ok(());
    };
    for place in 0..20u64 {
        let Ok(before) = set.copied(rt.alloc()) else {
            return Ok(());
        };
        if set.remove(span(&rt, 10 * place, 10 * place + 5)).is_err() {
            holds!(&rt; set == before);
            return Ok(());
        }
        holds!(&rt; before.covers(&set) && !set.covers(&before));
    }
    holds!(&rt; set.count() == 900);
    Ok(())
}

/// A set of many spans in one list, which came in order.
fn many(rt: &impl Abort, alloc: Global) -> Result<SpanSet, AllocError> {
    let mut set = SpanSet::empty(alloc);
    for place in 0..300u64 {
        set.insert(span(rt, 10 * place, 10 * place + 6))?;
    }
    Ok(set)
}

#[test]
fn tolerant_remove_among_many(rt: HostRuntime) {
    let Ok(mut set) = many(&rt, rt.alloc()) else {
        return;
    };
    let count = match set.remove(span(&rt, 502, 2504)) {
        Ok(()) => 598,
        Err(_) => 1800,
    };
    holds!(&rt; set.count() == count);
}
