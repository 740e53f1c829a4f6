//! Tests of sets of keys. What else they do, the boards and partitions that stand on them show.

mod clients;
mod example;
mod tolerant;

use squall_key::Bound;
use squall_span::{Span, SpanSet};
use std::alloc::Global;
use std::process::Abort;

fn bound(rt: &impl Abort, text: &str) -> Bound {
    Bound::read(text).expect(rt, "a bound")
}

fn span(rt: &impl Abort, lo: &str, hi: &str) -> Span {
    Span::new(bound(rt, lo), bound(rt, hi)).expect(rt, "a span")
}

/// The set of these spans, by one insert after the other.
fn set(rt: &impl Abort, alloc: Global, spans: &[(&str, &str)]) -> SpanSet {
    let mut set = SpanSet::empty(alloc);
    for (lo, hi) in spans {
        set.insert(span(rt, lo, hi)).expect(rt, "memory");
    }
    set
}

const TWO: [(&str, &str); 2] = [("0:0", "1:0"), ("2:0", "3:0")];
