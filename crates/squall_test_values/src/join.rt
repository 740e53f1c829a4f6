//! Tests of joins. What else they do, the boards that stand on them show.

mod clients;
mod example;
mod shared;
mod tolerant;

use squall_join::{Join, JoinMap, Max};
use squall_key::Bound;
use squall_span::Span;
use std::alloc::{AllocError, Global};
use std::process::Abort;

/// The map of these two entries.
fn map(
    alloc: Global,
    first: (u32, u32),
    second: (u32, u32),
) -> Result<JoinMap<u32, Max>, AllocError> {
    let mut map = JoinMap::single(alloc, first.0, Max::new(first.1))?;
    let other = JoinMap::single(alloc, second.0, Max::new(second.1))?;
    map.join_in(alloc, &other)?;
    Ok(map)
}

fn span(rt: &impl Abort, lo: u64, hi: u64) -> Span {
    let lo = Bound::of_rank(lo).expect(rt, "a bound");
    let hi = Bound::of_rank(hi).expect(rt, "a bound");
    Span::new(lo, hi).expect(rt, "a span")
}

/// Whether the entry of the map at the index is this one.
fn has_entry(map: &JoinMap<u32, Max>, index: usize, key: u32, value: u32) -> bool {
    match map.at(index) {
        Some((at, number)) => *at == key && number.get() == value,
        None => false,
    }
}
