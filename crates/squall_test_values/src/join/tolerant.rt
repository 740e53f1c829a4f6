//! Each call that allocates, any one of whose allocations may fail: then nothing has changed.

use super::{has_entry, span};
use squall_join::{Beyond, Join, JoinMap, Max, Pair};
use squall_span::SpanSet;
use squall_test_example::holds;
use std::alloc::{AllocError, Global};
use std::process::Abort;

type Inner = JoinMap<u32, Pair<SpanSet, Max>>;

type Outer = JoinMap<u32, Inner>;

/// The map of maps of one span.
fn one(
    rt: &impl Abort,
    alloc: Global,
    outer: u32,
    inner: u32,
    key: u64,
    value: u32,
) -> Result<Outer, AllocError> {
    let set = SpanSet::of(alloc, &span(rt, key, key.saturating_add(3)))?;
    let pair = Pair::new(set, Max::new(value));
    JoinMap::single(alloc, outer, JoinMap::single(alloc, inner, pair)?)
}

/// Joins one value into another, and sees that a failed allocation changes nothing.
pub(crate) fn tries<J: Join>(rt: &impl Abort, alloc: Global, value: &mut J, other: &J) {
    let Ok(before) = value.copied(alloc) else {
        return;
    };
    if value.join_in(alloc, other).is_ok() {
        holds!(rt; value.covers(other) && value.covers(&before));
    } else {
        holds!(rt; value.same(&before));
    }
}

/// The map of one number at the key 4 has that entry, and none if the number is 0.
fn look_at_single(rt: &impl Abort, alloc: Global, number: u32) {
    if let Ok(map) = JoinMap::single(alloc, 4, Max::new(number)) {
        holds!(rt; has_entry(&map, 0, 4, number) == (number != 0));
        holds!(rt; map.len() == usize::from(number != 0));
    }
}

#[test]
fn tolerant_single(rt: HostRuntime) {
    for number in [0, 3] {
        look_at_single(&rt, rt.alloc(), number);
    }
}

/// The value is still that of one span. It looks only if no allocation fails.
fn is_as_before(rt: &impl Abort, alloc: Global, value: &Outer) {
    if let Ok(before) = one(rt, alloc, 1, 2, 10, 5) {
        holds!(rt; value.same(&before));
    }
}

/// Copies the value, joins it with the other and looks at what it has beyond the other.
pub(crate) fn answers<J: Beyond>(rt: &impl Abort, alloc: Global, value: &J, other: &J) {
    if let Ok(copy) = value.copied(alloc) {
        holds!(rt; copy.same(value));
    }
    if let Ok(joined) = value.joined(alloc, other) {
        holds!(rt; joined.covers(value) && joined.covers(other));
    }
    if let Ok(rest) = value.beyond(alloc, other) {
        holds!(rt; value.covers(&rest) && !rest.is_bottom());
    }
}

/// Asks the value with another.
fn answers_with_another(rt: &impl Abort, alloc: Global, value: &Outer) {
    if let Ok(other) = one(rt, alloc, 1, 2, 11, 4) {
        answers(rt, alloc, value, &other);
    }
}

#[test]
fn tolerant_answers(rt: HostRuntime) {
    if let Ok(value) = one(&rt, rt.alloc(), 1, 2, 10, 5) {
        answers_with_another(&rt, rt.alloc(), &value);
        is_as_before(&rt, rt.alloc(), &value);
    }
}
