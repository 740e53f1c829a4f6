//! What callers learn of a borrowed set, over public names alone.

ghost use Rattle.std.specs.Prelude.{◌≡◌, ℕ, ◌<◌};
ghost use Rattle.squall_key.specs.Keys.{top};
ghost use Rattle.squall_span.specs.Spans.{has, IsSet};

use super::{TWO, set};
use squall_span::SpanSet;
use squall_span::laws::same_keys_same_set;

/// Its spans are in order, and end by the top.
fn is_set(set: &SpanSet)
    ensures { IsSet set.now }
{
    set.known();
}

/// It is equal to each set with the same keys.
fn is_same_by_keys(set: &SpanSet, other: &SpanSet)
    ensures { ((k : ℕ) → k < top → has set.now k ≡ has other.now k) → set.now ≡ other.now }
{
    is_set(set);
    is_set(other);
    same_keys_same_set();
}

#[test]
fn clients(rt: HostRuntime) {
    let two = set(&rt, rt.alloc(), &TWO);
    is_set(&two);
    is_same_by_keys(&two, &two);
}
