//! Searches among the spans of a set.

ghost use Rattle.std.specs.Prelude.{◌≡◌, ◌↔◌, ◌<◌, ◌≤◌, length, IsTrue};
ghost use Rattle.squall_span.specs.Spans.{IsCanonical};
ghost use Rattle.squall_span.specs.Places.{Ended, Apart, Started};

use crate::span::Span;
use squall_key::Bound;

/// How many spans end at the bound or before it.
pub(crate) fn ended(spans: &[Span], bound: Bound) -> usize
    requires { IsCanonical spans.now }
    ensures { Ended spans.now bound result }
{
    squall_key::ended(spans, bound)
}

/// How many spans end before the bound, and do not touch it.
pub(crate) fn apart(spans: &[Span], bound: Bound) -> usize
    requires { IsCanonical spans.now }
    ensures { Apart spans.now bound result }
{
    let at = ended(spans, bound);
    // None touches the next, so at most one ends at the bound itself.
    if at > 0 && bound.rank() <= spans[at - 1].hi().rank() {
        return at - 1;
    }
    at
}

/// Whether all spans end before the bound, and do not touch it. Only the last one is looked at,
/// since it ends furthest.
pub(crate) fn all_apart(spans: &[Span], bound: Bound) -> bool
    requires { IsCanonical spans.now }
    ensures { IsTrue result ↔ Apart spans.now bound (length spans.now) }
{
    match spans.last() {
        Some(last) => last.hi() < bound,
        None => true,
    }
}

/// How many spans start at the bound or before it.
pub(crate) fn started(spans: &[Span], bound: Bound) -> usize
    requires { IsCanonical spans.now }
    ensures { Started spans.now bound result }
{
    let at = ended(spans, bound);
    // Of the spans that end beyond the bound, only the first may start before it.
    if at < spans.len() && spans[at].lo().rank() <= bound.rank() {
        return at + 1;
    }
    at
}
