//! Walks along two sets.

ghost use Rattle.std.specs.Prelude.{◌≡◌, ◌↔◌, ℕ, true, IsTrue};
ghost use Rattle.squall_span.specs.Spans.{has, IsCanonical, spans_eq};

use crate::spans::Spans;

/// Whether each key of the wanted spans is in one of the spans that are there.
pub(crate) fn covers(there: Spans<'_>, wanted: Spans<'_>) -> bool
    requires there { IsCanonical there }
    requires wanted { IsCanonical wanted }
    ensures { IsTrue result ↔ ((k : ℕ) → has wanted.entry k ≡ true → has there.entry k ≡ true) }
{
    let mut there = there;
    let mut wanted = wanted;
    let mut own = there.next();
    let mut next = wanted.next();
    while let Some(want) = next {
        let Some(span) = own else {
            return false;
        };
        if span.hi() < want.hi() {
            own = there.next();
        } else if span.lo() <= want.lo() {
            next = wanted.next();
        } else {
            return false;
        }
    }
    true
}

/// Whether both have the same spans.
pub(crate) fn are_same(first: Spans<'_>, second: Spans<'_>) -> bool
    ensures { result ≡ spans_eq first.entry second.entry }
{
    let mut rest = second;
    for span in first {
        let Some(other) = rest.next() else {
            return false;
        };
        if span != other {
            return false;
        }
    }
    rest.next().is_none()
}
