//! A span of keys.

ghost use Rattle.std.specs.Prelude.{◌≡◌, ◌+◌, ◌-◌, ◌≤◌, ◌<◌, Some};
ghost use Rattle.squall_key.specs.Keys.{top};
ghost use Rattle.squall_span.specs.Spans.{interval, span_at, span_has, text_of_span};

use squall_key::{Bound, Ends, Key};
use std::fmt;
use std::marker::Model;

/// The keys from a low bound on, below a high one: at least one key.
///
/// Contracts see a span as its two bounds, `lo` and `hi`.
#[derive(Clone, Copy, Debug, PartialEq, Eq)]
pub struct Span {
    lo: Bound,
    hi: Bound,
}

impl Model for Span {
    ghost use Rattle.std.specs.Prelude.{◌<◌};
    ghost use Rattle.squall_span.specs.Spans.{Interval};

    ghost Value = { Interval };

    ghost view = { λ s. record { lo = s.lo; hi = s.hi } };

    ghost invariant = { λ s. s.lo < s.hi };

    ghost inverse = { λ v. record { lo = v.lo; hi = v.hi } };
}

impl Span {
    /// The span from `lo` on, below `hi`. None unless `lo` is below `hi`.
    pub fn new(lo: Bound, hi: Bound) -> Option<Span>
        ensures { result ≡ span_at lo hi }
    {
        if lo < hi { Some(Span { lo, hi }) } else { None }
    }

    /// The bound at which the span begins: its least key.
    pub fn lo(self) -> Bound
        ensures value { result ≡ self.lo }
        ensures below { result < self.hi }
    {
        self.lo
    }

    /// The bound at which the span ends, above its keys.
    pub fn hi(self) -> Bound
        ensures value { result ≡ self.hi }
        ensures above { self.lo < result }
        ensures high { result ≤ top }
    {
        self.hi
    }

    /// The span from `lo` on, below `hi`.
    pub(crate) fn between(lo: Bound, hi: Bound) -> Span
        requires { lo < hi }
        ensures { result ≡ interval lo hi }
    {
        Span { lo, hi }
    }

    /// How many keys lie in the span.
    pub fn count(self) -> u64
        ensures value { result ≡ self.hi - self.lo }
        ensures some { 0 < result }
        ensures fits { self.lo + result ≤ top }
    {
        self.hi.rank() - self.lo.rank()
    }

    /// Whether the key lies in the span.
    pub fn has(self, key: Key) -> bool
        ensures { result ≡ span_has self key }
    {
        self.lo.rank() <= key.rank() && key.rank() < self.hi.rank()
    }
}

impl Ends for Span {
    ghost end = { λ s. s.hi };

    fn end(&self) -> Bound {
        self.hi
    }
}

/// `[lo,hi)`
impl fmt::Display for Span {
    ghost output = { λ s. Some (text_of_span s) };

    fn fmt<W: fmt::Write>(&self, f: &mut fmt::Formatter<W>) -> fmt::Result {
        let lo = self.lo;
        let hi = self.hi;
        write!(f, "[{lo},{hi})")
    }
}
