//! How many keys of a span have been loaded.

ghost use Rattle.squall_course.specs.Statuses.{IsStatus};
ghost use Rattle.squall_course.specs.Steps.{IsFirst};

use squall_key::Bound;
use squall_span::{Span, SpanSet};

/// Whether none, some or all keys of a span are in a set.
#[derive(Clone, Copy, Debug, PartialEq, Eq)]
pub enum Status {
    /// None of the keys.
    NotStarted,
    /// Some of the keys, and not all.
    Partial,
    /// All of the keys.
    Complete,
}

/// The first span that ends beyond the bound.
fn first_beyond(set: &SpanSet, from: Bound) -> Option<Span>
    ensures { IsFirst set.now from result }
{
    set.first_beyond(from)
}

impl Status {
    /// Whether none, some or all keys of the span are in the set.
    pub fn of(span: &Span, set: &SpanSet) -> Status
        ensures { IsStatus span.now set.now result }
    {
        let Some(first) = first_beyond(set, span.lo()) else {
            return Status::NotStarted;
        };
        if span.hi() <= first.lo() {
            return Status::NotStarted;
        }
        if span.lo() < first.lo() || first.hi() < span.hi() {
            return Status::Partial;
        }
        Status::Complete
    }
}
