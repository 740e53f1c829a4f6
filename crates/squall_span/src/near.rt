//! The spans of a set that share a key with some others.

ghost use Rattle.std.specs.Prelude.{◌≡◌, ℕ, ◌||◌, IfOk, OnOk};
ghost use Rattle.squall_span.specs.Spans.{has, IsSet};
ghost use Rattle.squall_span.specs.Within.{HasBeside, spans_before};

use crate::edit::insert;
use crate::set::SpanSet;
use crate::span::Span;
use crate::spans::Spans;
use squall_key::Bound;
use std::alloc::{AllocError, Global};

/// Adds the spans that begin below the bound. After an error some may have been added.
fn add_below(list: &mut Vec<Span>, spans: Spans<'_>, hi: Bound) -> Result<(), AllocError>
    requires { IsSet list.old.items }
    ensures set { OnOk result (IsSet list.new.items) }
    ensures keys { OnOk result ((k : ℕ) → has list.new.items k ≡ (has list.old.items k || has (spans_before hi spans.entry) k)) }
{
    for span in spans {
        if hi <= span.lo() {
            return Ok(());
        }
        insert(list, span)?;
    }
    Ok(())
}

/// The spans of the set that share a key with one of the others, in one list. A binary search finds
/// those of each, so what lies between the others is not looked at. An error means that an
/// allocation failed.
pub(crate) fn listed_near(
    alloc: Global,
    own: &[Span],
    set: &SpanSet,
) -> Result<Vec<Span>, AllocError>
    ensures set { IfOk result (λ list. IsSet list.items) }
    ensures beside { IfOk result (λ list. HasBeside own.now set.now list.items) }
{
    let mut list = Vec::new(alloc);
    for span in own {
        add_below(&mut list, set.spans_beyond(span.lo()), span.hi())?;
    }
    Ok(list)
}
