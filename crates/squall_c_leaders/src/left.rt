//! The text of the plan of where a course leaves the keys, of the spans that C names.

ghost use Rattle.std.specs.Prelude.{◌≡◌, ◌<◌, ℕ, List, length, IfOk, Err, string_bytes};
ghost use Rattle.squall_span.specs.Spans.{has};
ghost use Rattle.squall_plan.specs.declared.range.PlanRange.{PlanRange};
ghost use Rattle.squall_plan.specs.Arranged.{range_limit};
ghost use Rattle.squall_leader.specs.Left.{AreLeft};
ghost use Rattle.squall_c_leaders.specs.declared.fault.LeftTextFault.TheVariants.{Limit, TooMany};
ghost use Rattle.squall_c_leaders.specs.LeftText.{span_in, spans_of, lies_in, AreSpans, IsLeftText};

use crate::fault::LeftTextFault;
use squall_c_values::CSpan;
use squall_course::Course;
use squall_key::Bound;
use squall_leader::left::left;
use squall_plan::plan_text;
use squall_span::{Span, SpanSet};
use std::alloc::Global;

/// The span of these ranks. None if it has no key, or ends above all keys.
fn span_in(span: &CSpan) -> Option<Span>
    ensures { result ≡ span_in span.now }
{
    Span::new(Bound::of_rank(span.lo)?, Bound::of_rank(span.hi)?)
}

/// The keys of the spans, which may overlap and come in any order. `Limit` if one has no key or ends
/// above all keys.
fn keys_of(alloc: Global, spans: &[CSpan]) -> Result<SpanSet, LeftTextFault>
    ensures keys { IfOk result (λ set. (k : ℕ) → has set k ≡ lies_in k spans.now) }
    ensures spans { IfOk result (λ _. AreSpans spans.now) }
    ensures limit { result ≡ Err Limit → AreSpans spans.now → ⊥ }
    ensures many { result ≡ Err TooMany → ⊥ }
{
    let mut keys = SpanSet::empty(alloc);
    for one in spans {
        let span = span_in(one).ok_or(LeftTextFault::Limit)?;
        keys.insert(span)?;
    }
    Ok(keys)
}

/// The text of the plan that has each key where the course leaves it if it ends early. A key of the
/// spans, which may overlap and come in any order, is at its new partition, and any other at its old
/// one.
///
/// `Limit` if a span has no key, or ends above all keys. `TooMany` if there is no such plan, since it
/// would have more than 4096 ranges. `NoMemory` if an allocation failed.
pub fn left_text(alloc: Global, course: &Course, loaded: &[CSpan]) -> Result<String, LeftTextFault>
    ensures text { IfOk result (λ text. IsLeftText course.now (spans_of loaded.now) (string_bytes text)) }
    ensures spans { IfOk result (λ _. AreSpans loaded.now) }
    ensures limit { result ≡ Err Limit → AreSpans loaded.now → ⊥ }
    ensures many { result ≡ Err TooMany → (plan : List PlanRange) → AreLeft course.now (spans_of loaded.now) plan → range_limit < length plan }
{
    let keys = keys_of(alloc, loaded)?;
    let plan = left(alloc, course, &keys)?;
    Ok(plan_text(alloc, &plan)?)
}
