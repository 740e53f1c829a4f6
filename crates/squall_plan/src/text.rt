//! The text of a plan.

ghost use Rattle.std.specs.Prelude.{◌≡◌, IfOk, Ok, map, string_bytes};
ghost use Rattle.serde_json.specs.View.{view};
ghost use Rattle.squall_plan.specs.Form.{plan_of_text};
ghost use Rattle.squall_plan.specs.PlanText.{json_of_bound, json_of_end, json_of_range, json_of_plan, text_of_plan};

use crate::laws::{
    answer_has_meaning, answer_needs_no_memory, canonical_is_plan, one_answer, one_list,
};
use crate::plan::Plan;
use crate::range::PlanRange;
use serde_json::{Value, json};
use squall_key::Bound;
use std::alloc::{AllocError, Global};

/// The two numbers of the bound as a JSON value.
fn bound_value(alloc: Global, bound: Bound) -> Result<Value, AllocError>
    ensures { IfOk result (λ v. view v ≡ json_of_bound bound) }
{
    let root = bound.root();
    let second = bound.second();
    json!(in alloc; [root, second])
}

/// The bound where a range ends as a JSON value.
fn end_value(alloc: Global, bound: Bound) -> Result<Value, AllocError>
    ensures { IfOk result (λ v. view v ≡ json_of_end bound) }
{
    if bound == Bound::TOP {
        return json!(in alloc; "end");
    }
    bound_value(alloc, bound)
}

/// The range as a JSON value.
fn range_value(alloc: Global, range: &PlanRange) -> Result<Value, AllocError>
    ensures { IfOk result (λ v. view v ≡ json_of_range range.now) }
{
    let from = bound_value(alloc, range.span.lo())?;
    let to = end_value(alloc, range.span.hi())?;
    let part = range.part.get();
    json!(in alloc; {"part": part, "from": from, "to": to})
}

/// The ranges as JSON values.
fn range_values(alloc: Global, ranges: &[PlanRange]) -> Result<Vec<Value>, AllocError>
    ensures { IfOk result (λ vs. map view vs.items ≡ map json_of_range ranges.now) }
{
    let mut values = Vec::new(alloc);
    for range in ranges {
        values.push(range_value(alloc, range)?)?;
    }
    Ok(values)
}

/// The ranges of a plan as a JSON value.
fn plan_value(alloc: Global, ranges: &[PlanRange]) -> Result<Value, AllocError>
    ensures { IfOk result (λ v. view v ≡ json_of_plan ranges.now) }
{
    let ranges = Value::Array(range_values(alloc, ranges)?);
    json!(in alloc; {"plan": ranges})
}

/// The JSON text of the plan, without spaces: its ranges by rising key, neighbours of different
/// partitions. The error comes if an allocation failed.
pub fn plan_text(alloc: Global, plan: &Plan) -> Result<String, AllocError>
    ensures text { IfOk result (λ s. string_bytes s ≡ text_of_plan plan.now) }
    ensures reads { IfOk result (λ s. plan_of_text (string_bytes s) ≡ Ok plan.now) }
{
    // What the proof knows of plans: that of a plan's own ranges is the plan.
    one_list();
    one_answer();
    canonical_is_plan();
    answer_has_meaning();
    answer_needs_no_memory();
    plan_value(alloc, plan.ranges())?.to_string(alloc)
}
