//! Plans as texts.

ghost use Rattle.std.specs.Prelude.{◌≡◌, IfOk};
ghost use Rattle.squall_plan.specs.Form.{plan_of_text};

use squall_plan::{Plan, PlanFault};
use std::alloc::{AllocError, Global};

/// The plan of the text, or its fault; and apart from both a failed allocation.
pub fn read_plan(alloc: Global, text: &[u8]) -> Result<Result<Plan, PlanFault>, AllocError>
    ensures { IfOk result (λ plan. plan_of_text text.now ≡ plan) }
{
    match Plan::read(alloc, text) {
        Ok(plan) => Ok(Ok(plan)),
        Err(PlanFault::NoMemory) => Err(AllocError),
        Err(fault) => Ok(Err(fault)),
    }
}
