//! The ranges that lead from one plan to another.

ghost use Rattle.std.specs.Prelude.{◌≡◌, IfOk, map};
ghost use Rattle.squall_plan_edit.specs.Moved.{owner_after, HasOwners};
ghost use Rattle.squall_plan_edit.specs.Apart.{range_of, apart};

use squall_course::{Course, Move};
use squall_plan::{Plan, PlanRange};
use std::alloc::{AllocError, Global};

/// The keys of the moves, each time with the partition to which they go.
fn ranges_of(alloc: Global, moves: &[Move]) -> Result<Vec<PlanRange>, AllocError>
    ensures { IfOk result (λ ranges. ranges.items ≡ map range_of moves.now) }
{
    let mut ranges = Vec::new(alloc);
    for change in moves {
        ranges.push(PlanRange {
            span: change.span,
            part: change.dest,
        })?;
    }
    Ok(ranges)
}

/// The ranges of keys that are at other partitions in the new plan, by rising key, each with its
/// partition there. They are the moves of the course from the old plan to the new one. If they are
/// given away in turn, the old plan becomes the new one. An error means that an allocation failed.
pub fn ranges_apart(alloc: Global, old: &Plan, new: &Plan) -> Result<Vec<PlanRange>, AllocError>
    ensures list { IfOk result (λ ranges. ranges.items ≡ apart old.now new.now) }
    ensures leads { IfOk result (λ ranges. HasOwners (owner_after ranges.items old.now) new.now) }
{
    // The proof learns what the type promises of the new plan.
    let _ranges = new.ranges();
    let course = Course::first(alloc, old, new)?;
    ranges_of(alloc, course.moves())
}
