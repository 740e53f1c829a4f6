//! What a caller that is given a plan learns of it from the public contracts alone.

ghost use Rattle.std.specs.Prelude.{◌≡◌, ◌≤◌, ◌<◌, true, length};
ghost use Rattle.squall_key.specs.Keys.{part_limit};
ghost use Rattle.squall_plan.specs.Ranges.{names};
ghost use Rattle.squall_plan.specs.Arranged.{range_limit};

use squall_key::{Key, PartId};
use squall_plan::Plan;
use squall_plan::laws::{named_part_is_part, owner_is_named};

/// There are at most 4096 ranges in any plan.
pub fn count(plan: &Plan) -> usize
    ensures { length plan.now ≤ range_limit }
{
    plan.ranges().len()
}

/// The owner of any key is a partition that the plan names, one that there can be.
pub fn named_owner(plan: &Plan, key: Key) -> PartId
    ensures named { names plan.now result ≡ true }
    ensures part { result < part_limit }
{
    owner_is_named();
    named_part_is_part();
    let _ranges = plan.ranges();
    let _rank = key.rank();
    plan.owner(key)
}
