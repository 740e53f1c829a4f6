//! How many bytes issues have in a frame.

ghost use Rattle.std.specs.Prelude.{◌≡◌, ◌≤◌, ◌+◌, length};
ghost use Rattle.std.specs.Arc.{arc_value};
ghost use Rattle.squall_join.specs.Flats.{flat_map as flat_with};
ghost use Rattle.squall_wire.specs.Spelling.{spell_plan, spell_issued};

use squall_join::Flat;
use squall_plan::Plan;
use squall_report::Issue;
use std::sync::Arc;

/// How many bytes the plan has in a frame: its count, and 12 for each range.
fn plan_bytes(plan: &Plan) -> usize
    ensures bytes { result ≡ length (spell_plan plan.now) }
    ensures few { result ≤ 49156 }
{
    4 + 12 * plan.ranges().len()
}

/// How many bytes an issue has in a frame: its number, a mark, and both plans of a pair.
pub(crate) fn issue_bytes(issue: &Flat<Arc<Issue>>) -> usize
    ensures bytes { result ≡ 4 + length (spell_issued (flat_with arc_value issue.now)) }
    ensures few { result ≤ 98317 }
{
    match issue {
        Flat::Unknown => 4,
        Flat::One(issue) => 5 + (plan_bytes(issue.old()) + plan_bytes(issue.new_plan())),
        Flat::Clash => 5,
    }
}
