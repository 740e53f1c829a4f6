//! The legs about a set of keys.

ghost use Rattle.std.specs.Prelude.{◌≡◌, ◌≤◌, true, IsTrue};
ghost use Rattle.squall_span.specs.Spans.{interval};
ghost use Rattle.squall_plan.specs.Ranges.{IsCanonical};
ghost use Rattle.squall_blocks.specs.Entries.{last_from, up_to};
ghost use Rattle.squall_table.specs.LegEntries.{legs_from};
ghost use Rattle.squall_table.specs.Reach.{is_near, legs_near};

use crate::entries::bound_before;
use squall_blocks::BlocksRef;
use squall_key::{Bound, PartId};
use squall_span::SpanSet;

/// Whether the keys from `lo` to `hi` share one with the set, or border on a span of it. Only the
/// answer `true` is certain.
fn is_near(set: &SpanSet, lo: Bound, hi: Bound) -> bool
    requires order { lo ≤ hi }
    ensures { IsTrue result → is_near set.now (interval lo hi) ≡ true }
{
    let Some(span) = set.first_beyond(bound_before(lo)) else {
        return false;
    };
    span.lo().rank() <= hi.rank() && lo.rank() <= span.hi().rank()
}

/// How many legs from `from` to `to` are taken up for the set. Each of them shares a key with the
/// set, or borders on a span of it, and is counted once.
pub(crate) fn near_count(
    table: &BlocksRef<'_, PartId>,
    set: &SpanSet,
    from: Bound,
    to: Bound,
) -> usize
    requires canonical { IsCanonical (legs_from 0 table.now) }
    requires begins { last_from 0 (up_to from table.now) ≡ from }
    ensures { result ≤ legs_near set.now (legs_from 0 table.now) }
{
    let mut reach = from;
    let mut count = 0;
    let mut rest = table.iter_from(from);
    while reach.rank() < to.rank() {
        let Some(entry) = rest.next() else {
            return count;
        };
        if is_near(set, reach, entry.0) {
            count += 1;
        }
        reach = entry.0;
    }
    count
}
