//! The spans in which two tables differ, written into a room.

ghost use Rattle.std.specs.Prelude.{◌≡◌, ◌≤◌, ℕ, nat_lt};
ghost use Rattle.squall_key.specs.Keys.{top};
ghost use Rattle.squall_plan.specs.Ranges.{owner_of};
ghost use Rattle.squall_c_changes.specs.Changes.{PutsChanges, differs};

use crate::laws::owners_are_partitions;
use crate::walk::Walk;
use squall_c_values::CSpan;
use squall_key::{Bound, Key};
use squall_table::RouteTable;

/// Writes the changes of the walk into the room, from its start on, as many as it holds, and answers
/// how many.
fn put_all(walk: Walk, room: &mut [CSpan]) -> usize
    requires { walk.at ≤ walk.hi }
    ensures { PutsChanges (owner_of walk.entry.old_table) (owner_of walk.entry.new_table) walk.entry.at walk.entry.hi room.old room.new result }
{
    let mut rest = walk;
    let mut count = 0;
    while count < room.len() {
        let Some(span) = rest.next() else {
            return count;
        };
        room[count] = span;
        count += 1;
    }
    count
}

/// Writes the span of all keys from rank `lo` on, below rank `hi`, into the room, if there is one and the
/// room holds it, and answers how many spans it wrote. It is what changes between routes that differ for
/// each key.
pub fn put_each_key(lo: u64, hi: u64, room: &mut [CSpan]) -> usize
    ensures { (before after : ℕ → ℕ) → ((k : ℕ) → differs before after k ≡ nat_lt k top) → PutsChanges before after lo hi room.old room.new result }
{
    let end = hi.min(Bound::TOP.rank());
    if end <= lo {
        return 0;
    }
    if room.is_empty() {
        return 0;
    }
    room[0] = CSpan { lo, hi: end };
    1
}

/// Writes the longest spans in which the tables have different partitions for each key into the room,
/// from its start on, as many as it holds, and answers how many. They are those of the keys from rank
/// `lo` on, below rank `hi`, by rising key. The walk goes once along the legs of both tables.
pub fn put_changes(
    before: &RouteTable,
    after: &RouteTable,
    lo: u64,
    hi: u64,
    room: &mut [CSpan],
) -> usize
    ensures { PutsChanges (owner_of before.now) (owner_of after.now) lo hi room.old room.new result }
{
    owners_are_partitions(before);
    owners_are_partitions(after);
    let Some(from) = Key::of_rank(lo) else {
        return 0;
    };
    if hi < lo {
        return 0;
    }
    put_all(
        Walk::new(before, after, from, hi.min(Bound::TOP.rank())),
        room,
    )
}
