//! For which keys two views answer differently.

ghost use Rattle.std.specs.Prelude.{None, Some};
ghost use Rattle.squall_c_changes.specs.Changes.{PutsChanges};
ghost use Rattle.squall_c.specs.Views.{seen};

use crate::views::{View, ViewSlot};
use squall_c_changes::{owners_are_partitions, put_changes, put_each_key};
use squall_c_values::CSpan;

/// The changes between two views.
fn both_changes(before: &View, after: &View, lo: u64, hi: u64, room: &mut [CSpan]) -> usize
    ensures { PutsChanges (seen (Some before.now)) (seen (Some after.now)) lo hi room.old room.new result }
{
    owners_are_partitions(before.table.as_arc());
    owners_are_partitions(after.table.as_arc());
    put_changes(before.table.as_arc(), after.table.as_arc(), lo, hi, room)
}

/// The changes between a view and none: each key.
fn one_changes(view: &View, lo: u64, hi: u64, room: &mut [CSpan]) -> usize
    ensures opened { PutsChanges (seen None) (seen (Some view.now)) lo hi room.old room.new result }
    ensures closed { PutsChanges (seen (Some view.now)) (seen None) lo hi room.old room.new result }
{
    owners_are_partitions(view.table.as_arc());
    put_each_key(lo, hi, room)
}

/// Writes the longest spans of keys from rank `lo` on, below rank `hi`, for which the views have different
/// routes, into the room, by rising key, as many as it holds, and answers how many. Without a view each
/// key is routed nowhere.
pub(crate) fn view_changes(
    before: &ViewSlot,
    after: &ViewSlot,
    lo: u64,
    hi: u64,
    room: &mut [CSpan],
) -> usize
    ensures { PutsChanges (seen before.now.view) (seen after.now.view) lo hi room.old room.new result }
{
    match (&before.view, &after.view) {
        (Some(before), Some(after)) => both_changes(before, after, lo, hi, room),
        (Some(view), None) | (None, Some(view)) => one_changes(view, lo, hi, room),
        (None, None) => 0,
    }
}
