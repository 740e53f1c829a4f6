//! Ranges of keys with a partition, as C sees them.

ghost use Rattle.std.specs.Prelude.{◌≡◌, length};
ghost use Rattle.squall_c_values.specs.Rooms.{over};
ghost use Rattle.squall_c_values.specs.Values.{c_leg, ranges_that_fit};

use crate::tail::tail_from;
use squall_plan::PlanRange;

/// The keys from rank `lo` on, below rank `hi`, and their partition.
#[repr(C)]
#[derive(Clone, Copy, Debug, PartialEq, Eq)]
pub struct CLeg {
    /// The rank of the least key.
    pub lo: u64,
    /// The rank above the greatest key.
    pub hi: u64,
    /// The partition.
    pub part: u32,
}

/// The range as C sees it.
fn leg_of(range: &PlanRange) -> CLeg
    ensures { result ≡ c_leg range.now }
{
    CLeg {
        lo: range.span.lo().rank(),
        hi: range.span.hi().rank(),
        part: range.part.get(),
    }
}

/// Writes the ranges into the room, from its start on, as many as it holds, and answers how many.
fn put_all(ranges: &[PlanRange], room: &mut [CLeg]) -> usize
    ensures ranges { room.new ≡ over (ranges_that_fit ranges.now 0 room.old) room.old }
    ensures count { result ≡ length (ranges_that_fit ranges.now 0 room.old) }
{
    let count = ranges.len().min(room.len());
    for at in 0..count {
        room[at] = leg_of(&ranges[at]);
    }
    count
}

/// Writes the ranges, from the place `from` on, into the room, as many as it holds, and answers how many.
pub fn put_ranges(ranges: &[PlanRange], from: usize, room: &mut [CLeg]) -> usize
    ensures ranges { room.new ≡ over (ranges_that_fit ranges.now from room.old) room.old }
    ensures count { result ≡ length (ranges_that_fit ranges.now from room.old) }
{
    put_all(tail_from(ranges, from), room)
}
