//! Legs of a table, cut to two ranks, as C sees them.

ghost use Rattle.std.specs.Prelude.{◌≡◌, length, take};
ghost use Rattle.squall_plan.specs.Ranges.{owner_of};
ghost use Rattle.squall_c_values.specs.Rooms.{over};
ghost use Rattle.squall_c.specs.Showing.{cut_leg, cut_legs, legs_by, that_fit};

use squall_c_values::CLeg;
use squall_key::{Bound, Key};
use squall_table::{Leg, Legs, RouteTable};

/// What lies of the leg between two ranks.
fn cut_leg(leg: &Leg, lo: u64, hi: u64) -> CLeg
    ensures { result ≡ cut_leg lo hi leg.now }
{
    CLeg {
        lo: leg.span.lo().rank().max(lo),
        hi: leg.span.hi().rank().min(hi),
        part: leg.part.get(),
    }
}

/// Puts what lies of the legs between two ranks into the room, from its start on, up to the last that lies
/// below the second or that the room holds. Answers how many those are.
fn cut_into(legs: Legs, lo: u64, hi: u64, room: &mut [CLeg]) -> usize
    ensures legs { room.new ≡ over (take (length room.old) (cut_legs lo hi legs.entry)) room.old }
    ensures count { result ≡ length (take (length room.old) (cut_legs lo hi legs.entry)) }
{
    let mut rest = legs;
    let mut count = 0;
    while count < room.len() {
        let Some(leg) = rest.next() else {
            return count;
        };
        if leg.span.lo().rank() >= hi {
            return count;
        }
        room[count] = cut_leg(&leg, lo, hi);
        count += 1;
    }
    count
}

/// Puts the legs of the table from rank `lo` to rank `hi` into the room, from its start on, as many as it
/// holds, and answers how many those are. None where no key lies between them, or one is no bound.
pub(crate) fn put_legs(table: &RouteTable, lo: u64, hi: u64, room: &mut [CLeg]) -> usize
    ensures legs { room.new ≡ over (that_fit (legs_by (owner_of table.now) lo hi) room.old) room.old }
    ensures count { result ≡ length (that_fit (legs_by (owner_of table.now) lo hi) room.old) }
{
    let Some(_) = Bound::of_rank(hi) else {
        return 0;
    };
    let Some(from) = Key::of_rank(lo) else {
        return 0;
    };
    if lo >= hi {
        return 0;
    }
    cut_into(table.entries_from(from), lo, hi, room)
}
