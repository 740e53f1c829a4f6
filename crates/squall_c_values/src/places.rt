//! The places of keys, as C sees them.

ghost use Rattle.std.specs.Prelude.{◌≡◌, length};
ghost use Rattle.squall_plan.specs.Ranges.{owner_of};
ghost use Rattle.squall_c_values.specs.Rooms.{over};
ghost use Rattle.squall_c_values.specs.Values.{place_at, places_that_fit, no_key, sub_or_none};

use squall_course::Course;
use squall_key::Key;
use squall_table::RouteTable;

/// In the place of a number: none.
const NONE: u32 = 4294967295;

/// The place of a key. If `part` is `dest`, it stays there until another course begins. If they
/// differ, the key moves, and its load is not known yet. For a rank that is no key's all are 2^32 - 1.
#[repr(C)]
#[derive(Clone, Copy, Debug, PartialEq, Eq)]
pub struct CPlace {
    /// The partition to ask.
    pub part: u32,
    /// Its partition in the old plan.
    pub source: u32,
    /// Its partition in the new plan.
    pub dest: u32,
    /// The sub-plan in which it moves, or 2^32 - 1 if it does not move.
    pub sub: u32,
}

/// The place of a rank that is no key's.
fn no_key() -> CPlace
    ensures { result ≡ no_key }
{
    CPlace {
        part: NONE,
        source: NONE,
        dest: NONE,
        sub: NONE,
    }
}

/// The sub-plan, or 2^32 - 1.
fn sub_or_none(sub: Option<u32>) -> u32
    ensures { result ≡ sub_or_none sub }
{
    match sub {
        Some(sub) => sub,
        None => NONE,
    }
}

/// The place of the key of that rank.
fn place_at(course: &Course, table: &RouteTable, rank: u64) -> CPlace
    ensures { result ≡ place_at course.now (owner_of table.now) rank }
{
    let Some(key) = Key::of_rank(rank) else {
        return no_key();
    };
    let owners = course.owners(key);
    CPlace {
        part: table.owner(key).get(),
        source: owners.old.get(),
        dest: owners.new.get(),
        sub: sub_or_none(owners.sub),
    }
}

/// Writes the places of the keys of these ranks into the room, as many as it holds, and answers how
/// many. The table is one of the course.
pub fn put_places(course: &Course, table: &RouteTable, ranks: &[u64], room: &mut [CPlace]) -> usize
    ensures places { room.new ≡ over (places_that_fit course.now (owner_of table.now) ranks.now room.old) room.old }
    ensures count { result ≡ length (places_that_fit course.now (owner_of table.now) ranks.now room.old) }
{
    let count = ranks.len().min(room.len());
    for at in 0..count {
        room[at] = place_at(course, table, ranks[at]);
    }
    count
}
