//! What a router says of itself in numbers.

ghost use Rattle.std.specs.Prelude.{◌≡◌, ◌∷◌, [], length, take};
ghost use Rattle.squall_c_values.specs.Rooms.{over};
ghost use Rattle.squall_c.specs.Telling.{TellsClash, PutsTally};

use crate::router::RouterSlot;
use squall_c_values::NO_COUNT;
use squall_status::{Tally, clashes_above};

/// 1 if different pairs of plans were issued under a number above that of the router's course, else 0:
/// also if there is no router. `NO_COUNT` if an allocation fails.
pub(crate) fn clashed(slot: &RouterSlot) -> usize
    ensures { TellsClash slot.now.station result }
{
    let Some(station) = &slot.station else {
        return 0;
    };
    match clashes_above(station.router.board(), station.router.course().number()) {
        Ok(true) => 1,
        Ok(false) => 0,
        Err(_) => NO_COUNT,
    }
}

/// Writes the tally into the room, if that holds one, and answers how many it wrote.
fn put_tally(tally: Tally, room: &mut [Tally]) -> usize
    ensures tallies { room.new ≡ over (take (length room.old) (tally ∷ [])) room.old }
    ensures count { result ≡ length (take (length room.old) (tally ∷ [])) }
{
    if room.is_empty() {
        return 0;
    }
    room[0] = tally;
    1
}

/// Writes how much the router heard into the room, and answers 1: 0 if there is no router, or the room holds
/// none, and `NO_COUNT` if an allocation fails. At all but 1 nothing is written.
pub(crate) fn counts(slot: &RouterSlot, room: &mut [Tally]) -> usize
    ensures { PutsTally slot.now.station room.old room.new result }
{
    let Some(station) = &slot.station else {
        return 0;
    };
    match Tally::of(station.router.board()) {
        Ok(tally) => put_tally(tally, room),
        Err(_) => NO_COUNT,
    }
}
