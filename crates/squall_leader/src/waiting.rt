//! Whom a leader waits for.

ghost use Rattle.std.specs.Prelude.{◌≡◌, ◌<◌};
ghost use Rattle.squall_key.specs.Keys.{part_limit};
ghost use Rattle.squall_leader.specs.Leaders.{waited_for};
ghost use Rattle.squall_leader.specs.Waiting.{awaits};

use squall_board::Board;
use squall_course::{Course, Move};
use squall_key::PartId;

/// Whether the board does not say the partition done to which the move goes.
fn is_waited_for(board: &Board, number: u32, sub: u32, one: &Move) -> bool
    ensures value { result ≡ awaits board.now number sub one.now.dest }
    ensures limit { one.now.dest < part_limit }
{
    let part = one.dest.get();
    !board.says_done(number, sub, part)
}

/// The least partition to which keys go in the sub-plan, and which the board does not say done. It
/// is the destination of the first such move of the sub-plan, by rising destination.
pub(crate) fn waited_for(course: &Course, board: &Board, sub: u32) -> Option<PartId>
    ensures { result ≡ waited_for course.now board.now sub }
{
    let number = course.number();
    for one in course.arrivals(sub) {
        if is_waited_for(board, number, sub, one) {
            return Some(one.dest);
        }
    }
    None
}
