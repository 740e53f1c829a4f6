//! What the desk of a cluster shows, as a router of a world.

ghost use Rattle.squall_cluster_tie.specs.Desks.{PublishesByDelivery, LooksByRoute};

use squall_board::Board;

/// A desk does what one router of a world does. To publish a letter is the world's step that
/// delivers it to that router as a message. A look of a seat is the step in which that router sends
/// a key to a partition, in the state that the seat saw.
pub fn a_desk_is_a_router(opening: &Board)
    ensures publishing { PublishesByDelivery opening.now }
    ensures looking { LooksByRoute opening.now }
{
    opening.known();
}
