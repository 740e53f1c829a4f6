//! What holds in every world.

ghost use Rattle.squall_protocol.specs.Promises.{IsReached, OneCarrier, TrueReports, RoutedIsLoaded, OneDestination, ChunksHaveNodes};
ghost use Rattle.squall_protocol.specs.Promises.{RoutesAreServed, MovesAreServed, AwaitedComes, OverIsThere, FirstRoutesAreHome, FirstMovesAreDue};
ghost use Rattle.squall_world.specs.Views.{view};

use crate::world::World;
use squall_protocol::promises;

impl World {
    /// What is promised of each world to which a run leads holds of this one, whatever happened in it:
    /// `squall_protocol::promises` says it in words. The call does nothing. It states this to a
    /// caller who only borrows the world.
    pub fn promised(&self)
        ensures reached { IsReached (view self.now) }
        ensures one_carrier { OneCarrier (view self.now) }
        ensures true_reports { TrueReports (view self.now) }
        ensures routed_is_loaded { RoutedIsLoaded (view self.now) }
        ensures one_destination { OneDestination (view self.now) }
        ensures chunks_have_nodes { ChunksHaveNodes (view self.now) }
        ensures routes_are_served { RoutesAreServed (view self.now) }
        ensures moves_are_served { MovesAreServed (view self.now) }
        ensures awaited_comes { AwaitedComes (view self.now) }
        ensures over_is_there { OverIsThere (view self.now) }
        ensures first_routes_are_home { FirstRoutesAreHome (view self.now) }
        ensures first_moves_are_due { FirstMovesAreDue (view self.now) }
    {
        // The proof learns what every world keeps.
        let _net = &self.net;
        promises();
    }
}
