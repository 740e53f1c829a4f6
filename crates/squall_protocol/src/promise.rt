//! What holds in every run.

ghost use Rattle.squall_protocol.specs.Worlds.{WorldValue};
ghost use Rattle.squall_protocol.specs.Promises.{IsReached, OneCarrier, TrueReports, RoutedIsLoaded, OneDestination, ChunksHaveNodes};
ghost use Rattle.squall_protocol.specs.Promises.{RoutesAreServed, MovesAreServed, AwaitedComes, OverIsThere, FirstRoutesAreHome, FirstMovesAreDue};

/// What holds at every moment of every run, whatever is lost, repeated or reordered.
///
/// Each key has one carrier: a partition that holds it, or one chunk on its way. All that a node
/// has heard did happen, in a course that was begun. So a key that a router sends to another
/// partition than its old one is loaded there. What a node has heard of the issues under a number
/// is either nothing, or both plans of the course that was begun under it. The keys that a source
/// has sent, and that are not loaded, go to one destination, in the sub-plan opened last.
///
/// A partition to which a router sends a key holds it, waits for it, or has given it and names the
/// partition to which it went. The partition that is named does the same, or has not heard of that
/// course yet. A partition that waits for a key gets it: the source that it names holds the key, or a
/// chunk on its way has it. Only a partition that knows a course as its newest which ended early waits
/// in vain, until it hears of the later one. Once the course begun last is over, each key is where its
/// new plan has it.
///
/// While there is one course, the first partition holds the key or has given it, and the one that it
/// names holds it or waits for it.
pub fn promises()
    ensures one_carrier { (w : WorldValue) → IsReached w → OneCarrier w }
    ensures true_reports { (w : WorldValue) → IsReached w → TrueReports w }
    ensures routed_is_loaded { (w : WorldValue) → IsReached w → RoutedIsLoaded w }
    ensures one_destination { (w : WorldValue) → IsReached w → OneDestination w }
    ensures chunks_have_nodes { (w : WorldValue) → IsReached w → ChunksHaveNodes w }
    ensures routes_are_served { (w : WorldValue) → IsReached w → RoutesAreServed w }
    ensures moves_are_served { (w : WorldValue) → IsReached w → MovesAreServed w }
    ensures awaited_comes { (w : WorldValue) → IsReached w → AwaitedComes w }
    ensures over_is_there { (w : WorldValue) → IsReached w → OverIsThere w }
    ensures first_routes_are_home { (w : WorldValue) → IsReached w → FirstRoutesAreHome w }
    ensures first_moves_are_due { (w : WorldValue) → IsReached w → FirstMovesAreDue w }
{}
