//! Laws, each the contract of a function that does nothing.

ghost use Rattle.squall_nodes.specs.PartCalls.{ServesByStep, GivesByStep, GivesAtByStep, ClosesByStep, LoadsByStep, FinishesByStep, AbsorbsByStep};
ghost use Rattle.squall_nodes.specs.LeaderCalls.{OpensByStep, BeginsByStep, BeginsFromByStep, LeaderAbsorbsByStep};
ghost use Rattle.squall_nodes.specs.RouterCalls.{RoutesByStep, RouterAbsorbsByStep};
ghost use Rattle.squall_nodes.specs.Late.{LateRoutesByStep, LateAbsorbsByStep};
ghost use Rattle.squall_nodes.specs.Resumed.{OpensAgain};
ghost use Rattle.squall_nodes.specs.Made.{NewPartsAreParts, FirstSystemsAreSystems};
ghost use Rattle.squall_nodes.specs.Systems.{SystemsAreWorlds, RebuiltPartsStand, ReportsMayBeSent, BoardsMayBeSent};
ghost use Rattle.squall_nodes.specs.Kept.{KeysAreSomewhere, ReportsAreTrue, RoutedKeysAreLoaded, SourcesFeedOne, ChunksHaveParts};
ghost use Rattle.squall_nodes.specs.Kept.{RoutersAreRight, MovesAreRight, AwaitedKeysCome, KeysAreWhereDue, FirstRoutersAreHome, MovesAreDue};

use squall_protocol::promises;

/// Each call of a partition is a step of any world in which the value stands for a partition. The
/// step has the corresponding answer. After it the new value stands for that partition, and other
/// values for other nodes as before. A call for which memory was missing is no step.
pub fn a_part_is_a_partition()
    ensures serving { ServesByStep }
    ensures giving { GivesByStep }
    ensures giving_at { GivesAtByStep }
    ensures closing { ClosesByStep }
    ensures loading { LoadsByStep }
    ensures finishing { FinishesByStep }
    ensures absorbing { AbsorbsByStep }
{}

/// Each call of the leader is a step of any world in which the value stands for the leader.
pub fn a_leader_is_the_leader()
    ensures opening { OpensByStep }
    ensures beginning { BeginsByStep }
    ensures beginning_from { BeginsFromByStep }
    ensures absorbing { LeaderAbsorbsByStep }
{}

/// Each call of a router is a step of any world in which the value stands for a router.
pub fn a_router_is_a_router()
    ensures routing { RoutesByStep }
    ensures absorbing { RouterAbsorbsByStep }
{}

/// A router may be opened later, with any course that was begun in place of the first. It sends keys
/// where a router of the world does that has heard of that course and of all else that it heard. To
/// absorb a board is a step then, too, in a world that is reached.
pub fn a_late_router_is_a_router()
    ensures routing { LateRoutesByStep }
    ensures absorbing { LateAbsorbsByStep }
{
    promises();
}

/// A leader that is resumed in the midst of a course opens sub-plans that the leader of the world has
/// opened before, and then what that one may open.
pub fn a_resumed_leader_opens_again()
    ensures { OpensAgain }
{}

/// The first values of nodes keep the invariants of their types: those of partitions that a later
/// plan names first, and all those with which a system begins.
pub fn new_nodes_are_nodes()
    ensures parts { NewPartsAreParts }
    ensures systems { FirstSystemsAreSystems }
{}

/// Beside a system that came about by calls of its nodes there is a world that comes about by a run,
/// for whose nodes the values of the system stand. So all that [`promises`] states holds of it.
pub fn a_system_is_a_world()
    ensures { SystemsAreWorlds }
{}

/// A partition that is rebuilt from the log of its calls stands for what the one before it stood for:
/// it may take its place at any moment. By `squall_replay::laws::part_replay` no call tells them
/// apart.
pub fn a_rebuilt_part_is_that_partition()
    ensures { RebuiltPartsStand }
{}

/// A node may send any part of what its board tells. Such a part is a report that the node has just
/// made, if no other issue was known under a number that it issues, and so is the whole board.
pub fn parts_may_be_sent()
    ensures report { ReportsMayBeSent }
    ensures board { BoardsMayBeSent }
{}

/// What is promised of worlds, in the words of the nodes of a system.
///
/// Each key has one carrier: a partition that holds it, or a chunk that its destination has not
/// loaded. What nodes have heard did happen. A key that a router sends away from its old partition
/// is loaded where it sends it. A source feeds one destination at a time, and both ends of a chunk
/// are there.
///
/// The partition to which a router sends a key, or a move points, is there and gives a reply that
/// leads on, then and at every later moment. A partition that waits for a key gets it: the source
/// that it names holds the key, or a chunk on its way from there has it. Once the leader's course is
/// over, each key is where the new plan has it. While there is one course, the first partition holds
/// the key or has given it, and the one that it names holds it or waits for it.
pub fn systems_keep_promises()
    ensures one_carrier { KeysAreSomewhere }
    ensures true_reports { ReportsAreTrue }
    ensures routed_is_loaded { RoutedKeysAreLoaded }
    ensures one_destination { SourcesFeedOne }
    ensures chunks_have_nodes { ChunksHaveParts }
    ensures routes_are_served { RoutersAreRight }
    ensures moves_are_served { MovesAreRight }
    ensures awaited_comes { AwaitedKeysCome }
    ensures over_is_there { KeysAreWhereDue }
    ensures first_routes_are_home { FirstRoutersAreHome }
    ensures first_moves_are_due { MovesAreDue }
{
    promises();
}
