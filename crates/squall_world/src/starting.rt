//! Worlds as they begin.

ghost use Rattle.std.specs.Prelude.{◌≡◌, [], ◌∷◌, ◌++◌, IfOk, OnOk};
ghost use Rattle.std.specs.Arc.{arc_value};
ghost use Rattle.squall_board.specs.Boards.{empty_board};
ghost use Rattle.squall_router.specs.Routers.{router_with};
ghost use Rattle.squall_protocol.specs.Worlds.{first_parts as parts_named};
ghost use Rattle.squall_world.specs.declared.peer.Role.TheVariants.{Router as RouterRole};
ghost use Rattle.squall_world.specs.Nets.{IsRole, new_peer};
ghost use Rattle.squall_world.specs.Events.{IsFirst, leader_peer, router_peers, part_peers};
ghost use Rattle.squall_world.specs.Naming.{AreNoted, AreRoles};

use crate::leading::issue;
use crate::naming::{PARTS, mark, new_parts, note_places, repeated};
use crate::net::Net;
use crate::peer::{Peer, Role};
use squall_board::Board;
use squall_course::Course;
use squall_join::Shared;
use squall_leader::Leader;
use squall_router::Router;
use std::alloc::{AllocError, Global};
use std::sync::Arc;

/// The node of a leader that has begun the first course.
fn leader(alloc: Global, first: &Arc<Course>) -> Result<Peer, AllocError>
    requires { (arc_value first.now).number ≡ 1 }
    ensures node { IfOk result (λ p. p ≡ leader_peer (arc_value first.now).old (arc_value first.now).new) }
    ensures valid { IfOk result (λ p. IsRole p.role) }
{
    let leader = Leader::begun(alloc, first)?;
    // The proof learns that it is a leader.
    leader.known();
    let mut reports = Vec::new(alloc);
    reports.push(issue(alloc, 1, first.old_plan(), first.new_plan())?)?;
    let mut known = Vec::new(alloc);
    known.push(1)?;
    Ok(Peer {
        role: Role::Leader(leader),
        reports,
        known,
        extra: Board::new(alloc),
    })
}

/// The node of a router that knows the first course.
fn router(alloc: Global, first: &Arc<Course>) -> Result<Peer, AllocError>
    ensures node { IfOk result (λ p. p ≡ new_peer (RouterRole (router_with (arc_value first.now) empty_board))) }
    ensures valid { IfOk result (λ p. IsRole p.role) }
{
    let router = Router::new(alloc, first)?;
    // The proof learns that it is a router.
    router.known();
    Ok(Peer::new(alloc, Role::Router(router)))
}

/// The nodes of this many routers.
fn routers(alloc: Global, first: &Arc<Course>, count: u32) -> Result<Vec<Peer>, AllocError>
    ensures nodes { IfOk result (λ peers. peers.items ≡ router_peers (arc_value first.now) count) }
    ensures valid { IfOk result (λ peers. AreRoles peers.items) }
{
    let mut peers = Vec::new(alloc);
    for _number in 0..count {
        peers.push(router(alloc, first)?)?;
    }
    Ok(peers)
}

/// The nodes of the partitions that either plan names.
fn first_parts(
    alloc: Global,
    first: &Arc<Course>,
    places: &[Option<usize>],
) -> Result<Vec<Peer>, AllocError>
    requires { AreNoted [] places.now }
    ensures nodes { IfOk result (λ peers. peers.items ≡ part_peers (arc_value first.now) (parts_named (arc_value first.now).old (arc_value first.now).new)) }
    ensures valid { IfOk result (λ peers. AreRoles peers.items) }
{
    let mut named = repeated(alloc, PARTS, false)?;
    mark(&mut named, first.old_plan());
    mark(&mut named, first.new_plan());
    new_parts(alloc, first, &named, places)
}

/// The places of partitions while there are none.
fn no_places(alloc: Global) -> Result<Vec<Option<usize>>, AllocError>
    ensures { IfOk result (λ places. AreNoted [] places.items) }
{
    repeated(alloc, PARTS, None)
}

/// Adds the nodes at the end.
fn add_all(peers: &mut Vec<Peer>, mut more: Vec<Peer>) -> Result<(), AllocError>
    ensures { OnOk result (peers.new.items ≡ peers.old.items ++ more.items) }
{
    peers.append(&mut more)
}

/// The nodes of a world that begins with the leader.
fn first_nodes(
    alloc: Global,
    leader: Peer,
    first: &Arc<Course>,
    count: u32,
    places: &[Option<usize>],
) -> Result<Vec<Peer>, AllocError>
    requires leader { IsRole leader.role }
    requires places { AreNoted [] places.now }
    ensures nodes { IfOk result (λ peers. peers.items ≡ leader ∷ router_peers (arc_value first.now) count
        ++ part_peers (arc_value first.now) (parts_named (arc_value first.now).old (arc_value first.now).new)) }
    ensures valid { IfOk result (λ peers. AreRoles peers.items) }
{
    let routers = routers(alloc, first, count)?;
    let parts = first_parts(alloc, first, places)?;
    let mut peers = Vec::new(alloc);
    peers.push(leader)?;
    add_all(&mut peers, routers)?;
    add_all(&mut peers, parts)?;
    Ok(peers)
}

impl Net {
    /// The first course is begun, and each key lies at its partition of the old plan.
    pub(crate) fn new(alloc: Global, first: &Arc<Course>, routers: u32) -> Result<Net, AllocError>
        requires { (arc_value first.now).number ≡ 1 }
        ensures { IfOk result (λ net. IsFirst (arc_value first.now) routers net) }
    {
        let leader = leader(alloc, first)?;
        let mut places = no_places(alloc)?;
        let peers = first_nodes(alloc, leader, first, routers, &places)?;
        note_places(&peers, 0, &mut places);
        let mut courses = Vec::new(alloc);
        courses.push(Shared::new(Arc::try_clone(first)?))?;
        Ok(Net {
            alloc,
            courses,
            ended: Vec::new(alloc),
            peers,
            routers,
            places,
            messages: Vec::new(alloc),
            chunks: Vec::new(alloc),
        })
    }
}
