//! The partitions that plans name, and their places among the nodes.

ghost use Rattle.std.specs.Prelude.{◌≡◌, ◌≤◌, ◌<◌, ◌+◌, ◌||◌, ℕ, false, length, take, replicate, slice_index_or, IfOk};
ghost use Rattle.std.specs.Arc.{arc_value};
ghost use Rattle.squall_key.specs.Keys.{part_limit};
ghost use Rattle.squall_part.specs.Parts.{new_part};
ghost use Rattle.squall_plan.specs.Ranges.{names};
ghost use Rattle.squall_world.specs.declared.peer.Role.TheVariants.{Part};
ghost use Rattle.squall_world.specs.Nets.{IsRole, new_peer};
ghost use Rattle.squall_world.specs.Events.{part_peers};
ghost use Rattle.squall_world.specs.Naming.{AreNoted, AreRoles, is_missing, missing_below};

use crate::peer::{Peer, Role};
use squall_course::Course;
use squall_key::{PART_LIMIT, PartId};
use squall_part::Part as Partition;
use squall_plan::Plan;
use std::alloc::{AllocError, Global};
use std::sync::Arc;

/// How many partitions there can be.
pub(crate) const PARTS: usize = PART_LIMIT as usize;

/// A list of the same item, this many times.
pub(crate) fn repeated<T: Copy + Drop>(
    alloc: Global,
    count: usize,
    one: T,
) -> Result<Vec<T>, AllocError>
    ensures { IfOk result (λ all. all.items ≡ replicate count one) }
{
    let mut all = Vec::new(alloc);
    all.resize(count, one)?;
    Ok(all)
}

/// Marks the partitions that the plan names.
pub(crate) fn mark(named: &mut [bool], plan: &Plan)
    requires { length named.old ≡ part_limit }
    ensures length { length named.new ≡ part_limit }
    ensures marks { (p : ℕ) → slice_index_or named.new p false ≡ (slice_index_or named.old p false || names plan.now p) }
{
    for range in plan.ranges() {
        named[range.part.get() as usize] = true;
    }
}

/// The node of a partition that knows the first course, and has heard nothing.
fn part_node(alloc: Global, id: PartId, first: &Arc<Course>) -> Result<Peer, AllocError>
    ensures node { IfOk result (λ p. p ≡ new_peer (Part (new_part id (arc_value first.now)))) }
    ensures valid { IfOk result (λ p. IsRole p.role) }
{
    let part = Partition::new(alloc, id, first)?;
    // The proof learns that it is a partition.
    part.known();
    Ok(Peer::new(alloc, Role::Part(part)))
}

/// Whether the partition is named, and has no place yet.
fn is_missing(named: &[bool], places: &[Option<usize>], part: usize) -> bool
    requires named { part < length named.now }
    requires places { part < length places.now }
    ensures { result ≡ is_missing named.now places.now part }
{
    named[part] && places[part].is_none()
}

/// The nodes of the partitions that are named and have no place yet, in rising number.
pub(crate) fn new_parts(
    alloc: Global,
    first: &Arc<Course>,
    named: &[bool],
    places: &[Option<usize>],
) -> Result<Vec<Peer>, AllocError>
    requires named { length named.now ≡ part_limit }
    requires places { length places.now ≡ part_limit }
    ensures nodes { IfOk result (λ peers. peers.items ≡ part_peers (arc_value first.now) (missing_below (length named.now) named.now places.now)) }
    ensures valid { IfOk result (λ peers. AreRoles peers.items) }
{
    let mut peers = Vec::new(alloc);
    for part in 0..named.len() {
        if is_missing(named, places, part) {
            let id = PartId::new(part as u32).unwrap();
            peers.push(part_node(alloc, id, first)?)?;
        }
    }
    Ok(peers)
}

/// Notes the place of the node, if it is a partition that has none before it.
fn note_place(peers: &[Peer], at: usize, places: &mut [Option<usize>])
    requires at { at < length peers.now }
    requires noted { AreNoted (take at peers.now) places.old }
    ensures { AreNoted (take (at + 1) peers.now) places.new }
{
    let peer = &peers[at];
    if let Role::Part(part) = &peer.role {
        let place = &mut places[part.id().get() as usize];
        if place.is_none() {
            *place = Some(at);
        }
    }
}

/// Notes the places of the partitions, from a place on.
pub(crate) fn note_places(peers: &[Peer], from: usize, places: &mut [Option<usize>])
    requires from { from ≤ length peers.now }
    requires noted { AreNoted (take from peers.now) places.old }
    ensures { AreNoted peers.now places.new }
{
    for at in from..peers.len() {
        note_place(peers, at, places);
    }
}
