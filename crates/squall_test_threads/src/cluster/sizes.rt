//! Clusters of several sizes: as many seats as readers, as many letters as the inbox has room for.

ghost use Rattle.std.specs.Prelude.{◌≡◌, None};
ghost use Rattle.squall_cluster_desk.specs.Start.{IsStartOf};

use super::{Origin, board, closed, empty_origin, load, load_letter, moving_key, opened};
use squall_board::Board;
use squall_cluster::{Cluster, Constants, Owner, Seat, SeatFault, Sender, Start};
use squall_key::{Key, PartId};
use std::alloc::Global;
use std::marker::Brand;
use std::process::Abort;
use std::sync::Wait;
use std::test::Fail;

/// How many readers a cluster has, and room for how many letters its inbox.
type Size = (usize, usize);

/// Sizes of clusters.
const SIZES: [Size; 5] = [(0, 1), (1, 2), (2, 3), (5, 16), (64, 1)];

/// Adds that many seats of the cluster. None if it has fewer.
fn push_seats<K: Constants>(
    cluster: &Cluster<K>,
    count: usize,
    seats: &mut Vec<Seat<K>>,
) -> Option<()> {
    for _ in 0..count {
        seats.push(cluster.seat().ok()?).ok()?;
    }
    Some(())
}

/// Whether all seats send the key to partition 1.
fn all_send<K: Constants>(seats: &mut [Seat<K>], key: Key) -> bool {
    seats
        .iter_mut()
        .all(|seat| seat.route(key) == PartId::new(1))
}

/// Whether there is no further seat once that many are out, all answer as they should, and one that is given
/// back is handed out again.
fn seats_are_right<K: Constants>(
    cluster: &Cluster<K>,
    count: usize,
    seats: &mut Vec<Seat<K>>,
) -> Option<bool> {
    push_seats(cluster, count, seats)?;
    let full = matches!(cluster.seat(), Err(SeatFault::NoPlace));
    let right = all_send(seats, moving_key()?);
    drop(seats.pop());
    let again = cluster.seat().is_ok();
    Some(full && right && again == (count > 0))
}

/// Whether the cluster hands out that many seats at once, each of which answers as it should, and then has no
/// place. None if an allocation fails.
fn has_seats<K: Constants>(alloc: Global, cluster: &Cluster<K>, count: usize) -> Option<bool> {
    let mut seats = Vec::new(alloc);
    seats_are_right(cluster, count, &mut seats)
}

/// Posts the load. None if the inbox is full, or if an allocation fails.
fn post_load<K: Constants, R: Wait>(rt: &R, alloc: Global, sender: &mut Sender<K>) -> Option<()>
    requires { K.allowed ≡ None }
    ensures inbox { sender.new.inbox ≡ sender.old.inbox }
{
    let letter = load_letter(alloc)?;
    sender.post(rt, letter).ok()
}

/// Posts that many letters. None if the inbox is full before, or if an allocation fails.
fn post_loads<K: Constants, R: Wait>(
    rt: &R,
    alloc: Global,
    sender: &mut Sender<K>,
    count: usize,
) -> Option<()>
    requires { K.allowed ≡ None }
    ensures inbox { sender.new.inbox ≡ sender.old.inbox }
{
    for _ in 0..count {
        post_load(rt, alloc, sender)?;
    }
    Some(())
}

/// Whether the inbox takes that many letters and no more, and one more after a turn.
fn has_room<K: Constants, R: Wait, W: Wait + Drop>(
    rt: &R,
    alloc: Global,
    sender: &mut Sender<K>,
    owner: &mut Owner<K, W>,
    count: usize,
) -> Option<bool>
    requires { K.allowed ≡ None }
    ensures inbox { (sender.new.inbox ≡ sender.old.inbox) × (owner.new.inbox ≡ owner.old.inbox) }
    ensures senders { (owner.new.made ≡ owner.old.made) × (owner.new.vouched ≡ owner.old.vouched) }
{
    post_loads(rt, alloc, sender, count)?;
    let full = post_load(rt, alloc, sender).is_none();
    let took = owner.turn().ok()?.took;
    post_load(rt, alloc, sender)?;
    let full_again = post_load(rt, alloc, sender).is_none();
    Some(full && took && full_again)
}

/// Whether a cluster of that size has as many seats and as much room as it should, and its board when it
/// is closed with all these letters. None if an allocation fails.
fn sized<K: Constants, R: Wait>(
    rt: &R,
    alloc: Global,
    start: Start,
    size: Size,
) -> Option<(bool, Board)>
    requires start { IsStartOf K.book K.first K.opening start }
    requires allowed { K.allowed ≡ None }
{
    let (readers, capacity) = size;
    let pair = opened::<K, &R>(rt, alloc, start, readers, capacity)?;
    let (mut first, second, mut owner) = (pair.first, pair.second, pair.owner);
    let seats = has_seats(alloc, &pair.cluster, readers)?;
    let room = has_room(rt, alloc, &mut first, &mut owner, capacity)?;
    let closed = closed(alloc, first, second, owner)?;
    Some((seats && room, closed))
}

/// Whether a cluster of that size is as it should be. None if an allocation fails.
fn is_right(rt: &impl Wait, alloc: Global, origin: &Origin, size: Size) -> Option<bool> {
    let (right, closed) = sized::<Brand, _>(rt, alloc, origin.start(), size)?;
    let wanted = board(alloc, &[load()?])?;
    Some(right && closed == wanted)
}

/// Each of these clusters is as it should be.
fn all_are_right<R: Abort + Wait>(rt: &R, alloc: Global, origin: &Origin) -> Result<(), Fail> {
    for (readers, capacity) in SIZES {
        let right = is_right(rt, alloc, origin, (readers, capacity));
        assert!(rt; right == Some(true), "{capacity}");
    }
    Ok(())
}

#[test]
fn sizes(rt: HostRuntime) -> Result<(), Fail> {
    let origin = empty_origin(rt.alloc()).ok_or("an origin")?;
    all_are_right(&rt, rt.alloc(), &origin)
}
