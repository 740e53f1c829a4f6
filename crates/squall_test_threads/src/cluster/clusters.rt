//! Two clusters at once. Races by the built program show clusters that end at once, and limits.

ghost use Rattle.squall_cluster_desk.specs.Start.{IsStartOf};

use super::{Origin, Pair, board, course, empty_origin, load, moving_key, opened};
use squall_cluster::{Cluster, Constants, Seat, Start};
use squall_key::{Key, PartId};
use std::alloc::Global;
use std::marker::Brand;
use std::sync::Wait;
use std::test::Fail;

/// Course 1 and the board of one load. None if an allocation fails.
fn loaded_origin(alloc: Global) -> Option<Origin> {
    let first = course(alloc)?;
    let opening = board(alloc, &[load()?])?;
    Some(Origin { first, opening })
}

/// The partitions to which two seats send a key.
type Routes = (Option<PartId>, Option<PartId>);

/// The partitions to which both seats send the key.
fn routes<J: Constants, K: Constants>(near: &mut Seat<J>, far: &mut Seat<K>, key: Key) -> Routes {
    (near.route(key), far.route(key))
}

/// The partitions to which a seat of the cluster, which is let go, and another seat send 2:0,
/// before that and after.
fn let_go<J: Constants, K: Constants, R: Wait>(
    one: Pair<J, &R>,
    far: &mut Seat<K>,
) -> Option<(Routes, Routes)> {
    let key = moving_key()?;
    let mut near = one.cluster.seat().ok()?;
    let before = routes(&mut near, far, key);
    drop(one.owner);
    Some((before, routes(&mut near, far, key)))
}

/// The partitions to which a seat of a cluster that is let go, and another seat send 2:0, before
/// that and after.
fn beside<J: Constants, K: Constants, R: Wait>(
    rt: &R,
    alloc: Global,
    here: Start,
    other: &Cluster<K>,
) -> Option<(Routes, Routes)>
    requires { IsStartOf J.book J.first J.opening here }
{
    let mut far = other.seat().ok()?;
    let one = opened::<J, &R>(rt, alloc, here, 1, 1)?;
    let_go(one, &mut far)
}

/// The partitions to which two clusters at once send 2:0, each by its own board, and then once the
/// first was let go. None if an allocation fails.
fn asked<J: Constants, K: Constants, R: Wait>(
    rt: &R,
    alloc: Global,
    here: Start,
    there: Start,
) -> Option<(Routes, Routes)>
    requires here { IsStartOf J.book J.first J.opening here }
    requires there { IsStartOf K.book K.first K.opening there }
{
    let other = opened::<K, &R>(rt, alloc, there, 1, 1)?;
    beside::<J, K, R>(rt, alloc, here, &other.cluster)
}

#[test]
fn two_at_once(rt: HostRuntime) -> Result<(), Fail> {
    let alloc = rt.alloc();
    let here = empty_origin(alloc).ok_or("an origin")?;
    let there = loaded_origin(alloc).ok_or("an origin")?;
    let asked = asked::<Brand, Brand, _>(&rt, alloc, here.start(), there.start());
    let before = (PartId::new(1), PartId::new(3));
    let after = (None, PartId::new(3));
    assert!(rt; asked == Some((before, after)));
    Ok(())
}
