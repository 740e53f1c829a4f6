//! The example of the crate's first page.

ghost use Rattle.std.specs.Prelude.{◌≡◌, None};
ghost use Rattle.squall_cluster_desk.specs.Start.{IsStartOf};

use super::{empty_origin, load_letter, opened};
use squall_cluster::{Cluster, Constants, Letter, Owner, Seat, Sender, Start};
use squall_key::{Key, PartId};
use std::alloc::Global;
use std::marker::Brand;
use std::process::Abort;
use std::sync::Wait;
use std::test::Fail;

/// The seat sends 2:0 to its new partition, once the letter of its load is posted and published.
fn routes_by_a_letter<K: Constants, R: Abort + Wait>(
    rt: &R,
    sender: &mut Sender<K>,
    owner: &mut Owner<K, &R>,
    seat: &mut Seat<K>,
    letter: Letter,
) -> Result<(), Fail>
    requires { K.allowed ≡ None }
{
    let key = Key::new(2, 0).ok_or("a key")?;
    assert!(rt; sender.post(rt, letter).is_ok());
    seat.learn(&owner.turn()?.notice);
    assert!(rt; seat.route(key) == PartId::new(3));
    Ok(())
}

/// The same with a seat of the cluster, and the letter of the load.
fn routes_by_the_load<K: Constants, R: Abort + Wait>(
    rt: &R,
    alloc: Global,
    cluster: &Cluster<K>,
    sender: &mut Sender<K>,
    owner: &mut Owner<K, &R>,
) -> Result<(), Fail>
    requires { K.allowed ≡ None }
{
    let mut seat = cluster.seat().ok().ok_or("a seat")?;
    let letter = load_letter(alloc).ok_or("a letter")?;
    routes_by_a_letter(rt, sender, owner, &mut seat, letter)
}

/// The same with a new cluster for one reader.
fn runs<K: Constants, R: Abort + Wait>(rt: &R, alloc: Global, start: Start) -> Result<(), Fail>
    requires start { IsStartOf K.book K.first K.opening start }
    requires allowed { K.allowed ≡ None }
{
    let mut pair = opened::<K, &R>(rt, alloc, start, 1, 1).ok_or("a cluster")?;
    let all = &mut pair;
    routes_by_the_load(rt, alloc, &all.cluster, &mut all.first, &mut all.owner)
}

#[test]
fn letter_routes(rt: HostRuntime) -> Result<(), Fail> {
    let origin = empty_origin(rt.alloc()).ok_or("an origin")?;
    runs::<Brand, _>(&rt, rt.alloc(), origin.start())
}
