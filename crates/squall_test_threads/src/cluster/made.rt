//! A cluster that is made while an allocation fails.

ghost use Rattle.squall_cluster_desk.specs.Start.{IsStartOf};

use super::{Origin, board, course, load};
use squall_board::Board;
use squall_cluster::{Cluster, ClusterFault, Constants, Sizes, Start};
use std::alloc::Global;
use std::marker::Brand;
use std::sync::Wait;
use std::test::Fail;

/// What a cluster begins with, and a copy of its board.
#[derive(Drop)]
struct Kept {
    origin: Origin,
    copy: Board,
}

/// Course 1 and the board of one load, twice. None if an allocation fails.
fn origin_and_copy(alloc: Global) -> Option<Kept> {
    let first = course(alloc)?;
    let opening = board(alloc, &[load()?])?;
    let copy = opening.copied(alloc).ok()?;
    Some(Kept {
        origin: Origin { first, opening },
        copy,
    })
}

/// Whether a cluster of two senders and two readers is made, which hands out a seat, or is refused as
/// NoMemory.
fn made_or_refused<K: Constants, R: Wait>(rt: &R, alloc: Global, start: Start) -> bool
    requires { IsStartOf K.book K.first K.opening start }
{
    let sizes = Sizes {
        senders: 2,
        readers: 2,
        capacity: 3,
    };
    match Cluster::<K>::new(rt, alloc, start, sizes) {
        Ok(setup) => setup.senders.len() == 2 && setup.cluster.seat().is_ok(),
        Err(fault) => matches!(fault, ClusterFault::NoMemory),
    }
}

#[test]
fn tolerant_cluster_made(rt: HostRuntime) -> Result<(), Fail> {
    let Some(kept) = origin_and_copy(rt.alloc()) else {
        return Ok(());
    };
    let right = made_or_refused::<Brand, _>(&rt, rt.alloc(), kept.origin.start());
    assert!(rt; right && kept.origin.opening == kept.copy);
    assert!(rt; kept.origin.first.number() == 1 && kept.origin.first.subplans() == 1);
    Ok(())
}
