//! What makes a cluster, and its seats.

ghost use Rattle.std.specs.Prelude.{◌≡◌, ◌<◌, length, Err, IfOk, IfErr, OnOk};
ghost use Rattle.squall_cluster_inbox.specs.Ends.{room_of};
ghost use Rattle.squall_cluster_desk.specs.Seats.{nothing_seen};
ghost use Rattle.squall_cluster_desk.specs.Start.{IsStartOf};
ghost use Rattle.squall_cluster_desk.specs.declared.places.SeatFault.TheVariants.{NoPlace};
ghost use Rattle.squall_cluster.specs.Faults.{InLimits, FaultOf};
ghost use Rattle.squall_cluster.specs.Owners.{Fresh, owning_with};

use crate::owner::Owner;
use squall_cluster_desk::{Places, Seat, SeatFault, Start};
use squall_cluster_inbox::{Constants, Sender};
use std::alloc::{AllocError, Global};
use std::marker::Model;
use std::sync::Wait;
use thiserror::Error;

/// Why there is no cluster.
#[derive(Debug, Drop, Error)]
pub enum ClusterFault {
    /// It has 1 to 64 senders.
    #[error("BadSenders")]
    BadSenders,
    /// It has at most 64 readers.
    #[error("BadReaders")]
    BadReaders,
    /// Its inbox has room for 1 to 65536 letters.
    #[error("BadCapacity")]
    BadCapacity,
    /// An allocation failed, or a count of owners is full: of the course, of the inbox or of the desk.
    #[error("NoMemory")]
    NoMemory,
}

/// How large a cluster is.
#[derive(Clone, Copy, Debug)]
pub struct Sizes {
    /// How many senders it has: 1 to 64.
    pub senders: usize,
    /// For how many readers it has places: at most 64.
    pub readers: usize,
    /// For how many letters its inbox has room: 1 to 65536.
    pub capacity: usize,
}

/// What makes the seats of a cluster. Threads may share it. Contracts see for how many readers it has
/// places.
#[derive(Drop)]
pub struct Cluster<K: Constants> {
    places: Places<K>,
}

impl<K: Constants> Model for Cluster<K> {
    ghost use Rattle.std.specs.Prelude.{ℕ};

    ghost Value = { ℕ };

    ghost view = { λ c. c.places };
}

/// A new cluster, in parts that go to their threads.
#[derive(Drop)]
pub struct Setup<K: Constants, R: Wait + Drop> {
    /// What makes its seats.
    pub cluster: Cluster<K>,
    /// Its senders, by rising number.
    pub senders: Vec<Sender<K>>,
    /// Its owner.
    pub owner: Owner<K, R>,
}

/// Whether a cluster may have these sizes.
fn check_limits(sizes: Sizes) -> Result<(), ClusterFault>
    ensures ok { OnOk result (InLimits sizes) }
    ensures fault { IfErr result (FaultOf sizes) }
{
    if sizes.senders == 0 || sizes.senders > 64 {
        return Err(ClusterFault::BadSenders);
    }
    if sizes.readers > 64 {
        return Err(ClusterFault::BadReaders);
    }
    if sizes.capacity == 0 || sizes.capacity > 65536 {
        return Err(ClusterFault::BadCapacity);
    }
    Ok(())
}

/// That many new senders of the owner. It fails (memory).
fn hire_all<K: Constants, R: Wait + Drop>(
    alloc: Global,
    owner: &mut Owner<K, R>,
    count: usize,
) -> Result<Vec<Sender<K>>, AllocError>
    requires { owner.old ≡ owning_with owner.old.inbox 0 }
    ensures fresh { IfOk result (λ senders. Fresh owner.new senders.items) }
    ensures count { IfOk result (λ senders. length senders.items ≡ count) }
    ensures inbox { owner.new.inbox ≡ owner.old.inbox }
{
    let mut senders = Vec::new(alloc);
    for _ in 0..count {
        senders.push(owner.hire()?)?;
    }
    Ok(senders)
}

impl<K: Constants> Cluster<K> {
    /// A new cluster, with that start and these sizes.
    ///
    /// If several faults apply, it answers the first of them, in the order of [`ClusterFault`].
    /// With 0 readers it keeps one place, which is never handed out.
    pub fn new<R: Wait + Drop>(
        rt: R,
        alloc: Global,
        start: Start,
        sizes: Sizes,
    ) -> Result<Setup<K, R>, ClusterFault>
        requires { IsStartOf K.book K.first K.opening start }
        ensures fresh { IfOk result (λ setup. Fresh setup.owner setup.senders.items) }
        ensures senders { IfOk result (λ setup. length setup.senders.items ≡ sizes.senders) }
        ensures places { IfOk result (λ setup. setup.cluster ≡ sizes.readers) }
        ensures room { IfOk result (λ setup. room_of setup.owner.inbox ≡ sizes.capacity) }
        ensures limits { OnOk result (InLimits sizes) }
        ensures fault { IfErr result (FaultOf sizes) }
    {
        check_limits(sizes)?;
        let Ok((mut owner, places)) = Owner::open(rt, alloc, start, sizes) else {
            return Err(ClusterFault::NoMemory);
        };
        let Ok(senders) = hire_all(alloc, &mut owner, sizes.senders) else {
            return Err(ClusterFault::NoMemory);
        };
        Ok(Setup {
            cluster: Cluster { places },
            senders,
            owner,
        })
    }

    /// A seat that has seen nothing. It answers [`SeatFault::NoPlace`] if each place is taken, and
    /// always in a cluster of no readers. It answers [`SeatFault::NoMemory`] if the count of the desk's
    /// owners is full. It allocates nothing, and after a fault nothing changed. A seat that is dropped
    /// gives its place back.
    pub fn seat(&self) -> Result<Seat<K>, SeatFault>
        ensures nothing_seen { IfOk result (λ seat. seat ≡ nothing_seen) }
        ensures places { OnOk result (0 < self.now) }
        ensures no_places { (self.now ≡ 0) → result ≡ Err NoPlace }
    {
        self.places.seat()
    }
}
