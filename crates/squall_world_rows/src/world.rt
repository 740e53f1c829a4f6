//! Worlds with rows.

use crate::sent::Sent;
use squall_store::MemoryRows;
use squall_world::World;
use std::alloc::Global;
use std::marker::Model;

/// A world whose keys have rows.
///
/// Contracts see it through `seen`: the world, the row of each key at each partition, and that of each
/// key in each chunk. Its steps are those that `squall_rows` defines, and [`RowWorld::promised`] says
/// what holds in every such world.
#[derive(Drop)]
pub struct RowWorld {
    pub(crate) alloc: Global,
    pub(crate) world: World,
    /// The rows of each partition, by its number. Beyond the end of the list there is none yet.
    pub(crate) rows: Vec<MemoryRows>,
    /// By the chunks' indices.
    pub(crate) sent: Vec<Sent>,
}

impl Model for RowWorld {
    ghost use Rattle.squall_world_rows.specs.Seen.{RowNetValue};
    ghost use Rattle.squall_world_rows.specs.Runs.{IsRowWorld};

    ghost Value = { RowNetValue };

    ghost view = { λ w. record { net = w.world; rows = w.rows.items; sent = w.sent.items } };

    ghost invariant = { λ w. IsRowWorld (record { net = w.world; rows = w.rows.items; sent = w.sent.items }) };
}
