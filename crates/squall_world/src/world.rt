//! Worlds.

use crate::net::Net;
use std::marker::Model;

/// A leader, partitions and routers, which take events one by one. The leader begins
/// reconfigurations and opens their sub-plans. Partitions send keys, load them and report. Messages
/// bring what was reported to any node, in any order, any number of times, or never.
///
/// Chunks and messages are counted from 0, and stay: each may come again.
///
/// Contracts see a world through `view`: the plans, what each partition holds, gave and loaded, what
/// each node has heard, and the messages and chunks. Every world is one to which a run leads, and
/// `World::promised` says what holds in it.
#[derive(Drop)]
pub struct World {
    pub(crate) net: Net,
}

impl Model for World {
    ghost use Rattle.squall_world.specs.Nets.{NetValue};
    ghost use Rattle.squall_world.specs.Runs.{IsWorld};

    ghost Value = { NetValue };

    ghost view = { λ w. w.net };

    ghost invariant = { λ w. IsWorld w.net };
}
