//! The nodes of a world, and what is on its way between them.

ghost use Rattle.std.specs.Prelude.{◌≡◌, length};
ghost use Rattle.std.specs.Arc.{arc_value};
ghost use Rattle.squall_world.specs.Nets.{IsNet, place_of, newest_of};
ghost use Rattle.squall_world.specs.Views.{ids_in};

use crate::message::Message;
use crate::peer::Peer;
use squall_course::Course;
use squall_join::Shared;
use squall_part::Chunk;
use squall_protocol::Node;
use std::alloc::Global;
use std::marker::Model;
use std::sync::Arc;

/// The nodes of a world, and what is on its way between them.
#[derive(Drop)]
pub(crate) struct Net {
    pub(crate) alloc: Global,
    /// The courses begun, the first at 0.
    pub(crate) courses: Vec<Shared<Course>>,
    /// How many sub-plans were opened of each course but the last.
    pub(crate) ended: Vec<u32>,
    /// The leader, then the routers, then the partitions in the order in which plans named them.
    pub(crate) peers: Vec<Peer>,
    /// How many routers there are.
    pub(crate) routers: u32,
    /// For each partition that there can be, its place among the nodes.
    pub(crate) places: Vec<Option<usize>>,
    pub(crate) messages: Vec<Message>,
    pub(crate) chunks: Vec<Chunk>,
}

impl Model for Net {
    ghost use Rattle.squall_world.specs.Nets.{NetValue};

    ghost Value = { NetValue };

    ghost view = { λ n. record {
      courses = n.courses.items;
      ended = n.ended.items;
      peers = n.peers.items;
      routers = n.routers;
      places = n.places.items;
      messages = n.messages.items;
      chunks = n.chunks.items;
    } };
}

impl Net {
    /// The place of the node.
    pub(crate) fn place(&self, node: Node) -> Option<usize>
        requires { IsNet self.now }
        ensures { result ≡ place_of self.now node }
    {
        match node {
            Node::Leader => Some(0),
            Node::Router(router) if router < self.routers => Some(router as usize + 1),
            Node::Router(_) => None,
            Node::Part(part) => self.places[part.get() as usize],
        }
    }

    /// How many partitions there are.
    pub(crate) fn parts(&self) -> usize
        requires { IsNet self.now }
        ensures { result ≡ length (ids_in self.now) }
    {
        self.peers.len() - 1 - self.routers as usize
    }

    /// The course begun last, to be shared.
    pub(crate) fn newest_shared(&self) -> &Arc<Course>
        requires { IsNet self.now }
        ensures { arc_value result.now ≡ newest_of self.now }
    {
        self.courses[self.courses.len() - 1].as_arc()
    }

    /// The course begun last.
    pub(crate) fn newest(&self) -> &Course
        requires { IsNet self.now }
        ensures { result.now ≡ newest_of self.now }
    {
        self.courses[self.courses.len() - 1].as_arc()
    }
}
