//! Messages, and what nodes are asked.

ghost use Rattle.squall_world.specs.Nets.{IsNet};
ghost use Rattle.squall_world.specs.Events.{IsSendIn, IsSendPartIn, IsDeliverIn, IsRouteIn, IsServeIn};

use crate::message::Message;
use crate::net::Net;
use crate::peer::Role;
use crate::refusal::refused;
use crate::reports::news;
use squall_board::Board;
use squall_key::{Key, PartId};
use squall_protocol::{Answer, Node, Refusal};
use std::alloc::AllocError;

impl Net {
    /// What the node knows becomes the next message.
    pub(crate) fn send(&mut self, node: Node) -> Result<Answer, AllocError>
        requires { IsNet self.old }
        ensures { IsSendIn self.old node result self.new }
    {
        let Some(from) = self.place(node) else {
            return refused(Refusal::NoSuch);
        };
        let peer = &self.peers[from];
        let mut known = Vec::new(self.alloc);
        known.extend_from_slice(&peer.known)?;
        let extra = peer.extra.copied(self.alloc)?;
        let index = self.messages.len();
        self.messages.push(Message { known, extra })?;
        Ok(Answer::Sent { index })
    }

    /// The board becomes the next message, if the node knows all that it tells.
    pub(crate) fn send_part(&mut self, node: Node, said: &Board) -> Result<Answer, AllocError>
        requires { IsNet self.old }
        ensures { IsSendPartIn self.old node said.now result self.new }
    {
        let Some(from) = self.place(node) else {
            return refused(Refusal::NoSuch);
        };
        let peer = &self.peers[from];
        if !peer.knows(said) {
            return refused(Refusal::NotKnown);
        }
        said.known();
        let extra = said.copied(self.alloc)?;
        let index = self.messages.len();
        self.messages.push(Message {
            known: Vec::new(self.alloc),
            extra,
        })?;
        Ok(Answer::Sent { index })
    }

    /// The node takes what the message tells and it does not know.
    pub(crate) fn deliver(&mut self, index: usize, node: Node) -> Result<Answer, AllocError>
        requires { IsNet self.old }
        ensures { IsDeliverIn self.old index node result self.new }
    {
        let Some(at) = self.place(node) else {
            return refused(Refusal::NoSuch);
        };
        let Some(message) = self.messages.get(index) else {
            return refused(Refusal::NoSuch);
        };
        let peer = &self.peers[at];
        if !peer.is_new(message) {
            return Ok(Answer::Delivered);
        }
        let mut news = news(self.alloc, &self.peers, &peer.known, &message.known)?;
        news.merge(&message.extra)?;
        self.peers[at].hear(self.alloc, &news, message)?;
        Ok(Answer::Delivered)
    }

    /// The partition to which the router sends the key.
    pub(crate) fn route(&self, router: u32, key: Key) -> Answer
        requires { IsNet self.now }
        ensures { IsRouteIn self.now router key result }
    {
        let Some(at) = self.place(Node::Router(router)) else {
            return Answer::Refused(Refusal::NoSuch);
        };
        let Role::Router(router) = &self.peers[at].role else {
            unreachable!();
        };
        Answer::Routed(router.route(key))
    }

    /// What the partition replies for the key.
    pub(crate) fn serve(&self, part: PartId, key: Key, after: u32) -> Answer
        requires { IsNet self.now }
        ensures { IsServeIn self.now part key after result }
    {
        let Some(at) = self.place(Node::Part(part)) else {
            return Answer::Refused(Refusal::NoSuch);
        };
        let Role::Part(part) = &self.peers[at].role else {
            unreachable!();
        };
        Answer::Served(part.serve(key, after))
    }
}
