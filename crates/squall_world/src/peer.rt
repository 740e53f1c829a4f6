//! The nodes of a world.

ghost use Rattle.std.specs.Prelude.{◌≡◌, ◌↔◌, IsTrue, IsFalse, OnOk, OnErr};
ghost use Rattle.squall_world.specs.Nets.{role_board, new_peer};
ghost use Rattle.squall_world.specs.Events.{KnowsAll, IsTold, IsHearing, IsOld};

use crate::counts::{is_behind, make_room, raise};
use crate::message::Message;
use squall_board::{Board, Delta};
use squall_leader::Leader;
use squall_part::Part;
use squall_report::Report;
use squall_router::Router;
use std::alloc::{AllocError, Global};
use std::marker::Model;

/// What a node is.
#[derive(Drop)]
pub(crate) enum Role {
    Leader(Leader),
    Part(Part),
    Router(Router),
}

impl Role {
    /// What it has heard, and what it reported itself.
    pub(crate) fn board(&self) -> &Board
        ensures { result.now ≡ role_board self.now }
    {
        match self {
            Role::Leader(leader) => leader.board(),
            Role::Part(part) => part.board(),
            Role::Router(router) => router.board(),
        }
    }

    /// Takes every report of the delta. An error means that an allocation failed. Nothing has then
    /// changed.
    pub(crate) fn absorb(&mut self, delta: &Delta) -> Result<(), AllocError>
        ensures ok { OnOk result (IsTold self.old delta.now self.new) }
        ensures err { OnErr result (self.new ≡ self.old) }
    {
        match self {
            Role::Leader(leader) => {
                let done = leader.absorb(delta);
                // The proof learns that it is a leader still, and so with the others.
                leader.known();
                done
            }
            Role::Part(part) => {
                let done = part.absorb(delta);
                part.known();
                done
            }
            Role::Router(router) => {
                let done = router.absorb(delta);
                router.known();
                done
            }
        }
    }
}

/// A node, the reports that it made, and how many reports of each node it knows, its own among them.
/// What it heard in messages of a part of what their senders knew is kept beside these counts.
///
/// Its board is the join of the reports that it knows and of these parts. A message is a copy of its
/// counts and of the parts.
#[derive(Drop)]
pub(crate) struct Peer {
    pub(crate) role: Role,
    pub(crate) reports: Vec<Report>,
    /// By place; 0 beyond the end of the list.
    pub(crate) known: Vec<usize>,
    /// These parts, joined.
    pub(crate) extra: Board,
}

impl Model for Peer {
    ghost use Rattle.squall_world.specs.Nets.{PeerValue, peer_with};

    ghost Value = { PeerValue };

    ghost view = { λ p. peer_with p.role p.reports.items p.known.items p.extra };
}

impl Peer {
    /// A node that knows nothing.
    pub(crate) fn new(alloc: Global, role: Role) -> Peer
        ensures { result ≡ new_peer role }
    {
        Peer {
            role,
            reports: Vec::new(alloc),
            known: Vec::new(alloc),
            extra: Board::new(alloc),
        }
    }

    /// Whether the node knows all that the board tells.
    pub(crate) fn knows(&self, said: &Board) -> bool
        ensures { IsTrue result ↔ KnowsAll self.now said.now }
    {
        self.role.board().covers(said)
    }

    /// Whether the message tells something that the node does not know.
    pub(crate) fn is_new(&self, message: &Message) -> bool
        ensures { IsFalse result → IsOld self.now message.now }
    {
        if is_behind(&self.known, &message.known) {
            return true;
        }
        !self.knows(&message.extra)
    }

    /// Takes the news in, and knows what the message has beside what it knew before. An error means
    /// that an allocation failed. Nothing has then changed.
    pub(crate) fn hear(
        &mut self,
        alloc: Global,
        news: &Board,
        message: &Message,
    ) -> Result<(), AllocError>
        ensures ok { OnOk result (IsHearing self.old news.now message.now self.new) }
        ensures err { OnErr result (self.new ≡ self.old) }
    {
        let mut extra = self.extra.copied(alloc)?;
        extra.merge(&message.extra)?;
        make_room(&mut self.known, message.known.len())?;
        self.role.absorb(news)?;
        self.extra = extra;
        raise(&mut self.known, &message.known);
        Ok(())
    }
}
