//! Streams of frames that a leader behind a handle hears in pieces.

ghost use Rattle.std.specs.Prelude.{◌≡◌, ◌≢◌, [], OnOk, OnErr, Err};
ghost use Rattle.std.specs.List.{AllByRecursion};
ghost use Rattle.squall_wire.specs.declared.feed.FeedFault.TheVariants.{Failed};
ghost use Rattle.squall_wire.specs.Hearing.{HearsOn};
ghost use Rattle.squall_wire.specs.Messages.{IsMessage};
ghost use Rattle.squall_c_leaders.specs.Feeding.{heard_leader, fed_node, Feeds};

use crate::node::LeaderNode;
use squall_c_frames::{TwinFeed, alone, joined, keep_digest};
use squall_leader::Leader;
use squall_wire::{Feed, FeedFault, Heard, Message, WireFault};
use std::alloc::{AllocError, Global};

/// Has the leader hear all that the messages tell. It changes nothing if it fails. A delta that came
/// alone is absorbed as it is, since to join several costs a copy of each.
fn absorb_all(alloc: Global, leader: &mut Leader, messages: &[Message]) -> Result<(), AllocError>
    requires { AllByRecursion IsMessage messages.now }
    ensures ok { OnOk result (leader.new ≡ heard_leader leader.old messages.now) }
    ensures err { OnErr result (leader.new ≡ leader.old) }
{
    if let Some(delta) = alone(messages) {
        return leader.absorb(delta);
    }
    let delta = joined(alloc, messages)?;
    leader.absorb(&delta)
}

impl LeaderNode {
    /// Waits for what the piece leaves, in which no message ends. `heard` and `ahead` are what the feed
    /// answered of the piece. It changes nothing if it fails.
    fn wait_on(&mut self, piece: &[u8], heard: &Heard, ahead: Feed) -> Result<(), FeedFault>
        requires none { heard.now.messages.items ≡ [] }
        requires heard { HearsOn self.old.feed piece.now heard.now.messages.items heard.now.fault ahead }
        ensures waits { OnOk result (self.new ≡ fed_node self.old [] ahead) }
        ensures failed { result ≢ Err Failed }
        ensures err { OnErr result (self.new ≡ self.old) }
    {
        self.leader.known();
        self.feed.follow(piece, heard, ahead)?;
        Ok(())
    }

    /// Hears the messages, and waits for what the feed waits for. It changes nothing if it fails.
    fn take_messages(&mut self, messages: Vec<Message>, feed: Feed) -> Result<(), AllocError>
        requires { AllByRecursion IsMessage messages.items }
        ensures heard { OnOk result (self.new ≡ fed_node self.old messages.items feed) }
        ensures err { OnErr result (self.new ≡ self.old) }
    {
        absorb_all(self.alloc, &mut self.leader, &messages)?;
        // From here on nothing can fail.
        self.feed = TwinFeed::of(feed);
        keep_digest(&mut self.heard, messages);
        Ok(())
    }

    /// Takes a piece of a stream of frames, cut anywhere: the messages whose frames end in it are heard,
    /// all of them or none, up to the first fault, which is the answer. `Failed` if a fault ended the
    /// stream before. `NoMemory` if an allocation fails or a count of owners is full. An error changes
    /// nothing.
    pub fn feed(&mut self, piece: &[u8]) -> Result<Option<WireFault>, FeedFault>
        ensures { Feeds piece.now self.old result self.new }
    {
        let (heard, ahead) = self.feed.try_piece(self.alloc, piece)?;
        if heard.messages.is_empty() {
            self.wait_on(piece, &heard, ahead)?;
            return Ok(heard.fault);
        }
        let Heard { messages, fault } = heard;
        self.take_messages(messages, ahead)?;
        Ok(fault)
    }
}
