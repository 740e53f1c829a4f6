//! Streams of frames that a partition hears in pieces.

ghost use Rattle.std.specs.Prelude.{◌≡◌, ◌≢◌, [], OnOk, OnErr, Err};
ghost use Rattle.std.specs.List.{AllByRecursion};
ghost use Rattle.squall_wire.specs.declared.feed.FeedFault.TheVariants.{Failed};
ghost use Rattle.squall_wire.specs.Hearing.{HearsOn};
ghost use Rattle.squall_wire.specs.Messages.{IsMessage};
ghost use Rattle.squall_delta.specs.Pieces.{joined_boards};
ghost use Rattle.squall_replay.specs.Calls.{Absorbs};
ghost use Rattle.squall_c_frames.specs.Joined.{deltas_of};
ghost use Rattle.squall_c_parts.specs.PartFeeding.{AbsorbsAll, TakesAll, HearsInNode, Feeds};

use crate::hearing::absorb;
use crate::node::Node;
use squall_c_frames::{TwinFeed, alone, feed_status, joined, keep_digest};
use squall_part::Part;
use squall_wire::{Feed, FeedFault, Heard, Message, WireFault};
use std::alloc::{AllocError, Global};

/// Has the partition absorb all that the messages tell. If it fails, nothing changes. A delta that came
/// alone is absorbed as it is, since to join several costs a copy of each.
fn absorb_all(alloc: Global, part: &mut Part, messages: &[Message]) -> Result<(), AllocError>
    requires { AllByRecursion IsMessage messages.now }
    ensures ok { OnOk result (Absorbs part.old (joined_boards (deltas_of messages.now)) part.new) }
    ensures err { OnErr result (part.new ≡ part.old) }
{
    if let Some(delta) = alone(messages) {
        return absorb(part, delta);
    }
    let delta = joined(alloc, messages)?;
    absorb(part, &delta)
}

impl Node {
    /// Waits for what the piece leaves, in which no message ends. `heard` and `ahead` are what the feed
    /// answered of the piece. If it fails, nothing changes.
    #[tactic(auto, using(crate::proofs::Takes::takes_none))]
    fn wait_on(&mut self, piece: &[u8], heard: &Heard, ahead: Feed) -> Result<(), FeedFault>
        requires none { heard.now.messages.items ≡ [] }
        requires heard { HearsOn self.old.feed piece.now heard.now.messages.items heard.now.fault ahead }
        ensures waits { OnOk result (TakesAll self.old heard.now.messages.items ahead self.new) }
        ensures failed { result ≢ Err Failed }
        ensures err { OnErr result (self.new ≡ self.old) }
    {
        self.feed.follow(piece, heard, ahead)?;
        Ok(())
    }

    /// Takes the messages, and waits for what the feed waits for. If it fails, nothing changes.
    fn take_all(&mut self, messages: Vec<Message>, feed: Feed) -> Result<(), AllocError>
        requires { AllByRecursion IsMessage messages.items }
        ensures takes { OnOk result (AbsorbsAll self.old messages.items feed self.new) }
        ensures err { OnErr result (self.new ≡ self.old) }
    {
        absorb_all(self.alloc, &mut self.part, &messages)?;
        // From here on nothing can fail.
        self.feed = TwinFeed::of(feed);
        keep_digest(&mut self.heard, messages);
        Ok(())
    }

    /// Hears the messages whose frames end in the piece, all of them or none, and gives the fault of
    /// what follows them if there is one. If it fails, nothing changes.
    #[tactic(auto, using(crate::proofs::Takes::takes_some))]
    fn hear_piece(&mut self, piece: &[u8]) -> Result<Option<WireFault>, FeedFault>
        ensures { HearsInNode self.old piece.now result self.new }
    {
        let (heard, ahead) = self.feed.try_piece(self.alloc, piece)?;
        if heard.messages.is_empty() {
            self.wait_on(piece, &heard, ahead)?;
            return Ok(heard.fault);
        }
        let Heard { messages, fault } = heard;
        self.take_all(messages, ahead)?;
        Ok(fault)
    }

    /// Takes a piece of a stream of frames, cut anywhere: the messages whose frames end in it are taken,
    /// up to the first fault, which the status tells. `FAILED` if a fault ended the stream before.
    pub fn feed(&mut self, piece: &[u8]) -> u32
        ensures { Feeds piece.now self.old self.new result }
    {
        feed_status(self.hear_piece(piece))
    }
}
