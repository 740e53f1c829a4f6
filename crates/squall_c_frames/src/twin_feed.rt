//! Feeds that hear a piece before they take it.

ghost use Rattle.std.specs.Prelude.{◌≡◌, ◌↔◌, true, Err, IfOk, OnOk, OnErr, length};
ghost use Rattle.squall_wire.specs.declared.feed.FeedFault.TheVariants.{Failed};
ghost use Rattle.squall_wire.specs.Hearing.{HearsOn, new_feed};

use squall_wire::{Feed, FeedFault, Heard};
use std::alloc::Global;
use std::marker::Model;

/// A feed with a twin, which takes each piece first. So what a piece brings is known while the feed
/// can still stay as it is, and the bytes that wait need not be copied for it.
///
/// Contracts see it as the feed.
#[derive(Drop)]
pub struct TwinFeed {
    /// What was taken.
    feed: Feed,
    /// A feed that has taken the same, if there is one.
    twin: Option<Feed>,
}

impl Model for TwinFeed {
    ghost use Rattle.std.specs.Prelude.{◌≡◌, IfSome};
    ghost use Rattle.squall_wire.specs.Hearing.{FeedValue};

    ghost Value = { FeedValue };

    ghost view = { λ t. t.feed };

    ghost invariant = { λ t. IfSome t.twin (λ twin. twin ≡ t.feed) };
}

impl TwinFeed {
    /// A feed that has taken nothing. It allocates nothing.
    pub fn new(alloc: Global) -> TwinFeed
        ensures { result ≡ new_feed }
    {
        TwinFeed::of(Feed::new(alloc))
    }

    /// That feed. Its twin is made when the next piece comes.
    pub fn of(feed: Feed) -> TwinFeed
        ensures { result ≡ feed }
    {
        TwinFeed { feed, twin: None }
    }

    /// How many bytes wait for the rest of their frame: 0 if the stream can end here, or a fault has
    /// ended it.
    pub fn waiting(&self) -> usize
        ensures { result ≡ length self.now.waiting }
    {
        self.feed.waiting()
    }

    /// What is heard in the next piece of the stream, and a feed that has taken the piece. This one
    /// stays as it is. `Failed` where a fault ended the stream before.
    pub fn try_piece(&mut self, alloc: Global, piece: &[u8]) -> Result<(Heard, Feed), FeedFault>
        ensures heard { IfOk result (λ x. HearsOn self.old piece.now x.0.messages.items x.0.fault x.1) }
        ensures failed { result ≡ Err Failed ↔ (self.old.failed ≡ true) }
        ensures same { self.new ≡ self.old }
    {
        if self.feed.failed() {
            return Err(FeedFault::Failed);
        }
        let mut ahead = match self.twin.take() {
            Some(twin) => twin,
            None => self.feed.copied(alloc)?,
        };
        let heard = ahead.push(piece)?;
        Ok((heard, ahead))
    }

    /// Takes the piece too in which the other feed, made by `try_piece`, has heard that. It stays
    /// unchanged if an allocation fails.
    pub fn follow(&mut self, piece: &[u8], heard: &Heard, ahead: Feed) -> Result<(), FeedFault>
        requires { HearsOn self.old piece.now heard.now.messages.items heard.now.fault ahead }
        ensures taken { OnOk result (self.new ≡ ahead) }
        ensures failed { result ≡ Err Failed ↔ (self.old.failed ≡ true) }
        ensures err { OnErr result (self.new ≡ self.old) }
    {
        let _again = self.feed.push(piece)?;
        self.twin = Some(ahead);
        Ok(())
    }
}
