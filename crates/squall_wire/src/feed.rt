//! Messages from a stream of bytes that comes in pieces.

ghost use Rattle.std.specs.Prelude.{◌≡◌, ◌≢◌, ◌++◌, ◌↔◌, ◌≤◌, [], List, ℕ, length, true, false, Err, IfOk, OnErr, IsOk, Some};
ghost use Rattle.squall_wire.specs.declared.feed.FeedFault.TheVariants.{Failed, NoMemory};
ghost use Rattle.squall_wire.specs.FaultText.{text_of_feed_fault};
ghost use Rattle.squall_wire.specs.Hearing.{EndsIn, IsHeard, IsFeed, HearsOn, WaitsOn, feed_with, waiting_limit};
ghost use Rattle.squall_wire.specs.Reading.{message_at};

use crate::decoding::decode;
use crate::fault::WireFault;
use crate::message::Message;
use std::alloc::{AllocError, Global};
use std::error::Error;
use std::fmt;
use std::marker::Model;

/// What a feed heard in a piece.
#[derive(Drop)]
pub struct Heard {
    /// The messages whose frames ended in the piece, in the order of the stream.
    pub messages: Vec<Message>,
    /// The fault of what follows them, if there is one. It is neither `Short` nor `NoMemory`.
    pub fault: Option<WireFault>,
}

/// Why a feed took nothing.
#[derive(Clone, Copy, Debug, PartialEq, Eq)]
pub enum FeedFault {
    /// A fault ended the stream before.
    Failed,
    /// An allocation failed.
    NoMemory,
}

/// The name of the fault.
impl fmt::Display for FeedFault {
    ghost output = { λ e. Some (text_of_feed_fault e) };

    fn fmt<W: fmt::Write>(&self, f: &mut fmt::Formatter<W>) -> fmt::Result {
        match self {
            FeedFault::Failed => write!(f, "Failed"),
            FeedFault::NoMemory => write!(f, "NoMemory"),
        }
    }
}

impl Error for FeedFault {}

impl From<AllocError> for FeedFault {
    ghost use Rattle.std.specs.Prelude.{◌≡◌};
    ghost use Rattle.squall_wire.specs.declared.feed.FeedFault.TheVariants.{NoMemory};

    ghost from_gives = { λ _ e. e ≡ NoMemory };

    fn from(_e: AllocError) -> FeedFault {
        FeedFault::NoMemory
    }
}

/// Takes a stream of frames in pieces of any length, and gives its messages as their frames end.
/// How the stream is cut into pieces does not change what is heard. The first fault ends the
/// stream.
///
/// Contracts see a feed as the bytes that wait for the rest of their frame, and whether a fault
/// has ended the stream.
#[derive(Drop)]
pub struct Feed {
    waiting: Vec<u8>,
    failed: bool,
}

impl Model for Feed {
    ghost use Rattle.squall_wire.specs.Hearing.{FeedValue, IsFeed, feed_with};

    ghost Value = { FeedValue };

    ghost view = { λ f. feed_with f.waiting.items f.failed };

    ghost invariant = { λ f. IsFeed (feed_with f.waiting.items f.failed) };
}

/// The fault that a feed reports if `decode` answered this one: none if more bytes may mend it. An
/// error means that an allocation failed.
fn lasting(fault: WireFault) -> Result<Option<WireFault>, AllocError>
    ensures told { IfOk result (λ told. (bytes : List ℕ) → (fault ≢ WireFault.NoMemory → message_at bytes ≡ Err fault) → EndsIn told bytes) }
    ensures memory { fault ≢ WireFault.NoMemory → IsOk result }
{
    match fault {
        WireFault::Short => Ok(None),
        WireFault::NoMemory => Err(AllocError),
        other => Ok(Some(other)),
    }
}

/// The messages whose frames the bytes begin with, and the fault of what follows them if more bytes
/// can't mend it. Then the bytes after the frames. Each byte of a frame is read once. An error means
/// that an allocation failed.
pub fn hear(alloc: Global, bytes: &[u8]) -> Result<(Heard, &[u8]), AllocError>
    ensures { IfOk result (λ x. IsHeard bytes.now x.0.messages.items x.0.fault x.1.now) }
{
    let mut messages = Vec::new(alloc);
    let mut rest = bytes;
    loop {
        match decode(alloc, rest) {
            Ok((message, used)) => {
                messages.push(message)?;
                rest = rest.split_at(used).1;
            }
            Err(fault) => {
                let fault = lasting(fault)?;
                return Ok((Heard { messages, fault }, rest));
            }
        }
    }
}

/// Takes a piece if no bytes wait. Of the piece only what has to wait is copied. An error means
/// that an allocation failed: no bytes wait then.
fn take_first(waiting: &mut Vec<u8>, piece: &[u8]) -> Result<Heard, AllocError>
    requires { waiting.old.items ≡ [] }
    ensures heard { IfOk result (λ heard. WaitsOn waiting.old.items piece.now heard.messages.items heard.fault waiting.new.items) }
    ensures err { OnErr result (waiting.new.items ≡ waiting.old.items) }
{
    let (heard, rest) = hear(*waiting.allocator(), piece)?;
    if heard.fault.is_none() {
        waiting.extend_from_slice(rest)?;
    }
    Ok(heard)
}

/// Takes a piece after bytes that wait, which are the beginning of its first frame. An error means
/// that an allocation failed: the bytes that wait are then unchanged.
fn take_next(waiting: &mut Vec<u8>, piece: &[u8]) -> Result<Heard, AllocError>
    ensures heard { IfOk result (λ heard. WaitsOn waiting.old.items piece.now heard.messages.items heard.fault waiting.new.items) }
    ensures err { OnErr result (waiting.new.items ≡ waiting.old.items) }
{
    let had = waiting.len();
    waiting.extend_from_slice(piece)?;
    let (heard, left) = match hear(*waiting.allocator(), waiting) {
        Ok((heard, rest)) => (heard, rest.len()),
        Err(error) => {
            waiting.truncate(had);
            return Err(error);
        }
    };
    if heard.fault.is_some() {
        waiting.clear();
    } else {
        let used = waiting.len() - left;
        drop(waiting.drain(..used));
    }
    Ok(heard)
}

/// Takes a piece after the bytes that wait, if any do. An error means that an allocation failed:
/// the bytes that wait are then unchanged.
fn take_piece(waiting: &mut Vec<u8>, piece: &[u8]) -> Result<Heard, AllocError>
    ensures heard { IfOk result (λ heard. WaitsOn waiting.old.items piece.now heard.messages.items heard.fault waiting.new.items) }
    ensures err { OnErr result (waiting.new.items ≡ waiting.old.items) }
{
    if waiting.is_empty() {
        take_first(waiting, piece)
    } else {
        take_next(waiting, piece)
    }
}

impl Feed {
    /// A feed that has taken nothing. It allocates nothing.
    pub fn new(alloc: Global) -> Feed
        ensures { result ≡ feed_with [] false }
    {
        Feed {
            waiting: Vec::new(alloc),
            failed: false,
        }
    }

    /// Takes the next piece of the stream, and gives the messages whose frames end in it, and the
    /// fault of what follows them if there is one. `Failed` means that a fault ended the stream
    /// before. `NoMemory` means that an allocation failed: the piece was not taken, and may be
    /// pushed again.
    pub fn push(&mut self, piece: &[u8]) -> Result<Heard, FeedFault>
        ensures heard { IfOk result (λ heard. HearsOn self.old piece.now heard.messages.items heard.fault self.new) }
        ensures failed { result ≡ Err Failed ↔ (self.old.failed ≡ true) }
        ensures err { OnErr result (self.new ≡ self.old) }
    {
        if self.failed {
            return Err(FeedFault::Failed);
        }
        let heard = take_piece(&mut self.waiting, piece)?;
        self.failed = heard.fault.is_some();
        Ok(heard)
    }

    /// Whether a fault has ended the stream.
    pub fn failed(&self) -> bool
        ensures { result ≡ self.now.failed }
    {
        self.failed
    }

    /// How many bytes wait for the rest of their frame: 0 if the stream can end here, or a fault has
    /// ended it.
    pub fn waiting(&self) -> usize
        ensures { result ≡ length self.now.waiting }
    {
        self.waiting.len()
    }

    /// A feed that waits for the same as this one. An error means that an allocation failed.
    pub fn copied(&self, alloc: Global) -> Result<Feed, AllocError>
        ensures { IfOk result (λ f. f ≡ self.now) }
    {
        let waiting = Vec::from_slice(alloc, &self.waiting)?;
        let failed = self.failed;
        Ok(Feed { waiting, failed })
    }

    /// Changes nothing: after it a proof knows what holds of every feed. What waits is too short
    /// for a frame and shows no fault, and is at most 1,048,583 bytes.
    pub fn known(&self)
        ensures feed { IsFeed self.now }
        ensures few { length self.now.waiting ≤ waiting_limit }
    {
        let _waiting = &self.waiting;
    }
}
