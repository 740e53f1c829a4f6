//! Frames that are fed to routers behind handles.

ghost use Rattle.std.specs.Prelude.{◌≡◌, ◌≢◌, [], OnOk, OnErr, Err};
ghost use Rattle.std.specs.List.{AllByRecursion};
ghost use Rattle.squall_wire.specs.declared.feed.FeedFault.TheVariants.{Failed};
ghost use Rattle.squall_wire.specs.Hearing.{HearsOn};
ghost use Rattle.squall_wire.specs.Messages.{IsMessage};
ghost use Rattle.squall_router.specs.declared.fault.AbsorbFault.TheVariants.{Full};
ghost use Rattle.squall_c.specs.Limits.{IsAdmitted, IsRefused};
ghost use Rattle.squall_c.specs.Feeding.{heard_station, joined_station, waiting_bytes, feed_number, HearsInStation, Feeds};

use crate::limits::{absorb_all, brings_boards, taken_after};
use crate::router::{RouterSlot, Station};
use crate::status::{CLOSED, FAILED, FULL, NO_MEMORY};
use squall_c_frames::{TwinFeed, heard_status, keep_digest};
use squall_router::AbsorbFault;
use squall_wire::{Feed, FeedFault, Heard, Message, WireFault};

/// Why nothing of a piece is heard.
#[derive(Clone, Copy, Debug, PartialEq, Eq)]
pub enum HearFault {
    /// A fault ended the stream before.
    Failed,
    /// The router would hear of more than its limit.
    Full,
    /// An allocation failed, or a count of owners is full.
    NoMemory,
}

impl From<FeedFault> for HearFault {
    ghost use Rattle.std.specs.Prelude.{◌≡◌};
    ghost use Rattle.squall_c.specs.Feeding.{fault_of_feed};

    ghost from_gives = { λ fault e. e ≡ fault_of_feed fault };

    fn from(fault: FeedFault) -> HearFault {
        match fault {
            FeedFault::Failed => HearFault::Failed,
            FeedFault::NoMemory => HearFault::NoMemory,
        }
    }
}

impl From<AbsorbFault> for HearFault {
    ghost use Rattle.std.specs.Prelude.{◌≡◌};
    ghost use Rattle.squall_c.specs.Feeding.{fault_of_absorb};

    ghost from_gives = { λ fault e. e ≡ fault_of_absorb fault };

    fn from(fault: AbsorbFault) -> HearFault {
        match fault {
            AbsorbFault::Full => HearFault::Full,
            AbsorbFault::NoMemory => HearFault::NoMemory,
        }
    }
}

/// Has the station wait for what the piece leaves, in which no message ends. `heard` and `ahead` are
/// what its feed answered of the piece. It changes nothing if it fails.
fn wait_on(station: &mut Station, piece: &[u8], heard: &Heard, ahead: Feed) -> Result<(), FeedFault>
    requires none { heard.now.messages.items ≡ [] }
    requires heard { HearsOn station.old.feed piece.now heard.now.messages.items heard.now.fault ahead }
    ensures heard { OnOk result (station.new ≡ heard_station station.old [] ahead) }
    ensures failed { result ≢ Err Failed }
    ensures err { OnErr result (station.new ≡ station.old) }
{
    station.router.known();
    station.feed.follow(piece, heard, ahead)?;
    Ok(())
}

/// Has the station's router absorb all that the messages tell, unless that is more than its limit. It
/// changes nothing if it fails.
fn take_boards(station: &mut Station, messages: &[Message]) -> Result<(), AbsorbFault>
    requires { AllByRecursion IsMessage messages.now }
    ensures taken { OnOk result (station.new ≡ joined_station station.old messages.now) }
    ensures admitted { OnOk result (IsAdmitted station.old messages.now) }
    ensures full { result ≡ Err Full → IsRefused station.old messages.now }
    ensures err { OnErr result (station.new ≡ station.old) }
{
    station.router.known();
    if !brings_boards(messages) {
        return Ok(());
    }
    absorb_all(station.alloc, &mut station.router, &station.most, messages)
}

/// Has the station hear the messages, and wait for what the feed waits for, unless they tell more
/// than its limit. It changes nothing if it fails.
fn take_messages(
    station: &mut Station,
    messages: Vec<Message>,
    feed: Feed,
) -> Result<(), AbsorbFault>
    requires { AllByRecursion IsMessage messages.items }
    ensures heard { OnOk result (station.new ≡ heard_station station.old messages.items feed) }
    ensures admitted { OnOk result (IsAdmitted station.old messages.items) }
    ensures full { result ≡ Err Full → IsRefused station.old messages.items }
    ensures err { OnErr result (station.new ≡ station.old) }
{
    take_boards(station, &messages)?;
    // From here on nothing can fail.
    station.feed = TwinFeed::of(feed);
    station.taken = taken_after(station.taken, messages.len());
    keep_digest(&mut station.heard, messages);
    Ok(())
}

/// Has the station hear the messages whose frames end in the piece, all of them or none, and gives
/// the fault of what follows them if there is one. It changes nothing if it fails.
fn hear(station: &mut Station, piece: &[u8]) -> Result<Option<WireFault>, HearFault>
    ensures { HearsInStation piece.now station.old result station.new }
{
    let (heard, ahead) = station.feed.try_piece(station.alloc, piece)?;
    if heard.messages.is_empty() {
        wait_on(station, piece, &heard, ahead)?;
        return Ok(heard.fault);
    }
    let Heard { messages, fault } = heard;
    take_messages(station, messages, ahead)?;
    Ok(fault)
}

/// The number of how it ended that a piece came.
fn feed_number(answer: Result<Option<WireFault>, HearFault>) -> u32
    ensures { result ≡ feed_number answer }
{
    match answer {
        Ok(fault) => heard_status(fault),
        Err(HearFault::Failed) => FAILED,
        Err(HearFault::Full) => FULL,
        Err(HearFault::NoMemory) => NO_MEMORY,
    }
}

/// Takes a piece of a stream of frames, cut anywhere: the messages whose frames end in it are heard,
/// up to the first fault, which the status tells. `FAILED` if a fault ended the stream before, and `FULL`
/// if the messages tell more than the limit: then nothing changes.
pub(crate) fn feed(slot: &mut RouterSlot, piece: &[u8]) -> u32
    ensures { Feeds piece.now slot.old slot.new result }
{
    match &mut slot.station {
        Some(station) => feed_number(hear(station, piece)),
        None => CLOSED,
    }
}

/// How many bytes that were fed wait for the rest of their frame, 0 if there is no router.
pub(crate) fn waiting(slot: &RouterSlot) -> usize
    ensures { result ≡ waiting_bytes slot.now.station }
{
    match &slot.station {
        Some(station) => station.feed.waiting(),
        None => 0,
    }
}
