//! Whole frames that routers behind handles hear, for hosts whose messages come one by one.

ghost use Rattle.std.specs.Prelude.{◌≡◌, [], ◌∷◌, Err, OnOk, OnErr};
ghost use Rattle.squall_router.specs.declared.fault.AbsorbFault.TheVariants.{Full};
ghost use Rattle.squall_board.specs.Boards.{board_join};
ghost use Rattle.squall_wire.specs.Messages.{IsMessage};
ghost use Rattle.squall_c.specs.Feeding.{heard_station};
ghost use Rattle.squall_c.specs.Limits.{IsAdmitted, IsRefused, IsWithinLimit, IsBeyondLimit};
ghost use Rattle.squall_c.specs.WholeFrames.{HearsFrame, HearsWhole, absorbed_station, kept_station, whole_number};

use crate::limits::{absorb, taken_after};
use crate::router::{RouterSlot, Station};
use crate::status::{CLOSED, FULL, OK};
use squall_board::Delta;
use squall_c_frames::{whole, wire_status};
use squall_router::AbsorbFault;
use squall_wire::{Digest, Message, WireFault};

/// Why a whole frame is not heard.
#[derive(Clone, Copy, Debug, PartialEq, Eq)]
pub enum WholeFault {
    /// The fault of the frame, or that an allocation failed.
    Frame(WireFault),
    /// The router would hear of more than its limit.
    Full,
}

impl From<WireFault> for WholeFault {
    ghost use Rattle.std.specs.Prelude.{◌≡◌};
    ghost use Rattle.squall_c.specs.declared.hearing.WholeFault.TheVariants.{Frame};

    ghost from_gives = { λ fault e. e ≡ Frame fault };

    fn from(fault: WireFault) -> WholeFault {
        WholeFault::Frame(fault)
    }
}

impl From<AbsorbFault> for WholeFault {
    ghost use Rattle.std.specs.Prelude.{◌≡◌};
    ghost use Rattle.squall_c.specs.WholeFrames.{whole_fault};

    ghost from_gives = { λ fault e. e ≡ whole_fault fault };

    fn from(fault: AbsorbFault) -> WholeFault {
        match fault {
            AbsorbFault::Full => WholeFault::Full,
            AbsorbFault::NoMemory => WholeFault::Frame(WireFault::NoMemory),
        }
    }
}

/// Has the station absorb the delta, unless it tells more than its limit. It changes nothing if it
/// fails.
fn take_delta(station: &mut Station, delta: &Delta) -> Result<(), AbsorbFault>
    ensures heard { OnOk result (station.new ≡ absorbed_station station.old delta.now) }
    ensures within { OnOk result (IsWithinLimit station.old.most (board_join station.old.router.board delta.now)) }
    ensures full { result ≡ Err Full → IsBeyondLimit station.old.most (board_join station.old.router.board delta.now) }
    ensures err { OnErr result (station.new ≡ station.old) }
{
    absorb(&mut station.router, &station.most, delta)?;
    station.taken = taken_after(station.taken, 1);
    Ok(())
}

/// Has the station keep the digest.
fn take_digest(station: &mut Station, digest: Digest)
    ensures { station.new ≡ kept_station station.old digest }
{
    station.heard = Some(digest);
    station.taken = taken_after(station.taken, 1);
}

/// Has the station hear the message, unless it tells more than its limit. What its feed waits for
/// stays. It changes nothing if it fails.
fn take_message(station: &mut Station, message: Message) -> Result<(), AbsorbFault>
    requires { IsMessage message }
    ensures heard { OnOk result (station.new ≡ heard_station station.old (message ∷ []) station.old.feed) }
    ensures admitted { OnOk result (IsAdmitted station.old (message ∷ [])) }
    ensures full { result ≡ Err Full → IsRefused station.old (message ∷ []) }
    ensures err { OnErr result (station.new ≡ station.old) }
{
    station.router.known();
    match message {
        Message::Delta(delta) => take_delta(station, &delta),
        Message::Digest(digest) => {
            take_digest(station, digest);
            Ok(())
        }
    }
}

/// Has the station hear the message of the frame, unless it tells more than its limit. It changes
/// nothing if it fails.
fn take_frame(station: &mut Station, frame: &[u8]) -> Result<(), WholeFault>
    ensures { HearsWhole frame.now station.old result station.new }
{
    let message = whole(station.alloc, frame)?;
    take_message(station, message)?;
    Ok(())
}

/// The number of how it ended that a whole frame came.
fn whole_number(answer: Result<(), WholeFault>) -> u32
    ensures { result ≡ whole_number answer }
{
    match answer {
        Ok(()) => OK,
        Err(WholeFault::Frame(fault)) => wire_status(fault),
        Err(WholeFault::Full) => FULL,
    }
}

/// Hears one whole frame: its message is taken, or the status tells its fault and nothing changes.
/// `FULL` if the message tells more than the limit, and then nothing changes either. An allocation that
/// fails is told only of bytes that begin with a whole frame. What was fed of a stream before waits on.
pub(crate) fn hear_frame(slot: &mut RouterSlot, frame: &[u8]) -> u32
    ensures { HearsFrame frame.now slot.old slot.new result }
{
    match &mut slot.station {
        Some(station) => whole_number(take_frame(station, frame)),
        None => CLOSED,
    }
}
