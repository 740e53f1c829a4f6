//! The frames that a router sends: they wait in its slot until they are fetched.

ghost use Rattle.std.specs.Prelude.{◌≡◌};
ghost use Rattle.squall_c_frames.specs.Queues.{room_after, first_length};
ghost use Rattle.squall_c.specs.Frames.{Keeps, KeepsBoard, KeepsDigest, KeepsRepair};
ghost use Rattle.squall_c.specs.Frames.{GathersBoard, GathersDigest, GathersRepair, waiting_frames, slot_after};

use crate::router::{RouterSlot, Station};
use crate::status::{CLOSED, NO_DIGEST, NO_MEMORY, OK, TOO_LONG};
use squall_c_frames::{FrameFault, Frames, board_frames, digest_frame, repair_frames};

/// Has the frames wait, in place of those that waited before, or tells why there are none.
fn keep(station: &mut Station, made: Result<Frames, FrameFault>) -> u32
    ensures { Keeps made station.old station.new result }
{
    match made {
        Ok(frames) => {
            station.frames = frames;
            OK
        }
        Err(FrameFault::TooLong) => TOO_LONG,
        Err(FrameFault::NoMemory) => NO_MEMORY,
    }
}

/// Has the frames of the board's pieces wait.
fn keep_board(station: &mut Station, limit: usize) -> u32
    ensures { KeepsBoard limit station.old station.new result }
{
    let made = board_frames(station.alloc, station.router.board(), limit);
    keep(station, made)
}

/// Has the frame of the board's digest wait.
fn keep_digest(station: &mut Station, limit: usize) -> u32
    ensures { KeepsDigest limit station.old station.new result }
{
    let made = digest_frame(station.alloc, station.router.board(), limit);
    keep(station, made)
}

/// Has the frames of the pieces of a repair by the digest heard last wait.
fn keep_repair(station: &mut Station, limit: usize) -> u32
    ensures { KeepsRepair limit station.old station.old.heard station.new result }
{
    let Some(digest) = &station.heard else {
        return NO_DIGEST;
    };
    let made = repair_frames(station.alloc, station.router.board(), digest, limit);
    keep(station, made)
}

/// Has the frames of the board's pieces wait, in place of those that waited before. Each has at most
/// `limit` bytes. `TOO_LONG` if an item of the board has no such frame, and then nothing changes.
pub(crate) fn gather_board(slot: &mut RouterSlot, limit: usize) -> u32
    ensures { GathersBoard limit slot.old slot.new result }
{
    match &mut slot.station {
        Some(station) => keep_board(station, limit),
        None => CLOSED,
    }
}

/// Has the frame of the board's digest wait, likewise. `TOO_LONG` if it would have more than `limit`
/// bytes, or more rows than fit a frame.
pub(crate) fn gather_digest(slot: &mut RouterSlot, limit: usize) -> u32
    ensures { GathersDigest limit slot.old slot.new result }
{
    match &mut slot.station {
        Some(station) => keep_digest(station, limit),
        None => CLOSED,
    }
}

/// Has the frames of what the digest heard last does not show of the board wait, likewise.
/// `NO_DIGEST` if no digest was heard.
pub(crate) fn gather_repair(slot: &mut RouterSlot, limit: usize) -> u32
    ensures { GathersRepair limit slot.old slot.new result }
{
    match &mut slot.station {
        Some(station) => keep_repair(station, limit),
        None => CLOSED,
    }
}

/// Puts the first frame that waits into the room, from its start on, if the room has as many bytes.
/// It waits no longer then. Answers how long it is, and 0 if none waits.
pub(crate) fn next_frame(slot: &mut RouterSlot, room: &mut [u8]) -> usize
    ensures room { room.new ≡ room_after (waiting_frames slot.old.station) room.old }
    ensures slot { slot.new ≡ slot_after slot.old room.old }
    ensures count { result ≡ first_length (waiting_frames slot.old.station) }
{
    match &mut slot.station {
        Some(station) => station.frames.fetch(room),
        None => 0,
    }
}
