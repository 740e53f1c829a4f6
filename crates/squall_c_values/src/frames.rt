//! The frame of one report, written into a room.

ghost use Rattle.std.specs.Prelude.{◌≡◌, IfOk, length};
ghost use Rattle.squall_board.specs.Boards.{report_board};
ghost use Rattle.squall_wire.specs.declared.message.Message.TheVariants.{Delta as DeltaMessage};
ghost use Rattle.squall_wire.specs.Messages.{spell};
ghost use Rattle.squall_c_values.specs.ReportFrames.{room_with, PutsReport};

use squall_delta::delta_of;
use squall_report::Report;
use squall_wire::encode_board;
use std::alloc::{AllocError, Global};

/// In the place of a count: an allocation failed.
pub const NO_COUNT: usize = 18446744073709551615;

/// Writes the frame into the room, if that holds it, and answers how many bytes it has.
fn put_frame(frame: &[u8], room: &mut [u8]) -> usize
    ensures room { room.new ≡ room_with frame.now room.old }
    ensures count { result ≡ length frame.now }
{
    let count = frame.len();
    if count <= room.len() {
        room[..count].copy_from_slice(frame);
    }
    count
}

/// The frame of the report alone. An error means that an allocation failed, or that the count of an
/// issue's owners is full.
fn report_frame(alloc: Global, report: &Report) -> Result<Vec<u8>, AllocError>
    ensures { IfOk result (λ frame. frame.items ≡ spell (DeltaMessage (report_board report.now))) }
{
    match encode_board(alloc, &delta_of(alloc, report)?) {
        Ok(frame) => Ok(frame),
        // One report fits a frame, so that only a failed allocation is left.
        Err(_) => Err(AllocError),
    }
}

/// Writes the frame of the report alone into the room, if that holds it, and answers how many bytes
/// it has. The answer is 0 if there is no report, and [`NO_COUNT`] if an allocation fails. If the
/// room is too short, nothing is written.
pub fn put_report(alloc: Global, report: Option<Report>, room: &mut [u8]) -> usize
    ensures { PutsReport report room.old room.new result }
{
    let Some(report) = report else {
        return 0;
    };
    match report_frame(alloc, &report) {
        Ok(frame) => put_frame(&frame, room),
        Err(_) => NO_COUNT,
    }
}
