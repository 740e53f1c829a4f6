//! Reports as frames, for hosts that send a report and keep no router.

ghost use Rattle.squall_report.specs.Facts.{done_of, opened_of};
ghost use Rattle.squall_c_values.specs.ReportFrames.{PutsReport};
ghost use Rattle.squall_c.specs.Reporting.{loaded_report};

use crate::reports::loaded_report;
use squall_c_values::put_report;
use squall_report::Report;
use std::alloc::Global;

/// Puts the frame of a report into the room, if that holds it, and answers how many bytes it has. The
/// report says that the partition has loaded the keys from rank `lo` on, below rank `hi`. The answer
/// is 0 if a number lies outside its limits or no key between the ranks, and the greatest number of
/// its type if an allocation fails. If the room is too short, it stays.
#[unsafe(no_mangle)]
pub extern "C" fn squall_frame_loaded(
    alloc: Global,
    number: u32,
    sub: u32,
    part: u32,
    lo: u64,
    hi: u64,
    room: &mut [u8],
) -> usize
    ensures { PutsReport (loaded_report number sub part lo hi) room.old room.new result }
{
    put_report(alloc, loaded_report(number, sub, part, lo, hi), room)
}

/// The same of the report that the partition has all keys that the sub-plan brings it.
#[unsafe(no_mangle)]
pub extern "C" fn squall_frame_done(
    alloc: Global,
    number: u32,
    sub: u32,
    part: u32,
    room: &mut [u8],
) -> usize
    ensures { PutsReport (done_of number sub part) room.old room.new result }
{
    put_report(alloc, Report::done(number, sub, part), room)
}

/// The same of the report that the sub-plan has been opened, and all those before it.
#[unsafe(no_mangle)]
pub extern "C" fn squall_frame_opened(
    alloc: Global,
    number: u32,
    sub: u32,
    room: &mut [u8],
) -> usize
    ensures { PutsReport (opened_of number sub) room.old room.new result }
{
    put_report(alloc, Report::opened(number, sub), room)
}
