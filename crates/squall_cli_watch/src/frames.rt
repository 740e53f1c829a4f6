//! Watches a course.

ghost use Rattle.std.specs.Prelude.{◌≡◌, ℕ, IfOk, Ok, false, length, true};
ghost use Rattle.squall_board.specs.Boards.{empty_board};
ghost use Rattle.squall_cli_device.specs.States.{GaveAll, ReadAndWrote};
ghost use Rattle.squall_cli_lines.specs.Heeding.{HeedsReads, HeedsWrites};
ghost use Rattle.squall_cli_boards.specs.Known.{first_course};
ghost use Rattle.squall_cli_watch.specs.Drawn.{ShowsBars};
ghost use Rattle.squall_cli_watch.specs.Drawing.{DrawsOn};
ghost use Rattle.squall_cli_watch.specs.Taken.{ShowsNewest, plays};
ghost use Rattle.squall_cli_watch.specs.Watched.{IsWatchedBy, Watches};

use crate::bar::{BarLine, start_line};
use crate::ending::{Next, WatchEnd};
use crate::piece::{answer_end, answer_piece};
use crate::watcher::Watcher;
use squall_board::Board;
use squall_cli_command::WatchAsk;
use squall_cli_device::{Sink, Source};
use squall_cli_lines::{BLOCK_SIZE, MOST_READS, RunFault};
use squall_course::Course;
use squall_plan::Plan;
use std::alloc::{AllocError, Global};

/// Room for a block of `size` bytes.
fn block_room(alloc: Global, size: usize) -> Result<Vec<u8>, AllocError>
    ensures { IfOk result (λ room. length room.items ≡ size) }
{
    vec![in alloc; 0u8; size]
}

/// Answers the frames that `reader` gives, above the bar. The line is ended before the end of the
/// input is answered.
fn answer_frames<S: Source, K: Sink, E: Sink>(
    alloc: Global,
    watcher: &mut Watcher,
    reader: &mut S,
    writer: &mut K,
    line: &mut BarLine,
    err: &mut E,
) -> Result<WatchEnd, RunFault>
    requires current { ShowsNewest watcher.old }
    ensures text { ReadAndWrote (S.state reader.old) (S.state reader.new) (K.state writer.old) (K.state writer.new)
        (IsWatchedBy result (plays watcher.old)) }
    ensures fine { result ≡ Ok WatchEnd.Fine → GaveAll (S.state reader.old) (S.state reader.new) }
    ensures no_read_after { result ≡ Ok WatchEnd.Complete → (S.state reader.new).ends ≡ (S.state reader.old).ends }
    ensures heeds_reads { HeedsReads result (S.state reader.old) (S.state reader.new) }
    ensures heeds_writes { HeedsWrites result (K.state writer.old) (K.state writer.new) }
    ensures off { line.old.on ≡ false → (line.new.on ≡ false) × (E.state err.new ≡ E.state err.old) }
    ensures bars { line.old.on ≡ true → DrawsOn watcher.old.how watcher.old.first watcher.old.board line.old.shown result
        (S.state reader.old).remaining (S.state reader.new).remaining (E.state err.old) (E.state err.new) line.new.on }
{
    let mut room = block_room(alloc, BLOCK_SIZE)?;
    let block = room.as_mut_slice();
    let mut waiting = Vec::new(alloc);
    for turn in 0..MOST_READS {
        let Ok(n) = reader.read(block) else {
            return Err(RunFault::Read);
        };
        if n == 0 {
            line.end(err);
            return answer_end(watcher.how.form, &waiting, writer);
        }
        let piece = &block[..n];
        match answer_piece(alloc, watcher, &mut waiting, piece, writer, line, err)? {
            Next::On => {}
            Next::End(end) => return Ok(end),
        }
    }
    Err(RunFault::Read)
}

/// Answers the frames that `reader` gives, with a bar if `err` is a terminal.
fn answer_with_bar<S: Source, K: Sink, E: Sink>(
    alloc: Global,
    watcher: &mut Watcher,
    reader: &mut S,
    writer: &mut K,
    err: &mut E,
) -> Result<WatchEnd, RunFault>
    requires current { ShowsNewest watcher.old }
    ensures text { ReadAndWrote (S.state reader.old) (S.state reader.new) (K.state writer.old) (K.state writer.new)
        (IsWatchedBy result (plays watcher.old)) }
    ensures fine { result ≡ Ok WatchEnd.Fine → GaveAll (S.state reader.old) (S.state reader.new) }
    ensures no_read_after { result ≡ Ok WatchEnd.Complete → (S.state reader.new).ends ≡ (S.state reader.old).ends }
    ensures heeds_reads { HeedsReads result (S.state reader.old) (S.state reader.new) }
    ensures heeds_writes { HeedsWrites result (K.state writer.old) (K.state writer.new) }
    ensures bars { ShowsBars (E.terminal err.old) watcher.old.how watcher.old.first watcher.old.board result
        (S.state reader.old).remaining (S.state reader.new).remaining (E.state err.old) (E.state err.new) }
{
    let mut line = start_line(alloc, watcher, err)?;
    let ended = answer_frames(alloc, watcher, reader, writer, &mut line, err);
    line.end(err);
    ended
}

/// Watches how far the newest course comes, from that of the two plans on. It reads the frames of
/// boards from `reader` to the end of the input or to a fault, and joins the boards. After each
/// frame it answers with the lines of the status that differ from the line at the same place of the
/// status after the frame before. Before the first frame there is no status, so that the first frame
/// is answered with all lines. As JSON it answers with the object of the status, on one line, if that
/// is another than after the frame before. The answers to the frames that end in one read are written
/// before the next read.
///
/// If the watch is to end with the course, it ends after the first frame with which each move of the
/// newest course is complete. No frame behind that is answered or joined, and nothing more is read.
///
/// If `err` is a terminal, it shows a bar of the newest course: before the first read, and after each
/// read that of all boards so far. The bar is erased while answers are written, so that both can be on
/// one terminal. At the end the last one stays, on a line of its own. If a write to `err` fails, no bar
/// is drawn any more, and nothing else changes. If it is no terminal, nothing is written to it.
///
/// A frame that is broken is answered with `refused - FAULT`, as a file named `-` is, or with the JSON
/// object of that. A digest is a frame of another kind, `Kind`. Bytes at the end of the input that are
/// too few for a frame are `Short`.
///
/// - `Fine`: the input ended. Each frame is answered.
/// - `Refused`: the input is refused, as the last line says. Each frame before that is answered.
/// - `Complete`: the newest course is complete, and the watch was to end with it. The frame that says
///   so is the last one that is answered.
/// - `Read`: a read failed, or [`MOST_READS`] reads came to no end. Each frame so far is answered.
/// - `Write`: a write failed, or took no byte. The writer has a prefix of the answers.
/// - `NoMemory`: an allocation failed. Each frame of the reads before the last is answered.
///
/// A read or a write that failed is always answered so. What was read stays read.
///
/// [`MOST_READS`]: squall_cli_lines::MOST_READS
pub fn watch<S: Source, K: Sink, E: Sink>(
    alloc: Global,
    how: WatchAsk,
    old: &Plan,
    new: &Plan,
    reader: &mut S,
    writer: &mut K,
    err: &mut E,
) -> Result<WatchEnd, RunFault>
    // What is written is the answers to the frames that were read, and those of earlier reads came before the last read.
    ensures text { ReadAndWrote (S.state reader.old) (S.state reader.new) (K.state writer.old) (K.state writer.new)
        (Watches how result old.now new.now) }

    // `Fine` comes only if a read found the end, and then nothing is left.
    ensures fine { result ≡ Ok WatchEnd.Fine → GaveAll (S.state reader.old) (S.state reader.new) }

    // `Complete` comes only to a watch that is to end with the course, and no read found the end of the input.
    ensures until { result ≡ Ok WatchEnd.Complete → how.is_until_complete ≡ true }
    ensures no_read_after { result ≡ Ok WatchEnd.Complete → (S.state reader.new).ends ≡ (S.state reader.old).ends }

    // A device is the cause of its fault, no failed read or write is passed over, and reads are limited.
    ensures heeds_reads { HeedsReads result (S.state reader.old) (S.state reader.new) }
    ensures heeds_writes { HeedsWrites result (K.state writer.old) (K.state writer.new) }

    // On a terminal bars are drawn, and on another sink nothing is.
    ensures bars { ShowsBars (E.terminal err.old) how (first_course old.now new.now) empty_board result
        (S.state reader.old).remaining (S.state reader.new).remaining (E.state err.old) (E.state err.new) }
{
    let first = Course::first(alloc, old, new)?;
    let mut watcher = Watcher {
        how,
        first,
        board: Board::new(alloc),
        shown: String::new(alloc),
    };
    answer_with_bar(alloc, &mut watcher, reader, writer, err)
}
