//! What the command `race` writes of a race file.

ghost use Rattle.std.specs.Prelude.{◌≢◌, ℕ, List, IsOk, Err};
ghost use Rattle.squall_cli_device.specs.States.{TookBytes, GaveAll, ReadAndWrote};
ghost use Rattle.squall_cli_lines.specs.Heeding.{HeedsReads, HeedsWrites};
ghost use Rattle.squall_cli_run.specs.Races.{IsRaced};

use squall_cli_device::{Sink, Source};
use squall_cli_lines::{Ended, RunFault, read_all, send_text};
use squall_cli_race::answer_race;
use std::alloc::Global;
use std::sync::Wait;
use std::thread::Threads;

/// Runs the race of a text, and writes what it shows.
fn show_race<R: Threads + Wait + Sync, K: Sink>(
    rt: &R,
    alloc: Global,
    text: &[u8],
    writer: &mut K,
) -> Result<Ended, RunFault>
    ensures text { (written : List ℕ) × TookBytes (K.state writer.old) (K.state writer.new) written
        × IsRaced result text.now written }
    ensures unread { result ≢ Err RunFault.Read }
    ensures heeds_writes { HeedsWrites result (K.state writer.old) (K.state writer.new) }
{
    let mut out = String::new(alloc);
    let ended = answer_race(rt, alloc, text, &mut out)?;
    match send_text(writer, out.as_str()) {
        Ok(()) => Ok(ended),
        Err(_) => Err(RunFault::Write),
    }
}

/// Runs the race of a race file, which it reads from `reader` to the end of the input. The senders,
/// the readers and the owner run as threads at once. It writes to `writer` the board that they come
/// to and the routes of its keys by that board. Nothing is written before the end of the input.
///
/// - `Fine`: the race was run.
/// - `Refused`: the race was not run, and the text says why. `bad line N: REASON` names a bad line,
///   `refused NoThread` a refused thread, and `refused NoPlace` a reader without a place.
/// - `Read`: a read failed, or [`MOST_READS`] reads came to no end. Nothing is written.
/// - `Write`: a write failed, or took no byte. The writer has a prefix of the text.
/// - `NoMemory`: an allocation failed. Nothing is written.
///
/// A read or a write that failed is always answered so. `refused NoThread` and `refused NoPlace` may
/// come in place of `NoMemory` if memory is short. What was read stays read.
///
/// The call waits for its threads. What is said here holds if it returns; all its threads have
/// ended then.
///
/// [`MOST_READS`]: squall_cli_lines::MOST_READS
pub fn race_text<R: Threads + Wait + Sync, S: Source, K: Sink>(
    rt: &R,
    alloc: Global,
    reader: &mut S,
    writer: &mut K,
) -> Result<Ended, RunFault>
    // What is written is what a race may show of the text that was read, and nothing else.
    ensures text { ReadAndWrote (S.state reader.old) (S.state reader.new) (K.state writer.old) (K.state writer.new) (IsRaced result) }

    // A race is run or refused only if a read found the end, and nothing is left.
    ensures all { IsOk result → GaveAll (S.state reader.old) (S.state reader.new) }

    // A device is the cause of its fault, no failed read or write is passed over, and reads are limited.
    ensures heeds_reads { HeedsReads result (S.state reader.old) (S.state reader.new) }
    ensures heeds_writes { HeedsWrites result (K.state writer.old) (K.state writer.new) }
{
    match read_all(alloc, reader) {
        Ok(text) => show_race(rt, alloc, &text, writer),
        Err(RunFault::NoMemory) => Err(RunFault::NoMemory),
        Err(_) => Err(RunFault::Read),
    }
}
