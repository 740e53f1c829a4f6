//! Watches the course of the plans that files hold.

ghost use Rattle.std.specs.Prelude.{◌≡◌, ◌≢◌, ℕ, List, true, Ok, Err};
ghost use Rattle.squall_cli_device.specs.States.{TookBytes, GaveAll, ReadAndWrote};
ghost use Rattle.squall_cli_lines.specs.Heeding.{HeedsReads, HeedsWrites};
ghost use Rattle.squall_cli_ask.specs.Watching.{IsPlanRefusal, WatchesFiles, WatchesPromptly, ShowsBarsOfFiles};

use crate::lines::refuse;
use squall_cli_boards::{Answer, NamedFile, plans_in};
use squall_cli_command::WatchAsk;
use squall_cli_device::{Sink, Source};
use squall_cli_lines::RunFault;
use squall_cli_watch::{WatchEnd, watch};
use std::alloc::Global;

/// Writes the answer that refuses a plan.
fn refuse_plan<K: Sink>(answer: &Answer, writer: &mut K) -> Result<WatchEnd, RunFault>
    ensures text { (written : List ℕ) × TookBytes (K.state writer.old) (K.state writer.new) written × IsPlanRefusal result answer.now.text written }
    ensures unread { result ≢ Err RunFault.Read }
    ensures unfinished { result ≢ Ok WatchEnd.Fine }
    ensures incomplete { result ≢ Ok WatchEnd.Complete }
    ensures heeds { HeedsWrites result (K.state writer.old) (K.state writer.new) }
{
    match refuse(answer, writer) {
        Ok(_) => Ok(WatchEnd::Refused),
        Err(fault) => Err(fault),
    }
}

/// Watches how far the newest course comes, from that of the first two files on, which are plans. It
/// reads the frames of boards from `reader`, and answers as [`watch`] does. On `err` it
/// draws a bar as that does. If a file is no plan, that is answered, and nothing is read or drawn.
///
/// - `Fine`: the input ended. Each frame is answered.
/// - `Refused`: the input is refused, as the last answer says. Or a plan is.
/// - `Complete`: the newest course is complete, and the watch was to end with it. The frame that says
///   so is the last one that is answered.
/// - `Read`: a read failed, or [`MOST_READS`] reads came to no end. Each frame so far is answered.
/// - `Write`: a write failed, or took no byte. The writer has a prefix of the answers.
/// - `NoMemory`: an allocation failed. Each frame of the reads before the last is answered.
///
/// A read or a write that failed is always answered so. What was read stays read.
///
/// [`MOST_READS`]: squall_cli_lines::MOST_READS
pub fn watch_files<S: Source, K: Sink, E: Sink>(
    alloc: Global,
    how: WatchAsk,
    files: &[NamedFile],
    reader: &mut S,
    writer: &mut K,
    err: &mut E,
) -> Result<WatchEnd, RunFault>
    // What is written is the answers to the frames that were read, each before the next read; or that a plan is refused.
    ensures text { ReadAndWrote (S.state reader.old) (S.state reader.new) (K.state writer.old) (K.state writer.new)
        (WatchesFiles how result files.now) }

    // The frames that came before the last read were answered before it.
    ensures prompt { ReadAndWrote (S.state reader.old) (S.state reader.new) (K.state writer.old) (K.state writer.new)
        (WatchesPromptly how files.now) }

    // `Fine` comes only if a read found the end, and then nothing is left.
    ensures fine { result ≡ Ok WatchEnd.Fine → GaveAll (S.state reader.old) (S.state reader.new) }

    // `Complete` comes only to a watch that is to end with the course, and no read found the end of the input.
    ensures until { result ≡ Ok WatchEnd.Complete → how.is_until_complete ≡ true }
    ensures no_read_after { result ≡ Ok WatchEnd.Complete → (S.state reader.new).ends ≡ (S.state reader.old).ends }

    // A device is the cause of its fault, no failed read or write is passed over, and reads are limited.
    ensures heeds_reads { HeedsReads result (S.state reader.old) (S.state reader.new) }
    ensures heeds_writes { HeedsWrites result (K.state writer.old) (K.state writer.new) }

    // If both are plans, bars are drawn on a terminal. Nothing else is drawn.
    ensures bars { ShowsBarsOfFiles (E.terminal err.old) how files.now result (S.state reader.old).remaining (S.state reader.new).remaining
        (E.state err.old) (E.state err.new) }
{
    match plans_in(alloc, how.form, files) {
        Ok(Ok((old, new))) => watch(alloc, how, &old, &new, reader, writer, err),
        Ok(Err(answer)) => refuse_plan(&answer, writer),
        Err(_) => Err(RunFault::NoMemory),
    }
}
