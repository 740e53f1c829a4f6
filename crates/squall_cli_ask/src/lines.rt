//! Answers lines of keys as they come.

ghost use Rattle.std.specs.Prelude.{◌≡◌, ◌≢◌, ℕ, List, Ok, Err};
ghost use Rattle.squall_cli_device.specs.States.{TookBytes, GaveAll, ReadAndWrote};
ghost use Rattle.squall_cli_lines.specs.Heeding.{HeedsReads, HeedsWrites};
ghost use Rattle.squall_cli_ask.specs.Written.{script_of, AnswersKeys, IsPromptFor, IsRefusal};
ghost use Rattle.squall_cli_lines.specs.Script.{IsOutcomeOf, IsPrompt, PlaysOnly};
ghost use Rattle.squall_cli_boards.specs.Found.{known_seen};

use crate::keys::Keys;
use crate::laws::keys_are_answered_by_line;
use squall_cli_boards::{Answer, Known, NamedFile, newest_of};
use squall_cli_command::Form;
use squall_cli_device::{DeviceFault, Sink, Source};
use squall_cli_lines::laws::outcome_of_function;
use squall_cli_lines::{Ended, RunFault, run, send};
use std::alloc::Global;

/// Writes the answer that refuses a file.
pub(crate) fn refuse<K: Sink>(answer: &Answer, writer: &mut K) -> Result<Ended, RunFault>
    ensures text { (written : List ℕ) × TookBytes (K.state writer.old) (K.state writer.new) written × IsRefusal result answer.now.text written }
    ensures unread { result ≢ Err RunFault.Read }
    ensures refused { result ≢ Ok Ended.Fine }
    ensures heeds { HeedsWrites result (K.state writer.old) (K.state writer.new) }
{
    match send(writer, answer.text()) {
        Ok(()) => Ok(Ended::Refused),
        Err(DeviceFault) => Err(RunFault::Write),
    }
}

/// Answers lines of keys by a course and its board.
fn answer_lines<S: Source, K: Sink>(
    alloc: Global,
    known: Known,
    reader: &mut S,
    writer: &mut K,
) -> Result<Ended, RunFault>
    ensures text { ReadAndWrote (S.state reader.old) (S.state reader.new) (K.state writer.old) (K.state writer.new)
        (IsOutcomeOf result (script_of (known_seen known))) }
    ensures prompt { ReadAndWrote (S.state reader.old) (S.state reader.new) (K.state writer.old) (K.state writer.new)
        (IsPrompt (PlaysOnly (script_of (known_seen known)))) }
    ensures fine { result ≡ Ok Ended.Fine → GaveAll (S.state reader.old) (S.state reader.new) }
    ensures heeds_reads { HeedsReads result (S.state reader.old) (S.state reader.new) }
    ensures heeds_writes { HeedsWrites result (K.state writer.old) (K.state writer.new) }
{
    keys_are_answered_by_line();
    outcome_of_function();
    run(alloc, &mut Keys { known, lines: 0 }, reader, writer)
}

/// Routes keys by the newest course of two plans and of board files. It reads the keys from
/// `reader`, one a line, to the end of the input or to a bad line. The first two files are the plans.
/// The answers to the lines that one read brings are written before the next read: `route K P`, and
/// nothing for a line without words. A line that is no key is bad: `bad line N: word`.
///
/// - `Fine`: each line is answered.
/// - `Refused`: a line was bad, as the last answer says. Or a file is refused, and nothing is read.
/// - `Read`: a read failed, or [`MOST_READS`] reads came to no end. The lines that were read with
///   their LF are answered.
/// - `Write`: a write failed, or took no byte. The writer has a prefix of the answers.
/// - `NoMemory`: an allocation failed. Some first lines are answered, each whole.
///
/// A read or a write that failed is always answered so. What was read stays read.
///
/// [`MOST_READS`]: squall_cli_lines::MOST_READS
pub fn answer_keys<S: Source, K: Sink>(
    alloc: Global,
    files: &[NamedFile],
    reader: &mut S,
    writer: &mut K,
) -> Result<Ended, RunFault>
    // What is written is the definition's answers to the lines that were read.
    ensures text { ReadAndWrote (S.state reader.old) (S.state reader.new) (K.state writer.old) (K.state writer.new)
        (AnswersKeys result files.now) }

    // The lines that came before the last read were answered before it, and none of them was bad.
    ensures prompt { ReadAndWrote (S.state reader.old) (S.state reader.new) (K.state writer.old) (K.state writer.new)
        (IsPromptFor files.now) }

    // `Fine` comes only if a read found the end, and then nothing is left.
    ensures fine { result ≡ Ok Ended.Fine → GaveAll (S.state reader.old) (S.state reader.new) }

    // A device is the cause of its fault, no failed read or write is passed over, and reads are limited.
    ensures heeds_reads { HeedsReads result (S.state reader.old) (S.state reader.new) }
    ensures heeds_writes { HeedsWrites result (K.state writer.old) (K.state writer.new) }
{
    match newest_of(alloc, Form::Lines, files) {
        Ok(Ok(known)) => answer_lines(alloc, known, reader, writer),
        Ok(Err(answer)) => refuse(&answer, writer),
        Err(_) => Err(RunFault::NoMemory),
    }
}
