//! What the program does: it runs scenarios and races, checks plans, shows courses, and answers what is
//! asked of files and words.
//!
//! Its tests are the cases of `cases/` and `tools/faults/failing-system`.
#![tactic(auto)]

ghost use Rattle.std.specs.Prelude.{◌≡◌, ◌⊎◌, ℕ, List, Ok};
ghost use Rattle.squall_cli_device.specs.States.{GaveBytes, GaveAll, ReadAndWrote};
ghost use Rattle.squall_cli_lines.specs.Lines.{whole_lines};
ghost use Rattle.squall_cli_lines.specs.Script.{HasNoBadLine, IsOutcome, IsPrompt};
ghost use Rattle.squall_cli_lines.specs.Heeding.{HeedsReads, HeedsWrites};
ghost use Rattle.squall_cli_scenario.specs.Text.{IsScript};

mod check;
mod course;
pub mod laws;
mod output;
mod program;
mod race;
mod tasks;

pub use check::check_text;
pub use course::course_text;
pub use program::Program;
pub use race::race_text;
pub use squall_cli_ask::{Console, Files};
pub use squall_cli_command::{Form, LineFault, Task, command};
pub use squall_cli_device::{DeviceFault, Reader, Sink, Source, Writer};
pub use squall_cli_lines::{Ended, MOST_READS, RunFault};
use squall_cli_scenario::Scenario;
use std::alloc::Global;

/// Answers the lines of a scenario. It reads them from `reader` to the end of the input, or to a bad
/// line, and writes the answers to `writer`. The answers to the lines that one read brings are
/// written before the next read.
///
/// - `Fine`: each line is answered.
/// - `Refused`: a line was bad, as the last answer says. No read follows a bad line.
/// - `Read`: a read failed, or [`MOST_READS`] reads came to no end. The lines that were read with
///   their LF are answered.
/// - `Write`: a write failed, or took no byte. The writer has a prefix of the answers.
/// - `NoMemory`: an allocation failed. Some first lines are answered, each whole.
///
/// A read or a write that failed is always answered so. What was read stays read.
pub fn run_text<S: Source, K: Sink>(
    alloc: Global,
    reader: &mut S,
    writer: &mut K,
) -> Result<Ended, RunFault>
    // What is written is the answers of the one script of the lines that were read, and nothing else.
    ensures text { ReadAndWrote (S.state reader.old) (S.state reader.new) (K.state writer.old) (K.state writer.new)
        (IsOutcome result IsScript) }

    // The lines that came before the last read were answered before it, and none of them was bad.
    ensures prompt { ReadAndWrote (S.state reader.old) (S.state reader.new) (K.state writer.old) (K.state writer.new)
        (IsPrompt IsScript) }

    // No read follows a bad line: the end was found only if the bad line came without its LF.
    ensures no_read_after { result ≡ Ok Ended.Refused → ((S.state reader.new).ends ≡ (S.state reader.old).ends)
        ⊎ ((read : List ℕ) × GaveBytes (S.state reader.old) (S.state reader.new) read × HasNoBadLine IsScript (whole_lines read)) }

    // `Fine` comes only if a read found the end, and then nothing is left.
    ensures fine { result ≡ Ok Ended.Fine → GaveAll (S.state reader.old) (S.state reader.new) }

    // A device is the cause of its fault, no failed read or write is passed over, and reads are limited.
    ensures heeds_reads { HeedsReads result (S.state reader.old) (S.state reader.new) }
    ensures heeds_writes { HeedsWrites result (K.state writer.old) (K.state writer.new) }
{
    let mut scenario = Scenario::new(alloc);
    squall_cli_lines::run(alloc, &mut scenario, reader, writer)
}
