//! Runs a machine over the lines of a source, and writes what the machine answers to a sink.
//!
//! The input is read in blocks. The machine borrows a line that lies whole in a block, and only a
//! line that a block cuts is copied. The answers to a block are written before the next block is
//! read, so a reader who waits for an answer gets it.
//!
//! What it does with lines, and with devices that fail, the cases of `cases/run` and
//! `tools/faults/failing-system` show.
#![tactic(auto)]

ghost use Rattle.std.specs.Prelude.{◌≡◌, ◌⊎◌, ℕ, List, Some, Ok};
ghost use Rattle.squall_cli_device.specs.States.{GaveBytes, GaveAll, ReadAndWrote};
ghost use Rattle.squall_cli_lines.specs.Lines.{whole_lines};
ghost use Rattle.squall_cli_lines.specs.Script.{HasNoBadLine, IsOutcome, IsPrompt};
ghost use Rattle.squall_cli_lines.specs.Heeding.{HeedsReads, HeedsWrites};
ghost use Rattle.squall_cli_lines.specs.Faults.{text_of_run_fault};

use squall_cli_device::{Sink, Source};
use std::alloc::{AllocError, Global};
use std::error::Error;
use std::fmt;

mod block;
mod input;
pub mod laws;
mod line;
pub mod machine;
mod output;
pub mod words;

use block::{take_block, take_last};
use input::block_room;
pub use input::read_all;
pub use line::next_line;
use machine::Machine;
pub use output::{send, send_text};

/// Whether a run goes on after a line.
#[derive(Clone, Copy, Debug, PartialEq, Eq)]
pub enum Flow {
    /// The next line is to come.
    On,
    /// The line was bad, and no further line is read.
    End,
}

/// How a run ended that nothing stopped.
#[derive(Clone, Copy, Debug, PartialEq, Eq)]
pub enum Ended {
    /// Each line of the input was answered.
    Fine,
    /// A line was bad. It was answered, and so was each line before it.
    Refused,
}

/// What stopped a run before its end.
#[derive(Clone, Copy, Debug, PartialEq, Eq)]
pub enum RunFault {
    /// A read failed, or there were too many of them.
    Read,
    /// A write failed, or took no byte.
    Write,
    /// An allocation failed.
    NoMemory,
}

impl fmt::Display for RunFault {
    ghost output = { λ e. Some (text_of_run_fault e) };

    fn fmt<W: fmt::Write>(&self, f: &mut fmt::Formatter<W>) -> fmt::Result {
        match self {
            RunFault::Read => write!(f, "read failed"),
            RunFault::Write => write!(f, "write failed"),
            RunFault::NoMemory => write!(f, "no memory"),
        }
    }
}

impl Error for RunFault {}

impl From<AllocError> for RunFault {
    ghost use Rattle.squall_cli_lines.specs.declared.RunFault.TheVariants.{NoMemory};
    ghost use Rattle.std.specs.Prelude.{◌≡◌};

    ghost from_gives = { λ _ e. e ≡ NoMemory };

    fn from(_e: AllocError) -> RunFault {
        RunFault::NoMemory
    }
}

/// How many bytes one read asks for. Answers that have grown to as many bytes are written before
/// the next line is answered.
pub const BLOCK_SIZE: usize = 65536;

/// How many reads one run makes at most, so that it ends whatever the source does. At a billion reads
/// a second they take 36 years, so no source that answers gets there.
pub const MOST_READS: u64 = 1 << 60;

/// How many bytes a line has at most, without its line end.
pub const LONGEST_LINE: usize = 1048576;

/// How many bytes are kept at most of a line whose LF did not come yet. They are a longest line,
/// and a CR that may still be part of its line end. With one byte more the line is too long for
/// certain, and goes to the machine at once.
pub const LONGEST_PIECE: usize = LONGEST_LINE + 1;

/// Runs the machine over the lines of what `reader` gives, and writes what it answers to `writer`.
/// What the run returns says how many lines are answered:
///
/// - `Fine`: the input was read to its end, and each line is answered.
/// - `Refused`: a line was bad. It is answered, as is each line before it, and no read follows.
/// - `Read`: a read failed, or `MOST_READS` reads came to no end. The lines that were read with
///   their LF are answered.
/// - `Write`: a write failed, or took no byte. The writer has a prefix of the answers.
/// - `NoMemory`: an allocation failed. Some first lines are answered, each whole.
///
/// Before each read the lines that came with their LF so far are answered, and none of them was
/// bad. A run can't know which read is the last one, so what is said of the last holds of each.
///
/// A read or a write that failed is always answered so: it ends the run. No run makes more than
/// `MOST_READS` reads, whatever the source does.
///
/// Nothing is known of the machine afterwards.
pub fn run<S: Source, K: Sink, M: Machine>(
    alloc: Global,
    machine: &mut M,
    reader: &mut S,
    writer: &mut K,
) -> Result<Ended, RunFault>
    // What is written is the answers of a script that the machine may play to the lines of what was read.
    ensures text { ReadAndWrote (S.state reader.old) (S.state reader.new) (K.state writer.old) (K.state writer.new)
        (IsOutcome result (M.plays machine.old)) }
    // The lines that came before the last read were answered before it, and none of them was bad.
    ensures prompt { ReadAndWrote (S.state reader.old) (S.state reader.new) (K.state writer.old) (K.state writer.new)
        (IsPrompt (M.plays machine.old)) }
    // No read follows a bad line: the end was found only if the bad line came without its LF.
    ensures no_read_after { result ≡ Ok Ended.Refused → ((S.state reader.new).ends ≡ (S.state reader.old).ends)
        ⊎ ((read : List ℕ) × GaveBytes (S.state reader.old) (S.state reader.new) read × HasNoBadLine (M.plays machine.old) (whole_lines read)) }
    // `Fine` comes only if a read found the end, and then nothing is left.
    ensures fine { result ≡ Ok Ended.Fine → GaveAll (S.state reader.old) (S.state reader.new) }
    // A device is the cause of its fault, no failed read or write is passed over, and reads are limited.
    ensures heeds_reads { HeedsReads result (S.state reader.old) (S.state reader.new) }
    ensures heeds_writes { HeedsWrites result (K.state writer.old) (K.state writer.new) }
{
    let mut room = block_room(alloc, BLOCK_SIZE)?;
    let block = room.as_mut_slice();
    let mut carry = Vec::new(alloc);
    let mut out = String::new(alloc);
    for turn in 0..MOST_READS {
        let Ok(n) = reader.read(block) else {
            return Err(RunFault::Read);
        };
        if n == 0 {
            return take_last(machine, carry.as_slice(), &mut out, writer);
        }
        match take_block(machine, &mut carry, &mut out, writer, &block[..n])? {
            Flow::On => {}
            Flow::End => return Ok(Ended::Refused),
        }
    }
    Err(RunFault::Read)
}
