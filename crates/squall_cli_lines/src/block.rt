//! The lines of one block, and what is left at the end of the input.
ghost use Rattle.std.specs.Prelude.{◌≡◌, ◌≢◌, ℕ, List, [], ◌∷◌, ◌++◌, ◌<◌, length, string_bytes, Ok, Err, IfOk, IfSome, IfNone, OnOk};
ghost use Rattle.squall_cli_device.specs.States.{TookBytes};
ghost use Rattle.squall_cli_lines.specs.Heeding.{HeedsWrites};
ghost use Rattle.squall_cli_lines.specs.Lines.{IsOneLine};
ghost use Rattle.squall_cli_lines.specs.Script.{TakesLine, IsOutcome};
ghost use Rattle.squall_cli_lines.specs.Running.{TookBlock};

use super::line::first_line;
use super::machine::Machine;
use super::output::flush;
use super::{BLOCK_SIZE, Ended, Flow, LONGEST_PIECE, RunFault};
use squall_cli_device::Sink;
use std::alloc::AllocError;

/// Gives the machine the line that the piece ends: what was kept of it, and then the piece.
fn take_line<M: Machine>(
    machine: &mut M,
    carry: &mut Vec<u8>,
    out: &mut String,
    piece: &[u8],
) -> Result<Flow, AllocError>
    ensures answered { IfOk result (λ flow. (text : List ℕ) × (string_bytes out.new ≡ string_bytes out.old ++ text)
        × TakesLine flow text (M.plays machine.old) (M.plays machine.new) (carry.old.items ++ piece.now)) }
    ensures carry { OnOk result (carry.new.items ≡ []) }
{
    if carry.is_empty() {
        return machine.take(piece, out);
    }
    carry.extend_from_slice(piece)?;
    let flow = machine.take(carry.as_slice(), out)?;
    carry.clear();
    Ok(flow)
}

/// Answers the lines that end in the block, and sends the answers. What follows the last LF is
/// kept, unless it is too long to be a line.
pub fn take_block<M: Machine, K: Sink>(
    machine: &mut M,
    carry: &mut Vec<u8>,
    out: &mut String,
    writer: &mut K,
    block: &[u8],
) -> Result<Flow, RunFault>
    requires carry { IsOneLine carry.old.items }
    requires out { string_bytes out.old ≡ [] }
    ensures took { (sent : List ℕ) × TookBytes (K.state writer.old) (K.state writer.new) sent
        × TookBlock result (M.plays machine.old) (M.plays machine.new) (carry.old.items ++ block.now) carry.new.items sent }
    ensures out { OnOk result (string_bytes out.new ≡ []) }
    ensures heeds { HeedsWrites result (K.state writer.old) (K.state writer.new) }
{
    let mut rest = block;
    while let Some((line, others)) = first_line(rest) {
        rest = others;
        match take_line(machine, carry, out, line)? {
            Flow::End => {
                flush(writer, out)?;
                return Ok(Flow::End);
            }
            Flow::On => {
                if out.len() >= BLOCK_SIZE {
                    flush(writer, out)?;
                }
            }
        }
    }
    carry.extend_from_slice(rest)?;
    if carry.len() > LONGEST_PIECE {
        machine.take(carry.as_slice(), out)?;
        flush(writer, out)?;
        return Ok(Flow::End);
    }
    flush(writer, out)?;
    Ok(Flow::On)
}

/// Answers what is left at the end of the input, a last line with no LF.
pub fn take_last<M: Machine, K: Sink>(
    machine: &mut M,
    carry: &[u8],
    out: &mut String,
    writer: &mut K,
) -> Result<Ended, RunFault>
    requires carry { IsOneLine carry.now }
    requires out { string_bytes out.old ≡ [] }
    ensures took { (sent : List ℕ) × TookBytes (K.state writer.old) (K.state writer.new) sent
        × IsOutcome result (M.plays machine.old) carry.now sent }
    ensures only { result ≢ Err RunFault.Read }
    ensures heeds { HeedsWrites result (K.state writer.old) (K.state writer.new) }
{
    if carry.is_empty() {
        return Ok(Ended::Fine);
    }
    let flow = machine.take(carry, out)?;
    flush(writer, out)?;
    match flow {
        Flow::On => Ok(Ended::Fine),
        Flow::End => Ok(Ended::Refused),
    }
}
