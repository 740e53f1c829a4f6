//! Answers one piece of the input, and its end.

ghost use Rattle.std.specs.Prelude.{◌≡◌, ◌≢◌, ◌++◌, ℕ, List, Err, IfOk, OnOk};
ghost use Rattle.std.specs.List.{concat};
ghost use Rattle.squall_cli_device.specs.States.{TookBytes};
ghost use Rattle.squall_cli_lines.specs.Heeding.{HeedsWrites};
ghost use Rattle.squall_cli_watch.specs.Drawn.{IsNewestBar};
ghost use Rattle.squall_cli_watch.specs.Drawing.{makes, JoinsBytes, JoinsPiece, ShowsPiece};
ghost use Rattle.squall_cli_watch.specs.Taken.{ShowsNewest, StaysNewest, plays, TakesPiece, AnswersPiece, AnswersEnd};

use crate::bar::{BarLine, next_bar, send_above};
use crate::ending::{Next, WatchEnd};
use crate::refusal::unfinished;
use crate::watcher::Watcher;
use squall_cli_command::Form;
use squall_cli_device::{DeviceFault, Sink};
use squall_cli_lines::{RunFault, send};
use squall_wire::hear;
use std::alloc::{AllocError, Global};

/// Adds the answers to the frames that end in the piece. It comes after bytes that wait for the rest
/// of their frame.
fn take_piece(
    alloc: Global,
    watcher: &mut Watcher,
    waiting: &mut Vec<u8>,
    piece: &[u8],
    out: &mut Vec<u8>,
) -> Result<Next, AllocError>
    requires current { ShowsNewest watcher.old }
    ensures texts { IfOk result (λ next. (texts : List (List ℕ)) × (out.new.items ≡ out.old.items ++ concat texts)
        × TakesPiece next texts (plays watcher.old) (plays watcher.new) (waiting.old.items ++ piece.now) waiting.new.items) }
    ensures board { IfOk result (λ next. JoinsBytes next (makes watcher.old) (makes watcher.new) watcher.new.board
        (waiting.old.items ++ piece.now) waiting.new.items) }
    ensures first { OnOk result (watcher.new.first ≡ watcher.old.first) }
    ensures current { IfOk result (λ next. StaysNewest next watcher.new) }
{
    waiting.extend_from_slice(piece)?;
    let (heard, rest) = hear(alloc, waiting)?;
    let left = Vec::from_slice(alloc, rest)?;
    let next = watcher.take_messages(alloc, &heard.messages, heard.fault, out)?;
    *waiting = left;
    Ok(next)
}

/// Writes the answers to the frames that end in the piece, above the bar.
pub(crate) fn answer_piece<K: Sink, E: Sink>(
    alloc: Global,
    watcher: &mut Watcher,
    waiting: &mut Vec<u8>,
    piece: &[u8],
    writer: &mut K,
    line: &mut BarLine,
    err: &mut E,
) -> Result<Next, RunFault>
    requires current { ShowsNewest watcher.old }
    ensures text { (sent : List ℕ) × TookBytes (K.state writer.old) (K.state writer.new) sent
        × AnswersPiece result (plays watcher.old) (plays watcher.new) (waiting.old.items ++ piece.now) waiting.new.items sent }
    ensures heeds { HeedsWrites result (K.state writer.old) (K.state writer.new) }
    ensures board { JoinsPiece result (makes watcher.old) (makes watcher.new) watcher.new.board (waiting.old.items ++ piece.now) waiting.new.items }
    ensures first { result ≢ Err RunFault.NoMemory → watcher.new.first ≡ watcher.old.first }
    ensures current { IfOk result (λ next. StaysNewest next watcher.new) }
    ensures bar { ShowsPiece result (IsNewestBar watcher.new.first watcher.new.board) line.old line.new (E.state err.old) (E.state err.new) }
{
    let mut out = Vec::new(alloc);
    let next = take_piece(alloc, watcher, waiting, piece, &mut out)?;
    let bar = next_bar(alloc, watcher, line, &out)?;
    match send_above(&out, bar, line, writer, err) {
        Ok(()) => Ok(next),
        Err(DeviceFault) => Err(RunFault::Write),
    }
}

/// Answers the end of the input: bytes that wait are too few for a frame.
pub(crate) fn answer_end<K: Sink>(
    form: Form,
    waiting: &[u8],
    writer: &mut K,
) -> Result<WatchEnd, RunFault>
    ensures text { (sent : List ℕ) × TookBytes (K.state writer.old) (K.state writer.new) sent × AnswersEnd form result waiting.now sent }
    ensures unread { result ≢ Err RunFault.Read }
    ensures heeds { HeedsWrites result (K.state writer.old) (K.state writer.new) }
{
    if waiting.is_empty() {
        return Ok(WatchEnd::Fine);
    }
    match send(writer, unfinished(form)) {
        Ok(()) => Ok(WatchEnd::Refused),
        Err(DeviceFault) => Err(RunFault::Write),
    }
}
