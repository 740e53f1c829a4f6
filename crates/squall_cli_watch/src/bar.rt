//! The bar of the newest course, and what is written above it.

ghost use Rattle.std.specs.Prelude.{◌≡◌, ◌≤◌, IfOk, OnOk, OnErr, ℕ, take};
ghost use Rattle.std.specs.Option.{option_map};
ghost use Rattle.squall_cli_device.specs.States.{TookBytes, OutputFails, NoWriteFails};
ghost use Rattle.squall_cli_watch.specs.Bars.{bar_text};
ghost use Rattle.squall_cli_watch.specs.Drawn.{bar_of, IsNewestBar};
ghost use Rattle.squall_cli_watch.specs.Drawing.{IsToDraw, Replaces, IsStarted};

use crate::status::newest_status;
use crate::watcher::Watcher;
use squall_cli_device::{DeviceFault, Sink};
use squall_cli_lines::send;
use squall_status::{CourseStatus, complete_moves, course_share, ended_subplans};
use std::alloc::{AllocError, Global};

mod line;
mod text;

pub(crate) use line::BarLine;
pub use text::{Bar, bar_text};

/// What the bar of a status shows.
fn bar_of(status: &CourseStatus) -> Bar
    ensures value { result ≡ bar_of status.now }
    ensures most { result.share ≤ 1000 }
{
    let moves = status.moves();
    let subplans = status.subplans();
    Bar {
        share: course_share(moves),
        complete: complete_moves(moves),
        moves: moves.len(),
        ended: ended_subplans(subplans),
        subplans: subplans.len(),
    }
}

/// The text of the bar of a status.
fn text_of(alloc: Global, status: &CourseStatus) -> Result<Vec<u8>, AllocError>
    ensures { IfOk result (λ text. text.items ≡ bar_text (bar_of status.now)) }
{
    bar_text(alloc, &bar_of(status))
}

/// The bar of the newest course.
fn newest_bar(alloc: Global, watcher: &Watcher) -> Result<Vec<u8>, AllocError>
    ensures { IfOk result (λ text. IsNewestBar watcher.now.first watcher.now.board text.items) }
{
    let status = newest_status(alloc, &watcher.first, &watcher.board)?;
    text_of(alloc, &status)
}

/// Draws the first bar, if `err` is a terminal.
pub(crate) fn start_line<E: Sink>(
    alloc: Global,
    watcher: &Watcher,
    err: &mut E,
) -> Result<BarLine, AllocError>
    ensures started { IfOk result (λ line. IsStarted (E.terminal err.old) (IsNewestBar watcher.now.first watcher.now.board)
        line (E.state err.old) (E.state err.new)) }
    ensures kept { OnErr result (E.state err.new ≡ E.state err.old) }
{
    if !err.is_terminal() {
        return Ok(BarLine::off(alloc));
    }
    let text = newest_bar(alloc, watcher)?;
    Ok(BarLine::start(text, err))
}

/// The bar to draw when these answers are written: that of the newest course. There is none if the
/// line is not drawn on, or if nothing is written and the line shows that bar already.
pub(crate) fn next_bar(
    alloc: Global,
    watcher: &Watcher,
    line: &BarLine,
    answers: &[u8],
) -> Result<Option<Vec<u8>>, AllocError>
    ensures { IfOk result (λ bar. IsToDraw (option_map (λ text. text.items) bar) (IsNewestBar watcher.now.first watcher.now.board) line.now) }
{
    if !line.is_on() {
        return Ok(None);
    }
    let text = newest_bar(alloc, watcher)?;
    if answers.is_empty() && line.shows(&text) {
        return Ok(None);
    }
    Ok(Some(text))
}

/// Writes answers above the bar: the line is erased before and the bar is drawn after them, since both
/// may be on one terminal.
pub(crate) fn send_above<K: Sink, E: Sink>(
    answers: &[u8],
    bar: Option<Vec<u8>>,
    line: &mut BarLine,
    writer: &mut K,
    err: &mut E,
) -> Result<(), DeviceFault>
    ensures ok { OnOk result (TookBytes (K.state writer.old) (K.state writer.new) answers.now) }
    ensures err { OnErr result ((n : ℕ) × TookBytes (K.state writer.old) (K.state writer.new) (take n answers.now)) }
    ensures uncounted { OnOk result (NoWriteFails (K.state writer.old) (K.state writer.new)) }
    ensures counted { OnErr result (OutputFails (K.state writer.old) (K.state writer.new)) }
    ensures bar { Replaces (option_map (λ text. text.items) bar) line.old line.new (E.state err.old) (E.state err.new) }
{
    let Some(bar) = bar else {
        return send(writer, answers);
    };
    line.erase(err);
    let sent = send(writer, answers);
    line.draw(bar, err);
    sent
}
