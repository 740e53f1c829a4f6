//! The line of a terminal on which a bar is drawn.

ghost use Rattle.std.specs.Prelude.{◌≡◌, false, true, bytes_eq};
ghost use Rattle.squall_cli_watch.specs.Bars.{erasure};
ghost use Rattle.squall_cli_watch.specs.BarLines.{Adds, IsDrawn, Ends};

use squall_cli_device::Sink;
use squall_cli_lines::send;
use std::alloc::Global;
use std::marker::Model;

/// What erases a bar: blanks from the start of the line on.
const ERASURE: &[u8] =
    b"\r                                                                               \r";

/// The line of a terminal on which a bar is drawn. After a write that failed nothing more is drawn.
///
/// Contracts see whether bars are drawn on it, and the bar that was drawn last.
#[derive(Drop)]
pub(crate) struct BarLine {
    is_on: bool,
    shown: Vec<u8>,
}

impl Model for BarLine {
    ghost use Rattle.squall_cli_watch.specs.BarLines.{LineValue};

    ghost Value = { LineValue };

    ghost view = { λ l. record { on = l.is_on; shown = l.shown.items } };
}

impl BarLine {
    /// A line on which nothing is drawn.
    pub(crate) fn off(alloc: Global) -> BarLine
        ensures { result.on ≡ false }
    {
        BarLine {
            is_on: false,
            shown: Vec::new(alloc),
        }
    }

    /// Draws a first bar.
    pub(crate) fn start<E: Sink>(text: Vec<u8>, err: &mut E) -> BarLine
        ensures shown { result.shown ≡ text.items }
        ensures drawn { IsDrawn result.on (E.state err.old) (E.state err.new) text.items }
    {
        let is_on = send(err, &text).is_ok();
        BarLine { is_on, shown: text }
    }

    /// Whether bars are drawn on it.
    pub(crate) fn is_on(&self) -> bool
        ensures { result ≡ self.now.on }
    {
        self.is_on
    }

    /// Whether this bar was drawn last.
    pub(crate) fn shows(&self, text: &[u8]) -> bool
        ensures { result ≡ bytes_eq self.now.shown text.now }
    {
        self.shown.as_slice() == text
    }

    /// Adds to the line, if it is drawn on.
    fn add<E: Sink>(&mut self, text: &[u8], err: &mut E)
        ensures shown { self.new.shown ≡ self.old.shown }
        ensures drawn { Adds self.old.on self.new.on (E.state err.old) (E.state err.new) text.now }
    {
        if self.is_on {
            self.is_on = send(err, text).is_ok();
        }
    }

    /// Erases the bar, so that a text that is written elsewhere begins on an empty line.
    pub(crate) fn erase<E: Sink>(&mut self, err: &mut E)
        ensures shown { self.new.shown ≡ self.old.shown }
        ensures drawn { Adds self.old.on self.new.on (E.state err.old) (E.state err.new) erasure }
    {
        self.add(ERASURE, err);
    }

    /// Draws a bar on the line that was erased.
    pub(crate) fn draw<E: Sink>(&mut self, text: Vec<u8>, err: &mut E)
        ensures shown { self.new.shown ≡ text.items }
        ensures drawn { Adds self.old.on self.new.on (E.state err.old) (E.state err.new) text.items }
    {
        self.add(&text, err);
        self.shown = text;
    }

    /// Ends the line, so that the bar stays and what comes next begins on a line of its own. Nothing
    /// is drawn afterwards.
    pub(crate) fn end<E: Sink>(&mut self, err: &mut E)
        ensures off { self.new.on ≡ false }
        ensures ended { Ends self.old.on (E.state err.old) (E.state err.new) }
    {
        self.add(b"\n", err);
        self.is_on = false;
    }
}
