//! Readers and writers whose contracts count what happened: how many reads were made, how many
//! calls failed, and how many gave or took no byte. A writer also says whether it is a terminal.
//!
//! A program that must say why it stopped needs these counts. With them "the writer failed" is a
//! fact about the writer, and not only about what the program answers.
#![tactic(auto)]

ghost use Rattle.std.specs.Prelude.{◌≡◌, ◌≤◌, Bool, false, length, IfOk, is_err};
ghost use Rattle.std.specs.Io.KnownBytes.{ReadConsumes, WriteAppends};
ghost use Rattle.squall_cli_device.specs.Counts.{one_more, counted, is_idle};
ghost use Rattle.squall_cli_device.specs.States.{SourceState, SinkState, unread_source, unwritten_sink};

use std::io::{IsTerminal, Read, Write};

/// A device failed. Nothing was read or written by the call that failed.
#[derive(Clone, Copy, Debug, PartialEq, Eq)]
pub struct DeviceFault;

/// What bytes come from.
pub trait Source {
    /// What it has left, and how many reads were made, failed, or found the end.
    ghost state: { Self → SourceState };

    /// Reads some bytes into the beginning of `buf`, and returns how many. None with room in `buf` is
    /// the end of the input. After a fault no byte is lost, and each call counts.
    fn read(&mut self, buf: &mut [u8]) -> Result<usize, DeviceFault>
        ensures bound { IfOk result (λ n. n ≤ length buf.new) }
        ensures bytes { ReadConsumes (state self.old).remaining (state self.new).remaining result buf.new }
        ensures reads { (state self.new).reads ≡ one_more (state self.old).reads }
        ensures faults { (state self.new).faults ≡ counted (is_err result) (state self.old).faults }
        ensures ends { (state self.new).ends ≡ counted (is_idle (length buf.new) result) (state self.old).ends };
}

/// What bytes go to.
pub trait Sink {
    /// What it has taken, and how many writes failed or took nothing.
    ghost state: { Self → SinkState };

    /// Whether it is a terminal.
    ghost terminal: { Self → Bool };

    /// Whether it is a terminal, so that what it takes is seen at once and can be overwritten.
    fn is_terminal(&self) -> bool
        ensures { result ≡ terminal self.now };

    /// Takes some bytes from the beginning of `buf`, and returns how many. After a fault none was
    /// taken, and each call counts.
    fn write(&mut self, buf: &[u8]) -> Result<usize, DeviceFault>
        ensures bound { IfOk result (λ n. n ≤ length buf.now) }
        ensures bytes { WriteAppends (state self.old).contents (state self.new).contents result buf.now }
        ensures faults { (state self.new).faults ≡ counted (is_err result) (state self.old).faults }
        ensures empties { (state self.new).empties ≡ counted (is_idle (length buf.now) result) (state self.old).empties };
}

/// A reader of `std` as a source. Each error of the reader is a fault, an interruption too.
#[derive(Drop)]
pub struct Reader<R> {
    inner: R,
    reads: u64,
    faults: u64,
    ends: u64,
}

impl<R: Read> Reader<R> {
    /// The source of what `inner` has left, with nothing counted yet.
    pub fn new(inner: R) -> Self
        ensures { ⟦<Reader<R> as Source>⟧.state result ≡ unread_source (R.remaining inner) }
    {
        Reader {
            inner,
            reads: 0,
            faults: 0,
            ends: 0,
        }
    }
}

impl<R: Read> Source for Reader<R> {
    ghost state = { λ s. record { remaining = R.remaining s.inner; reads = s.reads; faults = s.faults; ends = s.ends } };

    fn read(&mut self, buf: &mut [u8]) -> Result<usize, DeviceFault> {
        self.reads = self.reads.saturating_add(1);
        match self.inner.read(buf) {
            Ok(0) if !buf.is_empty() => {
                self.ends = self.ends.saturating_add(1);
                Ok(0)
            }
            Ok(n) => Ok(n),
            Err(_) => {
                self.faults = self.faults.saturating_add(1);
                Err(DeviceFault)
            }
        }
    }
}

/// A writer of `std` as a sink. Each error of the writer is a fault, an interruption too.
#[derive(Drop)]
pub struct Writer<W> {
    inner: W,
    is_terminal: bool,
    faults: u64,
    empties: u64,
}

impl<W: Write> Writer<W> {
    /// The sink that adds to what `inner` has taken, with nothing counted yet.
    fn starting(inner: W, is_terminal: bool) -> Self
        ensures state { ⟦<Writer<W> as Sink>⟧.state result ≡ unwritten_sink (W.contents inner) }
        ensures terminal { ⟦<Writer<W> as Sink>⟧.terminal result ≡ is_terminal }
    {
        Writer {
            inner,
            is_terminal,
            faults: 0,
            empties: 0,
        }
    }

    /// The sink that adds to what `inner` has taken, with nothing counted yet. It is no terminal.
    pub fn new(inner: W) -> Self
        ensures state { ⟦<Writer<W> as Sink>⟧.state result ≡ unwritten_sink (W.contents inner) }
        ensures plain { ⟦<Writer<W> as Sink>⟧.terminal result ≡ false }
    {
        Writer::starting(inner, false)
    }
}

impl<W: Write + IsTerminal> Writer<W> {
    /// The same, and it is a terminal if `inner` says so. That is asked once, here.
    pub fn on_stream(inner: W) -> Self
        ensures { ⟦<Writer<W> as Sink>⟧.state result ≡ unwritten_sink (W.contents inner) }
    {
        let is_terminal = inner.is_terminal();
        Writer::starting(inner, is_terminal)
    }
}

impl<W: Write> Sink for Writer<W> {
    ghost state = { λ s. record { contents = W.contents s.inner; faults = s.faults; empties = s.empties } };

    ghost terminal = { λ s. s.is_terminal };

    fn is_terminal(&self) -> bool {
        self.is_terminal
    }

    fn write(&mut self, buf: &[u8]) -> Result<usize, DeviceFault> {
        match self.inner.write(buf) {
            Ok(0) if !buf.is_empty() => {
                self.empties = self.empties.saturating_add(1);
                Ok(0)
            }
            Ok(n) => Ok(n),
            Err(_) => {
                self.faults = self.faults.saturating_add(1);
                Err(DeviceFault)
            }
        }
    }
}

#[cfg(test)]
mod tests;
