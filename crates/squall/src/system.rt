//! The files and the streams of the system, of which no proof knows the bytes, and why its last call
//! failed.

use squall_cli_run::{Console, DeviceFault, Files, Reader, Sink, Writer};
use std::cell::Cell;
use std::fs::File;
use std::io;
use std::io::{ErrorKind, IsTerminal, Read, Write};

/// What is said of a source of which more reads were made than any input needs.
const NO_END: &str = "no end was found";

/// What is said of a file that took no byte.
const TOOK_NOTHING: &str = "no byte was taken";

/// What is said of frames that would go to a terminal.
const NO_TEXT: &str = "frames are no text for a terminal: send them to a file or a pipe";

/// What standard output came to.
#[derive(Clone, Copy, Debug, PartialEq, Eq)]
pub(crate) enum Outlet {
    /// It takes what comes, or fails.
    Open,
    /// Nobody reads it any more, as under `| head -1`.
    Unread,
    /// It is a terminal, and frames were to be written to it.
    Terminal,
}

/// Why the last call of the system that failed did so.
#[derive(Drop)]
pub(crate) struct Failure {
    reason: Cell<&'static str>,
    outlet: Cell<Outlet>,
}

impl Failure {
    /// None yet.
    pub(crate) fn new() -> Failure {
        Failure {
            reason: Cell::new(NO_END),
            outlet: Cell::new(Outlet::Open),
        }
    }

    /// What standard output came to.
    pub(crate) fn outlet(&self) -> Outlet {
        self.outlet.get()
    }

    /// Keeps why a call failed.
    fn keep(&self, error: &io::Error) {
        self.reason.set(reason_of(error));
    }

    /// Keeps why a write failed.
    fn keep_write(&self, error: &io::Error) {
        self.keep(error);
        if error.kind() == ErrorKind::BrokenPipe {
            self.outlet.set(Outlet::Unread);
        }
    }
}

/// The system's words for an error. Those of the C library have the number behind them.
fn reason_of(error: &io::Error) -> &'static str {
    match error.raw_os_error() {
        Some(1) => "Operation not permitted",
        Some(2) => "No such file or directory",
        Some(4) => "Interrupted system call",
        Some(5) => "Input/output error",
        Some(6) => "No such device or address",
        Some(9) => "Bad file descriptor",
        Some(11) => "Resource temporarily unavailable",
        Some(12) => "Cannot allocate memory",
        Some(13) => "Permission denied",
        Some(16) => "Device or resource busy",
        Some(19) => "No such device",
        Some(20) => "Not a directory",
        Some(21) => "Is a directory",
        Some(22) => "Invalid argument",
        Some(23) => "Too many open files in system",
        Some(24) => "Too many open files",
        Some(26) => "Text file busy",
        Some(27) => "File too large",
        Some(28) => "No space left on device",
        Some(30) => "Read-only file system",
        Some(32) => "Broken pipe",
        Some(36) => "File name too long",
        Some(40) => "Too many levels of symbolic links",
        Some(75) => "Value too large for defined data type",
        Some(104) => "Connection reset by peer",
        Some(110) => "Connection timed out",
        Some(116) => "Stale file handle",
        Some(122) => "Disk quota exceeded",
        _ => "the system gives another reason",
    }
}

/// A reader or a writer of which the reason of a failed call is kept.
#[derive(Drop)]
pub(crate) struct Kept<'a, T> {
    inner: T,
    failure: &'a Failure,
}

impl<'a, T> Kept<'a, T> {
    pub(crate) fn new(inner: T, failure: &'a Failure) -> Kept<'a, T> {
        Kept { inner, failure }
    }
}

impl<R: Read> Read for Kept<'_, R> {
    fn read(&mut self, buf: &mut [u8]) -> io::Result<usize> {
        match self.inner.read(buf) {
            Ok(n) => Ok(n),
            Err(error) => {
                self.failure.keep(&error);
                Err(error)
            }
        }
    }
}

impl<W: Write> Write for Kept<'_, W> {
    fn write(&mut self, buf: &[u8]) -> io::Result<usize> {
        match self.inner.write(buf) {
            Ok(0) => {
                self.failure.reason.set(TOOK_NOTHING);
                Ok(0)
            }
            Ok(n) => Ok(n),
            Err(error) => {
                self.failure.keep_write(&error);
                Err(error)
            }
        }
    }

    fn flush(&mut self) -> io::Result<()> {
        self.inner.flush()
    }
}

/// Standard output. If it is a terminal, it takes no frames.
#[derive(Drop)]
pub(crate) struct Output<'a, W> {
    inner: Kept<'a, W>,
    is_terminal: bool,
}

impl<'a, W: IsTerminal> Output<'a, W> {
    pub(crate) fn new(inner: W, failure: &'a Failure) -> Output<'a, W> {
        let is_terminal = inner.is_terminal();
        Output {
            inner: Kept::new(inner, failure),
            is_terminal,
        }
    }
}

/// Whether the block begins with a frame: its third byte is a version, and no text.
fn begins_with_frame(block: &[u8]) -> bool {
    matches!(block, [b'S', b'Q', version, ..] if *version < b' ')
}

impl<W: Write> Write for Output<'_, W> {
    fn write(&mut self, buf: &[u8]) -> io::Result<usize> {
        if self.is_terminal && begins_with_frame(buf) {
            let failure = self.inner.failure;
            failure.reason.set(NO_TEXT);
            failure.outlet.set(Outlet::Terminal);
            return Err(io::Error::from(ErrorKind::InvalidInput));
        }
        self.inner.write(buf)
    }

    fn flush(&mut self) -> io::Result<()> {
        self.inner.flush()
    }
}

/// A writer for messages, which takes none once nobody reads the output any more.
#[derive(Drop)]
struct Hushed<'a, W> {
    inner: W,
    failure: &'a Failure,
}

impl<W: Write> Write for Hushed<'_, W> {
    fn write(&mut self, buf: &[u8]) -> io::Result<usize> {
        if self.failure.outlet() == Outlet::Unread {
            return Err(io::Error::from(ErrorKind::BrokenPipe));
        }
        self.inner.write(buf)
    }

    fn flush(&mut self) -> io::Result<()> {
        self.inner.flush()
    }
}

impl<W: IsTerminal> IsTerminal for Hushed<'_, W> {
    fn is_terminal(&self) -> bool {
        self.inner.is_terminal()
    }
}

/// Standard error, on which messages say why a call failed.
#[derive(Drop)]
pub(crate) struct Messages<'a, W> {
    writer: Writer<Hushed<'a, W>>,
    failure: &'a Failure,
}

impl<'a, W: Write + IsTerminal> Messages<'a, W> {
    pub(crate) fn new(inner: W, failure: &'a Failure) -> Messages<'a, W> {
        Messages {
            writer: Writer::on_stream(Hushed { inner, failure }),
            failure,
        }
    }
}

impl<'a, W: Write> Sink for Messages<'a, W> {
    ghost state = { λ m. ⟦<Writer<Hushed<'a, W>> as Sink>⟧.state m.writer };

    ghost terminal = { λ m. ⟦<Writer<Hushed<'a, W>> as Sink>⟧.terminal m.writer };

    fn is_terminal(&self) -> bool {
        self.writer.is_terminal()
    }

    fn write(&mut self, buf: &[u8]) -> Result<usize, DeviceFault> {
        self.writer.write(buf)
    }
}

impl<W: Write> Console for Messages<'_, W> {
    fn reason(&self) -> &'static str {
        self.failure.reason.get()
    }
}

/// The files of the system.
#[derive(Drop)]
pub(crate) struct SystemFiles<'a> {
    rt: &'a HostRuntime,
    failure: &'a Failure,
}

impl<'a> SystemFiles<'a> {
    pub(crate) fn new(rt: &'a HostRuntime, failure: &'a Failure) -> SystemFiles<'a> {
        SystemFiles { rt, failure }
    }
}

impl<'a> Files for SystemFiles<'a> {
    type File = Reader<Kept<'a, File>>;

    fn open(&mut self, name: &str) -> Option<Reader<Kept<'a, File>>> {
        match File::open(self.rt, name) {
            Ok(file) => Some(Reader::new(Kept::new(file, self.failure))),
            Err(error) => {
                self.failure.keep(&error);
                None
            }
        }
    }
}
