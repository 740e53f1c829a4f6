//! The file of a log.

ghost use Rattle.squall_cli_device.specs.States.{SinkState};

use squall_cli_device::{DeviceFault, Sink, Writer};
use squall_store_log::Disk;
use std::fs::File;
use std::io;

/// A file to which entries are added at its end.
#[derive(Drop)]
pub(crate) struct LogFile {
    writer: Writer<File>,
    // The same open file.
    handle: File,
}

impl LogFile {
    /// The file, which is at its end.
    pub(crate) fn new(file: File) -> io::Result<LogFile> {
        let handle = file.try_clone()?;
        Ok(LogFile {
            writer: Writer::new(file),
            handle,
        })
    }
}

impl Sink for LogFile {
    ghost state = { λ f. ⟦<Writer<File> as Sink>⟧.state f.writer };

    ghost terminal = { λ f. ⟦<Writer<File> as Sink>⟧.terminal f.writer };

    fn is_terminal(&self) -> bool {
        self.writer.is_terminal()
    }

    fn write(&mut self, buf: &[u8]) -> Result<usize, DeviceFault> {
        self.writer.write(buf)
    }
}

impl Disk for LogFile {
    fn sync(&mut self) -> Result<(), DeviceFault> {
        match self.handle.sync_data() {
            Ok(()) => Ok(()),
            Err(_) => Err(DeviceFault),
        }
    }
}
