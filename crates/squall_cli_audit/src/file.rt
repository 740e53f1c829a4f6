//! Logs by the names of their files.

ghost use Rattle.std.specs.Prelude.{◌≡◌, string_bytes};
ghost use Rattle.squall_cli_audit.specs.LogFiles.{file_with};

use std::marker::Model;

/// The text of a log, by the name of its file. Contracts see both as bytes.
#[derive(Drop)]
pub struct LogFile {
    name: String,
    text: Vec<u8>,
}

impl Model for LogFile {
    ghost use Rattle.std.specs.Prelude.{string_bytes};
    ghost use Rattle.squall_cli_audit.specs.LogFiles.{FileValue, file_with};

    ghost Value = { FileValue };

    ghost view = { λ f. file_with (string_bytes f.name) f.text.items };
}

impl LogFile {
    /// The file of that name with this text.
    pub fn new(name: String, text: Vec<u8>) -> LogFile
        ensures { result ≡ file_with (string_bytes name) text.items }
    {
        LogFile { name, text }
    }

    /// Its name.
    pub(crate) fn name(&self) -> &str
        ensures { result.now ≡ self.now.name }
    {
        &self.name
    }

    /// Its text.
    pub(crate) fn text(&self) -> &[u8]
        ensures { result.now ≡ self.now.text }
    {
        &self.text
    }
}
