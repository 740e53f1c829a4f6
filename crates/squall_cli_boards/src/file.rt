//! Files by their names.

ghost use Rattle.std.specs.Prelude.{◌≡◌, string_bytes};
ghost use Rattle.squall_cli_boards.specs.Files.{file_with};

use std::marker::Model;

/// What was read of a file, by the file's name. Contracts see both as bytes.
#[derive(Drop)]
pub struct NamedFile {
    name: String,
    bytes: Vec<u8>,
}

impl Model for NamedFile {
    ghost use Rattle.std.specs.Prelude.{string_bytes};
    ghost use Rattle.squall_cli_boards.specs.Files.{FileValue, file_with};

    ghost Value = { FileValue };

    ghost view = { λ f. file_with (string_bytes f.name) f.bytes.items };
}

impl NamedFile {
    /// The file of that name and these bytes.
    pub fn new(name: String, bytes: Vec<u8>) -> NamedFile
        ensures { result ≡ file_with (string_bytes name) bytes.items }
    {
        NamedFile { name, bytes }
    }

    /// Its name.
    pub fn name(&self) -> &str
        ensures { result.now ≡ self.now.name }
    {
        &self.name
    }

    /// Its bytes.
    pub fn bytes(&self) -> &[u8]
        ensures { result.now ≡ self.now.bytes }
    {
        &self.bytes
    }
}
