//! The logs of files.

ghost use Rattle.std.specs.Prelude.{IfOk};
ghost use Rattle.squall_cli_audit.specs.Read.{AreRead};

use crate::file::LogFile;
use crate::text::{ReadLog, read_log};
use squall_judge::Log;
use std::alloc::{AllocError, Global};

/// The logs of files, and the numbers of the lines of their entries.
#[derive(Drop)]
pub(crate) struct ReadFiles {
    pub(crate) logs: Vec<Log>,
    pub(crate) lines: Vec<Vec<u64>>,
}

/// A file that is the text of no log, and the number of its first bad line.
#[derive(Clone, Copy, Debug)]
pub(crate) struct BadFile {
    pub(crate) index: usize,
    pub(crate) line: u64,
}

/// The logs of the files, or the first bad file. It fails (memory).
pub(crate) fn read_files(
    alloc: Global,
    files: &[LogFile],
) -> Result<Result<ReadFiles, BadFile>, AllocError>
    ensures { IfOk result (λ read. AreRead files.now read) }
{
    let mut logs = Vec::new(alloc);
    let mut lines = Vec::new(alloc);
    for (index, file) in files.iter().enumerate() {
        match read_log(alloc, file.text())? {
            Ok(
                ReadLog {
                    log,
                    lines: numbers,
                },
            ) => {
                logs.push(log)?;
                lines.push(numbers)?;
            }
            Err(line) => return Ok(Err(BadFile { index, line })),
        }
    }
    Ok(Ok(ReadFiles { logs, lines }))
}
