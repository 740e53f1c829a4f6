//! The lines of a race file, one after another.

ghost use Rattle.std.specs.Prelude.{◌≡◌, IfOk};
ghost use Rattle.squall_cli_lines.specs.Lines.{lines_of};
ghost use Rattle.squall_cli_lines.specs.Words.{without_cr};
ghost use Rattle.squall_cli_race.specs.RaceLines.{race_line};
ghost use Rattle.squall_cli_race.specs.RaceFiles.{at_start, at_next_line, take_line, after_lines};
ghost use Rattle.squall_cli_race.specs.Taken.{Took, TookNext, IsRead};

use crate::file::{BadLine, RaceFile};
use crate::line::{LineWords, read_line};
use squall_cli_lines::next_line;
use squall_cli_lines::words::without_cr;
use squall_cli_words::Reason;
use std::alloc::{AllocError, Global};

/// Takes a line without its LF, or says why it is bad.
fn take_line(file: &mut RaceFile, line: &[u8]) -> Result<Option<Reason>, AllocError>
    ensures { Took result file.new (take_line file.old (race_line (without_cr line.now))) }
{
    match read_line(without_cr(line)) {
        LineWords::Skip => Ok(None),
        LineWords::Old(text) => file.take_old(text),
        LineWords::New(text) => file.take_new(text),
        LineWords::Has(item) => file.take_in_order(item),
        LineWords::Bad(reason) => Ok(Some(reason)),
    }
}

/// Takes the next line, and counts it.
fn take_next(file: &mut RaceFile, line: &[u8]) -> Result<Result<(), BadLine>, AllocError>
    ensures { TookNext result file.new (at_next_line file.old).line (take_line (at_next_line file.old) (race_line (without_cr line.now))) }
{
    file.count_line();
    let number = file.line;
    match take_line(file, line)? {
        Some(reason) => Ok(Err(BadLine { number, reason })),
        None => Ok(Ok(())),
    }
}

/// Reads the text of a race file: the race that its lines set up, or the first bad line.
pub(crate) fn read_file(alloc: Global, text: &[u8]) -> Result<Result<RaceFile, BadLine>, AllocError>
    ensures { IfOk result (λ r. IsRead r (after_lines at_start (lines_of text.now))) }
{
    let mut file = RaceFile::new(alloc)?;
    let mut rest = text;
    while let Some((line, others)) = next_line(rest) {
        rest = others;
        match take_next(&mut file, line)? {
            Ok(()) => {}
            Err(bad) => return Ok(Err(bad)),
        }
    }
    Ok(Ok(file))
}
