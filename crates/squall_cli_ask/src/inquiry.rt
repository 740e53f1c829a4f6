//! Does what is asked of files and words.

ghost use Rattle.std.specs.Prelude.{◌≡◌, ◌≢◌, ◌⊎◌, ◌↔◌, ℕ, List, true, false, map, string_bytes};
ghost use Rattle.std.specs.List.{list_all, list_any};
ghost use Rattle.squall_cli_device.specs.States.{FoundEnd, NoReadFails, OutputFails, NoWriteFails};
ghost use Rattle.squall_cli_lines.specs.Heeding.{InputFails, Says};
ghost use Rattle.squall_cli_ask.specs.Files.{is_input};
ghost use Rattle.squall_cli_ask.specs.Reads.{bytes_at};
ghost use Rattle.squall_cli_ask.specs.BadReports.{report_fault};
ghost use Rattle.squall_cli_ask.specs.Told.{no_report_told};
ghost use Rattle.squall_cli_ask.specs.Asked.{can_be, words_asked, files_asked, GivesAnswer, IsInquired, IsToldOf};

use crate::answer::answer_files;
use crate::bad_report::{advice, report_fault};
use crate::console::Console;
use crate::files::Files;
use crate::messages::{BAD_WORDS, say_refused};
use crate::reading::read_files;
use squall_cli_boards::{is_report, report_files};
use squall_cli_command::{Ask, Inquiry};
use squall_cli_device::{Sink, Source};
use std::alloc::Global;

/// Says which word keeps the words from being a report, and why, and gives the status.
fn tell_no_report<E: Sink>(ask: &Ask, err: &mut E) -> u8
    ensures status { result ≡ 2 }
    ensures told { Says (E.state err.old) (E.state err.new) (no_report_told (report_fault (words_asked ask.now))) }
{
    let (word, fault) = report_fault(&ask.words);
    say_refused(word, advice(fault), err);
    BAD_WORDS
}

/// Whether what is asked can be: the words of a report have to be one.
fn can_be(ask: &Ask) -> bool
    ensures { result ≡ can_be ask.now.inquiry (words_asked ask.now) }
{
    match ask.inquiry {
        Inquiry::Report => is_report(&ask.words),
        _ => true,
    }
}

/// The names of the files that are read for it, in their order.
fn files_of(ask: &Ask) -> &[String]
    ensures { map string_bytes result.now ≡ files_asked ask.now }
{
    match ask.inquiry {
        Inquiry::Report => report_files(&ask.words),
        _ => &ask.files,
    }
}

/// Does what is asked of files and words: reads the files that are named, in their order, and writes the
/// answer. It gives the status with which the program is to end. A file named `-` is what `input`
/// gives to its end. If it is named again, it is empty.
///
/// - 0: the answer is written.
/// - 1: the answer refuses what was given. It goes to `err` if the command writes frames, a picture, a
///   plan or words of one, and then nothing is written to `out`.
/// - 2: the words are no report. Nothing is read or written, and `err` says which word is at fault.
/// - 3: a file can't be opened, a read failed or found no end, or a write failed or took nothing.
/// - 4: an allocation failed.
/// - 5: the answer is written. It shows a course that is not complete, and the status was to say so.
///
/// With status 3 or 4 `err` says which.
pub fn answer_inquiry<F: Files, S: Source, O: Sink, E: Console>(
    alloc: Global,
    ask: &Ask,
    files: &mut F,
    input: &mut S,
    out: &mut O,
    err: &mut E,
) -> u8
    ensures done { IsInquired ask.now.inquiry (words_asked ask.now)
        (bytes_at (F.known files.old) (S.state input.old) (O.state out.old)) (bytes_at (F.known files.new) (S.state input.new) (O.state out.new))
        (files_asked ask.now) result }
    ensures ended { list_any is_input (files_asked ask.now) ≡ true → GivesAnswer result
        → FoundEnd (S.state input.old) (S.state input.new) }
    ensures device { result ≡ 3 → InputFails (S.state input.old) (S.state input.new) ⊎ (OutputFails (O.state out.old) (O.state out.new)
        ⊎ (list_all is_input (files_asked ask.now) ≡ false)) }
    ensures bad { result ≢ 4 → (result ≡ 2) ↔ (can_be ask.now.inquiry (words_asked ask.now) ≡ false) }
    ensures heeds { result ≢ 3 → NoReadFails (S.state input.old) (S.state input.new) × NoWriteFails (O.state out.old) (O.state out.new) }
    ensures told { (text : List ℕ) × IsToldOf ask.now.inquiry (words_asked ask.now)
        (bytes_at (F.known files.old) (S.state input.old) (O.state out.old)) (bytes_at (F.known files.new) (S.state input.new) (O.state out.new))
        (files_asked ask.now) result text × Says (E.state err.old) (E.state err.new) text }
{
    if !can_be(ask) {
        return tell_no_report(ask, err);
    }
    match read_files(alloc, files_of(ask), files, input, err) {
        Ok(read) => answer_files(alloc, ask, &read, out, err),
        Err(status) => status,
    }
}
