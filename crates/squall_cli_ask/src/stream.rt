//! Does what is asked of standard input as it comes.

ghost use Rattle.std.specs.Prelude.{◌≡◌, ◌≢◌, ◌⊎◌, ◌↔◌, ℕ, List, true, false, map, string_bytes, Contains};
ghost use Rattle.std.specs.List.{list_all, list_any};
ghost use Rattle.squall_cli_device.specs.States.{SinkState, FoundEnd, GaveAll, NoReadFails, OutputFails, NoWriteFails, ReadAndWrote};
ghost use Rattle.squall_cli_lines.specs.Heeding.{InputFails, Says};
ghost use Rattle.squall_cli_ask.specs.Files.{is_input};
ghost use Rattle.squall_cli_ask.specs.Reads.{bytes_at};
ghost use Rattle.squall_cli_ask.specs.Told.{IsNoName, IsTold, input_taken_told};
ghost use Rattle.squall_cli_ask.specs.Asked.{AnswersNothing};
ghost use Rattle.squall_cli_ask.specs.Followed.{files_followed, status_read, IsStreamed, AnswersStream, IsFollowed, IsPromptTo, FollowsPromptly};
ghost use Rattle.squall_cli_ask.specs.Followed.{IsDrawnFor, DrawsStream};

use crate::console::Console;
use crate::files::Files;
use crate::lines::answer_keys;
use crate::messages::{BAD_WORDS, say, tell_outcome, tell_watch};
use crate::reading::read_files;
use crate::watching::watch_files;
use squall_cli_boards::NamedFile;
use squall_cli_command::{Follow, Stream};
use squall_cli_device::{Sink, Source};
use std::alloc::Global;

/// Whether one of the names is that of standard input.
fn names_input(names: &[String]) -> bool
    ensures { result ≡ list_any is_input (map string_bytes names.now) }
{
    for name in names {
        if name.as_str() == "-" {
            return true;
        }
    }
    false
}

/// Says that a file can't be standard input, and gives the status.
fn tell_input_taken<E: Sink>(err: &mut E) -> u8
    ensures status { result ≡ 2 }
    ensures told { Says (E.state err.old) (E.state err.new) input_taken_told }
{
    say(
        err,
        "squall: standard input is read as it comes, so that no file can be -\n",
    );
    BAD_WORDS
}

/// Answers standard input by the files that were read, and gives the status. A course that is watched
/// has a bar on `err`. Says what stopped the task, if something did.
fn answer_input<S: Source, O: Sink, E: Console>(
    alloc: Global,
    stream: Stream,
    files: &[NamedFile],
    input: &mut S,
    out: &mut O,
    err: &mut E,
) -> u8
    ensures text { ReadAndWrote (S.state input.old) (S.state input.new) (O.state out.old) (O.state out.new) (IsStreamed stream result files.now) }
    ensures prompt { ReadAndWrote (S.state input.old) (S.state input.new) (O.state out.old) (O.state out.new) (IsPromptTo stream files.now) }
    ensures ended { result ≡ status_read stream → GaveAll (S.state input.old) (S.state input.new) }
    ensures device { result ≡ 3 → InputFails (S.state input.old) (S.state input.new) ⊎ OutputFails (O.state out.old) (O.state out.new) }
    ensures taken { result ≢ 2 }
    ensures heeds { result ≢ 3 → NoReadFails (S.state input.old) (S.state input.new) × NoWriteFails (O.state out.old) (O.state out.new) }
    ensures told { (drawn : SinkState) × IsDrawnFor stream (E.terminal err.old) result files.now (S.state input.old).remaining (S.state input.new).remaining
        (E.state err.old) drawn × (text : List ℕ) × IsTold IsNoName result text × Says drawn (E.state err.new) text }
{
    match stream {
        Stream::Keys => {
            let outcome = answer_keys(alloc, files, input, out);
            tell_outcome(outcome, err)
        }
        Stream::Frames(how) => {
            let outcome = watch_files(alloc, how, files, input, out, err);
            tell_watch(how, outcome, err)
        }
    }
}

/// Reads the files, none of which is standard input, and answers standard input by them.
fn answer_after<F: Files, S: Source, O: Sink, E: Console>(
    alloc: Global,
    follow: &Follow,
    files: &mut F,
    input: &mut S,
    out: &mut O,
    err: &mut E,
) -> u8
    requires { list_any is_input (files_followed follow.now) ≡ false }
    ensures done { AnswersStream follow.now.stream (bytes_at (F.known files.old) (S.state input.old) (O.state out.old))
        (bytes_at (F.known files.new) (S.state input.new) (O.state out.new)) (files_followed follow.now) result
        ⊎ AnswersNothing (bytes_at (F.known files.old) (S.state input.old) (O.state out.old))
        (bytes_at (F.known files.new) (S.state input.new) (O.state out.new)) result }
    ensures prompt { FollowsPromptly follow.now.stream (bytes_at (F.known files.old) (S.state input.old) (O.state out.old))
        (bytes_at (F.known files.new) (S.state input.new) (O.state out.new)) (files_followed follow.now) }
    ensures ended { result ≡ status_read follow.now.stream → FoundEnd (S.state input.old) (S.state input.new) }
    ensures device { result ≡ 3 → InputFails (S.state input.old) (S.state input.new)
        ⊎ (OutputFails (O.state out.old) (O.state out.new) ⊎ (list_all is_input (files_followed follow.now) ≡ false)) }
    ensures taken { result ≢ 2 }
    ensures heeds { result ≢ 3 → NoReadFails (S.state input.old) (S.state input.new) × NoWriteFails (O.state out.old) (O.state out.new) }
    ensures told { (drawn : SinkState) × DrawsStream follow.now.stream (E.terminal err.old) (bytes_at (F.known files.old) (S.state input.old) (O.state out.old))
        (bytes_at (F.known files.new) (S.state input.new) (O.state out.new)) (files_followed follow.now) result (E.state err.old) drawn
        × (text : List ℕ) × IsTold (Contains (files_followed follow.now)) result text × Says drawn (E.state err.new) text }
{
    match read_files(alloc, &follow.files, files, input, err) {
        Ok(read) => answer_input(alloc, follow.stream, &read, input, out, err),
        Err(status) => status,
    }
}

/// Does what is asked of standard input as it comes. It reads the files that are named, in their
/// order, and then answers what `input` gives, up to its end or to the end of a watch. What one read
/// brings is answered before the next read. It gives the status with which the program is to end.
///
/// - 0: all that `input` gives is answered. Or a watch is to end once the course is complete, and it is.
/// - 1: the last answer refuses what was given: a file, and then nothing is read of `input`, or
///   what `input` gave.
/// - 2: a file is standard input too. Nothing is read or written, and `err` says so.
/// - 3: a file can't be opened, a read failed or found no end, or a write failed or took nothing.
/// - 4: an allocation failed.
/// - 5: a watch is to end once the course is complete. All that `input` gives is answered, and it is not.
///
/// With status 3 or 4 `err` says which. If `err` is a terminal and a course is watched, it shows bars
/// before that, as [`watch_files`] does.
pub fn answer_stream<F: Files, S: Source, O: Sink, E: Console>(
    alloc: Global,
    follow: &Follow,
    files: &mut F,
    input: &mut S,
    out: &mut O,
    err: &mut E,
) -> u8
    ensures done { IsFollowed follow.now.stream (bytes_at (F.known files.old) (S.state input.old) (O.state out.old))
        (bytes_at (F.known files.new) (S.state input.new) (O.state out.new)) (files_followed follow.now) result }
    ensures prompt { FollowsPromptly follow.now.stream (bytes_at (F.known files.old) (S.state input.old) (O.state out.old))
        (bytes_at (F.known files.new) (S.state input.new) (O.state out.new)) (files_followed follow.now) }
    ensures ended { result ≡ status_read follow.now.stream → FoundEnd (S.state input.old) (S.state input.new) }
    ensures device { result ≡ 3 → InputFails (S.state input.old) (S.state input.new) ⊎ (OutputFails (O.state out.old) (O.state out.new)
        ⊎ (list_all is_input (files_followed follow.now) ≡ false)) }
    ensures bad { (result ≡ 2) ↔ (list_any is_input (files_followed follow.now) ≡ true) }
    ensures heeds { result ≢ 3 → NoReadFails (S.state input.old) (S.state input.new) × NoWriteFails (O.state out.old) (O.state out.new) }
    ensures told { (drawn : SinkState) × DrawsStream follow.now.stream (E.terminal err.old) (bytes_at (F.known files.old) (S.state input.old) (O.state out.old))
        (bytes_at (F.known files.new) (S.state input.new) (O.state out.new)) (files_followed follow.now) result (E.state err.old) drawn
        × (text : List ℕ) × IsTold (Contains (files_followed follow.now)) result text × Says drawn (E.state err.new) text }
{
    if names_input(&follow.files) {
        return tell_input_taken(err);
    }
    answer_after(alloc, follow, files, input, out, err)
}
