//! What is asked of standard input as it comes, and by which words.

ghost use Rattle.std.specs.Prelude.{◌≡◌, codes, map, string_bytes, IfOk};
ghost use Rattle.clap.specs.Words.{found_of, rows_of};
ghost use Rattle.squall_cli_command.specs.Line.{words_of};
ghost use Rattle.squall_cli_command.specs.Asking.{values_in, words_in};
ghost use Rattle.squall_cli_command.specs.Streams.{is_input_alone, reads_keys, watch_in, stream_in, stream_files};

use crate::form::{Form, form_of, is_set};
use crate::inquiry::words_in;
use clap::ArgMatches;
use std::alloc::{AllocError, Global};

/// How a course is watched.
#[derive(Clone, Copy, Debug, PartialEq, Eq)]
pub struct WatchAsk {
    /// How its status is written.
    pub form: Form,
    /// Whether the watch ends once the newest course is complete.
    pub is_until_complete: bool,
}

/// What is asked of standard input as it comes.
#[derive(Clone, Copy, Debug, PartialEq, Eq)]
pub enum Stream {
    /// The routes of the keys that its lines write, by the newest course. The files are the old plan,
    /// the new plan and board files.
    Keys,
    /// How far the newest course comes, as the frames of boards say. The files are the old plan and
    /// the new plan.
    Frames(WatchAsk),
}

/// A stream with the files that are read before it.
#[derive(Debug, Drop)]
pub struct Follow {
    /// What is asked.
    pub stream: Stream,
    /// The names of its files, in the order in which they are read.
    pub files: Vec<String>,
}

/// Whether the words are none, or the only one is that of standard input.
fn is_input_alone(words: &[&str]) -> bool
    ensures { result ≡ is_input_alone (words_of words.now) }
{
    match words {
        [] => true,
        [word] => *word == "-",
        _ => false,
    }
}

/// Whether no key is among what was parsed, or `-` alone.
#[tactic(auto, using(crate::proofs::Rows::all_is))]
fn lacks_keys(matches: &ArgMatches) -> bool
    ensures { result ≡ is_input_alone (values_in (codes "KEY") (rows_of (found_of matches.now))) }
{
    match matches.get_raw("KEY") {
        Some(words) => is_input_alone(words),
        None => true,
    }
}

/// Whether keys are read from standard input.
fn reads_keys(matches: &ArgMatches) -> bool
    ensures { result ≡ reads_keys (rows_of (found_of matches.now)) }
{
    !is_set(matches, "name") && lacks_keys(matches)
}

/// How the words ask to watch a course.
fn watch_of(matches: &ArgMatches) -> WatchAsk
    ensures { result ≡ watch_in (rows_of (found_of matches.now)) }
{
    WatchAsk {
        form: form_of(matches),
        is_until_complete: is_set(matches, "until-complete"),
    }
}

/// What a command asks of standard input as it comes. None if it asks nothing of it.
pub(crate) fn stream_of(name: &str, matches: &ArgMatches) -> Option<Stream>
    ensures { result ≡ stream_in name.now (rows_of (found_of matches.now)) }
{
    if name == "route" && reads_keys(matches) {
        return Some(Stream::Keys);
    }
    if name == "watch" {
        return Some(Stream::Frames(watch_of(matches)));
    }
    None
}

/// The arguments of a stream that are files, in the order in which they are read.
fn stream_files(stream: Stream) -> &'static [&'static str]
    ensures { words_of result.now ≡ stream_files stream }
{
    match stream {
        Stream::Keys => &["OLD", "NEW", "board"],
        Stream::Frames(_) => &["OLD", "NEW"],
    }
}

/// The stream with its files.
pub(crate) fn followed(
    alloc: Global,
    stream: Stream,
    matches: &ArgMatches,
) -> Result<Follow, AllocError>
    ensures stream { IfOk result (λ f. f.stream ≡ stream) }
    ensures files { IfOk result (λ f. map string_bytes f.files.items ≡ words_in (stream_files stream) (rows_of (found_of matches.now))) }
{
    let files = words_in(alloc, matches, stream_files(stream))?;
    Ok(Follow { stream, files })
}
