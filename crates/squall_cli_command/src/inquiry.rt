//! What is asked of files and words, and by which words.

ghost use Rattle.std.specs.Prelude.{◌≡◌, ◌++◌, map, string_bytes, IfOk, OnOk, if◌then◌else◌};
ghost use Rattle.clap.specs.Words.{found_of, rows_of};
ghost use Rattle.squall_cli_command.specs.Line.{words_of};
ghost use Rattle.squall_cli_command.specs.Asking.{is_set, status_in, other_in, exchange_in, inquiry_in, word_arguments, file_arguments, values_in, words_in};

use crate::form::{Form, form_of, is_set};
use clap::ArgMatches;
use std::alloc::{AllocError, Global};

/// How the status of a course is asked for.
#[derive(Clone, Copy, Debug, PartialEq, Eq)]
pub struct StatusAsk {
    /// How it is written.
    pub form: Form,
    /// Whether only the moves that are not complete are shown.
    pub is_waiting: bool,
    /// Whether the exit status says that the course is not complete.
    pub is_judged: bool,
}

/// What is asked of board files, of plans, of names and of logs.
#[derive(Clone, Copy, Debug, PartialEq, Eq)]
pub enum Inquiry {
    /// The frame of a report, which the words write. The files of its plans are among them.
    Report,
    /// What the board files tell, as lines or as JSON.
    Board(Form),
    /// How far the newest course has come. The files are the old plan, the new plan and board files.
    Status(StatusAsk),
    /// The picture of how far the newest course has come, of the same files.
    Picture,
    /// The routes of keys by the newest course, of the same files. The words are the keys.
    Routes,
    /// The same of rows, whose names the words are.
    NamedRoutes,
    /// Its legs, of the same files. The words are two bounds, or there are none.
    Legs(Form),
    /// What the board files tell, as frames.
    Merge,
    /// What the first board file tells that the second does not, as frames.
    Beyond,
    /// Whether the second board file tells all that the first tells.
    Cover,
    /// The digest of what the board file tells.
    Digest,
    /// What the board file has that the digest of the second file does not show, as frames.
    Repair,
    /// The plan of the file with keys at other partitions. The words are two bounds and a partition,
    /// once or more.
    Plan,
    /// The plan in which partitions share keys evenly. The words are a bound and partitions.
    Split,
    /// Which keys go to which partition from the plan of the first file to that of the second.
    Diff,
    /// The keys of rows. The words are the names of these.
    Names,
    /// Whether a run of both plans has the logs of nodes.
    Audit,
}

/// An inquiry with what it is about. Words and files are those that were given, in their order.
#[derive(Debug, Drop)]
pub struct Ask {
    /// What is asked.
    pub inquiry: Inquiry,
    /// The words of it that name no files.
    pub words: Vec<String>,
    /// The names of its files. `-` is standard input.
    pub files: Vec<String>,
}

/// One inquiry if the flag is among what was parsed, and another if not.
fn by_flag(matches: &ArgMatches, id: &str, with: Inquiry, without: Inquiry) -> Inquiry
    ensures { result ≡ (if is_set id.now (rows_of (found_of matches.now)) then with else without) }
{
    if is_set(matches, id) { with } else { without }
}

/// How the words ask for the status of a course.
fn status_of(matches: &ArgMatches) -> StatusAsk
    ensures { result ≡ status_in (rows_of (found_of matches.now)) }
{
    StatusAsk {
        form: form_of(matches),
        is_waiting: is_set(matches, "waiting"),
        is_judged: is_set(matches, "exit-status"),
    }
}

/// What a command asks of plans, of names, or of logs. None if it is another command.
fn other_of(name: &str) -> Option<Inquiry>
    ensures { result ≡ other_in name.now }
{
    if name == "plan" {
        return Some(Inquiry::Plan);
    }
    if name == "split" {
        return Some(Inquiry::Split);
    }
    if name == "diff" {
        return Some(Inquiry::Diff);
    }
    if name == "key" {
        return Some(Inquiry::Names);
    }
    if name == "audit" {
        return Some(Inquiry::Audit);
    }
    None
}

/// What a command asks of boards as frames, or of plans, names or logs. None if it is another command.
fn exchange_of(name: &str, matches: &ArgMatches) -> Option<Inquiry>
    ensures { result ≡ exchange_in name.now (rows_of (found_of matches.now)) }
{
    if name == "merge" {
        return Some(Inquiry::Merge);
    }
    if name == "beyond" {
        return Some(by_flag(matches, "quiet", Inquiry::Cover, Inquiry::Beyond));
    }
    if name == "digest" {
        return Some(Inquiry::Digest);
    }
    if name == "repair" {
        return Some(Inquiry::Repair);
    }
    other_of(name)
}

/// What a command asks of files and words. None if it is another command.
pub(crate) fn inquiry_of(name: &str, matches: &ArgMatches) -> Option<Inquiry>
    ensures { result ≡ inquiry_in name.now (rows_of (found_of matches.now)) }
{
    if name == "report" {
        return Some(Inquiry::Report);
    }
    if name == "board" {
        return Some(Inquiry::Board(form_of(matches)));
    }
    if name == "status" {
        return Some(Inquiry::Status(status_of(matches)));
    }
    if name == "picture" {
        return Some(Inquiry::Picture);
    }
    if name == "route" {
        return Some(by_flag(matches, "name", Inquiry::NamedRoutes, Inquiry::Routes));
    }
    if name == "legs" {
        return Some(Inquiry::Legs(form_of(matches)));
    }
    exchange_of(name, matches)
}

/// The arguments of an inquiry that are no files.
fn word_arguments(inquiry: Inquiry) -> &'static [&'static str]
    ensures { words_of result.now ≡ word_arguments inquiry }
{
    match inquiry {
        Inquiry::Report => &["WORD"],
        Inquiry::Routes | Inquiry::NamedRoutes => &["KEY"],
        Inquiry::Legs(_) => &["BOUND"],
        Inquiry::Plan => &["FROM", "TO", "PART"],
        Inquiry::Split => &["BELOW", "PART"],
        Inquiry::Names => &["NAME"],
        _ => &[],
    }
}

/// Its arguments that are files, in the order in which they are read.
fn file_arguments(inquiry: Inquiry) -> &'static [&'static str]
    ensures { words_of result.now ≡ file_arguments inquiry }
{
    match inquiry {
        Inquiry::Report | Inquiry::Split | Inquiry::Names => &[],
        Inquiry::Board(_) | Inquiry::Merge => &["FILE"],
        Inquiry::Status(_) | Inquiry::Picture => &["OLD", "NEW", "FILE", "board"],
        Inquiry::Routes | Inquiry::NamedRoutes | Inquiry::Legs(_) => &["OLD", "NEW", "board"],
        Inquiry::Beyond | Inquiry::Cover => &["A", "B"],
        Inquiry::Digest => &["A"],
        Inquiry::Repair => &["A", "DIGEST"],
        Inquiry::Plan => &["OLD"],
        Inquiry::Diff => &["OLD", "NEW"],
        Inquiry::Audit => &["OLD", "NEW", "LOG"],
    }
}

/// Adds copies of the words.
fn add_words(alloc: Global, given: &[&str], words: &mut Vec<String>) -> Result<(), AllocError>
    ensures { OnOk result (map string_bytes words.new.items ≡ map string_bytes words.old.items ++ words_of given.now) }
{
    for word in given {
        words.push(String::from_str(alloc, word)?)?;
    }
    Ok(())
}

/// Adds the words of an argument.
#[tactic(auto, using(crate::proofs::Rows::all_is))]
fn add_values(
    alloc: Global,
    matches: &ArgMatches,
    id: &str,
    words: &mut Vec<String>,
) -> Result<(), AllocError>
    ensures { OnOk result (map string_bytes words.new.items ≡ map string_bytes words.old.items ++ values_in id.now (rows_of (found_of matches.now))) }
{
    match matches.get_raw(id) {
        Some(given) => add_words(alloc, given, words),
        None => Ok(()),
    }
}

/// The words of the arguments, in their order.
pub(crate) fn words_in(
    alloc: Global,
    matches: &ArgMatches,
    ids: &[&str],
) -> Result<Vec<String>, AllocError>
    ensures { IfOk result (λ v. map string_bytes v.items ≡ words_in (words_of ids.now) (rows_of (found_of matches.now))) }
{
    let mut words = Vec::new(alloc);
    for id in ids {
        add_values(alloc, matches, id, &mut words)?;
    }
    Ok(words)
}

/// The inquiry with its words and its files.
pub(crate) fn asked(
    alloc: Global,
    inquiry: Inquiry,
    matches: &ArgMatches,
) -> Result<Ask, AllocError>
    ensures inquiry { IfOk result (λ a. a.inquiry ≡ inquiry) }
    ensures words { IfOk result (λ a. map string_bytes a.words.items ≡ words_in (word_arguments inquiry) (rows_of (found_of matches.now))) }
    ensures files { IfOk result (λ a. map string_bytes a.files.items ≡ words_in (file_arguments inquiry) (rows_of (found_of matches.now))) }
{
    let words = words_in(alloc, matches, word_arguments(inquiry))?;
    let files = words_in(alloc, matches, file_arguments(inquiry))?;
    Ok(Ask {
        inquiry,
        words,
        files,
    })
}
