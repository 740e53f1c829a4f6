//! What the words of a command line ask for.

ghost use Rattle.std.specs.Prelude.{◌≡◌, ◌≢◌, ◌↔◌, ◌++◌, [], not, codes, string_bytes, IsTrue, IfOk, Err};
ghost use Rattle.std.specs.Io.{StartsWith};
ghost use Rattle.clap.specs.Words.{kind_of, found_of, rows_of, subcommand_rows_of};
ghost use Rattle.squall_cli_command.specs.Line.{job_of, job_in, plain_job_in, file_job_in, job_seen, file_in, words_of, plain_words};
ghost use Rattle.squall_cli_command.specs.Line.{faults_in, shows_help, Asks, AsksForHelp, IsFaulty};
ghost use Rattle.squall_cli_command.specs.declared.task.LineFault.TheVariants.{Help, Bad, NoMemory};

use crate::form::form_of;
use crate::inquiry::{asked, inquiry_of};
use crate::parser::parser;
use crate::stream::{followed, stream_of};
use crate::task::{LineFault, Task};
use clap::error::ErrorKind;
use clap::{ArgMatches, Error};
use std::alloc::{AllocError, Global};

/// The file of an argument.
#[tactic(auto, using(crate::proofs::Rows::first_is))]
fn file(alloc: Global, matches: &ArgMatches, id: &str) -> Result<String, AllocError>
    ensures { IfOk result (λ name. string_bytes name ≡ file_in id.now (rows_of (found_of matches.now))) }
{
    match matches.get_str(id) {
        Some(name) => String::from_str(alloc, name),
        None => Ok(String::new(alloc)),
    }
}

/// The task of a command that is no inquiry.
fn file_task_in(alloc: Global, name: &str, matches: &ArgMatches) -> Result<Task, AllocError>
    ensures { IfOk result (λ task. job_seen task ≡ file_job_in name.now (rows_of (found_of matches.now))) }
{
    if name == "check" {
        return Ok(Task::Check(form_of(matches), file(alloc, matches, "PLAN")?));
    }
    if name == "course" {
        let old = file(alloc, matches, "OLD")?;
        let new = file(alloc, matches, "NEW")?;
        return Ok(Task::Course(form_of(matches), old, new));
    }
    if name == "race" {
        return Ok(Task::Race(file(alloc, matches, "FILE")?));
    }
    Ok(Task::Run(file(alloc, matches, "FILE")?))
}

/// The task of a command that asks nothing of standard input as it comes.
fn plain_task_in(alloc: Global, name: &str, matches: &ArgMatches) -> Result<Task, AllocError>
    ensures { IfOk result (λ task. job_seen task ≡ plain_job_in name.now (rows_of (found_of matches.now))) }
{
    match inquiry_of(name, matches) {
        Some(inquiry) => Ok(Task::Ask(asked(alloc, inquiry, matches)?)),
        None => file_task_in(alloc, name, matches),
    }
}

/// The task of a command.
fn task_in(alloc: Global, name: &str, matches: &ArgMatches) -> Result<Task, AllocError>
    ensures { IfOk result (λ task. job_seen task ≡ job_in name.now (rows_of (found_of matches.now))) }
{
    match stream_of(name, matches) {
        Some(stream) => Ok(Task::Stream(followed(alloc, stream, matches)?)),
        None => plain_task_in(alloc, name, matches),
    }
}

/// The task that a parse gave.
fn task_of(alloc: Global, matches: &ArgMatches) -> Result<Task, AllocError>
    ensures { IfOk result (λ task. job_seen task ≡ job_of (subcommand_rows_of matches.now)) }
{
    match matches.subcommand() {
        Some((name, inner)) => task_in(alloc, name, inner),
        None => Ok(Task::Run(String::from_str(alloc, "-")?)),
    }
}

/// The fault of a refused command line.
fn fault_in(error: &Error) -> LineFault
    ensures help { (result ≡ Help) ↔ IsTrue (shows_help (kind_of error.now)) }
    ensures memory { (result ≡ NoMemory) ↔ (kind_of error.now ≡ ErrorKind.OutOfMemory) }
{
    match error.kind() {
        ErrorKind::DisplayHelp | ErrorKind::DisplayVersion => LineFault::Help,
        ErrorKind::OutOfMemory => LineFault::NoMemory,
        _ => LineFault::Bad,
    }
}

/// The words with `help` and what follows it as what follows it and `--help`.
fn plain<'a>(alloc: Global, words: &'a [&'a str]) -> Result<Vec<&'a str>, AllocError>
    ensures { IfOk result (λ v. words_of v.items ≡ plain_words (words_of words.entry.now)) }
{
    let mut plain = Vec::new(alloc);
    if words.len() < 2 || words[1] != "help" {
        plain.extend_from_slice(words)?;
        return Ok(plain);
    }
    plain.push(words[0])?;
    plain.extend_from_slice(&words[2..])?;
    plain.push("--help")?;
    Ok(plain)
}

/// What the words of a command line ask for, the program's name first: `check PLAN`,
/// `course OLD NEW`, `run FILE`, `race FILE`, an inquiry about files and words, which [`Inquiry`] lists, or
/// without a command to run standard input.
///
/// - `Help`: they ask for help, by `-h`, `--help` or `help`, or for the version, by `-V` or
///   `--version`.
/// - `Bad`: they are no such command line.
/// - `NoMemory`: an allocation failed.
///
/// [`message`] is then what to show.
///
/// [`Inquiry`]: crate::Inquiry
pub fn command<'a>(alloc: Global, words: &'a [&'a str]) -> Result<Task, LineFault>
    // The task and its files are those that the words ask for.
    ensures task { IfOk result (λ task. Asks (words_of words.entry.now) (job_seen task)) }

    // Unless an allocation failed, the answer is `Help` exactly if help is asked for,
    ensures help { result ≢ Err NoMemory → (result ≡ Err Help) ↔ AsksForHelp (words_of words.entry.now) }

    // and words are refused exactly if they have another fault.
    ensures refused { result ≢ Err NoMemory → (result ≡ Err Bad) ↔ IsFaulty (words_of words.entry.now) }
{
    let words = plain(alloc, words)?;
    let parser = parser(alloc)?;
    match parser.try_get_matches_from(words.as_slice()) {
        Ok(matches) => Ok(task_of(alloc, &matches)?),
        Err(error) => Err(fault_in(&error)),
    }
}

/// What is to be shown for words that [`command`] refuses: the help or the version that they ask
/// for, or what is wrong with them. `title` is the line with the program's name and version, with
/// its line end. Empty for words that ask for a task. The error comes if an allocation failed.
pub fn message<'a>(alloc: Global, title: &str, words: &'a [&'a str]) -> Result<String, AllocError>
    // Help and the version begin with the title.
    ensures help { IfOk result (λ text. AsksForHelp (words_of words.entry.now) → StartsWith (string_bytes text) title.now) }

    // What is wrong is told after `error: `.
    ensures refused { IfOk result (λ text. IsFaulty (words_of words.entry.now) → StartsWith (string_bytes text) (codes "error: ")) }

    // If there is no fault, nothing is told.
    ensures task { IfOk result (λ text. faults_in (words_of words.entry.now) ≡ [] → string_bytes text ≡ []) }
{
    let words = plain(alloc, words)?;
    let parser = parser(alloc)?;
    match parser.try_get_matches_from(words.as_slice()) {
        Ok(_) => Ok(String::new(alloc)),
        Err(error) => text_of(alloc, title, &error),
    }
}

/// The text of an error that is no failed allocation: the title alone for the version, the title and
/// the help, or what is wrong after `error: `.
fn text_of(alloc: Global, title: &str, error: &Error) -> Result<String, AllocError>
    ensures memory { IfOk result (λ text. kind_of error.now ≢ ErrorKind.OutOfMemory) }
    ensures help { IfOk result (λ text. IsTrue (shows_help (kind_of error.now)) → StartsWith (string_bytes text) title.now) }
    ensures fault { IfOk result (λ text. IsTrue (not (shows_help (kind_of error.now))) → StartsWith (string_bytes text) (codes "error: ")) }
{
    let shown = format!(in alloc; "{error}")?;
    match error.kind() {
        ErrorKind::OutOfMemory => Err(AllocError),
        ErrorKind::DisplayVersion => String::from_str(alloc, title),
        ErrorKind::DisplayHelp => joined(alloc, title, shown.as_str()),
        _ => joined(alloc, "error: ", without_label(shown.as_str())),
    }
}

/// Two texts as one.
fn joined(alloc: Global, first: &str, second: &str) -> Result<String, AllocError>
    ensures { IfOk result (λ text. string_bytes text ≡ first.now ++ second.now) }
{
    let mut text = String::from_str(alloc, first)?;
    text.push_str(second)?;
    Ok(text)
}

/// A text without the `error: ` at its beginning.
fn without_label(text: &str) -> &str {
    text.strip_prefix("error: ").unwrap_or(text)
}
