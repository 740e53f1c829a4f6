//! The words of a report on a command line.

ghost use Rattle.std.specs.Prelude.{◌≡◌, IfSome, map, string_bytes};
ghost use Rattle.std.specs.Option.{option_map};
ghost use Rattle.squall_key.specs.Keys.{bound_of};
ghost use Rattle.squall_cli_lines.specs.Words.{only_word};
ghost use Rattle.squall_cli_words.specs.Forms.{number_first, cell_first, two_bounds};
ghost use Rattle.squall_cli_words.specs.ReportLines.{loaded_line, done_line, opened_line, report_line};
ghost use Rattle.squall_cli_boards.specs.ReportWords.{report_in, issue_in, issue_numbered, named_report, report_asked};
ghost use Rattle.squall_cli_boards.specs.ReportWords.{is_report, HasNumber, files_of_report};

use squall_cli_words::ReportWords;
use squall_key::{Bound, read_number};
use squall_report::Report;

/// What the words of a report ask for.
#[derive(Drop)]
pub(crate) enum ReportAsked {
    /// The report that they write.
    Report(Report),
    /// The report that the reconfiguration of that number leads from one plan to another, which two
    /// files hold. The number is at least 1.
    Issue(u32),
}

/// The number that the first word writes, and the words after it.
fn number_first(words: &[String]) -> Option<(u32, &[String])>
    ensures { option_map (λ r. (r.0, map string_bytes r.1.now)) result ≡ number_first (map string_bytes words.now) }
{
    match words {
        [word, rest @ ..] => Some((read_number(word.as_str().as_bytes())?, rest)),
        [] => None,
    }
}

/// The numbers of a course, a sub-plan and a partition, and the words after them.
fn cell_first(words: &[String]) -> Option<(u32, u32, u32, &[String])>
    ensures { option_map (λ r. (r.0, r.1, r.2, map string_bytes r.3.now)) result ≡ cell_first (map string_bytes words.now) }
{
    let (number, rest) = number_first(words)?;
    let (sub, rest) = number_first(rest)?;
    let (part, rest) = number_first(rest)?;
    Some((number, sub, part, rest))
}

/// The bound that a word writes.
fn bound_in(word: &String) -> Option<Bound>
    ensures { result ≡ bound_of (string_bytes word.now) }
{
    Bound::read_bytes(word.as_str().as_bytes())
}

/// The only word that there is.
fn only_word(words: &[String]) -> Option<&String>
    ensures { option_map (λ w. string_bytes w.now) result ≡ only_word (map string_bytes words.now) }
{
    match words {
        [word] => Some(word),
        _ => None,
    }
}

/// The two bounds that are written.
fn two_bounds(words: &[String]) -> Option<(Bound, Bound)>
    ensures { result ≡ two_bounds (map string_bytes words.now) }
{
    match words {
        [word, rest @ ..] => {
            let other = only_word(rest)?;
            let lo = bound_in(word)?;
            let hi = bound_in(other)?;
            Some((lo, hi))
        }
        [] => None,
    }
}

/// `N S P LO HI`
fn loaded_words(words: &[String]) -> Option<ReportWords>
    ensures { result ≡ loaded_line (map string_bytes words.now) }
{
    let (number, sub, part, rest) = cell_first(words)?;
    let (lo, hi) = two_bounds(rest)?;
    Some(ReportWords::Loaded {
        number,
        sub,
        part,
        lo,
        hi,
    })
}

/// `N S P`
fn done_words(words: &[String]) -> Option<ReportWords>
    ensures { result ≡ done_line (map string_bytes words.now) }
{
    match cell_first(words)? {
        (number, sub, part, []) => Some(ReportWords::Done { number, sub, part }),
        _ => None,
    }
}

/// `N S`
fn opened_words(words: &[String]) -> Option<ReportWords>
    ensures { result ≡ opened_line (map string_bytes words.now) }
{
    let (number, rest) = number_first(words)?;
    let sub = read_number(only_word(rest)?.as_str().as_bytes())?;
    Some(ReportWords::Opened { number, sub })
}

/// What the words after the name of a report write. Each word is read by itself, so none may be
/// empty or have a blank.
fn words_in(name: &str, rest: &[String]) -> Option<ReportWords>
    ensures { result ≡ report_line name.now (map string_bytes rest.now) }
{
    match name {
        "loaded" => loaded_words(rest),
        "done" => done_words(rest),
        "opened" => opened_words(rest),
        _ => None,
    }
}

/// The report that the words write after its name.
fn report_in(name: &str, rest: &[String]) -> Option<ReportAsked>
    ensures { result ≡ report_in name.now (map string_bytes rest.now) }
{
    let words = words_in(name, rest)?;
    let report = words.report()?;
    Some(ReportAsked::Report(report))
}

/// The issue of that number. None if the number is 0.
fn issue_numbered(number: u32) -> Option<ReportAsked>
    ensures { result ≡ issue_numbered number }
{
    if number == 0 {
        return None;
    }
    Some(ReportAsked::Issue(number))
}

/// The issue that the words write after its name.
fn issue_in(rest: &[String]) -> Option<ReportAsked>
    ensures { result ≡ issue_in (map string_bytes rest.now) }
{
    match rest {
        [number, _, _] => issue_numbered(read_number(number.as_str().as_bytes())?),
        _ => None,
    }
}

/// The report of that name, with the words after it.
fn named_report(name: &str, rest: &[String]) -> Option<ReportAsked>
    ensures { result ≡ named_report name.now (map string_bytes rest.now) }
{
    if name == "issued" {
        return issue_in(rest);
    }
    report_in(name, rest)
}

/// The report that the words ask for. None if they are no report or a number lies outside its limits.
pub(crate) fn report_asked(words: &[String]) -> Option<ReportAsked>
    ensures report { result ≡ report_asked (map string_bytes words.now) }
    ensures number { IfSome result HasNumber }
{
    match words {
        [] => None,
        [name, rest @ ..] => named_report(name.as_str(), rest),
    }
}

/// Whether the words are those of a report: `loaded N S P LO HI`, `done N S P`, `opened N S` or
/// `issued N OLD NEW`. OLD and NEW name the files of two plans. A number outside its limits makes no
/// report. Each word is read by itself: one that is empty or has a blank is no number.
pub fn is_report(words: &[String]) -> bool
    ensures { result ≡ is_report (map string_bytes words.now) }
{
    report_asked(words).is_some()
}

/// The names of the files that the words of a report need: the plans of an issue.
pub fn report_files(words: &[String]) -> &[String]
    ensures { map string_bytes result.now ≡ files_of_report (map string_bytes words.now) }
{
    match words {
        [name, _, files @ ..] if name.as_str() == "issued" => files,
        _ => &[],
    }
}
