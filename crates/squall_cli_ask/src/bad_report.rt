//! Why words are no report.

ghost use Rattle.std.specs.Prelude.{◌≡◌, map, string_bytes};
ghost use Rattle.std.specs.Option.{option_map};
ghost use Rattle.squall_cli_ask.specs.BadReports.{is_course, is_subplan, is_part, course_fault, cell_fault, span_fault};
ghost use Rattle.squall_cli_ask.specs.BadReports.{loaded_fault, done_fault, opened_fault, issue_fault, named_fault, report_fault};
ghost use Rattle.squall_cli_ask.specs.BadReports.{advice};

use squall_key::{Bound, read_number};
use squall_report::Report;
use squall_span::Span;

/// Why a word keeps words from being a report.
#[derive(Clone, Copy, Debug, PartialEq, Eq)]
pub(crate) enum ReportFault {
    /// It names no report, or a report of another number of words.
    NoReport,
    /// It is no number of a course.
    NoCourse,
    /// It is no number of a sub-plan.
    NoSubPlan,
    /// It is no partition.
    NoPart,
    /// It is no bound.
    NoBound,
    /// It is the end of a span, and not above its beginning.
    NoSpan,
}

/// Whether the word is the number of a course.
fn is_course(word: &String) -> bool
    ensures { result ≡ is_course (string_bytes word.now) }
{
    match read_number(word.as_str().as_bytes()) {
        Some(number) => Report::opened(number, 0).is_some(),
        None => false,
    }
}

/// Whether the word is the number of a sub-plan.
fn is_subplan(word: &String) -> bool
    ensures { result ≡ is_subplan (string_bytes word.now) }
{
    match read_number(word.as_str().as_bytes()) {
        Some(number) => Report::opened(1, number).is_some(),
        None => false,
    }
}

/// Whether the word is a partition.
fn is_part(word: &String) -> bool
    ensures { result ≡ is_part (string_bytes word.now) }
{
    match read_number(word.as_str().as_bytes()) {
        Some(number) => Report::done(1, 0, number).is_some(),
        None => false,
    }
}

/// The word, if it is no number of a course.
fn course_fault(course: &String) -> Option<(&str, ReportFault)>
    ensures { option_map (λ r. (r.0.now, r.1)) result ≡ course_fault (string_bytes course.now) }
{
    if is_course(course) {
        return None;
    }
    Some((course.as_str(), ReportFault::NoCourse))
}

/// The first of the words that is no number of a course, of a sub-plan or of a partition.
fn cell_fault<'a>(
    course: &'a String,
    sub: &'a String,
    part: &'a String,
) -> Option<(&'a str, ReportFault)>
    ensures { option_map (λ r. (r.0.now, r.1)) result ≡ cell_fault (string_bytes course.now) (string_bytes sub.now) (string_bytes part.now) }
{
    if !is_course(course) {
        return Some((course.as_str(), ReportFault::NoCourse));
    }
    if !is_subplan(sub) {
        return Some((sub.as_str(), ReportFault::NoSubPlan));
    }
    if !is_part(part) {
        return Some((part.as_str(), ReportFault::NoPart));
    }
    None
}

/// The first of the words that is no bound, or the second if it is not above the first.
fn span_fault<'a>(lo: &'a String, hi: &'a String) -> Option<(&'a str, ReportFault)>
    ensures { option_map (λ r. (r.0.now, r.1)) result ≡ span_fault (string_bytes lo.now) (string_bytes hi.now) }
{
    let Some(from) = Bound::read_bytes(lo.as_str().as_bytes()) else {
        return Some((lo.as_str(), ReportFault::NoBound));
    };
    let Some(to) = Bound::read_bytes(hi.as_str().as_bytes()) else {
        return Some((hi.as_str(), ReportFault::NoBound));
    };
    match Span::new(from, to) {
        Some(_) => None,
        None => Some((hi.as_str(), ReportFault::NoSpan)),
    }
}

/// `N S P LO HI`
fn loaded_fault(rest: &[String]) -> Option<(&str, ReportFault)>
    ensures { option_map (λ r. (r.0.now, r.1)) result ≡ loaded_fault (map string_bytes rest.now) }
{
    match rest {
        [course, sub, part, lo, hi] => match cell_fault(course, sub, part) {
            Some(bad) => Some(bad),
            None => span_fault(lo, hi),
        },
        _ => None,
    }
}

/// `N S P`
fn done_fault(rest: &[String]) -> Option<(&str, ReportFault)>
    ensures { option_map (λ r. (r.0.now, r.1)) result ≡ done_fault (map string_bytes rest.now) }
{
    match rest {
        [course, sub, part] => cell_fault(course, sub, part),
        _ => None,
    }
}

/// `N S`
fn opened_fault(rest: &[String]) -> Option<(&str, ReportFault)>
    ensures { option_map (λ r. (r.0.now, r.1)) result ≡ opened_fault (map string_bytes rest.now) }
{
    match rest {
        [course, _] if !is_course(course) => Some((course.as_str(), ReportFault::NoCourse)),
        [_, sub] if !is_subplan(sub) => Some((sub.as_str(), ReportFault::NoSubPlan)),
        _ => None,
    }
}

/// `N OLD NEW`
fn issue_fault(rest: &[String]) -> Option<(&str, ReportFault)>
    ensures { option_map (λ r. (r.0.now, r.1)) result ≡ issue_fault (map string_bytes rest.now) }
{
    match rest {
        [course, _, _] => course_fault(course),
        _ => None,
    }
}

/// The first word behind the name that is at fault by itself, if the report of that name has so many
/// words.
fn named_fault<'a>(name: &str, rest: &'a [String]) -> Option<(&'a str, ReportFault)>
    ensures { option_map (λ r. (r.0.now, r.1)) result ≡ named_fault name.now (map string_bytes rest.now) }
{
    match name {
        "loaded" => loaded_fault(rest),
        "done" => done_fault(rest),
        "opened" => opened_fault(rest),
        "issued" => issue_fault(rest),
        _ => None,
    }
}

/// The word that keeps the words from being a report, and why.
pub(crate) fn report_fault(words: &[String]) -> (&str, ReportFault)
    ensures { (result.0.now, result.1) ≡ report_fault (map string_bytes words.now) }
{
    match words {
        [] => ("", ReportFault::NoReport),
        [name, rest @ ..] => match named_fault(name.as_str(), rest) {
            Some(bad) => bad,
            None => (name.as_str(), ReportFault::NoReport),
        },
    }
}

/// The name of the fault, and where the words of reports are explained.
pub(crate) fn advice(fault: ReportFault) -> &'static str
    ensures { result.now ≡ advice fault }
{
    match fault {
        ReportFault::NoReport => "NoReport: see squall help report",
        ReportFault::NoCourse => "NoCourse: see squall help report",
        ReportFault::NoSubPlan => "NoSubPlan: see squall help report",
        ReportFault::NoPart => "NoPart: see squall help report",
        ReportFault::NoBound => "NoBound: see squall help report",
        ReportFault::NoSpan => "NoSpan: see squall help report",
    }
}
