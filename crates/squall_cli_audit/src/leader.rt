//! What the leader writes, and what any node writes of reports that it received.

ghost use Rattle.std.specs.Prelude.{◌≡◌, IfOk};
ghost use Rattle.std.specs.Option.{option_map};
ghost use Rattle.squall_cli_lines.specs.Words.{words_of, is_letter, from_first};
ghost use Rattle.squall_cli_audit.specs.LogLines.{two_texts, two_plans, counted_text, begin_line, begin_from_line, open_line};
ghost use Rattle.squall_cli_audit.specs.LogLines.{leader_line, issued_line, report_entry, heard_by, heard_line};

use crate::words::{number_alone, number_then};
use squall_cli_events::{EventWords, event_line};
use squall_cli_lines::words::{after_blanks, next_word};
use squall_cli_words::{read_plan, report_line};
use squall_judge::Entry;
use squall_plan::Plan;
use squall_protocol::{Answer, Event};
use squall_report::{Issue, Report};
use std::alloc::{AllocError, Global};

/// The two texts of `OLD NEW`.
fn two_texts(rest: &[u8]) -> Option<(&[u8], &[u8])>
    ensures { option_map (λ t. (t.0.now, t.1.now)) result ≡ two_texts (from_first is_letter rest.now) }
{
    match event_line(b"begin-from", rest) {
        Some(EventWords::BeginFrom { old, new }) => Some((old, new)),
        _ => None,
    }
}

/// The plans of `OLD NEW`. It fails (memory).
fn two_plans(alloc: Global, rest: &[u8]) -> Result<Option<(Plan, Plan)>, AllocError>
    ensures { IfOk result (λ plans. plans ≡ two_plans (from_first is_letter rest.now)) }
{
    let Some((old, new)) = two_texts(rest) else {
        return Ok(None);
    };
    let old = read_plan(alloc, old)?;
    let new = read_plan(alloc, new)?;
    match (old, new) {
        (Ok(old), Ok(new)) => Ok(Some((old, new))),
        _ => Ok(None),
    }
}

/// The two numbers of `N C TEXT`, and the rest after them.
fn counted_text(rest: &[u8]) -> Option<(u32, u32, &[u8])>
    ensures { option_map (λ r. (r.0, r.1, r.2.now)) result ≡ counted_text rest.now }
{
    let (number, rest) = number_then(rest)?;
    let (parts, rest) = number_then(rest)?;
    Some((number, parts, rest))
}

/// `begin N C NEW`. It fails (memory).
fn begin_line(alloc: Global, rest: &[u8]) -> Result<Option<Entry>, AllocError>
    ensures { IfOk result (λ entry. entry ≡ begin_line rest.now) }
{
    let Some((number, parts, text)) = counted_text(rest) else {
        return Ok(None);
    };
    let parts = parts as usize;
    match read_plan(alloc, after_blanks(text))? {
        Ok(plan) => Ok(Some(Entry::Own(Event::Begin(plan), Answer::Begun { number, parts }))),
        Err(_) => Ok(None),
    }
}

/// `begin-from N C OLD NEW`. It fails (memory).
fn begin_from_line(alloc: Global, rest: &[u8]) -> Result<Option<Entry>, AllocError>
    ensures { IfOk result (λ entry. entry ≡ begin_from_line rest.now) }
{
    let Some((number, parts, text)) = counted_text(rest) else {
        return Ok(None);
    };
    let parts = parts as usize;
    let Some((old, new)) = two_plans(alloc, text)? else {
        return Ok(None);
    };
    Ok(Some(Entry::Own(Event::BeginFrom(old, new), Answer::Begun { number, parts })))
}

/// `open S`
fn open_line(rest: &[u8]) -> Option<Entry>
    ensures { result ≡ open_line (words_of rest.now) }
{
    let sub = number_alone(rest)?;
    Some(Entry::Own(Event::OpenNext, Answer::Opened { sub }))
}

/// The entry of a leader's line that begins with the name. It fails (memory).
pub(crate) fn leader_line(
    alloc: Global,
    name: &[u8],
    rest: &[u8],
) -> Result<Option<Entry>, AllocError>
    ensures { IfOk result (λ entry. entry ≡ leader_line name.now rest.now) }
{
    if name == b"open".as_slice() {
        return Ok(open_line(rest));
    }
    if name == b"begin".as_slice() {
        return begin_line(alloc, rest);
    }
    if name == b"begin-from".as_slice() {
        return begin_from_line(alloc, rest);
    }
    Ok(None)
}

/// `issued N OLD NEW`. It fails (memory).
fn issued_line(alloc: Global, rest: &[u8]) -> Result<Option<Entry>, AllocError>
    ensures { IfOk result (λ entry. entry ≡ issued_line rest.now) }
{
    let Some((number, text)) = number_then(rest) else {
        return Ok(None);
    };
    let Some((old, new)) = two_plans(alloc, text)? else {
        return Ok(None);
    };
    let issue = Issue::new(alloc, &old, &new)?;
    match Report::issued(number, issue) {
        Some(report) => Ok(Some(Entry::Heard(report))),
        None => Ok(None),
    }
}

/// That the report of the name and the words after it was received.
fn report_entry(name: &[u8], rest: &[u8]) -> Option<Entry>
    ensures { result ≡ report_entry name.now (words_of rest.now) }
{
    let report = report_line(name, rest)?.report()?;
    Some(Entry::Heard(report))
}

/// That the report of the name and the rest after it was received. It fails (memory).
fn heard_by(alloc: Global, name: &[u8], rest: &[u8]) -> Result<Option<Entry>, AllocError>
    ensures { IfOk result (λ entry. entry ≡ heard_by name.now rest.now) }
{
    if name == b"issued".as_slice() {
        return issued_line(alloc, rest);
    }
    Ok(report_entry(name, rest))
}

/// The entry of `heard REPORT`, from the report on. It fails (memory).
pub(crate) fn heard_line(alloc: Global, rest: &[u8]) -> Result<Option<Entry>, AllocError>
    ensures { IfOk result (λ entry. entry ≡ heard_line rest.now) }
{
    match next_word(rest) {
        Some((name, rest)) => heard_by(alloc, name, rest),
        None => Ok(None),
    }
}
