//! A plan in which partitions share keys.

ghost use Rattle.std.specs.Prelude.{◌≡◌, ◌+◌, ◌<◌, ◌≤◌, ◌++◌, length, position, IfOk, IfSome, OnOk, map, string_bytes};
ghost use Rattle.std.specs.Option.{option_map};
ghost use Rattle.squall_key.specs.Keys.{part_limit};
ghost use Rattle.squall_cli_boards.specs.BadWords.{word_seen, bound_in};
ghost use Rattle.squall_cli_boards.specs.Planned.{parts_seen};
ghost use Rattle.squall_cli_boards.specs.Shared.{is_hyphen, at_hyphen, numbers_of, numbers_at, run_between, run_of_word, run_in};
ghost use Rattle.squall_cli_boards.specs.Shared.{parts_of_run, parts_listed, lacks_keys, ShowsShares, AnswersShares, AnswersSplit};

use crate::answer::Answer;
use crate::planned::plan_line;
use crate::words::{BadWord, WordFault, bound_in};
use squall_cli_command::Form;
use squall_key::{Bound, PART_LIMIT, PartId, read_number};
use squall_plan_edit::{EditFault, shares_below, split};
use std::alloc::{AllocError, Global};

fn first_hyphen(word: &[u8]) -> Option<usize>
    ensures value { result ≡ position is_hyphen word.now }
    ensures within { IfSome result (λ i. i < length word.now) }
{
    word.iter().position(|b| *b == b'-')
}

/// The bytes before the first hyphen, and those after it.
fn split_hyphen(word: &[u8]) -> Option<(&[u8], &[u8])>
    ensures { option_map (λ p. (p.0.now, p.1.now)) result ≡ at_hyphen word.now }
{
    let at = first_hyphen(word)?;
    Some((&word[..at], &word[at + 1..]))
}

/// The numbers of two words.
fn numbers_of(first: &[u8], last: &[u8]) -> Option<(u32, u32)>
    ensures { result ≡ numbers_of first.now last.now }
{
    Some((read_number(first)?, read_number(last)?))
}

/// The two numbers of a word with a hyphen, or the one number of another word, twice.
fn numbers_at(word: &[u8]) -> Option<(u32, u32)>
    ensures { result ≡ numbers_at word.now (at_hyphen word.now) }
{
    match split_hyphen(word) {
        Some((first, last)) => numbers_of(first, last),
        None => numbers_of(word, word),
    }
}

/// The run of partitions from the first number up to the last one.
fn run_between(run: (u32, u32)) -> Option<(u32, u32)>
    ensures value { result ≡ run_between run }
    ensures within { IfSome result (λ r. (r.0 ≤ r.1) × (r.1 < part_limit)) }
{
    let (first, last) = run;
    if first <= last && last < PART_LIMIT {
        return Some((first, last));
    }
    None
}

fn run_of_word(word: &[u8]) -> Option<(u32, u32)>
    ensures value { result ≡ run_of_word word.now }
    ensures within { IfSome result (λ r. (r.0 ≤ r.1) × (r.1 < part_limit)) }
{
    run_between(numbers_at(word)?)
}

/// The run of partitions that the word writes, or why there is none.
fn run_in(word: &str) -> Result<(u32, u32), BadWord<'_>>
    ensures value { word_seen result ≡ run_in word.entry.now }
    ensures within { IfOk result (λ r. (r.0 ≤ r.1) × (r.1 < part_limit)) }
{
    match run_of_word(word.as_bytes()) {
        Some(run) => Ok(run),
        None => Err(BadWord::one(word, WordFault::NoPart)),
    }
}

/// Adds the partitions of a run.
fn add_run(run: (u32, u32), parts: &mut Vec<PartId>) -> Result<(), AllocError>
    requires { run.1 < part_limit }
    ensures { OnOk result (parts.new.items ≡ parts.old.items ++ parts_of_run run) }
{
    let (first, last) = run;
    for number in first..last + 1 {
        parts.push(PartId::of(number))?;
    }
    Ok(())
}

/// The partitions that the words write, a run each, or which word is refused; and apart from both a
/// failed allocation.
fn parts_listed(
    alloc: Global,
    words: &[String],
) -> Result<Result<Vec<PartId>, BadWord<'_>>, AllocError>
    ensures { IfOk result (λ parts. parts_seen parts ≡ parts_listed (map string_bytes words.entry.now)) }
{
    let mut parts = Vec::new(alloc);
    for word in words {
        match run_in(word.as_str()) {
            Ok(run) => add_run(run, &mut parts)?,
            Err(bad) => return Ok(Err(bad)),
        }
    }
    Ok(Ok(parts))
}

/// Whether there is no partition, or there are too many for the keys below the bound.
fn lacks_keys(below: Bound, parts: &[PartId]) -> bool
    ensures { result ≡ lacks_keys below parts.now }
{
    parts.is_empty() || shares_below(below) < parts.len() as u64
}

/// The plan in which the partitions share the keys below the bound.
fn shown_shares(alloc: Global, below: Bound, parts: &[PartId]) -> Result<Answer, AllocError>
    ensures { IfOk result (λ a. ShowsShares below parts.now a) }
{
    if lacks_keys(below, parts) {
        return Answer::refusing(alloc, "refused plan Few\n");
    }
    match split(alloc, below, parts) {
        Ok(plan) => plan_line(alloc, &plan),
        Err(EditFault::Many) => Answer::refusing(alloc, "refused plan Many\n"),
        Err(EditFault::NoMemory) => Err(AllocError),
    }
}

/// The plan in which the partitions that the words write share the keys below the bound that a word
/// writes.
fn split_by_words(alloc: Global, below: &str, words: &[String]) -> Result<Answer, AllocError>
    ensures { IfOk result (λ a. AnswersShares (bound_in below.now) (parts_listed (map string_bytes words.now)) a) }
{
    let below = match bound_in(below) {
        Ok(below) => below,
        Err(bad) => return bad.refused(alloc, Form::Lines),
    };
    match parts_listed(alloc, words)? {
        Ok(parts) => shown_shares(alloc, below, &parts),
        Err(bad) => bad.refused(alloc, Form::Lines),
    }
}

/// The text of the plan in which partitions share the keys below a bound. The first word is the bound,
/// and the others are the partitions. A word that writes none is refused, and then partitions that are
/// too many for the keys.
pub(crate) fn split_answer(alloc: Global, words: &[String]) -> Result<Answer, AllocError>
    ensures { IfOk result (λ a. AnswersSplit (map string_bytes words.now) a) }
{
    match words {
        [below, parts @ ..] => split_by_words(alloc, below.as_str(), parts),
        [] => BadWord::all(words, WordFault::NoBound).refused(alloc, Form::Lines),
    }
}
