//! A plan with keys at other partitions, what leads from one plan to another, and the keys of rows.

ghost use Rattle.std.specs.Prelude.{◌≡◌, ◌++◌, IfOk, OnOk, map, string_bytes};
ghost use Rattle.squall_cli_boards.specs.BadWords.{word_seen};
ghost use Rattle.squall_cli_boards.specs.Planned.{part_of_word, part_in, piece_in, parts_of_words, parts_seen};
ghost use Rattle.squall_cli_boards.specs.Planned.{plan_answer, ShowsPlan, AnswersParts, AnswersPlan};
ghost use Rattle.squall_cli_boards.specs.Planned.{range_lines, ShowsApart, key_lines, names_answer};
ghost use Rattle.squall_cli_boards.specs.Answers.{AnswersFirstPlans};
ghost use Rattle.squall_cli_command.specs.declared.form.Form.TheVariants.{Lines};

use crate::answer::Answer;
use crate::file::NamedFile;
use crate::plans::{bytes_at, plans_in};
use crate::refusals::refused_plan;
use crate::words::{BadWord, WordFault, span_of_words};
use squall_cli_command::Form;
use squall_cli_words::read_plan;
use squall_key::{PartId, read_number};
use squall_keymap::key_of;
use squall_plan::{Plan, PlanRange, plan_text};
use squall_plan_edit::{EditFault, moved_in_turn, ranges_apart};
use std::alloc::{AllocError, Global};

/// The partition of a number, if there is a number.
fn numbered(word: &str) -> Option<PartId>
    ensures { result ≡ part_of_word word.now }
{
    PartId::new(read_number(word.as_bytes())?)
}

/// The partition that the word writes, or why there is none.
fn part_in(word: &str) -> Result<PartId, BadWord<'_>>
    ensures { word_seen result ≡ part_in word.entry.now }
{
    match numbered(word) {
        Some(part) => Ok(part),
        None => Err(BadWord::one(word, WordFault::NoPart)),
    }
}

/// The keys and their partition that three words write, or why there are none.
fn piece_in<'a>(from: &'a str, to: &'a str, part: &'a str) -> Result<PlanRange, BadWord<'a>>
    ensures { word_seen result ≡ piece_in from.entry.now to.entry.now part.entry.now }
{
    let span = match span_of_words(from, to) {
        Ok(span) => span,
        Err(bad) => return Err(bad),
    };
    match part_in(part) {
        Ok(part) => Ok(PlanRange { span, part }),
        Err(bad) => Err(bad),
    }
}

/// The ranges that the words write, three words each, or which words are refused; and apart from
/// both a failed allocation.
fn parts_of(
    alloc: Global,
    words: &[String],
) -> Result<Result<Vec<PlanRange>, BadWord<'_>>, AllocError>
    ensures { IfOk result (λ parts. parts_seen parts ≡ parts_of_words (map string_bytes words.entry.now)) }
{
    let mut parts = Vec::new(alloc);
    let mut rest = words;
    while let [from, to, part, after @ ..] = rest {
        match piece_in(from.as_str(), to.as_str(), part.as_str()) {
            Ok(range) => parts.push(range)?,
            Err(bad) => return Ok(Err(bad)),
        }
        rest = after;
    }
    if rest.is_empty() {
        return Ok(Ok(parts));
    }
    Ok(Err(BadWord::all(rest, WordFault::NoPart)))
}

/// The text of the plan as a line.
pub(crate) fn plan_line(alloc: Global, plan: &Plan) -> Result<Answer, AllocError>
    ensures { IfOk result (λ a. a ≡ plan_answer plan.now) }
{
    let mut text = plan_text(alloc, plan)?;
    text.push_str("\n")?;
    Answer::fine_text(alloc, text.as_str())
}

/// The plan in which the ranges are at their partitions.
fn shown_plan(alloc: Global, old: &Plan, given: &[PlanRange]) -> Result<Answer, AllocError>
    ensures { IfOk result (λ a. ShowsPlan old.now given.now a) }
{
    match moved_in_turn(alloc, old, given) {
        Ok(plan) => plan_line(alloc, &plan),
        Err(EditFault::Many) => Answer::refusing(alloc, "refused plan Many\n"),
        Err(EditFault::NoMemory) => Err(AllocError),
    }
}

/// The plan in which the ranges that the words write are at their partitions.
fn plan_by_words(alloc: Global, old: &Plan, words: &[String]) -> Result<Answer, AllocError>
    ensures { IfOk result (λ a. AnswersParts old.now (parts_of_words (map string_bytes words.now)) a) }
{
    match parts_of(alloc, words)? {
        Ok(given) => shown_plan(alloc, old, &given),
        Err(bad) => bad.refused(alloc, Form::Lines),
    }
}

/// The text of the plan that is that of the file, except that the words say where keys go: two bounds
/// and a partition each time. A file that is no plan is refused, and then words that write no bounds,
/// no span or no partition.
pub(crate) fn plan_answer(
    alloc: Global,
    words: &[String],
    files: &[NamedFile],
) -> Result<Answer, AllocError>
    ensures { IfOk result (λ a. AnswersPlan (map string_bytes words.now) files.now a) }
{
    match read_plan(alloc, bytes_at(files, 0))? {
        Ok(old) => plan_by_words(alloc, &old, words),
        Err(fault) => refused_plan(alloc, Form::Lines, "old", fault),
    }
}

/// Adds the keys of ranges and their partitions, a line each.
fn add_ranges(ranges: &[PlanRange], text: &mut String) -> Result<(), AllocError>
    ensures { OnOk result (string_bytes text.new ≡ string_bytes text.old ++ range_lines ranges.now) }
{
    for range in ranges {
        let (lo, hi) = (range.span.lo(), range.span.hi());
        let part = range.part;
        write!(text, "{lo} {hi} {part}\n")?;
    }
    Ok(())
}

/// Which keys go to which partition between two plans.
fn shown_apart(alloc: Global, old: &Plan, new: &Plan) -> Result<Answer, AllocError>
    ensures { IfOk result (λ a. ShowsApart old.now new.now a) }
{
    let ranges = ranges_apart(alloc, old, new)?;
    let mut text = String::new(alloc);
    add_ranges(&ranges, &mut text)?;
    Answer::fine_text(alloc, text.as_str())
}

/// Which keys go to which partition between the plans of the first two files, a line each, in words
/// by which one plan is made of the other. A file that is no plan is refused.
#[tactic(auto, using(crate::specs::PlansLaws::refused_answers))]
pub(crate) fn diff_answer(alloc: Global, files: &[NamedFile]) -> Result<Answer, AllocError>
    ensures { IfOk result (λ a. AnswersFirstPlans Lines ShowsApart files.now a) }
{
    match plans_in(alloc, Form::Lines, files)? {
        Ok((old, new)) => shown_apart(alloc, &old, &new),
        Err(answer) => Ok(answer),
    }
}

/// Adds the keys of rows by their names, a line each.
fn add_keys(names: &[String], text: &mut String) -> Result<(), AllocError>
    ensures { OnOk result (string_bytes text.new ≡ string_bytes text.old ++ key_lines (map string_bytes names.now)) }
{
    for name in names {
        let key = key_of(name.as_str().as_bytes());
        writeln!(text, "{key}")?;
    }
    Ok(())
}

/// The keys of rows by their names, a line each.
pub(crate) fn names_answer(alloc: Global, names: &[String]) -> Result<Answer, AllocError>
    ensures { IfOk result (λ a. a ≡ names_answer (map string_bytes names.now)) }
{
    let mut text = String::new(alloc);
    add_keys(names, &mut text)?;
    Answer::fine_text(alloc, text.as_str())
}
