//! Reports as frames, and two plans as files.

ghost use Rattle.std.specs.Prelude.{◌≡◌, ◌≤◌, IfOk, map, string_bytes};
ghost use Rattle.squall_board.specs.Boards.{report_board};
ghost use Rattle.squall_plan.specs.Form.{plan_of_text};
ghost use Rattle.squall_cli_boards.specs.Answers.{bytes_at, ShowsFrames, AnswersFirstPlans, ShowsIssue};
ghost use Rattle.squall_cli_boards.specs.Plans.{ArePlansReadIn};
ghost use Rattle.squall_cli_boards.specs.ReportWords.{report_asked, AnswersReport};
ghost use Rattle.squall_cli_command.specs.declared.form.Form.TheVariants.{Lines};

use crate::answer::Answer;
use crate::file::NamedFile;
use crate::frames::shown_frames;
use crate::refusals::refused_plan;
use crate::report_words::{ReportAsked, report_asked};
use squall_cli_command::Form;
use squall_cli_words::read_plan;
use squall_delta::delta_of;
use squall_plan::Plan;
use squall_report::{Issue, Report};
use std::alloc::{AllocError, Global};

/// The frame of the board of the report alone.
fn shown_report(alloc: Global, report: &Report) -> Result<Answer, AllocError>
    ensures { IfOk result (λ a. ShowsFrames (report_board report.now) a) }
{
    shown_frames(alloc, &delta_of(alloc, report)?)
}

/// The bytes of the file of that place, from 0 on. None if there is no such file.
pub(crate) fn bytes_at(files: &[NamedFile], at: usize) -> &[u8]
    ensures { result.now ≡ bytes_at files.now at }
{
    match files.get(at) {
        Some(file) => file.bytes(),
        None => &[],
    }
}

/// The plans of the first two files, or the answer in the form that refuses one of them.
pub fn plans_in(
    alloc: Global,
    form: Form,
    files: &[NamedFile],
) -> Result<Result<(Plan, Plan), Answer>, AllocError>
    ensures { IfOk result (λ plans. ArePlansReadIn form plans (plan_of_text (bytes_at files.now 0)) (plan_of_text (bytes_at files.now 1))) }
{
    let old = match read_plan(alloc, bytes_at(files, 0))? {
        Ok(old) => old,
        Err(fault) => return Ok(Err(refused_plan(alloc, form, "old", fault)?)),
    };
    match read_plan(alloc, bytes_at(files, 1))? {
        Ok(new) => Ok(Ok((old, new))),
        Err(fault) => Ok(Err(refused_plan(alloc, form, "new", fault)?)),
    }
}

/// The frame of the report that the reconfiguration of that number leads from one plan to another.
fn shown_issue(alloc: Global, number: u32, old: &Plan, new: &Plan) -> Result<Answer, AllocError>
    requires { 1 ≤ number }
    ensures { IfOk result (λ a. ShowsIssue number old.now new.now a) }
{
    let issue = Issue::new(alloc, old, new)?;
    match Report::issued(number, issue) {
        Some(report) => shown_report(alloc, &report),
        // The number is not 0.
        None => Err(AllocError),
    }
}

/// The frame of the report that the reconfiguration of that number leads from the plan of the first
/// file to that of the second. A file that is no plan is refused.
#[tactic(auto, using(crate::specs::PlansLaws::refused_answers))]
fn issue_answer(alloc: Global, number: u32, files: &[NamedFile]) -> Result<Answer, AllocError>
    requires { 1 ≤ number }
    ensures { IfOk result (λ a. AnswersFirstPlans Lines (ShowsIssue number) files.now a) }
{
    match plans_in(alloc, Form::Lines, files)? {
        Ok((old, new)) => shown_issue(alloc, number, &old, &new),
        Err(answer) => Ok(answer),
    }
}

/// The frame of the report that the words ask for. Words that are no report are refused without a line.
pub(crate) fn report_answer(
    alloc: Global,
    words: &[String],
    files: &[NamedFile],
) -> Result<Answer, AllocError>
    ensures { IfOk result (λ a. AnswersReport (report_asked (map string_bytes words.now)) files.now a) }
{
    match report_asked(words) {
        Some(ReportAsked::Report(report)) => shown_report(alloc, &report),
        Some(ReportAsked::Issue(number)) => issue_answer(alloc, number, files),
        None => Ok(Answer::silent(alloc, true)),
    }
}
