//! Answers what is asked of logs, and of all other files.

ghost use Rattle.std.specs.Prelude.{◌≡◌, IfOk, drop, map, string_bytes};
ghost use Rattle.squall_cli_ask.specs.Audited.{log_file, is_refused, ShowsAudit, AnswersAudit, IsAnswerFor};

use squall_cli_audit::{LogFile, answer_audit};
use squall_cli_boards::{Answer, NamedFile, answer_to, plans_in};
use squall_cli_command::{Form, Inquiry};
use squall_cli_lines::Ended;
use squall_plan::Plan;
use std::alloc::{AllocError, Global};

/// The files behind the first two.
fn after_plans(files: &[NamedFile]) -> &[NamedFile]
    ensures { result.now ≡ drop 2 files.now }
{
    if files.len() < 2 {
        return &[];
    }
    &files[2..]
}

/// The file as that of a log.
fn log_file(alloc: Global, file: &NamedFile) -> Result<LogFile, AllocError>
    ensures { IfOk result (λ log. log ≡ log_file file.now) }
{
    let name = String::from_str(alloc, file.name())?;
    let text = Vec::from_slice(alloc, file.bytes())?;
    Ok(LogFile::new(name, text))
}

/// The files as those of logs.
fn log_files(alloc: Global, files: &[NamedFile]) -> Result<Vec<LogFile>, AllocError>
    ensures { IfOk result (λ logs. logs.items ≡ map log_file files.now) }
{
    let mut logs = Vec::new(alloc);
    for file in files {
        logs.push(log_file(alloc, file)?)?;
    }
    Ok(logs)
}

/// Whether an audit refused what was given.
fn is_refused(ended: Ended) -> bool
    ensures { result ≡ is_refused ended }
{
    match ended {
        Ended::Fine => false,
        Ended::Refused => true,
    }
}

/// What an audit of the logs in the files shows. An error means that an allocation failed.
fn shown_audit(
    alloc: Global,
    old: &Plan,
    new: &Plan,
    files: &[NamedFile],
) -> Result<Answer, AllocError>
    ensures { IfOk result (λ a. ShowsAudit files.now old.now new.now a) }
{
    let logs = log_files(alloc, files)?;
    let mut text = String::new(alloc);
    let ended = answer_audit(alloc, old, new, &logs, &mut text)?;
    Answer::of_text(alloc, text.as_str(), is_refused(ended))
}

/// What an audit of the logs in the files behind two plans shows, or that one of these is no plan.
#[tactic(auto, using(squall_cli_boards::specs::PlansLaws::refused_answers))]
fn audit_answer(alloc: Global, files: &[NamedFile]) -> Result<Answer, AllocError>
    ensures { IfOk result (λ a. AnswersAudit files.now a) }
{
    match plans_in(alloc, Form::Lines, files)? {
        Ok((old, new)) => shown_audit(alloc, &old, &new, after_plans(files)),
        Err(answer) => Ok(answer),
    }
}

/// The answer to what is asked of the files. An error means that an allocation failed.
pub(crate) fn answer_for(
    alloc: Global,
    inquiry: Inquiry,
    words: &[String],
    files: &[NamedFile],
) -> Result<Answer, AllocError>
    ensures { IfOk result (λ a. IsAnswerFor inquiry (map string_bytes words.now) files.now a) }
{
    match inquiry {
        Inquiry::Audit => audit_answer(alloc, files),
        _ => answer_to(alloc, inquiry, words, files),
    }
}
