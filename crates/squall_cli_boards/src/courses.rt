//! What is asked of the newest course of two plans and of board files.

ghost use Rattle.std.specs.Prelude.{◌≡◌, IfOk, map, string_bytes};
ghost use Rattle.squall_cli_boards.specs.Courses.{status_in, all_complete, shown_as, ShowsStatus, ShowsPicture, ShowsRoutes};
ghost use Rattle.squall_cli_boards.specs.Courses.{ShowsNamedRoutes, ShowsLegs, AnswersNewest};
ghost use Rattle.squall_cli_command.specs.declared.form.Form.TheVariants.{Lines};

use crate::answer::Answer;
use crate::file::NamedFile;
use crate::known::{Known, newest_of};
use crate::routes::{shown_legs, shown_named_routes, shown_routes};
use squall_cli_command::{Form, StatusAsk};
use squall_cli_json::status_json;
use squall_picture::picture;
use squall_status::{CourseStatus, Shown, add_status};
use std::alloc::{AllocError, Global};

/// How far a course has come, in the form. An error means that an allocation failed.
pub fn status_text(
    alloc: Global,
    form: Form,
    shown: Shown,
    status: &CourseStatus,
) -> Result<String, AllocError>
    ensures { IfOk result (λ s. string_bytes s ≡ status_in form shown status.now) }
{
    match form {
        Form::Lines => {
            let mut text = String::new(alloc);
            add_status(status, shown, &mut text)?;
            Ok(text)
        }
        Form::Json => status_json(alloc, status, shown),
    }
}

/// Whether each move of the course is complete.
fn all_complete(status: &CourseStatus) -> bool
    ensures { result ≡ all_complete status.now }
{
    for change in status.moves() {
        if !change.progress.is_complete() {
            return false;
        }
    }
    true
}

/// Which moves are shown.
fn shown_as(how: StatusAsk) -> Shown
    ensures { result ≡ shown_as how }
{
    if how.is_waiting {
        return Shown::Waiting;
    }
    Shown::EachMove
}

/// How far the course has come, as the board says.
fn shown_status(
    alloc: Global,
    form: Form,
    shown: Shown,
    known: &Known,
) -> Result<Answer, AllocError>
    ensures { IfOk result (λ a. ShowsStatus form shown known.now.course known.now.board a) }
{
    let status = CourseStatus::of(alloc, &known.course, &known.board)?;
    let text = status_text(alloc, form, shown, &status)?;
    Answer::of_course(alloc, text.as_str(), all_complete(&status))
}

/// How far the newest course of the files has come. A plan or a board file that has a fault is refused.
pub(crate) fn status_answer(
    alloc: Global,
    how: StatusAsk,
    files: &[NamedFile],
) -> Result<Answer, AllocError>
    ensures { IfOk result (λ a. AnswersNewest how.form (ShowsStatus how.form (shown_as how)) files.now a) }
{
    match newest_of(alloc, how.form, files)? {
        Ok(known) => shown_status(alloc, how.form, shown_as(how), &known),
        Err(answer) => Ok(answer),
    }
}

/// The picture of how far the course has come, as the board says.
fn shown_picture(alloc: Global, known: &Known) -> Result<Answer, AllocError>
    ensures { IfOk result (λ a. ShowsPicture known.now.course known.now.board a) }
{
    let text = picture(alloc, &known.course, &known.board)?;
    Answer::fine_text(alloc, text.as_str())
}

/// The same as a picture in SVG.
pub(crate) fn picture_answer(alloc: Global, files: &[NamedFile]) -> Result<Answer, AllocError>
    ensures { IfOk result (λ a. AnswersNewest Lines ShowsPicture files.now a) }
{
    match newest_of(alloc, Form::Lines, files)? {
        Ok(known) => shown_picture(alloc, &known),
        Err(answer) => Ok(answer),
    }
}

/// The partition to ask for each of the keys that the words write, by the newest course of the files.
pub(crate) fn routes_answer(
    alloc: Global,
    words: &[String],
    files: &[NamedFile],
) -> Result<Answer, AllocError>
    ensures { IfOk result (λ a. AnswersNewest Lines (ShowsRoutes (map string_bytes words.now)) files.now a) }
{
    match newest_of(alloc, Form::Lines, files)? {
        Ok(known) => shown_routes(alloc, words, &known.course, &known.board),
        Err(answer) => Ok(answer),
    }
}

/// The partition to ask for each of the rows that have the words as names, by the newest course of the
/// files.
pub(crate) fn named_routes_answer(
    alloc: Global,
    words: &[String],
    files: &[NamedFile],
) -> Result<Answer, AllocError>
    ensures { IfOk result (λ a. AnswersNewest Lines (ShowsNamedRoutes (map string_bytes words.now)) files.now a) }
{
    match newest_of(alloc, Form::Lines, files)? {
        Ok(known) => shown_named_routes(alloc, words, &known.course, &known.board),
        Err(answer) => Ok(answer),
    }
}

/// The legs of the span whose bounds the words write, or without words of all keys, by the newest
/// course of the files.
pub(crate) fn legs_answer(
    alloc: Global,
    form: Form,
    words: &[String],
    files: &[NamedFile],
) -> Result<Answer, AllocError>
    ensures { IfOk result (λ a. AnswersNewest form (ShowsLegs form (map string_bytes words.now)) files.now a) }
{
    match newest_of(alloc, form, files)? {
        Ok(known) => shown_legs(alloc, form, words, &known.course, &known.board),
        Err(answer) => Ok(answer),
    }
}
