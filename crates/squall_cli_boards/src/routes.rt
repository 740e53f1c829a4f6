//! Routes and legs of a course, as far as a board tells of it.

ghost use Rattle.std.specs.Prelude.{◌≡◌, ◌∷◌, ◌++◌, ℕ, List, true, false, Some, IfOk, OnOk, map, if◌then◌else◌, string_bytes};
ghost use Rattle.squall_key.specs.Keys.{top};
ghost use Rattle.squall_span.specs.Spans.{interval};
ghost use Rattle.squall_board.specs.Boards.{says};
ghost use Rattle.squall_board.specs.Route.{route};
ghost use Rattle.squall_table.specs.Tables.{legs_between};
ghost use Rattle.squall_cli_boards.specs.Answers.{answer_with};
ghost use Rattle.squall_cli_boards.specs.BadWords.{word_seen};
ghost use Rattle.squall_cli_boards.specs.Courses.{ShowsRoutes, ShowsNamedRoutes, ShowsLegs};
ghost use Rattle.squall_cli_boards.specs.Routes.{after_text, routes_answer, named_text, named_line, named_lines, legs_in, span_asked};

use crate::answer::Answer;
use crate::words::{BadWord, WordFault, key_in, span_of_words};
use squall_board::Board;
use squall_cli_command::Form;
use squall_cli_json::legs_json;
use squall_cli_words::{add_legs, add_route};
use squall_course::Course;
use squall_key::{Bound, PartId};
use squall_keymap::key_of;
use squall_span::Span;
use squall_table::laws::legs_are_key_by_key;
use squall_table::{Leg, RouteTable};
use std::alloc::{AllocError, Global};

/// Adds the route of the key that a word writes, or why the word is refused. Whether it is refused.
fn add_word(
    alloc: Global,
    word: &str,
    course: &Course,
    board: &Board,
    text: &mut String,
) -> Result<bool, AllocError>
    ensures { IfOk result (λ refused. (words : List (List ℕ))
        → after_text (string_bytes text.old) (routes_answer (route course.now (says board.now)) (word.now ∷ words))
        ≡ (if refused then answer_with (string_bytes text.new) true
        else after_text (string_bytes text.new) (routes_answer (route course.now (says board.now)) words))) }
{
    match key_in(word) {
        Ok(key) => {
            add_route(key, board.route(course, key), text)?;
            Ok(false)
        }
        Err(bad) => {
            text.push_str(bad.line(alloc)?.as_str())?;
            Ok(true)
        }
    }
}

/// Adds the routes of the keys that the words write, up to a word that is refused. Whether one is.
fn add_words(
    alloc: Global,
    words: &[String],
    course: &Course,
    board: &Board,
    text: &mut String,
) -> Result<bool, AllocError>
    ensures { IfOk result (λ refused. answer_with (string_bytes text.new) refused
        ≡ after_text (string_bytes text.old) (routes_answer (route course.now (says board.now)) (map string_bytes words.now))) }
{
    for word in words {
        if add_word(alloc, word.as_str(), course, board, text)? {
            return Ok(true);
        }
    }
    Ok(false)
}

/// The partition to ask for each of the keys that the words write. A word that is no key is refused,
/// after the routes of those before it.
pub(crate) fn shown_routes(
    alloc: Global,
    words: &[String],
    course: &Course,
    board: &Board,
) -> Result<Answer, AllocError>
    ensures { IfOk result (λ a. ShowsRoutes (map string_bytes words.now) course.now board.now a) }
{
    let mut text = String::new(alloc);
    let refused = add_words(alloc, words, course, board, &mut text)?;
    Answer::of_text(alloc, text.as_str(), refused)
}

/// Adds the line of a row by its name, and the partition to ask for it.
fn add_named(name: &str, part: PartId, text: &mut String) -> Result<(), AllocError>
    ensures { OnOk result (string_bytes text.new ≡ string_bytes text.old ++ named_text name.now part) }
{
    write!(text, "route {name} {part}\n")
}

/// Adds the route of the row that has the name.
fn add_name(name: &str, course: &Course, board: &Board, text: &mut String) -> Result<(), AllocError>
    ensures { OnOk result (string_bytes text.new ≡ string_bytes text.old ++ named_line (route course.now (says board.now)) name.now) }
{
    let part = board.route(course, key_of(name.as_bytes()));
    add_named(name, part, text)
}

/// Adds the routes of the rows that have these names.
fn add_names(
    names: &[String],
    course: &Course,
    board: &Board,
    text: &mut String,
) -> Result<(), AllocError>
    ensures { OnOk result (string_bytes text.new ≡ string_bytes text.old ++ named_lines (route course.now (says board.now)) (map string_bytes names.now)) }
{
    for name in names {
        add_name(name.as_str(), course, board, text)?;
    }
    Ok(())
}

/// The partition to ask for each of the rows that have these names.
pub(crate) fn shown_named_routes(
    alloc: Global,
    names: &[String],
    course: &Course,
    board: &Board,
) -> Result<Answer, AllocError>
    ensures { IfOk result (λ a. ShowsNamedRoutes (map string_bytes names.now) course.now board.now a) }
{
    let mut text = String::new(alloc);
    add_names(names, course, board, &mut text)?;
    Answer::fine_text(alloc, text.as_str())
}

/// The span of all keys.
fn all_keys() -> Option<Span>
    ensures { result ≡ Some (interval 0 top) }
{
    Span::new(Bound::of_rank(0)?, Bound::TOP)
}

/// The span whose bounds the words write, or without words that of all keys; or why words are refused.
fn span_asked(words: &[String]) -> Result<Span, BadWord<'_>>
    ensures { word_seen result ≡ span_asked (map string_bytes words.entry.now) }
{
    match words {
        [] => all_keys().ok_or(BadWord::all(words, WordFault::NoSpan)),
        [_] => Err(BadWord::all(words, WordFault::NoSpan)),
        [lo, hi] => span_of_words(lo.as_str(), hi.as_str()),
        _ => Err(BadWord::all(words, WordFault::NoSpan)),
    }
}

/// The legs of the span.
fn span_legs(
    alloc: Global,
    span: &Span,
    course: &Course,
    board: &Board,
) -> Result<Vec<Leg>, AllocError>
    ensures { IfOk result (λ legs. legs.items ≡ legs_between (route course.now (says board.now)) span.now.lo span.now.hi) }
{
    // The proof learns that the span ends at the top at most, so that the table has its keys.
    let _ = (span.lo(), span.hi());
    legs_are_key_by_key();
    let table = RouteTable::build(alloc, course, board)?;
    table.legs(alloc, span)
}

/// The legs in the form.
fn legs_text(alloc: Global, form: Form, legs: &[Leg]) -> Result<String, AllocError>
    ensures { IfOk result (λ s. string_bytes s ≡ legs_in form legs.now) }
{
    match form {
        Form::Lines => {
            let mut text = String::new(alloc);
            add_legs(legs, &mut text)?;
            Ok(text)
        }
        Form::Json => legs_json(alloc, legs),
    }
}

/// The legs of the span, in the form.
fn shown_span(
    alloc: Global,
    form: Form,
    span: &Span,
    course: &Course,
    board: &Board,
) -> Result<Answer, AllocError>
    ensures { IfOk result (λ a. a ≡ answer_with (legs_in form (legs_between (route course.now (says board.now)) span.now.lo span.now.hi)) false) }
{
    let legs = span_legs(alloc, span, course, board)?;
    let text = legs_text(alloc, form, &legs)?;
    Answer::fine_text(alloc, text.as_str())
}

/// The legs of the span that the words ask for: that of two bounds, or without words that of all keys.
/// Words that ask for none are refused.
pub(crate) fn shown_legs(
    alloc: Global,
    form: Form,
    words: &[String],
    course: &Course,
    board: &Board,
) -> Result<Answer, AllocError>
    ensures { IfOk result (λ a. ShowsLegs form (map string_bytes words.now) course.now board.now a) }
{
    match span_asked(words) {
        Ok(span) => shown_span(alloc, form, &span, course, board),
        Err(bad) => bad.refused(alloc, form),
    }
}
