//! What the program does for a task.

ghost use Rattle.std.specs.Prelude.{◌≡◌, ◌≢◌, ◌⊎◌, ◌↔◌, ◌&&◌, ◌∷◌, [], ℕ, List, true, false};
ghost use Rattle.squall_cli_device.specs.States.{SinkState, FoundEnd, GaveAll, NoReadFails, OutputFails, NoWriteFails, ReadAndWrote};
ghost use Rattle.squall_cli_lines.specs.Heeding.{InputFails, Says};
ghost use Rattle.squall_cli_command.specs.Line.{course, job_seen};
ghost use Rattle.squall_cli_ask.specs.Files.{is_input, AddsNames};
ghost use Rattle.squall_cli_ask.specs.Reads.{bytes_at};
ghost use Rattle.squall_cli_ask.specs.Told.{status_of, IsTold};
ghost use Rattle.squall_cli_lines.specs.Script.{IsPrompt};
ghost use Rattle.squall_cli_scenario.specs.Text.{IsScript};
ghost use Rattle.squall_cli_run.specs.Tasks.{ShowsCourseWith, IsDone, DrawsFor, EndsInput, NamesFile, CannotBe};
ghost use Rattle.squall_cli_run.specs.Tasks.{AnswersPromptly, StopsAtBadLine, ReadsNoFurther};
ghost use Rattle.squall_cli_run.specs.Named.{IsNamed, IsToldFor};
ghost use Rattle.squall_cli_run.specs.Sources.{IsAnswered, NeedsAll, IsDoneBy};

use crate::check::check_source;
use crate::course::course_text;
use crate::race::race_text;
use crate::run_text;
use squall_cli_ask::{
    Console, Files, answer_inquiry, answer_stream, read_named, tell_file_outcome, tell_outcome,
    tell_unopened,
};
use squall_cli_command::{Form, Task};
use squall_cli_device::{Sink, Source};
use squall_cli_lines::{Ended, RunFault};
use std::alloc::Global;
use std::sync::Wait;
use std::thread::Threads;

/// What is done with the bytes of one file.
#[derive(Clone, Copy)]
pub(crate) enum Purpose {
    /// Its plan is checked.
    Check(Form),
    /// Its scenario is run.
    Run,
    /// Its race is run.
    Race,
}

/// Does it with what the source gives.
fn answer_source<R: Threads + Wait + Sync, S: Source, O: Sink>(
    rt: &R,
    alloc: Global,
    purpose: Purpose,
    source: &mut S,
    out: &mut O,
) -> Result<Ended, RunFault>
    ensures text { ReadAndWrote (S.state source.old) (S.state source.new) (O.state out.old) (O.state out.new) (IsAnswered purpose result) }
    ensures prompt { purpose ≡ Purpose.Run → ReadAndWrote (S.state source.old) (S.state source.new) (O.state out.old) (O.state out.new) (IsPrompt IsScript) }
    ensures no_read_after { purpose ≡ Purpose.Run → status_of result ≡ 1 → StopsAtBadLine (S.state source.old) (S.state source.new) }
    ensures all { NeedsAll purpose (status_of result) → GaveAll (S.state source.old) (S.state source.new) }
    ensures device { status_of result ≡ 3 → InputFails (S.state source.old) (S.state source.new) ⊎ OutputFails (O.state out.old) (O.state out.new) }
    ensures heeds { status_of result ≢ 3 → NoReadFails (S.state source.old) (S.state source.new) × NoWriteFails (O.state out.old) (O.state out.new) }
{
    match purpose {
        Purpose::Check(form) => check_source(alloc, form, source, out),
        Purpose::Run => run_text(alloc, source, out),
        Purpose::Race => race_text(rt, alloc, source, out),
    }
}

/// Does it with the bytes of a file, which is given by its purpose and its name.
fn answer_file<R: Threads + Wait + Sync, F: Files, S: Source, O: Sink, E: Console>(
    rt: &R,
    alloc: Global,
    file: (Purpose, &str),
    files: &mut F,
    input: &mut S,
    out: &mut O,
    err: &mut E,
) -> u8
    ensures done { IsDoneBy file.entry.0 (bytes_at (F.known files.old) (S.state input.old) (O.state out.old))
        (bytes_at (F.known files.new) (S.state input.new) (O.state out.new)) file.entry.1.now result }
    ensures prompt { file.entry.0 ≡ Purpose.Run → is_input file.entry.1.now ≡ true
        → ReadAndWrote (S.state input.old) (S.state input.new) (O.state out.old) (O.state out.new) (IsPrompt IsScript) }
    ensures no_read_after { file.entry.0 ≡ Purpose.Run → is_input file.entry.1.now ≡ true → result ≡ 1
        → StopsAtBadLine (S.state input.old) (S.state input.new) }
    ensures once { is_input file.entry.1.now ≡ false → AddsNames (F.opened files.old) (F.opened files.new) (file.entry.1.now ∷ []) }
    ensures unopened { is_input file.entry.1.now ≡ true → F.opened files.new ≡ F.opened files.old }
    ensures ended { is_input file.entry.1.now ≡ true → NeedsAll file.entry.0 result → FoundEnd (S.state input.old) (S.state input.new) }
    ensures device { result ≡ 3 → InputFails (S.state input.old) (S.state input.new)
        ⊎ (OutputFails (O.state out.old) (O.state out.new) ⊎ (is_input file.entry.1.now ≡ false)) }
    ensures taken { result ≢ 2 }
    ensures heeds { result ≢ 3 → NoReadFails (S.state input.old) (S.state input.new) × NoWriteFails (O.state out.old) (O.state out.new) }
    ensures told { (text : List ℕ) × IsTold (λ name. name ≡ file.entry.1.now) result text × Says (E.state err.old) (E.state err.new) text }
{
    let (purpose, name) = file;
    if name == "-" {
        return tell_outcome(answer_source(rt, alloc, purpose, input, out), err);
    }
    match files.open(name) {
        Some(mut file) => {
            let outcome = answer_source(rt, alloc, purpose, &mut file, out);
            tell_file_outcome(name, outcome, err)
        }
        None => tell_unopened(name, err),
    }
}

/// Whether both names are that of standard input.
fn are_input(old: &str, new: &str) -> bool
    ensures { result ≡ (is_input old.now && is_input new.now) }
{
    old == "-" && new == "-"
}

/// Shows the course between the plans of two files, which are given after the form. If both are
/// standard input, the second one is empty.
fn course_files<F: Files, S: Source, O: Sink, E: Console>(
    alloc: Global,
    plans: (Form, &str, &str),
    files: &mut F,
    input: &mut S,
    out: &mut O,
    err: &mut E,
) -> u8
    ensures done { ShowsCourseWith plans.entry.0 (bytes_at (F.known files.old) (S.state input.old) (O.state out.old))
        (bytes_at (F.known files.new) (S.state input.new) (O.state out.new)) plans.entry.1.now plans.entry.2.now result }
    ensures ended { EndsInput (course plans.entry.0 plans.entry.1.now plans.entry.2.now) result → FoundEnd (S.state input.old) (S.state input.new) }
    ensures device { result ≡ 3 → InputFails (S.state input.old) (S.state input.new)
        ⊎ (OutputFails (O.state out.old) (O.state out.new) ⊎ NamesFile (course plans.entry.0 plans.entry.1.now plans.entry.2.now)) }
    ensures taken { result ≢ 2 }
    ensures heeds { result ≢ 3 → NoReadFails (S.state input.old) (S.state input.new) × NoWriteFails (O.state out.old) (O.state out.new) }
    ensures told { (text : List ℕ) × IsTold (IsNamed (course plans.entry.0 plans.entry.1.now plans.entry.2.now)) result text
        × Says (E.state err.old) (E.state err.new) text }
{
    let (form, old, new) = plans;
    let old_text = match read_named(alloc, old, files, input, err) {
        Ok(text) => text,
        Err(status) => return status,
    };
    if are_input(old, new) {
        return tell_outcome(course_text(alloc, form, &old_text, &[], out), err);
    }
    match read_named(alloc, new, files, input, err) {
        Ok(new_text) => tell_outcome(course_text(alloc, form, &old_text, &new_text, out), err),
        Err(status) => status,
    }
}

/// Does the task.
pub(crate) fn do_task<R: Threads + Wait + Sync, F: Files, S: Source, O: Sink, E: Console>(
    rt: &R,
    alloc: Global,
    task: &Task,
    files: &mut F,
    input: &mut S,
    out: &mut O,
    err: &mut E,
) -> u8
    ensures done { IsDone (bytes_at (F.known files.old) (S.state input.old) (O.state out.old))
        (bytes_at (F.known files.new) (S.state input.new) (O.state out.new)) (job_seen task.now) result }
    ensures prompt { AnswersPromptly (bytes_at (F.known files.old) (S.state input.old) (O.state out.old))
        (bytes_at (F.known files.new) (S.state input.new) (O.state out.new)) (job_seen task.now) }
    ensures no_read_after { result ≡ 1 → ReadsNoFurther (S.state input.old) (S.state input.new) (job_seen task.now) }
    ensures ended { EndsInput (job_seen task.now) result → FoundEnd (S.state input.old) (S.state input.new) }
    ensures device { result ≡ 3 → InputFails (S.state input.old) (S.state input.new)
        ⊎ (OutputFails (O.state out.old) (O.state out.new) ⊎ NamesFile (job_seen task.now)) }
    ensures bad { result ≢ 4 → (result ≡ 2) ↔ CannotBe (job_seen task.now) }
    ensures heeds { result ≢ 3 → NoReadFails (S.state input.old) (S.state input.new) × NoWriteFails (O.state out.old) (O.state out.new) }
    ensures told { (drawn : SinkState) × DrawsFor (job_seen task.now) (E.terminal err.old) (bytes_at (F.known files.old) (S.state input.old) (O.state out.old))
        (bytes_at (F.known files.new) (S.state input.new) (O.state out.new)) result (E.state err.old) drawn
        × (text : List ℕ) × IsToldFor (job_seen task.now) (bytes_at (F.known files.old) (S.state input.old) (O.state out.old))
        (bytes_at (F.known files.new) (S.state input.new) (O.state out.new)) result text × Says drawn (E.state err.new) text }
{
    let file = match task {
        Task::Check(form, plan) => (Purpose::Check(*form), plan.as_str()),
        Task::Course(form, old, new) => {
            let (old, new) = (old.as_str(), new.as_str());
            return course_files(alloc, (*form, old, new), files, input, out, err);
        }
        Task::Run(file) => (Purpose::Run, file.as_str()),
        Task::Race(file) => (Purpose::Race, file.as_str()),
        Task::Ask(ask) => return answer_inquiry(alloc, ask, files, input, out, err),
        Task::Stream(follow) => return answer_stream(alloc, follow, files, input, out, err),
    };
    answer_file(rt, alloc, file, files, input, out, err)
}
