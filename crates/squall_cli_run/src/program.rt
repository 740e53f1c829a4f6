//! What the words of a command line bring about.

ghost use Rattle.std.specs.Prelude.{◌≡◌, ◌≢◌, ◌⊎◌, ◌↔◌, ℕ, List};
ghost use Rattle.squall_cli_device.specs.States.{FoundEnd, NoReadFails, OutputFails, NoWriteFails};
ghost use Rattle.squall_cli_command.specs.Line.{Job, words_of, Asks, AsksForHelp, IsFaulty};
ghost use Rattle.squall_cli_lines.specs.Heeding.{InputFails, Says};
ghost use Rattle.squall_cli_ask.specs.Reads.{bytes_at};
ghost use Rattle.squall_cli_ask.specs.Told.{IsNoName, IsTold};
ghost use Rattle.squall_cli_run.specs.Tasks.{IsDone, AnswersPromptly, ReadsNoFurther, EndsInput, NamesFile, AreBad, ShowsHelp};
ghost use Rattle.squall_cli_run.specs.Named.{ShowsAndTells};

use crate::output::write_output;
use crate::tasks::do_task;
use squall_cli_ask::{BAD_WORDS, Console, Files, say_named, tell_fault, tell_outcome};
use squall_cli_command::{LineFault, command, message};
use squall_cli_device::{Sink, Source};
use squall_cli_lines::{Ended, RunFault};
use std::alloc::Global;
use std::sync::Wait;
use std::thread::Threads;

/// Shows the help or the version that the words ask for.
fn show_help<'a, O: Sink, E: Console>(
    alloc: Global,
    title: &str,
    words: &'a [&'a str],
    out: &mut O,
    err: &mut E,
) -> u8
    ensures help { AsksForHelp (words_of words.entry.now) → ShowsHelp title.now (O.state out.old) (O.state out.new) result }
    ensures device { result ≡ 3 → OutputFails (O.state out.old) (O.state out.new) }
    ensures taken { result ≢ 2 }
    ensures heeds { result ≢ 3 → NoWriteFails (O.state out.old) (O.state out.new) }
    ensures unrefused { result ≢ 1 }
    ensures told { (text : List ℕ) × IsTold IsNoName result text × Says (E.state err.old) (E.state err.new) text }
{
    let Ok(help) = message(alloc, title, words) else {
        return tell_fault(RunFault::NoMemory, err);
    };
    tell_outcome(write_output(out, Ended::Fine, help.as_str()), err)
}

/// A text without the `error: ` at its beginning.
fn without_label(text: &str) -> &str {
    text.strip_prefix("error: ").unwrap_or(text)
}

/// Shows what is wrong with the words, after the program's name.
fn show_fault<'a, E: Console>(alloc: Global, title: &str, words: &'a [&'a str], err: &mut E) -> u8
    ensures bad { result ≢ 4 → result ≡ 2 }
    ensures device { result ≢ 3 }
    ensures told { IsFaulty (words_of words.entry.now) → (text : List ℕ) × IsTold IsNoName result text
        × Says (E.state err.old) (E.state err.new) text }
{
    match message(alloc, title, words) {
        Ok(text) => {
            say_named(err, without_label(text.as_str()));
            BAD_WORDS
        }
        Err(_) => tell_fault(RunFault::NoMemory, err),
    }
}

/// The program that runs: its allocator, and the line with its name and its version, with which help
/// begins. The line has its line end.
#[derive(Clone, Copy)]
pub struct Program<'t> {
    pub alloc: Global,
    pub title: &'t str,
}

impl Program<'_> {
    /// Does what the words of a command line ask for, the program's name first. It gives the status with
    /// which the program is to end. A file named `-` is what `input` gives to its end. Files are opened
    /// and read in the order of the words. A scenario, keys and frames that `input` gives are answered as
    /// they come: what one read brings is answered before the next read.
    ///
    /// - 0: the task was done, or `out` has the help or the version that was asked for.
    /// - 1: the input was refused; `out` says why, or `err` if the command writes frames, a
    ///   picture or a plan.
    /// - 2: the words ask for nothing that there is, or for a report that is none; `err` says why.
    /// - 3: a file can't be opened, a read failed or found no end, or a write failed or took nothing;
    ///   `err` says which.
    /// - 4: an allocation failed, as `err` says.
    /// - 5: the course that `out` shows is not complete, and the status was to say so. Or a watch was to
    ///   end once the course is complete, and `input` ended before.
    ///
    /// With status 0 or 5 `err` gets no text, and with status 1 only a refusal of a command that writes frames,
    /// a picture or a plan, which then writes nothing to `out`. If it is a terminal and a course is watched, it
    /// shows a bar before any text. A write to `err` that fails is the last of the bars or of the text that it is
    /// part of, and the status stays what it is.
    ///
    /// [`run_text`], [`race_text`], [`check_text`] and [`course_text`] say what `out` has after a fault.
    ///
    /// A race is run in threads, for which the call waits: what is said here holds if it returns.
    ///
    /// [`run_text`]: crate::run_text
    /// [`race_text`]: crate::race_text
    /// [`check_text`]: crate::check_text
    /// [`course_text`]: crate::course_text
    pub fn perform<'a, R: Threads + Wait + Sync, F: Files, S: Source, O: Sink, E: Console>(
        &self,
        rt: &R,
        words: &'a [&'a str],
        files: &mut F,
        input: &mut S,
        out: &mut O,
        err: &mut E,
    ) -> u8
        // The task that the words ask for is done.
        ensures done { (job : Job) → Asks (words_of words.entry.now) job → IsDone (bytes_at (F.known files.old) (S.state input.old) (O.state out.old))
            (bytes_at (F.known files.new) (S.state input.new) (O.state out.new)) job result }
        // If it answers standard input as it comes, what came before the last read was answered before it,
        ensures prompt { (job : Job) → Asks (words_of words.entry.now) job → AnswersPromptly
            (bytes_at (F.known files.old) (S.state input.old) (O.state out.old)) (bytes_at (F.known files.new) (S.state input.new) (O.state out.new)) job }
        // and no read follows a bad line of a scenario.
        ensures no_read_after { (job : Job) → Asks (words_of words.entry.now) job → result ≡ 1 → ReadsNoFurther (S.state input.old) (S.state input.new) job }
        // A status that says that standard input was read to its end comes only when a read found that end.
        ensures ended { (job : Job) → Asks (words_of words.entry.now) job → EndsInput job result → FoundEnd (S.state input.old) (S.state input.new) }
        // Status 3 comes only when a device failed, or the words name a file, which may have failed.
        ensures device { result ≡ 3 → InputFails (S.state input.old) (S.state input.new)
            ⊎ (OutputFails (O.state out.old) (O.state out.new) ⊎ ((job : Job) × Asks (words_of words.entry.now) job × NamesFile job)) }
        // A read of standard input that failed gives status 3, and so does a write to `out` that failed or took nothing.
        ensures heeds { result ≢ 3 → NoReadFails (S.state input.old) (S.state input.new) × NoWriteFails (O.state out.old) (O.state out.new) }
        // `err` gets the bars of a course that is watched, if it is a terminal, and then a refusal or the text that goes with the status, if no write fails.
        ensures told { ShowsAndTells (words_of words.entry.now) (E.terminal err.old) (bytes_at (F.known files.old) (S.state input.old) (O.state out.old))
            (bytes_at (F.known files.new) (S.state input.new) (O.state out.new)) result (E.state err.old) (E.state err.new) }
        // Unless an allocation failed, status 2 comes exactly for bad words,
        ensures bad { result ≢ 4 → (result ≡ 2) ↔ AreBad (words_of words.entry.now) }
        // and help that is asked for is written, whole at status 0.
        ensures help { AsksForHelp (words_of words.entry.now) → ShowsHelp self.now.title.now (O.state out.old) (O.state out.new) result }
    {
        match command(self.alloc, words) {
            Ok(task) => do_task(rt, self.alloc, &task, files, input, out, err),
            Err(LineFault::Help) => show_help(self.alloc, self.title, words, out, err),
            Err(LineFault::Bad) => show_fault(self.alloc, self.title, words, err),
            Err(LineFault::NoMemory) => tell_fault(RunFault::NoMemory, err),
        }
    }
}
