//! Writes the answer to what is asked of files.

ghost use Rattle.std.specs.Prelude.{◌≡◌, ◌≢◌, ℕ, List};
ghost use Rattle.squall_cli_device.specs.States.{TookBytes, OutputFails, NoWriteFails};
ghost use Rattle.squall_cli_lines.specs.Heeding.{Says};
ghost use Rattle.squall_cli_ask.specs.Told.{refusal_told, IsNoName, IsTold};
ghost use Rattle.squall_cli_ask.specs.Asked.{words_asked, refuses_aside, is_aside, is_judged, status_of_answer, IsAnswered, IsAnswerTold};
ghost use Rattle.squall_cli_ask.specs.Answered.{IsSent};

use crate::audit::answer_for;
use crate::console::Console;
use crate::messages::{FINE, INCOMPLETE, REFUSED, tell_fault};
use squall_cli_boards::{Answer, NamedFile};
use squall_cli_command::{Ask, Inquiry};
use squall_cli_device::{DeviceFault, Sink};
use squall_cli_lines::{RunFault, send};
use std::alloc::Global;

/// Whether refusals go to standard error: those of a command that writes frames, a picture, a plan or
/// words of one.
fn refuses_aside(inquiry: Inquiry) -> bool
    ensures { result ≡ refuses_aside inquiry }
{
    match inquiry {
        Inquiry::Board(_) | Inquiry::Status(_) | Inquiry::Routes | Inquiry::Legs(_) => false,
        Inquiry::NamedRoutes | Inquiry::Names | Inquiry::Audit => false,
        Inquiry::Report | Inquiry::Picture | Inquiry::Merge => true,
        Inquiry::Plan | Inquiry::Split | Inquiry::Diff => true,
        Inquiry::Beyond | Inquiry::Cover | Inquiry::Digest | Inquiry::Repair => true,
    }
}

/// Whether the answer is a refusal that goes to standard error.
fn is_aside(inquiry: Inquiry, answer: &Answer) -> bool
    ensures { result ≡ is_aside inquiry answer.now }
{
    refuses_aside(inquiry) && answer.is_refused()
}

/// Writes a refusal after the program's name. After a write that failed nothing more is written.
fn send_refusal<E: Sink>(text: &[u8], err: &mut E) -> Result<(), DeviceFault>
    ensures told { Says (E.state err.old) (E.state err.new) (refusal_told text.now) }
{
    if text.is_empty() {
        return Ok(());
    }
    send(err, b"squall: ")?;
    send(err, text)
}

/// Says the refusal, and gives the status.
fn tell_refusal<E: Sink>(answer: &Answer, err: &mut E) -> u8
    ensures status { result ≡ 1 }
    ensures told { Says (E.state err.old) (E.state err.new) (refusal_told answer.now.text) }
{
    // If standard error fails too, the status alone tells.
    let _ = send_refusal(answer.text(), err);
    REFUSED
}

/// Whether the exit status is to say whether a course is complete.
fn is_judged(inquiry: Inquiry) -> bool
    ensures { result ≡ is_judged inquiry }
{
    match inquiry {
        Inquiry::Status(how) => how.is_judged,
        _ => false,
    }
}

/// The status with which the answer comes, if all of it is given.
fn status_of(inquiry: Inquiry, answer: &Answer) -> u8
    ensures { result ≡ status_of_answer inquiry answer.now }
{
    if answer.is_refused() {
        return REFUSED;
    }
    if is_judged(inquiry) && answer.is_incomplete() {
        return INCOMPLETE;
    }
    FINE
}

/// Writes the answer to `out`, and gives the status. Says what stopped it, if something did.
fn send_answer<O: Sink, E: Console>(
    inquiry: Inquiry,
    answer: &Answer,
    out: &mut O,
    err: &mut E,
) -> u8
    ensures text { (written : List ℕ) × TookBytes (O.state out.old) (O.state out.new) written × IsSent result inquiry answer.now written }
    ensures told { (text : List ℕ) × IsTold IsNoName result text × Says (E.state err.old) (E.state err.new) text }
    ensures device { result ≡ 3 → OutputFails (O.state out.old) (O.state out.new) }
    ensures heeds { result ≢ 3 → NoWriteFails (O.state out.old) (O.state out.new) }
{
    match send(out, answer.text()) {
        Ok(()) => status_of(inquiry, answer),
        Err(DeviceFault) => tell_fault(RunFault::Write, err),
    }
}

/// Writes the answer to what is asked of the files, and gives the status. A refusal goes to `err`,
/// after the program's name, if the command writes frames, a picture, a plan or words of one. All else
/// goes to `out`.
///
/// - 0: the answer is written.
/// - 1: the answer is written, and it refuses what was given.
/// - 3: a write to `out` failed, or took no byte. It has a prefix of the answer.
/// - 4: an allocation failed. Nothing is written to `out`.
/// - 5: the answer is written. It shows a course that is not complete, and the status was to say so.
///
/// With status 3 or 4 `err` says which. A write to `out` that failed always gives status 3.
pub fn answer_files<O: Sink, E: Console>(
    alloc: Global,
    ask: &Ask,
    files: &[NamedFile],
    out: &mut O,
    err: &mut E,
) -> u8
    // What is written is the answer, unless it is a refusal that goes to `err`.
    ensures text { (written : List ℕ) × TookBytes (O.state out.old) (O.state out.new) written
        × IsAnswered result ask.now.inquiry (words_asked ask.now) files.now written }

    // `err` gets such a refusal, or what goes with the status.
    ensures told { (text : List ℕ) × IsAnswerTold ask.now.inquiry (words_asked ask.now) files.now result text
        × Says (E.state err.old) (E.state err.new) text }

    // The writer is the cause of status 3, and no failed write is passed over.
    ensures device { result ≡ 3 → OutputFails (O.state out.old) (O.state out.new) }
    ensures heeds { result ≢ 3 → NoWriteFails (O.state out.old) (O.state out.new) }
{
    let Ok(answer) = answer_for(alloc, ask.inquiry, &ask.words, files) else {
        return tell_fault(RunFault::NoMemory, err);
    };
    if is_aside(ask.inquiry, &answer) {
        return tell_refusal(&answer, err);
    }
    send_answer(ask.inquiry, &answer, out, err)
}
