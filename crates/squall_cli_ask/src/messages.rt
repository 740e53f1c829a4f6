//! What is written to standard error, and the status that goes with it.

ghost use Rattle.std.specs.Prelude.{◌≡◌, ◌++◌, ℕ, List, Err, codes};
ghost use Rattle.squall_cli_lines.specs.Heeding.{Says};
ghost use Rattle.squall_cli_ask.specs.Told.{status_of, status_at_end, status_of_watch};
ghost use Rattle.squall_cli_ask.specs.Told.{line_told, word_told, failed_told, unopened_told, unread_told, TellsFault, TellsOutcome, IsNoName, IsTold};

use crate::console::Console;
use crate::shown::send_shown;
use squall_cli_command::WatchAsk;
use squall_cli_device::Sink;
use squall_cli_lines::{Ended, RunFault, send_text};
use squall_cli_watch::WatchEnd;

/// The status of a task that was done.
pub(crate) const FINE: u8 = 0;

/// The status if the input was refused.
pub(crate) const REFUSED: u8 = 1;

/// The status if the words ask for nothing that there is.
pub const BAD_WORDS: u8 = 2;

/// The status if a device failed.
const DEVICE: u8 = 3;

/// The status if an allocation failed.
const MEMORY: u8 = 4;

/// The status of a course that is not complete.
pub(crate) const INCOMPLETE: u8 = 5;

/// Writes to standard error. If that fails too, the status alone tells.
pub(crate) fn say<E: Sink>(err: &mut E, text: &str)
    ensures told { Says (E.state err.old) (E.state err.new) text.now }
{
    let _ = send_text(err, text);
}

/// Writes a text after the program's name. After a write that failed nothing more is written.
fn send_named<E: Sink>(text: &str, err: &mut E) -> Result<(), RunFault>
    ensures told { Says (E.state err.old) (E.state err.new) (codes "squall: " ++ text.now) }
{
    send_text(err, "squall: ")?;
    send_text(err, text)
}

/// Writes a text to standard error after the program's name. If that fails too, the status alone tells.
pub fn say_named<E: Sink>(err: &mut E, text: &str)
    ensures told { Says (E.state err.old) (E.state err.new) (codes "squall: " ++ text.now) }
{
    let _ = send_named(text, err);
}

/// Writes four texts on a line, the second one as messages show names. After a write that failed
/// nothing more is written.
fn send_line<E: Sink>(
    first: &str,
    second: &str,
    third: &str,
    fourth: &str,
    err: &mut E,
) -> Result<(), RunFault>
    ensures told { Says (E.state err.old) (E.state err.new) (line_told first.now second.now third.now fourth.now) }
{
    send_text(err, first)?;
    send_shown(second, err)?;
    send_text(err, third)?;
    send_text(err, fourth)?;
    send_text(err, "\n")
}

/// Writes a word that is refused, and why, to standard error. If that fails too, the status alone
/// tells.
pub(crate) fn say_refused<E: Sink>(word: &str, why: &str, err: &mut E)
    ensures told { Says (E.state err.old) (E.state err.new) (word_told word.now why.now) }
{
    let _ = send_line("squall: refused ", word, " ", why, err);
}

/// Says that a call of the system failed, with the reason, and gives the status. The name is that of
/// its file, or empty.
fn tell_failed<E: Console>(what: &str, name: &str, err: &mut E) -> u8
    ensures status { result ≡ 3 }
    ensures told { (reason : List ℕ) × Says (E.state err.old) (E.state err.new) (failed_told what.now name.now reason) }
{
    let reason = err.reason();
    // If standard error fails too, the status alone tells.
    let _ = send_line(what, name, ": ", reason, err);
    DEVICE
}

/// Says what stopped a task, and gives the status. If a device failed, it says why.
pub fn tell_fault<E: Console>(fault: RunFault, err: &mut E) -> u8
    ensures status { result ≡ status_of (Err fault) }
    ensures told { (text : List ℕ) × TellsFault fault text × Says (E.state err.old) (E.state err.new) text }
{
    match fault {
        RunFault::Read => tell_failed("squall: read failed", "", err),
        RunFault::Write => tell_failed("squall: write failed", "", err),
        RunFault::NoMemory => {
            say(err, "squall: no memory\n");
            MEMORY
        }
    }
}

/// Says that the file can't be opened, and why, and gives the status.
pub fn tell_unopened<E: Console>(name: &str, err: &mut E) -> u8
    ensures status { result ≡ 3 }
    ensures told { (reason : List ℕ) × Says (E.state err.old) (E.state err.new) (unopened_told name.now reason) }
{
    tell_failed("squall: cannot open ", name, err)
}

/// Says that a read of the file failed, and why, and gives the status.
fn tell_unread<E: Console>(name: &str, err: &mut E) -> u8
    ensures status { result ≡ 3 }
    ensures told { (reason : List ℕ) × Says (E.state err.old) (E.state err.new) (unread_told name.now reason) }
{
    tell_failed("squall: cannot read ", name, err)
}

/// Says what stopped a task with the file of that name, and gives the status. A read that failed is
/// told with the name, unless that is standard input.
pub(crate) fn tell_file_fault<E: Console>(name: &str, fault: RunFault, err: &mut E) -> u8
    ensures status { result ≡ status_of (Err fault) }
    ensures told { (text : List ℕ) × IsTold (λ file. file ≡ name.now) result text × Says (E.state err.old) (E.state err.new) text }
{
    if fault == RunFault::Read && name != "-" {
        return tell_unread(name, err);
    }
    tell_fault(fault, err)
}

/// The status of a task that was begun with the file of that name. Says what stopped it, if something
/// did.
pub fn tell_file_outcome<E: Console>(
    name: &str,
    outcome: Result<Ended, RunFault>,
    err: &mut E,
) -> u8
    ensures status { result ≡ status_of outcome }
    ensures told { (text : List ℕ) × IsTold (λ file. file ≡ name.now) result text × Says (E.state err.old) (E.state err.new) text }
{
    match outcome {
        Ok(ended) => tell_outcome(Ok(ended), err),
        Err(fault) => tell_file_fault(name, fault, err),
    }
}

/// The status of a task that was begun. Says what stopped it, if something did.
pub fn tell_outcome<E: Console>(outcome: Result<Ended, RunFault>, err: &mut E) -> u8
    ensures status { result ≡ status_of outcome }
    ensures told { (text : List ℕ) × TellsOutcome outcome text × Says (E.state err.old) (E.state err.new) text }
{
    match outcome {
        Ok(Ended::Fine) => FINE,
        Ok(Ended::Refused) => REFUSED,
        Err(fault) => tell_fault(fault, err),
    }
}

/// The status of a watch that has answered all of its input.
fn status_at_end(how: WatchAsk) -> u8
    ensures { result ≡ status_at_end how }
{
    if how.is_until_complete {
        INCOMPLETE
    } else {
        FINE
    }
}

/// The status of a watch. Says what stopped it, if something did.
pub(crate) fn tell_watch<E: Console>(
    how: WatchAsk,
    outcome: Result<WatchEnd, RunFault>,
    err: &mut E,
) -> u8
    ensures status { result ≡ status_of_watch how outcome }
    ensures told { (text : List ℕ) × IsTold IsNoName result text × Says (E.state err.old) (E.state err.new) text }
{
    match outcome {
        Ok(WatchEnd::Fine) => status_at_end(how),
        Ok(WatchEnd::Refused) => REFUSED,
        Ok(WatchEnd::Complete) => FINE,
        Err(fault) => tell_fault(fault, err),
    }
}
