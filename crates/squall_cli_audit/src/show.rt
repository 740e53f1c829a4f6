//! What an audit shows.

ghost use Rattle.std.specs.Prelude.{◌≡◌, ◌++◌, Some, length, map, OnOk, string_bytes};
ghost use Rattle.squall_cli_audit.specs.AuditText.{bad_text, word_of_cause, stops_at, refused_text, refused_lines};
ghost use Rattle.squall_cli_audit.specs.AuditText.{entry_count, accepted_text, word_of_fault, fault_text};

use crate::file::LogFile;
use squall_judge::{Cause, JudgeFault, Log};
use std::alloc::AllocError;

/// Adds that the line of that number is of no log.
pub(crate) fn add_bad(name: &str, line: u64, out: &mut String) -> Result<(), AllocError>
    ensures { OnOk result (string_bytes out.new ≡ string_bytes out.old ++ bad_text name.now line) }
{
    write!(out, "bad {name} {line}\n")
}

/// The cause in a word.
fn word_of_cause(cause: Cause) -> &'static str
    ensures { result.now ≡ word_of_cause cause }
{
    match cause {
        Cause::Answer => "Answer",
        Cause::NoSuch => "NoSuch",
        Cause::NotGiven => "NotGiven",
        Cause::NotReported => "NotReported",
        Cause::Running => "Running",
    }
}

/// Adds the line of that number, and why its entry is left.
fn add_line(name: &str, line: u64, cause: Option<Cause>, out: &mut String) -> Result<(), AllocError>
    ensures { OnOk result (string_bytes out.new ≡ string_bytes out.old ++ stops_at name.now (Some line) cause) }
{
    match cause {
        Some(cause) => {
            let word = word_of_cause(cause);
            write!(out, "refused {name} {line} {word}\n")
        }
        None => write!(out, "refused {name} {line}\n"),
    }
}

/// Adds the line of the entry after those that were taken, if there is one.
fn add_stop(
    name: &str,
    lines: &[u64],
    taken: usize,
    cause: Option<Cause>,
    out: &mut String,
) -> Result<(), AllocError>
    ensures { OnOk result (string_bytes out.new ≡ string_bytes out.old ++ refused_text name.now lines.now taken cause) }
{
    match lines.get(taken) {
        Some(line) => add_line(name, *line, cause, out),
        None => Ok(()),
    }
}

/// Adds a line for each file whose log stops.
pub(crate) fn add_stops(
    files: &[LogFile],
    lines: &[Vec<u64>],
    taken: &[usize],
    causes: &[Option<Cause>],
    out: &mut String,
) -> Result<(), AllocError>
    requires lines { length lines.now ≡ length files.now }
    requires taken { length taken.now ≡ length files.now }
    requires causes { length causes.now ≡ length files.now }
    ensures { OnOk result (string_bytes out.new ≡ string_bytes out.old ++ refused_lines files.now (map (λ ns. ns.items) lines.now) taken.now causes.now) }
{
    for (i, file) in files.iter().enumerate() {
        add_stop(file.name(), &lines[i], taken[i], causes[i], out)?;
    }
    Ok(())
}

/// How many entries the logs have.
fn entry_count(logs: &[Log]) -> u128
    ensures { result ≡ entry_count logs.now }
{
    let mut count = 0u128;
    for log in logs {
        count += log.entries.len() as u128;
    }
    count
}

/// Adds that a run has the logs.
pub(crate) fn add_accepted(logs: &[Log], out: &mut String) -> Result<(), AllocError>
    ensures { OnOk result (string_bytes out.new ≡ string_bytes out.old ++ accepted_text logs.now) }
{
    let lines = entry_count(logs);
    let count = logs.len();
    write!(out, "accepted {lines} lines of {count} logs\n")
}

/// The fault in a word.
fn word_of(fault: &JudgeFault) -> &'static str
    ensures { result.now ≡ word_of_fault fault.now }
{
    match fault {
        JudgeFault::TwoLogs => "TwoLogs",
        JudgeFault::TooManyRouters => "TooManyRouters",
        JudgeFault::NoMemory => "NoMemory",
    }
}

/// Adds why the logs are not judged.
pub(crate) fn add_fault(name: &str, fault: &JudgeFault, out: &mut String) -> Result<(), AllocError>
    ensures { OnOk result (string_bytes out.new ≡ string_bytes out.old ++ fault_text name.now fault.now) }
{
    let word = word_of(fault);
    write!(out, "refused {name} {word}\n")
}
