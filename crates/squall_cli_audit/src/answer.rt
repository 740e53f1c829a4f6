//! What `squall audit` answers.

ghost use Rattle.std.specs.Prelude.{◌≡◌, ◌++◌, ◌<◌, ℕ, List, length, map, IfOk, IfSome, string_bytes};
ghost use Rattle.squall_cli_lines.specs.declared.Ended.TheVariants.{Refused};
ghost use Rattle.squall_cli_audit.specs.LogFiles.{AreLogsOf, IsFirstBadFile};
ghost use Rattle.squall_cli_audit.specs.Read.{IsOfLogs};
ghost use Rattle.squall_cli_audit.specs.Audits.{IsCause, ShowsFault, ShowsJudgment, ShowsLogs, ShowsBad, MayShow};

use crate::cause::{first_stray, first_twin};
use crate::file::LogFile;
use crate::files::{BadFile, ReadFiles, read_files};
use crate::show::{add_accepted, add_bad, add_fault, add_stops};
use squall_cli_lines::Ended;
use squall_judge::{JudgeFault, Judgment, Log, judge};
use squall_plan::Plan;
use std::alloc::{AllocError, Global};

/// The log for which the logs are not judged. None if memory is the cause.
fn cause_of(logs: &[Log], fault: &JudgeFault) -> Option<usize>
    ensures cause { IfSome result (λ at. IsCause logs.now fault.now at) }
    ensures there { IfSome result (λ at. at < length logs.now) }
{
    match fault {
        JudgeFault::TwoLogs => first_twin(logs),
        JudgeFault::TooManyRouters => first_stray(logs),
        JudgeFault::NoMemory => None,
    }
}

/// Adds why the logs are not judged, by the file whose log is the cause. It fails (memory).
fn refuse_logs(
    files: &[LogFile],
    logs: &[Log],
    fault: JudgeFault,
    out: &mut String,
) -> Result<Ended, AllocError>
    requires { length logs.now ≡ length files.now }
    ensures { IfOk result (λ ended. (shown : List ℕ) × (string_bytes out.new ≡ string_bytes out.old ++ shown)
        × (ended ≡ Refused) × ShowsFault files.now logs.now shown) }
{
    let Some(at) = cause_of(logs, &fault) else {
        return Err(AllocError);
    };
    add_fault(files[at].name(), &fault, out)?;
    Ok(Ended::Refused)
}

/// Adds what was judged. It fails (memory).
fn show_judgment(
    files: &[LogFile],
    read: &ReadFiles,
    judgment: &Judgment,
    out: &mut String,
) -> Result<Ended, AllocError>
    requires lines { length read.now.lines.items ≡ length files.now }
    requires taken { IsOfLogs judgment.now (length files.now) }
    ensures { IfOk result (λ ended. (shown : List ℕ) × (string_bytes out.new ≡ string_bytes out.old ++ shown)
        × ShowsJudgment files.now read.now.logs.items (map (λ ns. ns.items) read.now.lines.items) judgment.now ended shown) }
{
    match judgment {
        Judgment::Accepted => {
            add_accepted(&read.logs, out)?;
            Ok(Ended::Fine)
        }
        Judgment::Refused { taken, causes } => {
            add_stops(files, &read.lines, taken, causes, out)?;
            Ok(Ended::Refused)
        }
    }
}

/// Judges the logs of files, and adds what is shown. It fails (memory).
fn show_logs(
    alloc: Global,
    old: &Plan,
    new: &Plan,
    files: &[LogFile],
    read: &ReadFiles,
    out: &mut String,
) -> Result<Ended, AllocError>
    requires { AreLogsOf files.now read.now.logs.items (map (λ ns. ns.items) read.now.lines.items) }
    ensures { IfOk result (λ ended. (shown : List ℕ) × (string_bytes out.new ≡ string_bytes out.old ++ shown)
        × ShowsLogs old.now new.now files.now read.now.logs.items (map (λ ns. ns.items) read.now.lines.items) ended shown) }
{
    match judge(alloc, old, new, &read.logs) {
        Ok(judgment) => show_judgment(files, read, &judgment, out),
        Err(fault) => refuse_logs(files, &read.logs, fault, out),
    }
}

/// Adds the first bad line of the first file that is no log. It fails (memory).
fn refuse_file(files: &[LogFile], bad: BadFile, out: &mut String) -> Result<Ended, AllocError>
    requires { IsFirstBadFile files.now bad.index bad.line }
    ensures { IfOk result (λ ended. (shown : List ℕ) × (string_bytes out.new ≡ string_bytes out.old ++ shown) × ShowsBad files.now ended shown) }
{
    add_bad(files[bad.index].name(), bad.line, out)?;
    Ok(Ended::Refused)
}

/// Audits the logs of files, whose first plans are these, and adds to `out` what it shows.
///
/// If a run has the logs, that is `accepted N lines of M logs`. Else each log that stops has a line
/// `refused NAME LINE CAUSE`, in the order of the files: no run has the entry of that line, and the cause
/// says why. Lines count from 1.
///
/// It answers `Refused` then, and in these cases too, each with one line. `bad NAME LINE` if a file is
/// no log: the first such file, and its first bad line. `refused NAME TwoLogs` if the node of a log has
/// one before it. `refused NAME TooManyRouters` if a log is of a router that no world can have.
///
/// It fails (memory), and nothing is known of `out` then.
pub fn answer_audit(
    alloc: Global,
    old: &Plan,
    new: &Plan,
    files: &[LogFile],
    out: &mut String,
) -> Result<Ended, AllocError>
    ensures { IfOk result (λ ended. (shown : List ℕ) × (string_bytes out.new ≡ string_bytes out.old ++ shown)
        × MayShow old.now new.now files.now ended shown) }
{
    match read_files(alloc, files)? {
        Ok(read) => show_logs(alloc, old, new, files, &read, out),
        Err(bad) => refuse_file(files, bad, out),
    }
}
