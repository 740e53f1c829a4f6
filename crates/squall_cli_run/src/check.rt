//! What the command `check` writes of a plan.

ghost use Rattle.std.specs.Prelude.{◌≡◌, ◌≢◌, ◌++◌, [], ℕ, List, IfOk, OnOk, IsOk, Err, string_bytes};
ghost use Rattle.squall_cli_device.specs.States.{TookBytes, GaveAll, ReadAndWrote};
ghost use Rattle.squall_plan.specs.Faults.{text_of_fault};
ghost use Rattle.squall_plan.specs.Form.{plan_of_text};
ghost use Rattle.squall_cli_json.specs.Values.{json_line, json_of_refusal};
ghost use Rattle.squall_cli_lines.specs.Heeding.{HeedsReads, HeedsWrites};
ghost use Rattle.squall_cli_run.specs.Output.{range_lines, refusal, check_of, check_in, json_check_of_plan, IsReady, IsWritten};

use crate::output::write_output;
use squall_cli_command::Form;
use squall_cli_device::{Sink, Source};
use squall_cli_json::{plan_json, refusal_json};
use squall_cli_lines::{Ended, RunFault, read_all};
use squall_cli_words::read_plan;
use squall_plan::{PlanFault, PlanRange};
use std::alloc::{AllocError, Global};

/// Adds the lines of the ranges.
fn add_ranges(ranges: &[PlanRange], out: &mut String) -> Result<(), AllocError>
    ensures { OnOk result (string_bytes out.new ≡ string_bytes out.old ++ range_lines ranges.now) }
{
    for range in ranges {
        let part = range.part;
        let span = range.span;
        write!(out, "range {part} {span}\n")?;
    }
    Ok(())
}

/// Adds why the text of a plan is none. `which` says which plan it is, and ends in a blank if
/// it says anything.
pub(crate) fn add_refusal(
    which: &str,
    fault: PlanFault,
    out: &mut String,
) -> Result<Ended, AllocError>
    ensures { IfOk result (λ ended. (ended ≡ Ended.Refused) × (string_bytes out.new ≡ string_bytes out.old ++ refusal which.now fault)) }
{
    write!(out, "refused {which}{fault}\n")?;
    Ok(Ended::Refused)
}

/// Puts the output of the check into the empty text.
fn check(alloc: Global, plan: &[u8], out: &mut String) -> Result<Ended, AllocError>
    requires { string_bytes out.old ≡ [] }
    ensures { IfOk result (λ ended. IsReady ended (string_bytes out.new) (check_of plan.now)) }
{
    let plan = match read_plan(alloc, plan) {
        Ok(Ok(plan)) => plan,
        Ok(Err(fault)) => return add_refusal("", fault, out),
        Err(error) => return Err(error),
    };
    add_ranges(plan.ranges(), out)?;
    let ranges = plan.ranges().len();
    write!(out, "plan {ranges}\n")?;
    Ok(Ended::Fine)
}

/// Adds why a plan is none, as JSON. `which` says which plan it is.
pub(crate) fn add_json_refusal(
    alloc: Global,
    which: &str,
    fault: PlanFault,
    out: &mut String,
) -> Result<Ended, AllocError>
    ensures { IfOk result (λ ended. (ended ≡ Ended.Refused)
        × (string_bytes out.new ≡ string_bytes out.old ++ json_line (json_of_refusal which.now (text_of_fault fault)))) }
{
    let fault = format!(in alloc; "{fault}")?;
    let text = refusal_json(alloc, which, fault.as_str())?;
    out.push_str(text.as_str())?;
    Ok(Ended::Refused)
}

/// Puts the output of the check as JSON into the empty text.
fn json_check(alloc: Global, plan: &[u8], out: &mut String) -> Result<Ended, AllocError>
    requires { string_bytes out.old ≡ [] }
    ensures { IfOk result (λ ended. IsReady ended (string_bytes out.new) (json_check_of_plan (plan_of_text plan.now))) }
{
    let plan = match read_plan(alloc, plan) {
        Ok(Ok(plan)) => plan,
        Ok(Err(fault)) => return add_json_refusal(alloc, "plan", fault, out),
        Err(error) => return Err(error),
    };
    let text = plan_json(alloc, plan.ranges())?;
    out.push_str(text.as_str())?;
    Ok(Ended::Fine)
}

/// Puts the output of the check in the form into the empty text.
fn check_as(alloc: Global, form: Form, plan: &[u8], out: &mut String) -> Result<Ended, AllocError>
    requires { string_bytes out.old ≡ [] }
    ensures { IfOk result (λ ended. IsReady ended (string_bytes out.new) (check_in form plan.now)) }
{
    match form {
        Form::Lines => check(alloc, plan, out),
        Form::Json => json_check(alloc, plan, out),
    }
}

/// Checks the plan of a text. As lines it writes a line `range P [LO,HI)` for each range by rising key,
/// neighbours of one partition joined. Then it writes `plan N`, the number of these ranges. It
/// writes `refused FAULT` if the text is no plan, and the answer is then `Refused`. As JSON it writes
/// an object of the ranges, or of the fault.
///
/// - `Write`: a write failed, or took no byte. The writer has a prefix of the text.
/// - `NoMemory`: an allocation failed. Nothing is written.
///
/// There is no other fault. A write that failed is always answered so.
pub fn check_text<K: Sink>(
    alloc: Global,
    form: Form,
    plan: &[u8],
    writer: &mut K,
) -> Result<Ended, RunFault>
    // What is written is the definition's output for the text.
    ensures text { (written : List ℕ) × TookBytes (K.state writer.old) (K.state writer.new) written
        × IsWritten result (check_in form plan.now) written }

    // No fault is that of a read. The writer is the cause of `Write`, and no failed write is passed over.
    ensures unread { result ≢ Err RunFault.Read }
    ensures heeds_writes { HeedsWrites result (K.state writer.old) (K.state writer.new) }
{
    let mut out = String::new(alloc);
    let ended = check_as(alloc, form, plan, &mut out)?;
    write_output(writer, ended, out.as_str())
}

/// Checks the plan of what the source gives up to its end. `Read` comes when [`read_all`] says so,
/// before anything was written.
pub(crate) fn check_source<S: Source, K: Sink>(
    alloc: Global,
    form: Form,
    source: &mut S,
    writer: &mut K,
) -> Result<Ended, RunFault>
    ensures text { ReadAndWrote (S.state source.old) (S.state source.new) (K.state writer.old) (K.state writer.new)
        (λ read written. IsWritten result (check_in form read) written) }
    ensures all { IsOk result → GaveAll (S.state source.old) (S.state source.new) }
    ensures heeds_reads { HeedsReads result (S.state source.old) (S.state source.new) }
    ensures heeds_writes { HeedsWrites result (K.state writer.old) (K.state writer.new) }
{
    match read_all(alloc, source) {
        Ok(plan) => check_text(alloc, form, &plan, writer),
        Err(RunFault::NoMemory) => Err(RunFault::NoMemory),
        Err(_) => Err(RunFault::Read),
    }
}
