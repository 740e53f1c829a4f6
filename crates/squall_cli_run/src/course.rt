//! What the command `course` writes of two plans.

ghost use Rattle.std.specs.Prelude.{◌≡◌, ◌≢◌, ◌++◌, [], ℕ, List, IfOk, OnOk, Err, string_bytes};
ghost use Rattle.squall_cli_device.specs.States.{TookBytes};
ghost use Rattle.squall_plan.specs.Form.{plan_of_text};
ghost use Rattle.squall_cli_lines.specs.Heeding.{HeedsWrites};
ghost use Rattle.squall_cli_run.specs.Output.{move_lines, count_lines, course_lines, course_of, course_in, json_course_of_plans, IsReady, IsWritten};

use crate::check::{add_json_refusal, add_refusal};
use crate::output::write_output;
use squall_cli_command::Form;
use squall_cli_device::Sink;
use squall_cli_json::course_json;
use squall_cli_lines::{Ended, RunFault};
use squall_cli_words::read_plan;
use squall_course::{Course, Move};
use std::alloc::{AllocError, Global};

/// Adds the lines of the moves.
fn add_moves(moves: &[Move], out: &mut String) -> Result<(), AllocError>
    ensures { OnOk result (string_bytes out.new ≡ string_bytes out.old ++ move_lines moves.now) }
{
    for change in moves {
        let span = change.span;
        let source = change.source;
        let dest = change.dest;
        let sub = change.sub;
        write!(out, "move {span} {source} to {dest} sub {sub}\n")?;
    }
    Ok(())
}

/// Adds how many moves and sub-plans there are.
fn add_counts(moves: usize, subplans: u32, out: &mut String) -> Result<(), AllocError>
    ensures { OnOk result (string_bytes out.new ≡ string_bytes out.old ++ count_lines moves subplans) }
{
    write!(out, "moves {moves}\nsub-plans {subplans}\n")?;
    Ok(())
}

/// Adds how many moves and sub-plans there are, and the moves.
fn add_course(course: &Course, out: &mut String) -> Result<(), AllocError>
    ensures { OnOk result (string_bytes out.new ≡ string_bytes out.old ++ course_lines course.now.old course.now.new) }
{
    let moves = course.moves();
    add_counts(moves.len(), course.subplans(), out)?;
    add_moves(moves, out)
}

/// Puts the output of the course into the empty text.
fn course(alloc: Global, old: &[u8], new: &[u8], out: &mut String) -> Result<Ended, AllocError>
    requires { string_bytes out.old ≡ [] }
    ensures { IfOk result (λ ended. IsReady ended (string_bytes out.new) (course_of old.now new.now)) }
{
    let old = match read_plan(alloc, old) {
        Ok(Ok(plan)) => plan,
        Ok(Err(fault)) => return add_refusal("old ", fault, out),
        Err(error) => return Err(error),
    };
    let new = match read_plan(alloc, new) {
        Ok(Ok(plan)) => plan,
        Ok(Err(fault)) => return add_refusal("new ", fault, out),
        Err(error) => return Err(error),
    };
    let course = Course::first(alloc, &old, &new)?;
    add_course(&course, out)?;
    Ok(Ended::Fine)
}

/// Puts the output of the course as JSON into the empty text.
fn json_course(alloc: Global, old: &[u8], new: &[u8], out: &mut String) -> Result<Ended, AllocError>
    requires { string_bytes out.old ≡ [] }
    ensures { IfOk result (λ ended. IsReady ended (string_bytes out.new) (json_course_of_plans (plan_of_text old.now) (plan_of_text new.now))) }
{
    let old = match read_plan(alloc, old) {
        Ok(Ok(plan)) => plan,
        Ok(Err(fault)) => return add_json_refusal(alloc, "old", fault, out),
        Err(error) => return Err(error),
    };
    let new = match read_plan(alloc, new) {
        Ok(Ok(plan)) => plan,
        Ok(Err(fault)) => return add_json_refusal(alloc, "new", fault, out),
        Err(error) => return Err(error),
    };
    let course = Course::first(alloc, &old, &new)?;
    let text = course_json(alloc, &course)?;
    out.push_str(text.as_str())?;
    Ok(Ended::Fine)
}

/// Puts the output of the course in the form into the empty text.
fn course_as(
    alloc: Global,
    form: Form,
    old: &[u8],
    new: &[u8],
    out: &mut String,
) -> Result<Ended, AllocError>
    requires { string_bytes out.old ≡ [] }
    ensures { IfOk result (λ ended. IsReady ended (string_bytes out.new) (course_in form old.now new.now)) }
{
    match form {
        Form::Lines => course(alloc, old, new, out),
        Form::Json => json_course(alloc, old, new, out),
    }
}

/// Shows the course between the plans of two texts. As lines it writes `moves M` and `sub-plans S`, how many
/// moves and sub-plans there are, and then each move by rising key. The line of a move is
/// `move [LO,HI) P to Q sub S`. Its keys go from partition P to partition Q in sub-plan S. It
/// writes `refused old FAULT`, or else `refused new FAULT`, if a text is no plan, and the answer is
/// then `Refused`. As JSON it writes an object of the moves and of how many sub-plans there are, or of
/// the fault.
///
/// - `Write`: a write failed, or took no byte. The writer has a prefix of the text.
/// - `NoMemory`: an allocation failed. Nothing is written.
///
/// There is no other fault. A write that failed is always answered so.
pub fn course_text<K: Sink>(
    alloc: Global,
    form: Form,
    old: &[u8],
    new: &[u8],
    writer: &mut K,
) -> Result<Ended, RunFault>
    // What is written is the definition's output for the texts.
    ensures text { (written : List ℕ) × TookBytes (K.state writer.old) (K.state writer.new) written
        × IsWritten result (course_in form old.now new.now) written }

    // No fault is that of a read. The writer is the cause of `Write`, and no failed write is passed over.
    ensures unread { result ≢ Err RunFault.Read }
    ensures heeds_writes { HeedsWrites result (K.state writer.old) (K.state writer.new) }
{
    let mut out = String::new(alloc);
    let ended = course_as(alloc, form, old, new, &mut out)?;
    write_output(writer, ended, out.as_str())
}
