//! The lines of commands on rows.

ghost use Rattle.std.specs.Prelude.{◌≡◌, ◌++◌, IfOk, OnOk, string_bytes};
ghost use Rattle.squall_rows.specs.RowSteps.{Ask};
ghost use Rattle.squall_world_rows.specs.Seen.{outcome_of};
ghost use Rattle.squall_world_rows.specs.Maps.{MapStep, mapped};
ghost use Rattle.squall_cli_events.specs.RowLines.{row_seen};
ghost use Rattle.squall_cli_scenario.specs.Replies.{command_of, ask_reply, outcome_line};
ghost use Rattle.squall_cli_scenario.specs.Answered.{Answers};
ghost use Rattle.squall_cli_scenario.specs.Stages.{meant};

use crate::scenario::{Scenario, Stage};
use squall_cli_events::{RowWords, add_answer, add_row};
use squall_cli_words::Reason;
use squall_key::{Key, PartId};
use squall_world_rows::{Bytes, Command, Event, RowAnswer, RowWorld};
use std::alloc::{AllocError, Global};

/// The command that the words write, with a copy of their text.
pub(crate) fn command_of(alloc: Global, words: &RowWords) -> Result<Command, AllocError>
    ensures { IfOk result (λ command. command ≡ command_of (row_seen words.now).command) }
{
    match words {
        RowWords::Put { text, .. } => Ok(Command::Put(Bytes::new(alloc, text)?)),
        RowWords::Get { .. } => Ok(Command::Get),
        RowWords::Del { .. } => Ok(Command::Delete),
    }
}

/// Adds the line that answers a command on the key at the partition, with no move followed.
fn add_outcome(
    part: PartId,
    key: Key,
    answer: &RowAnswer,
    out: &mut String,
) -> Result<(), AllocError>
    ensures { (command : Command) → OnOk result (string_bytes out.new ≡ string_bytes out.old ++ outcome_line (Ask part key 0 command) (outcome_of answer.now)) }
{
    match answer {
        RowAnswer::Ran(None) => add_row(None, out),
        RowAnswer::Ran(Some(row)) => add_row(Some(row.as_slice()), out),
        RowAnswer::Answered(answer) => add_answer(&Event::Serve(part, key, 0), answer, out),
    }
}

/// Does the command on the row of the key, if the partition holds it, and adds the line that answers
/// it. The result is what was answered.
fn ask_world(
    world: &mut RowWorld,
    part: PartId,
    key: Key,
    command: &Command,
    out: &mut String,
) -> Result<RowAnswer, AllocError>
    ensures step { IfOk result (λ answer. MapStep (mapped world.old) (Ask part key 0 command.now) (outcome_of answer) (mapped world.new)) }
    ensures text { IfOk result (λ answer. string_bytes out.new ≡ string_bytes out.old ++ outcome_line (Ask part key 0 command.now) (outcome_of answer)) }
{
    let answer = world.ask(part, key, 0, command)?;
    add_outcome(part, key, &answer, out)?;
    Ok(answer)
}

/// Does the command on the row of the key, once there is a world.
pub(crate) fn ask(
    scenario: &mut Scenario,
    part: u32,
    key: Key,
    command: &Command,
    out: &mut String,
) -> Result<Option<Reason>, AllocError>
    ensures { Answers result (string_bytes out.old) (string_bytes out.new) (meant scenario.new)
        (ask_reply (meant scenario.old) (meant scenario.old).stage part key command.now) }
{
    let Stage::Happening(world) = &mut scenario.stage else {
        return Ok(Some(Reason::Order));
    };
    let Some(part) = PartId::new(part) else {
        return Ok(Some(Reason::Limit));
    };
    let _answer = ask_world(world, part, key, command, out)?;
    Ok(None)
}
