//! How far a course has come, as JSON.

ghost use Rattle.std.specs.Prelude.{◌≡◌, ◌++◌, IfOk, OnOk, map, string_bytes};
ghost use Rattle.std.specs.List.{flat_map};
ghost use Rattle.squall_status.specs.Texts.{is_shown};
ghost use Rattle.squall_cli_json.specs.Tokens.{tokens_of, tokens_of_each};
ghost use Rattle.squall_cli_json.specs.Values.{json_line, json_of_list, json_of_state, json_of_missing, json_of_move_status, shown_move};
ghost use Rattle.squall_cli_json.specs.Values.{json_of_subplan, json_of_open, json_of_status};

use crate::write::{
    write_bound_member, write_count_member, write_flag_member, write_number_member,
    write_part_member, write_span, write_text_member, written_line,
};
use json::Writer;
use squall_status::{
    CourseStatus, MoveStatus, Progress, Shown, SubplanStatus, complete_moves, course_share,
    ended_subplans,
};
use std::alloc::{AllocError, Global};

/// How far the keys of a move have come, in words.
fn state_of(progress: Progress) -> &'static str
    ensures { result.now ≡ json_of_state progress }
{
    match progress {
        Progress::NotStarted => "not started",
        Progress::Partial { .. } => "partial",
        Progress::Complete => "complete",
    }
}

/// Writes the first run of keys that are missing: null if none or all are.
fn write_missing(
    writer: &mut Writer,
    room: &mut String,
    progress: Progress,
) -> Result<(), AllocError>
    ensures tokens { OnOk result (writer.new.tokens ≡ writer.old.tokens ++ tokens_of (json_of_missing progress)) }
    ensures before { writer.new.before ≡ writer.old.before }
{
    match progress {
        Progress::Partial { missing, .. } => write_span(writer, room, missing),
        _ => writer.null(),
    }
}

/// Writes a move, and how far its keys have come: the members in the order of their names.
fn write_move(writer: &mut Writer, room: &mut String, status: &MoveStatus) -> Result<(), AllocError>
    ensures tokens { OnOk result (writer.new.tokens ≡ writer.old.tokens ++ tokens_of (json_of_move_status status.now)) }
    ensures before { writer.new.before ≡ writer.old.before }
{
    let moving = &status.moving;
    writer.begin_object()?;
    write_part_member(writer, "from", moving.source)?;
    write_bound_member(writer, room, "hi", moving.span.hi())?;
    write_count_member(writer, "keys", status.keys())?;
    write_bound_member(writer, room, "lo", moving.span.lo())?;
    write_count_member(writer, "loaded", status.loaded())?;
    writer.key("missing")?;
    write_missing(writer, room, status.progress)?;
    write_text_member(writer, "state", state_of(status.progress))?;
    write_number_member(writer, "sub", moving.sub)?;
    write_part_member(writer, "to", moving.dest)?;
    writer.end_object()
}

/// Whether the move is shown.
fn is_shown(shown: Shown, status: &MoveStatus) -> bool
    ensures { result ≡ is_shown shown status.now }
{
    match shown {
        Shown::EachMove => true,
        Shown::Waiting => !status.progress.is_complete(),
    }
}

/// Writes a move if it is shown.
fn write_shown(
    writer: &mut Writer,
    room: &mut String,
    shown: Shown,
    status: &MoveStatus,
) -> Result<(), AllocError>
    ensures tokens { OnOk result (writer.new.tokens ≡ writer.old.tokens ++ tokens_of_each (shown_move shown status.now)) }
    ensures before { writer.new.before ≡ writer.old.before }
{
    if is_shown(shown, status) {
        return write_move(writer, room, status);
    }
    Ok(())
}

/// Writes the moves that are shown, as a list.
#[tactic(auto, using(crate::proofs::Streams::listed, crate::proofs::Streams::each_more, std::proofs::lemmas::List::take_all))]
fn write_moves(
    writer: &mut Writer,
    room: &mut String,
    shown: Shown,
    moves: &[MoveStatus],
) -> Result<(), AllocError>
    ensures tokens { OnOk result (writer.new.tokens ≡ writer.old.tokens ++ tokens_of (json_of_list (flat_map (shown_move shown) moves.now))) }
    ensures before { writer.new.before ≡ writer.old.before }
{
    writer.begin_array()?;
    for status in moves {
        write_shown(writer, room, shown, status)?;
    }
    writer.end_array()
}

/// Writes a sub-plan.
fn write_subplan(writer: &mut Writer, status: &SubplanStatus) -> Result<(), AllocError>
    ensures tokens { OnOk result (writer.new.tokens ≡ writer.old.tokens ++ tokens_of (json_of_subplan status.now)) }
    ensures before { writer.new.before ≡ writer.old.before }
{
    writer.begin_object()?;
    write_number_member(writer, "done", status.done)?;
    write_flag_member(writer, "opened", status.opened)?;
    write_number_member(writer, "receivers", status.receivers)?;
    write_number_member(writer, "sub", status.sub)?;
    writer.end_object()
}

/// Writes the sub-plans as a list.
#[tactic(auto, using(crate::proofs::Streams::listed, std::proofs::lemmas::List::take_all))]
fn write_subplans(writer: &mut Writer, subplans: &[SubplanStatus]) -> Result<(), AllocError>
    ensures tokens { OnOk result (writer.new.tokens ≡ writer.old.tokens ++ tokens_of (json_of_list (map json_of_subplan subplans.now))) }
    ensures before { writer.new.before ≡ writer.old.before }
{
    writer.begin_array()?;
    for status in subplans {
        write_subplan(writer, status)?;
    }
    writer.end_array()
}

/// Writes the number of the sub-plan that is open: null if none is.
fn write_open(writer: &mut Writer, open_sub: Option<u32>) -> Result<(), AllocError>
    ensures tokens { OnOk result (writer.new.tokens ≡ writer.old.tokens ++ tokens_of (json_of_open open_sub)) }
    ensures before { writer.new.before ≡ writer.old.before }
{
    match open_sub {
        Some(sub) => writer.u64(u64::from(sub)),
        None => writer.null(),
    }
}

/// Writes how far the course has come: the members in the order of their names.
fn write_status(
    writer: &mut Writer,
    room: &mut String,
    status: &CourseStatus,
    shown: Shown,
) -> Result<(), AllocError>
    ensures tokens { OnOk result (writer.new.tokens ≡ writer.old.tokens ++ tokens_of (json_of_status shown status.now)) }
    ensures before { writer.new.before ≡ writer.old.before }
{
    let moves = status.moves();
    let subplans = status.subplans();
    let over = complete_moves(moves);
    writer.begin_object()?;
    write_flag_member(writer, "complete", over == moves.len())?;
    write_number_member(writer, "course", status.number())?;
    write_count_member(writer, "keys", status.keys())?;
    write_count_member(writer, "loaded", status.loaded())?;
    write_count_member(writer, "move_count", moves.len() as u64)?;
    writer.key("moves")?;
    write_moves(writer, room, shown, moves)?;
    write_count_member(writer, "moves_complete", over as u64)?;
    writer.key("open")?;
    write_open(writer, status.open_subplan())?;
    write_number_member(writer, "share", course_share(moves))?;
    write_count_member(writer, "subplan_count", subplans.len() as u64)?;
    writer.key("subplans")?;
    write_subplans(writer, subplans)?;
    write_count_member(writer, "subplans_complete", ended_subplans(subplans) as u64)?;
    write_number_member(writer, "thousandths", status.thousandths())?;
    writer.end_object()
}

/// How far a course has come, as a JSON object on a line: what [`squall_status::add_status`] writes
/// as lines. The error comes if an allocation failed.
pub fn status_json(alloc: Global, status: &CourseStatus, shown: Shown) -> Result<String, AllocError>
    ensures { IfOk result (λ s. string_bytes s ≡ json_line (json_of_status shown status.now)) }
{
    let mut room = String::new(alloc);
    let mut writer = Writer::new(Vec::new(alloc));
    write_status(&mut writer, &mut room, status, shown)?;
    written_line(writer)
}
