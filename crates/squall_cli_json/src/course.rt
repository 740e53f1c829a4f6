//! A course as JSON.

ghost use Rattle.std.specs.Prelude.{◌≡◌, ◌++◌, IfOk, OnOk, map, string_bytes};
ghost use Rattle.squall_cli_json.specs.Tokens.{tokens_of};
ghost use Rattle.squall_cli_json.specs.Values.{json_line, json_of_list, json_of_move, json_of_course};

use crate::write::{write_bound_member, write_number_member, write_part_member, written_line};
use json::Writer;
use squall_course::{Course, Move};
use std::alloc::{AllocError, Global};

/// Writes a move: its members in the order of their names.
fn write_move(writer: &mut Writer, room: &mut String, moving: &Move) -> Result<(), AllocError>
    ensures tokens { OnOk result (writer.new.tokens ≡ writer.old.tokens ++ tokens_of (json_of_move moving.now)) }
    ensures before { writer.new.before ≡ writer.old.before }
{
    writer.begin_object()?;
    write_part_member(writer, "from", moving.source)?;
    write_bound_member(writer, room, "hi", moving.span.hi())?;
    write_bound_member(writer, room, "lo", moving.span.lo())?;
    write_number_member(writer, "sub", moving.sub)?;
    write_part_member(writer, "to", moving.dest)?;
    writer.end_object()
}

/// Writes the moves as a list.
#[tactic(auto, using(crate::proofs::Streams::listed, std::proofs::lemmas::List::take_all))]
fn write_moves(writer: &mut Writer, room: &mut String, moves: &[Move]) -> Result<(), AllocError>
    ensures tokens { OnOk result (writer.new.tokens ≡ writer.old.tokens ++ tokens_of (json_of_list (map json_of_move moves.now))) }
    ensures before { writer.new.before ≡ writer.old.before }
{
    writer.begin_array()?;
    for moving in moves {
        write_move(writer, room, moving)?;
    }
    writer.end_array()
}

/// Writes the course.
fn write_course(writer: &mut Writer, room: &mut String, course: &Course) -> Result<(), AllocError>
    ensures tokens { OnOk result (writer.new.tokens ≡ writer.old.tokens ++ tokens_of (json_of_course course.now.old course.now.new)) }
    ensures before { writer.new.before ≡ writer.old.before }
{
    writer.begin_object()?;
    writer.key("moves")?;
    write_moves(writer, room, course.moves())?;
    write_number_member(writer, "subplan_count", course.subplans())?;
    writer.end_object()
}

/// The moves of the course, and how many sub-plans it has, as a JSON object on a line. The error
/// comes if an allocation failed.
pub fn course_json(alloc: Global, course: &Course) -> Result<String, AllocError>
    ensures { IfOk result (λ s. string_bytes s ≡ json_line (json_of_course course.now.old course.now.new)) }
{
    let mut room = String::new(alloc);
    let mut writer = Writer::new(Vec::new(alloc));
    write_course(&mut writer, &mut room, course)?;
    written_line(writer)
}
