//! The cells of a board as JSON. They are written as the maps of the board hold them, so that no
//! list of them is made.

ghost use Rattle.std.specs.Prelude.{◌≡◌, ◌++◌, OnOk, map};
ghost use Rattle.squall_report.specs.Cells.{place_at};
ghost use Rattle.squall_board.specs.Listed.{cell_entry, cells_of_parts, cells_of_subs, cells_of_numbers, cells_of};
ghost use Rattle.squall_cli_json.specs.Tokens.{tokens_of, tokens_of_each};
ghost use Rattle.squall_cli_json.specs.Values.{json_of_list, json_of_span, json_of_cell};

use crate::write::{write_flag_member, write_number_member, write_span};
use json::Writer;
use squall_board::{Board, CellParts};
use squall_join::JoinMap;
use squall_span::SpanSet;
use std::alloc::AllocError;

/// Writes the spans of the set as a list.
fn write_spans(writer: &mut Writer, room: &mut String, set: &SpanSet) -> Result<(), AllocError>
    ensures tokens { OnOk result (writer.new.tokens ≡ writer.old.tokens ++ tokens_of (json_of_list (map json_of_span set.now))) }
    ensures before { writer.new.before ≡ writer.old.before }
{
    writer.begin_array()?;
    for span in set.spans() {
        write_span(writer, room, span)?;
    }
    writer.end_array()
}

/// Writes a cell of the number and the sub-plan.
fn write_cell(
    writer: &mut Writer,
    room: &mut String,
    number: u32,
    sub: u32,
    part: u32,
    cell: &CellParts,
) -> Result<(), AllocError>
    ensures tokens { OnOk result (writer.new.tokens ≡ writer.old.tokens ++ tokens_of (json_of_cell (cell_entry (place_at number sub part) cell.now))) }
    ensures before { writer.new.before ≡ writer.old.before }
{
    writer.begin_object()?;
    write_number_member(writer, "course", number)?;
    write_flag_member(writer, "done", cell.second.get())?;
    writer.key("loaded")?;
    write_spans(writer, room, &cell.first)?;
    write_number_member(writer, "part", part)?;
    write_number_member(writer, "sub", sub)?;
    writer.end_object()
}

/// Writes the cells of the partitions.
fn write_parts(
    writer: &mut Writer,
    room: &mut String,
    number: u32,
    sub: u32,
    parts: &[(u32, CellParts)],
) -> Result<(), AllocError>
    ensures tokens { OnOk result (writer.new.tokens
        ≡ writer.old.tokens ++ tokens_of_each (map json_of_cell (cells_of_parts number sub parts.now))) }
    ensures before { writer.new.before ≡ writer.old.before }
{
    for entry in parts {
        write_cell(writer, room, number, sub, entry.0, &entry.1)?;
    }
    Ok(())
}

/// Writes the cells of the sub-plans.
fn write_subs(
    writer: &mut Writer,
    room: &mut String,
    number: u32,
    subs: &[(u32, JoinMap<u32, CellParts>)],
) -> Result<(), AllocError>
    ensures tokens { OnOk result (writer.new.tokens ≡ writer.old.tokens ++ tokens_of_each (map json_of_cell (cells_of_subs number subs.now))) }
    ensures before { writer.new.before ≡ writer.old.before }
{
    for entry in subs {
        write_parts(writer, room, number, entry.0, entry.1.entries())?;
    }
    Ok(())
}

/// Writes the cells of the numbers.
fn write_numbers(
    writer: &mut Writer,
    room: &mut String,
    numbers: &[(u32, JoinMap<u32, JoinMap<u32, CellParts>>)],
) -> Result<(), AllocError>
    ensures tokens { OnOk result (writer.new.tokens ≡ writer.old.tokens ++ tokens_of_each (map json_of_cell (cells_of_numbers numbers.now))) }
    ensures before { writer.new.before ≡ writer.old.before }
{
    for entry in numbers {
        write_subs(writer, room, entry.0, entry.1.entries())?;
    }
    Ok(())
}

/// Writes the cells of the board as a list.
#[tactic(auto, using(crate::proofs::Streams::listed))]
pub(crate) fn write_cells(
    writer: &mut Writer,
    room: &mut String,
    board: &Board,
) -> Result<(), AllocError>
    ensures tokens { OnOk result (writer.new.tokens ≡ writer.old.tokens ++ tokens_of (json_of_list (map json_of_cell (cells_of board.now)))) }
    ensures before { writer.new.before ≡ writer.old.before }
{
    writer.begin_array()?;
    write_numbers(writer, room, board.cell_map().entries())?;
    writer.end_array()
}
