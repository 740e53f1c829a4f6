//! What a board tells, as JSON.

ghost use Rattle.std.specs.Prelude.{◌≡◌, ◌++◌, IfOk, OnOk, map, string_bytes};
ghost use Rattle.std.specs.Arc.{arc_value};
ghost use Rattle.std.specs.List.{flat_map as joined_map};
ghost use Rattle.squall_join.specs.Flats.{flat_map};
ghost use Rattle.squall_cli_json.specs.Tokens.{tokens_of, tokens_of_each};
ghost use Rattle.squall_cli_json.specs.Values.{json_line, json_of_list, json_of_opening, json_of_issue, items_of_issue, issue_items};
ghost use Rattle.squall_cli_json.specs.Values.{json_of_board};

use crate::cell::write_cells;
use crate::write::{write_flag_member, write_number_member, written_line};
use json::Writer;
use squall_board::{Board, Opening};
use squall_join::Flat;
use squall_report::Issue;
use std::alloc::{AllocError, Global};
use std::sync::Arc;

/// Writes an opening.
fn write_opening(writer: &mut Writer, opening: &Opening) -> Result<(), AllocError>
    ensures tokens { OnOk result (writer.new.tokens ≡ writer.old.tokens ++ tokens_of (json_of_opening opening.now)) }
    ensures before { writer.new.before ≡ writer.old.before }
{
    writer.begin_object()?;
    write_number_member(writer, "course", opening.number)?;
    write_number_member(writer, "subplans", opening.count)?;
    writer.end_object()
}

/// Writes the openings as a list.
#[tactic(auto, using(crate::proofs::Streams::listed, std::proofs::lemmas::List::take_all))]
fn write_openings(writer: &mut Writer, openings: &[Opening]) -> Result<(), AllocError>
    ensures tokens { OnOk result (writer.new.tokens ≡ writer.old.tokens ++ tokens_of (json_of_list (map json_of_opening openings.now))) }
    ensures before { writer.new.before ≡ writer.old.before }
{
    writer.begin_array()?;
    for opening in openings {
        write_opening(writer, opening)?;
    }
    writer.end_array()
}

/// Writes whether different plans are issued under the number.
fn write_issue(writer: &mut Writer, number: u32, clash: bool) -> Result<(), AllocError>
    ensures tokens { OnOk result (writer.new.tokens ≡ writer.old.tokens ++ tokens_of (json_of_issue number clash)) }
    ensures before { writer.new.before ≡ writer.old.before }
{
    writer.begin_object()?;
    write_flag_member(writer, "clash", clash)?;
    write_number_member(writer, "course", number)?;
    writer.end_object()
}

/// Writes what is issued under the number, if anything is.
fn write_issued(
    writer: &mut Writer,
    number: u32,
    issue: &Flat<Arc<Issue>>,
) -> Result<(), AllocError>
    ensures tokens { OnOk result (writer.new.tokens
        ≡ writer.old.tokens ++ tokens_of_each (items_of_issue number (flat_map arc_value issue.now))) }
    ensures before { writer.new.before ≡ writer.old.before }
{
    let clash = match issue {
        Flat::Unknown => return Ok(()),
        Flat::One(_) => false,
        Flat::Clash => true,
    };
    write_issue(writer, number, clash)
}

/// Writes what is issued, as a list.
#[tactic(auto, using(crate::proofs::Streams::listed, crate::proofs::Streams::each_more, std::proofs::lemmas::List::take_all))]
fn write_issues(writer: &mut Writer, issues: &[(u32, Flat<Arc<Issue>>)]) -> Result<(), AllocError>
    ensures tokens { OnOk result (writer.new.tokens ≡ writer.old.tokens
        ++ tokens_of (json_of_list (joined_map issue_items (map (λ e. (e.0, flat_map arc_value e.1)) issues.now)))) }
    ensures before { writer.new.before ≡ writer.old.before }
{
    writer.begin_array()?;
    for entry in issues {
        write_issued(writer, entry.0, &entry.1)?;
    }
    writer.end_array()
}

/// Writes what the board tells.
fn write_board(writer: &mut Writer, room: &mut String, board: &Board) -> Result<(), AllocError>
    ensures tokens { OnOk result (writer.new.tokens ≡ writer.old.tokens ++ tokens_of (json_of_board board.now)) }
    ensures before { writer.new.before ≡ writer.old.before }
{
    let issues = board.issues()?;
    let openings = board.openings()?;
    writer.begin_object()?;
    writer.key("cells")?;
    write_cells(writer, room, board)?;
    writer.key("issued")?;
    write_issues(writer, &issues)?;
    writer.key("opened")?;
    write_openings(writer, &openings)?;
    writer.end_object()
}

/// What the board tells, as a JSON object on a line. The error comes if an allocation failed.
pub fn board_json(alloc: Global, board: &Board) -> Result<String, AllocError>
    ensures { IfOk result (λ s. string_bytes s ≡ json_line (json_of_board board.now)) }
{
    let mut room = String::new(alloc);
    let mut writer = Writer::new(Vec::new(alloc));
    write_board(&mut writer, &mut room, board)?;
    written_line(writer)
}
