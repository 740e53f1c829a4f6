//! Plans and legs as JSON.

ghost use Rattle.std.specs.Prelude.{◌≡◌, ◌++◌, IfOk, OnOk, map, string_bytes};
ghost use Rattle.serde_json.specs.Data.{object, member, no_members};
ghost use Rattle.squall_cli_json.specs.Tokens.{tokens_of};
ghost use Rattle.squall_cli_json.specs.Values.{json_line, json_of_list, json_of_range, json_of_plan, json_of_legs};

use crate::write::{write_bound_member, write_part_member, written_line};
use json::Writer;
use squall_plan::PlanRange;
use std::alloc::{AllocError, Global};

/// Writes a range of a plan, or a leg: its members in the order of their names.
fn write_range(writer: &mut Writer, room: &mut String, range: &PlanRange) -> Result<(), AllocError>
    ensures tokens { OnOk result (writer.new.tokens ≡ writer.old.tokens ++ tokens_of (json_of_range range.now)) }
    ensures before { writer.new.before ≡ writer.old.before }
{
    writer.begin_object()?;
    write_bound_member(writer, room, "hi", range.span.hi())?;
    write_bound_member(writer, room, "lo", range.span.lo())?;
    write_part_member(writer, "part", range.part)?;
    writer.end_object()
}

/// Writes the ranges as a list.
#[tactic(auto, using(crate::proofs::Streams::listed, std::proofs::lemmas::List::take_all))]
fn write_ranges(
    writer: &mut Writer,
    room: &mut String,
    ranges: &[PlanRange],
) -> Result<(), AllocError>
    ensures tokens { OnOk result (writer.new.tokens ≡ writer.old.tokens ++ tokens_of (json_of_list (map json_of_range ranges.now))) }
    ensures before { writer.new.before ≡ writer.old.before }
{
    writer.begin_array()?;
    for range in ranges {
        write_range(writer, room, range)?;
    }
    writer.end_array()
}

/// Writes the object whose one member is the list of the ranges.
fn write_listed(
    writer: &mut Writer,
    room: &mut String,
    name: &str,
    ranges: &[PlanRange],
) -> Result<(), AllocError>
    ensures tokens { OnOk result (writer.new.tokens ≡ writer.old.tokens
        ++ tokens_of (object (member name.now (json_of_list (map json_of_range ranges.now)) no_members))) }
    ensures before { writer.new.before ≡ writer.old.before }
{
    writer.begin_object()?;
    writer.key(name)?;
    write_ranges(writer, room, ranges)?;
    writer.end_object()
}

/// That object on a line.
fn listed_json(alloc: Global, name: &str, ranges: &[PlanRange]) -> Result<String, AllocError>
    ensures { IfOk result (λ s. string_bytes s
        ≡ json_line (object (member name.now (json_of_list (map json_of_range ranges.now)) no_members))) }
{
    let mut room = String::new(alloc);
    let mut writer = Writer::new(Vec::new(alloc));
    write_listed(&mut writer, &mut room, name, ranges)?;
    written_line(writer)
}

/// The ranges of a plan as a JSON object on a line. The error comes if an allocation failed.
pub fn plan_json(alloc: Global, ranges: &[PlanRange]) -> Result<String, AllocError>
    ensures { IfOk result (λ s. string_bytes s ≡ json_line (json_of_plan ranges.now)) }
{
    listed_json(alloc, "ranges", ranges)
}

/// Legs as a JSON object on a line. The error comes if an allocation failed.
pub fn legs_json(alloc: Global, legs: &[PlanRange]) -> Result<String, AllocError>
    ensures { IfOk result (λ s. string_bytes s ≡ json_line (json_of_legs legs.now)) }
{
    listed_json(alloc, "legs", legs)
}
