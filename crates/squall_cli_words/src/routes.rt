//! What the lines `route` and `legs` show.

ghost use Rattle.std.specs.Prelude.{◌≡◌, ◌++◌, OnOk, string_bytes};
ghost use Rattle.squall_cli_words.specs.RouteText.{route_text, leg_lines};

use squall_key::{Key, PartId};
use squall_plan::PlanRange;
use std::alloc::AllocError;

/// Adds the line of a key and the partition to ask for it.
pub fn add_route(key: Key, part: PartId, out: &mut String) -> Result<(), AllocError>
    ensures { OnOk result (string_bytes out.new ≡ string_bytes out.old ++ route_text key part) }
{
    write!(out, "route {key} {part}\n")
}

/// Adds the lines of legs: each has a span, and the partition to ask for its keys.
pub fn add_legs(legs: &[PlanRange], out: &mut String) -> Result<(), AllocError>
    ensures { OnOk result (string_bytes out.new ≡ string_bytes out.old ++ leg_lines legs.now) }
{
    for leg in legs {
        let span = leg.span;
        let part = leg.part;
        write!(out, "leg {span} {part}\n")?;
    }
    Ok(())
}
