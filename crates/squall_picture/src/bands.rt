//! Moves as bands from the old plan to the new one.

ghost use Rattle.std.specs.Prelude.{◌≡◌, ◌++◌, OnOk, codes, string_bytes};
ghost use Rattle.squall_picture.specs.Bands.{is_opened, move_title, band_title, opened_text, look_text, load_text};
ghost use Rattle.squall_picture.specs.Bands.{outline_text, parts_text, shape_text, group_text, band_text, bands_text};

use crate::axis::{Axis, filled};
use crate::bars::{add_box, add_number, colour_of, end_group};
use squall_course::Move;
use squall_status::{MoveStatus, SubplanStatus};
use std::alloc::AllocError;

/// Whether the sub-plan of the number is opened.
fn is_opened(subplans: &[SubplanStatus], sub: u32) -> bool
    ensures { result ≡ is_opened subplans.now sub }
{
    match subplans.get(sub as usize) {
        Some(status) => status.opened,
        None => false,
    }
}

/// Adds what a move is.
fn add_move(moving: &Move, out: &mut String) -> Result<(), AllocError>
    ensures { OnOk result (string_bytes out.new ≡ string_bytes out.old ++ move_title moving.now) }
{
    let span = moving.span;
    let source = moving.source;
    let dest = moving.dest;
    let sub = moving.sub;
    write!(out, "{span} from {source} to {dest}, sub-plan {sub}")
}

/// Adds the title of a band.
fn add_title(status: &MoveStatus, out: &mut String) -> Result<(), AllocError>
    ensures { OnOk result (string_bytes out.new ≡ string_bytes out.old ++ band_title status.now) }
{
    let loaded = status.loaded();
    let keys = status.keys();
    write!(out, "<title>")?;
    add_move(&status.moving, out)?;
    write!(out, ", loaded {loaded} of {keys}</title>")
}

/// Adds whether a sub-plan is opened, as a class.
fn add_opened(opened: bool, out: &mut String) -> Result<(), AllocError>
    ensures { OnOk result (string_bytes out.new ≡ string_bytes out.old ++ opened_text opened) }
{
    if opened {
        write!(out, " open")
    } else {
        write!(out, " shut")
    }
}

/// Adds how a band is outlined, as classes.
fn add_look(opened: bool, width: usize, out: &mut String) -> Result<(), AllocError>
    ensures { OnOk result (string_bytes out.new ≡ string_bytes out.old ++ look_text opened width) }
{
    add_opened(opened, out)?;
    if width < 8 {
        write!(out, " thin")?;
    }
    Ok(())
}

/// Adds the part of a band that shows its loaded keys.
fn add_load(colour: u32, x: usize, fill: u128, out: &mut String) -> Result<(), AllocError>
    ensures { OnOk result (string_bytes out.new ≡ string_bytes out.old ++ load_text colour x fill) }
{
    write!(out, "<rect class='c{colour} load'")?;
    add_box(x, 108, fill, 96, out)
}

/// Adds all of a band, in outline.
fn add_outline(
    colour: u32,
    x: usize,
    width: usize,
    opened: bool,
    out: &mut String,
) -> Result<(), AllocError>
    ensures { OnOk result (string_bytes out.new ≡ string_bytes out.old ++ outline_text colour x width opened) }
{
    write!(out, "<rect class='c{colour}")?;
    add_look(opened, width, out)?;
    write!(out, "'")?;
    add_box(x, 108, width as u128, 96, out)
}

/// Adds the parts of a band.
fn add_parts(
    colour: u32,
    x: usize,
    width: usize,
    fill: u128,
    opened: bool,
    sub: u32,
    out: &mut String,
) -> Result<(), AllocError>
    ensures { OnOk result (string_bytes out.new ≡ string_bytes out.old ++ parts_text colour x width fill opened sub) }
{
    add_load(colour, x, fill, out)?;
    add_outline(colour, x, width, opened, out)?;
    add_number(x, 108, width, sub, out)
}

/// Adds the band of a move at `x`, of the width `width`.
fn add_shape(
    x: usize,
    width: usize,
    opened: bool,
    status: &MoveStatus,
    out: &mut String,
) -> Result<(), AllocError>
    ensures { OnOk result (string_bytes out.new ≡ string_bytes out.old ++ shape_text x width opened status.now) }
{
    let colour = colour_of(status.moving.dest);
    let loaded = status.loaded();
    let keys = status.keys();
    let fill = filled(width, loaded, keys);
    let sub = status.moving.sub;
    add_parts(colour, x, width, fill, opened, sub, out)
}

/// Begins a band.
fn begin_band(out: &mut String) -> Result<(), AllocError>
    ensures { OnOk result (string_bytes out.new ≡ string_bytes out.old ++ codes "<g class='band'>") }
{
    out.push_str("<g class='band'>")
}

/// Adds the group of a band.
fn add_group(
    x: usize,
    width: usize,
    opened: bool,
    status: &MoveStatus,
    out: &mut String,
) -> Result<(), AllocError>
    ensures { OnOk result (string_bytes out.new ≡ string_bytes out.old ++ group_text x width opened status.now) }
{
    begin_band(out)?;
    add_title(status, out)?;
    add_shape(x, width, opened, status, out)?;
    end_group(out)
}

/// Adds the band of a move.
fn add_band(
    axis: &Axis,
    subplans: &[SubplanStatus],
    status: &MoveStatus,
    out: &mut String,
) -> Result<(), AllocError>
    ensures { OnOk result (string_bytes out.new ≡ string_bytes out.old ++ band_text axis.now subplans.now status.now) }
{
    let span = status.moving.span;
    let from = span.lo();
    let x = axis.x(from);
    let width = axis.width(span);
    let opened = is_opened(subplans, status.moving.sub);
    add_group(x, width, opened, status, out)
}

/// Adds one band for each move, in their order.
pub(crate) fn add_bands(
    axis: &Axis,
    subplans: &[SubplanStatus],
    moves: &[MoveStatus],
    out: &mut String,
) -> Result<(), AllocError>
    ensures { OnOk result (string_bytes out.new ≡ string_bytes out.old ++ bands_text axis.now subplans.now moves.now) }
{
    for status in moves {
        add_band(axis, subplans, status, out)?;
    }
    Ok(())
}
