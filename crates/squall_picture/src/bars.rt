//! Plans as rows of bars, and the bounds along the axis.

ghost use Rattle.std.specs.Prelude.{◌≡◌, ◌++◌, ◌<◌, OnOk, codes, string_bytes};
ghost use Rattle.squall_picture.specs.Bars.{colour_of, box_text, number_text, bar_title, rect_text, bar_rect, bar_group, bar_text, bars_text};
ghost use Rattle.squall_picture.specs.Bars.{mark_text, tick_text, ticks_text};

use crate::axis::Axis;
use squall_key::{Bound, PartId};
use squall_plan::PlanRange;
use std::alloc::AllocError;

/// Which of the twelve colours a partition has.
pub(crate) fn colour_of(part: PartId) -> u32
    ensures value { result ≡ colour_of part }
    ensures few { result < 12 }
{
    part.get() % 12
}

/// Adds the position and the size of a rectangle, and ends its tag.
pub(crate) fn add_box(
    x: usize,
    y: u32,
    width: u128,
    height: u32,
    out: &mut String,
) -> Result<(), AllocError>
    ensures { OnOk result (string_bytes out.new ≡ string_bytes out.old ++ box_text x y width height) }
{
    write!(out, " x='{x}' y='{y}' width='{width}' height='{height}'/>")
}

/// Adds a number to a rectangle that is wide enough for it.
pub(crate) fn add_number(
    x: usize,
    y: u32,
    width: usize,
    number: u32,
    out: &mut String,
) -> Result<(), AllocError>
    ensures { OnOk result (string_bytes out.new ≡ string_bytes out.old ++ number_text x y width number) }
{
    if width < 24 {
        return Ok(());
    }
    write!(out, "<text x='{x}' y='{y}' dx='4' dy='16'>{number}</text>")
}

/// Adds the title of a bar.
fn add_title(range: &PlanRange, out: &mut String) -> Result<(), AllocError>
    ensures { OnOk result (string_bytes out.new ≡ string_bytes out.old ++ bar_title range.now) }
{
    let part = range.part;
    let span = range.span;
    write!(out, "<title>partition {part}: {span}</title>")
}

/// Begins a bar.
fn begin_bar(out: &mut String) -> Result<(), AllocError>
    ensures { OnOk result (string_bytes out.new ≡ string_bytes out.old ++ codes "<g class='bar'>") }
{
    out.push_str("<g class='bar'>")
}

/// Ends a bar or a band.
pub(crate) fn end_group(out: &mut String) -> Result<(), AllocError>
    ensures { OnOk result (string_bytes out.new ≡ string_bytes out.old ++ codes "</g>\n") }
{
    out.push_str("</g>\n")
}

/// Begins a rectangle of the colour.
fn begin_rect(colour: u32, out: &mut String) -> Result<(), AllocError>
    ensures { OnOk result (string_bytes out.new ≡ string_bytes out.old ++ rect_text colour) }
{
    write!(out, "<rect class='c{colour}'")
}

/// Adds the rectangle of a bar, and its partition.
fn add_rect(
    colour: u32,
    x: usize,
    y: u32,
    width: usize,
    part: u32,
    out: &mut String,
) -> Result<(), AllocError>
    ensures { OnOk result (string_bytes out.new ≡ string_bytes out.old ++ bar_rect colour x y width part) }
{
    begin_rect(colour, out)?;
    add_box(x, y, width as u128, 24, out)?;
    add_number(x, y, width, part, out)
}

/// Adds the group of a bar.
fn add_group(
    colour: u32,
    x: usize,
    y: u32,
    width: usize,
    part: u32,
    range: &PlanRange,
    out: &mut String,
) -> Result<(), AllocError>
    ensures { OnOk result (string_bytes out.new ≡ string_bytes out.old ++ bar_group colour x y width part range.now) }
{
    begin_bar(out)?;
    add_title(range, out)?;
    add_rect(colour, x, y, width, part, out)?;
    end_group(out)
}

/// Adds the bar of a range, `y` from the top.
fn add_bar(axis: &Axis, y: u32, range: &PlanRange, out: &mut String) -> Result<(), AllocError>
    ensures { OnOk result (string_bytes out.new ≡ string_bytes out.old ++ bar_text axis.now y range.now) }
{
    let colour = colour_of(range.part);
    let from = range.span.lo();
    let x = axis.x(from);
    let width = axis.width(range.span);
    let part = range.part.get();
    add_group(colour, x, y, width, part, range, out)
}

/// Adds the bars of a plan, `y` from the top.
pub(crate) fn add_bars(
    axis: &Axis,
    y: u32,
    ranges: &[PlanRange],
    out: &mut String,
) -> Result<(), AllocError>
    ensures { OnOk result (string_bytes out.new ≡ string_bytes out.old ++ bars_text axis.now y ranges.now) }
{
    for range in ranges {
        add_bar(axis, y, range, out)?;
    }
    Ok(())
}

/// Adds a bound at a place.
fn add_mark(x: usize, tick: Bound, out: &mut String) -> Result<(), AllocError>
    ensures { OnOk result (string_bytes out.new ≡ string_bytes out.old ++ mark_text x tick) }
{
    write!(
        out,
        "<g class='tick' transform='translate({x} 228)'><path d='M0 0v6'/><text transform='translate(3 14)rotate(-45)'>{tick}</text></g>\n"
    )
}

/// Adds a bound at its place, if it is written.
fn add_tick(axis: &Axis, tick: Bound, out: &mut String) -> Result<(), AllocError>
    ensures { OnOk result (string_bytes out.new ≡ string_bytes out.old ++ tick_text axis.now tick) }
{
    let written = axis.writes(tick);
    if !written {
        return Ok(());
    }
    let x = axis.x(tick);
    add_mark(x, tick, out)
}

/// Adds the bounds along the axis, of all these.
pub(crate) fn add_ticks(axis: &Axis, ticks: &[Bound], out: &mut String) -> Result<(), AllocError>
    ensures { OnOk result (string_bytes out.new ≡ string_bytes out.old ++ ticks_text axis.now ticks.now) }
{
    for tick in ticks {
        add_tick(axis, *tick, out)?;
    }
    Ok(())
}
