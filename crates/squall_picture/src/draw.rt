//! The picture of a course.

ghost use Rattle.std.specs.Prelude.{◌≡◌, ◌++◌, IfOk, OnOk, codes, string_bytes};
ghost use Rattle.squall_board.specs.Boards.{says};
ghost use Rattle.squall_picture.specs.Picture.{body_text, wide_text, drawn_text, picture_text, IsPictureOf};

use crate::axis::Axis;
use crate::bands::add_bands;
use crate::bars::{add_bars, add_ticks};
use crate::frame::add_head;
use crate::legend::add_legend;
use squall_board::Board;
use squall_course::Course;
use squall_plan::PlanRange;
use squall_status::CourseStatus;
use std::alloc::{AllocError, Global};

/// Adds the old plan, below it the moves, below them the new plan, and below that the bounds.
fn add_body(
    axis: &Axis,
    old: &[PlanRange],
    new: &[PlanRange],
    status: &CourseStatus,
    out: &mut String,
) -> Result<(), AllocError>
    ensures { OnOk result (string_bytes out.new ≡ string_bytes out.old ++ body_text axis.now old.now new.now status.now) }
{
    add_bars(axis, 84, old, out)?;
    add_bands(axis, status.subplans(), status.moves(), out)?;
    add_bars(axis, 204, new, out)?;
    add_ticks(axis, axis.ticks(), out)
}

/// Ends the picture.
fn end_svg(out: &mut String) -> Result<(), AllocError>
    ensures { OnOk result (string_bytes out.new ≡ string_bytes out.old ++ codes "</svg>\n") }
{
    out.push_str("</svg>\n")
}

/// Adds the picture on an axis, of the width that the axis gives.
fn add_all(
    width: usize,
    axis: &Axis,
    old: &[PlanRange],
    new: &[PlanRange],
    status: &CourseStatus,
    out: &mut String,
) -> Result<(), AllocError>
    ensures { OnOk result (string_bytes out.new ≡ string_bytes out.old ++ wide_text width axis.now old.now new.now status.now) }
{
    add_head(width, status, out)?;
    add_legend(old, new, out)?;
    add_body(axis, old, new, status, out)?;
    end_svg(out)
}

/// Adds the picture on an axis.
fn add_drawn(
    axis: &Axis,
    old: &[PlanRange],
    new: &[PlanRange],
    status: &CourseStatus,
    out: &mut String,
) -> Result<(), AllocError>
    ensures { OnOk result (string_bytes out.new ≡ string_bytes out.old ++ drawn_text axis.now old.now new.now status.now) }
{
    let width = axis.total();
    add_all(width, axis, old, new, status, out)
}

/// Adds a picture of two plans and of how far the course between them has come, as SVG.
///
/// The keys run from left to right, with one column for each span between two neighbouring bounds
/// of the plans. A bar above shows a range of the old plan, a bar below shows one of the new plan,
/// and a band between them shows a move. The loaded share of a band is filled. Bars and bands have
/// the colour of the partition to which the keys belong or go.
///
/// An error means that an allocation failed.
pub fn add_picture(
    alloc: Global,
    old: &[PlanRange],
    new: &[PlanRange],
    status: &CourseStatus,
    out: &mut String,
) -> Result<(), AllocError>
    ensures { OnOk result (string_bytes out.new ≡ string_bytes out.old ++ picture_text old.now new.now status.now) }
{
    let axis = Axis::of(alloc, old, new)?;
    add_drawn(&axis, old, new, status, out)
}

/// The picture of a course, as far as it has come by what the board says. An error means that an
/// allocation failed.
pub fn picture(alloc: Global, course: &Course, board: &Board) -> Result<String, AllocError>
    ensures { IfOk result (λ text. IsPictureOf course.now (says board.now) (string_bytes text)) }
{
    let status = CourseStatus::of(alloc, course, board)?;
    let old = course.old_plan().ranges();
    let new = course.new_plan().ranges();
    let mut text = String::new(alloc);
    add_picture(alloc, old, new, &status, &mut text)?;
    Ok(text)
}
