//! The legend of a picture.

ghost use Rattle.std.specs.Prelude.{◌≡◌, ◌++◌, ◌<◌, OnOk, string_bytes};
ghost use Rattle.squall_picture.specs.Frame.{has_colour, occurs, square_text, beside_text, swatch_text, colours_text};
ghost use Rattle.squall_picture.specs.Frame.{signs_text, rows_text, word_text, legend_text};

use crate::bars::colour_of;
use squall_plan::PlanRange;
use std::alloc::AllocError;

/// Whether some range has a partition of the colour.
fn has_colour(ranges: &[PlanRange], colour: u32) -> bool
    ensures { result ≡ has_colour ranges.now colour }
{
    for range in ranges {
        if colour_of(range.part) == colour {
            return true;
        }
    }
    false
}

/// Whether a partition of one of the plans has the colour.
fn occurs(old: &[PlanRange], new: &[PlanRange], colour: u32) -> bool
    ensures { result ≡ occurs old.now new.now colour }
{
    has_colour(old, colour) || has_colour(new, colour)
}

/// Adds a square of the colour.
fn add_square(colour: u32, out: &mut String) -> Result<(), AllocError>
    requires { colour < 12 }
    ensures { OnOk result (string_bytes out.new ≡ string_bytes out.old ++ square_text colour) }
{
    let x = 206 + 32 * colour;
    write!(
        out,
        "<rect class='c{colour}' x='{x}' y='32' width='12' height='12'/>"
    )
}

/// Adds its number beside it.
fn add_beside(colour: u32, out: &mut String) -> Result<(), AllocError>
    requires { colour < 12 }
    ensures { OnOk result (string_bytes out.new ≡ string_bytes out.old ++ beside_text colour) }
{
    let x = 222 + 32 * colour;
    write!(out, "<text x='{x}' y='42'>{colour}</text>\n")
}

/// Adds a colour, if it occurs.
fn add_swatch(
    old: &[PlanRange],
    new: &[PlanRange],
    colour: u32,
    out: &mut String,
) -> Result<(), AllocError>
    requires { colour < 12 }
    ensures { OnOk result (string_bytes out.new ≡ string_bytes out.old ++ swatch_text old.now new.now colour) }
{
    if !occurs(old, new, colour) {
        return Ok(());
    }
    add_square(colour, out)?;
    add_beside(colour, out)
}

/// Adds the colours of the partitions, by rising number.
fn add_colours(old: &[PlanRange], new: &[PlanRange], out: &mut String) -> Result<(), AllocError>
    ensures { OnOk result (string_bytes out.new ≡ string_bytes out.old ++ colours_text old.now new.now) }
{
    for colour in 0..12 {
        add_swatch(old, new, colour, out)?;
    }
    Ok(())
}

/// Adds what the lines and the fillings of bands say.
fn add_signs(out: &mut String) -> Result<(), AllocError>
    ensures { OnOk result (string_bytes out.new ≡ string_bytes out.old ++ signs_text) }
{
    out.push_str(
        "<rect class='c0 load' x='96' y='54' width='24' height='12'/><text x='126' y='64'>loaded</text>\n",
    )?;
    out.push_str(
        "<rect class='c0 open' x='180' y='54' width='24' height='12'/><text x='210' y='64'>not loaded</text>\n",
    )?;
    out.push_str(
        "<rect class='c0 shut' x='280' y='54' width='24' height='12'/><text x='310' y='64'>sub-plan not opened</text>\n",
    )?;
    out.push_str("<text x='430' y='64'>number in a band: its sub-plan</text>\n")
}

/// Adds what comes before the rows.
fn add_rows(out: &mut String) -> Result<(), AllocError>
    ensures { OnOk result (string_bytes out.new ≡ string_bytes out.old ++ rows_text) }
{
    out.push_str("<text x='40' y='100'>old plan</text>\n<text x='40' y='220'>new plan</text>\n")
}

/// Adds what the colours are.
fn add_word(out: &mut String) -> Result<(), AllocError>
    ensures { OnOk result (string_bytes out.new ≡ string_bytes out.old ++ word_text) }
{
    out.push_str("<text x='96' y='42'>partition, modulo 12</text>\n")
}

/// Adds all of the legend.
pub(crate) fn add_legend(
    old: &[PlanRange],
    new: &[PlanRange],
    out: &mut String,
) -> Result<(), AllocError>
    ensures { OnOk result (string_bytes out.new ≡ string_bytes out.old ++ legend_text old.now new.now) }
{
    add_word(out)?;
    add_colours(old, new, out)?;
    add_signs(out)?;
    add_rows(out)
}
