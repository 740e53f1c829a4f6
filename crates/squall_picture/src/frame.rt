//! The head of a picture: its size, its names, how classes look, and the course in a line.

ghost use Rattle.std.specs.Prelude.{◌≡◌, ◌++◌, OnOk, codes, length, string_bytes};
ghost use Rattle.std.specs.List.{count_by};
ghost use Rattle.squall_status.specs.Shares.{is_over, is_ended, course_share};
ghost use Rattle.squall_status.specs.Texts.{open_text};
ghost use Rattle.squall_picture.specs.Frame.{size_text, role_text, svg_text, title_text, names_text};
ghost use Rattle.squall_picture.specs.Frame.{ended_text, counts_text, share_text, number_text, summary_text};
ghost use Rattle.squall_picture.specs.Frame.{first_colours, second_colours, third_colours, last_colours, palette_text};
ghost use Rattle.squall_picture.specs.Frame.{bar_look, band_look, tick_look, lines_text, sheet_text};
ghost use Rattle.squall_picture.specs.Frame.{style_text, ground_text, head_text};

use squall_status::{CourseStatus, complete_moves, course_share, ended_subplans};
use std::alloc::AllocError;

/// Adds how large the picture is, in its outermost tag.
fn add_size(width: usize, out: &mut String) -> Result<(), AllocError>
    ensures { OnOk result (string_bytes out.new ≡ string_bytes out.old ++ size_text width) }
{
    write!(
        out,
        "<svg xmlns='http://www.w3.org/2000/svg' viewBox='0 0 {width} 348' width='{width}' height='348'"
    )
}

/// Adds the rest of the outermost tag: what names and describes the picture, and its letters.
fn add_role(out: &mut String) -> Result<(), AllocError>
    ensures { OnOk result (string_bytes out.new ≡ string_bytes out.old ++ role_text) }
{
    out.push_str(
        " role='img' aria-labelledby='squall-title squall-desc' font-family='sans-serif' font-size='10'>\n",
    )
}

/// Adds the outermost tag.
fn add_svg(width: usize, out: &mut String) -> Result<(), AllocError>
    ensures { OnOk result (string_bytes out.new ≡ string_bytes out.old ++ svg_text width) }
{
    add_size(width, out)?;
    add_role(out)
}

/// Adds which sub-plan is open.
fn add_open(open_sub: Option<u32>, out: &mut String) -> Result<(), AllocError>
    ensures { OnOk result (string_bytes out.new ≡ string_bytes out.old ++ open_text open_sub) }
{
    match open_sub {
        Some(sub) => write!(out, "{sub}"),
        None => write!(out, "none"),
    }
}

/// Adds how many moves of a course are complete, and how many of its sub-plans have ended.
fn add_ended(status: &CourseStatus, out: &mut String) -> Result<(), AllocError>
    ensures { OnOk result (string_bytes out.new ≡ string_bytes out.old
        ++ ended_text (count_by is_over status.now.moves) (length status.now.moves)
        (count_by is_ended status.now.subplans) (length status.now.subplans)) }
{
    let over = complete_moves(status.moves());
    let moves = status.moves().len();
    let ended = ended_subplans(status.subplans());
    let subplans = status.subplans().len();
    write!(
        out,
        "moves {over} of {moves}, sub-plans {ended} of {subplans}, open "
    )
}

/// Adds the same, and which sub-plan is open.
fn add_counts(status: &CourseStatus, out: &mut String) -> Result<(), AllocError>
    ensures { OnOk result (string_bytes out.new ≡ string_bytes out.old ++ counts_text status.now) }
{
    add_ended(status, out)?;
    add_open(status.open_subplan(), out)
}

/// Adds how many keys of the course are loaded, and its share.
fn add_share(status: &CourseStatus, out: &mut String) -> Result<(), AllocError>
    ensures { OnOk result (string_bytes out.new ≡ string_bytes out.old
        ++ share_text status.now.loaded status.now.keys (course_share status.now.moves)) }
{
    let loaded = status.loaded();
    let keys = status.keys();
    let share = course_share(status.moves());
    write!(out, ", loaded {loaded} of {keys} keys, share {share}/1000")
}

/// Adds the number of the course.
fn add_number(status: &CourseStatus, out: &mut String) -> Result<(), AllocError>
    ensures { OnOk result (string_bytes out.new ≡ string_bytes out.old ++ number_text status.now.number) }
{
    let number = status.number();
    write!(out, "course {number}: ")
}

/// Adds the course in a line.
fn add_summary(status: &CourseStatus, out: &mut String) -> Result<(), AllocError>
    ensures { OnOk result (string_bytes out.new ≡ string_bytes out.old ++ summary_text status.now) }
{
    add_number(status, out)?;
    add_counts(status, out)?;
    add_share(status, out)
}

/// Adds the name of the picture.
fn add_title(status: &CourseStatus, out: &mut String) -> Result<(), AllocError>
    ensures { OnOk result (string_bytes out.new ≡ string_bytes out.old ++ title_text status.now.number) }
{
    let number = status.number();
    write!(
        out,
        "<title id='squall-title'>course {number}</title>\n<desc id='squall-desc'>"
    )
}

/// Ends the description.
fn end_names(out: &mut String) -> Result<(), AllocError>
    ensures { OnOk result (string_bytes out.new ≡ string_bytes out.old ++ codes "</desc>\n") }
{
    out.push_str("</desc>\n")
}

/// Adds the name of the picture, and what it shows.
fn add_names(status: &CourseStatus, out: &mut String) -> Result<(), AllocError>
    ensures { OnOk result (string_bytes out.new ≡ string_bytes out.old ++ names_text status.now) }
{
    add_title(status, out)?;
    add_summary(status, out)?;
    end_names(out)
}

/// Adds the first three colours.
fn add_first_colours(out: &mut String) -> Result<(), AllocError>
    ensures { OnOk result (string_bytes out.new ≡ string_bytes out.old ++ first_colours) }
{
    out.push_str(
        ".c0{fill:#9aa0a6;stroke:#9aa0a6}.c1{fill:#5b9bd5;stroke:#5b9bd5}.c2{fill:#f0a030;stroke:#f0a030}\n",
    )
}

/// Adds the second three colours.
fn add_second_colours(out: &mut String) -> Result<(), AllocError>
    ensures { OnOk result (string_bytes out.new ≡ string_bytes out.old ++ second_colours) }
{
    out.push_str(
        ".c3{fill:#58b368;stroke:#58b368}.c4{fill:#e57373;stroke:#e57373}.c5{fill:#a884d8;stroke:#a884d8}\n",
    )
}

/// Adds the third three colours.
fn add_third_colours(out: &mut String) -> Result<(), AllocError>
    ensures { OnOk result (string_bytes out.new ≡ string_bytes out.old ++ third_colours) }
{
    out.push_str(
        ".c6{fill:#c49a6c;stroke:#c49a6c}.c7{fill:#ec8fc4;stroke:#ec8fc4}.c8{fill:#b5b83d;stroke:#b5b83d}\n",
    )
}

/// Adds the last three colours.
fn add_last_colours(out: &mut String) -> Result<(), AllocError>
    ensures { OnOk result (string_bytes out.new ≡ string_bytes out.old ++ last_colours) }
{
    out.push_str(
        ".c9{fill:#3fb8c5;stroke:#3fb8c5}.c10{fill:#7c8fe0;stroke:#7c8fe0}.c11{fill:#2f9e8f;stroke:#2f9e8f}\n",
    )
}

/// Adds the twelve colours.
fn add_palette(out: &mut String) -> Result<(), AllocError>
    ensures { OnOk result (string_bytes out.new ≡ string_bytes out.old ++ palette_text) }
{
    add_first_colours(out)?;
    add_second_colours(out)?;
    add_third_colours(out)?;
    add_last_colours(out)
}

/// Adds how letters and bars look.
fn add_bar_look(out: &mut String) -> Result<(), AllocError>
    ensures { OnOk result (string_bytes out.new ≡ string_bytes out.old ++ bar_look) }
{
    out.push_str(
        "text{fill:#111}rect{stroke-width:0}.load{fill-opacity:.8}.bar rect{stroke:#fff;stroke-width:.4}\n",
    )
}

/// Adds how bands look.
fn add_band_look(out: &mut String) -> Result<(), AllocError>
    ensures { OnOk result (string_bytes out.new ≡ string_bytes out.old ++ band_look) }
{
    out.push_str(
        ".open{fill-opacity:.25;stroke-width:2}.shut{fill-opacity:.1;stroke-width:1;stroke-dasharray:4 3}.thin{stroke-width:0}\n",
    )
}

/// Adds how bounds look.
fn add_tick_look(out: &mut String) -> Result<(), AllocError>
    ensures { OnOk result (string_bytes out.new ≡ string_bytes out.old ++ tick_look) }
{
    out.push_str(".tick path{stroke:#111}.tick text{text-anchor:end}\n")
}

/// Adds how lines and text look.
fn add_lines(out: &mut String) -> Result<(), AllocError>
    ensures { OnOk result (string_bytes out.new ≡ string_bytes out.old ++ lines_text) }
{
    add_bar_look(out)?;
    add_band_look(out)?;
    add_tick_look(out)
}

/// Begins the style sheet.
fn begin_style(out: &mut String) -> Result<(), AllocError>
    ensures { OnOk result (string_bytes out.new ≡ string_bytes out.old ++ codes "<style>\n") }
{
    out.push_str("<style>\n")
}

/// Ends the style sheet.
fn end_style(out: &mut String) -> Result<(), AllocError>
    ensures { OnOk result (string_bytes out.new ≡ string_bytes out.old ++ codes "</style>\n") }
{
    out.push_str("</style>\n")
}

/// Adds the style sheet.
fn add_style(out: &mut String) -> Result<(), AllocError>
    ensures { OnOk result (string_bytes out.new ≡ string_bytes out.old ++ style_text) }
{
    begin_style(out)?;
    add_palette(out)?;
    add_lines(out)?;
    end_style(out)
}

/// Adds a white sheet, and begins the text on it.
fn add_sheet(width: usize, out: &mut String) -> Result<(), AllocError>
    ensures { OnOk result (string_bytes out.new ≡ string_bytes out.old ++ sheet_text width) }
{
    write!(
        out,
        "<rect width='{width}' height='348' fill='#fff'/>\n<text x='96' y='20' font-size='13'>"
    )
}

/// Ends a text.
fn end_text(out: &mut String) -> Result<(), AllocError>
    ensures { OnOk result (string_bytes out.new ≡ string_bytes out.old ++ codes "</text>\n") }
{
    out.push_str("</text>\n")
}

/// Adds a white ground, and on it the course in a line.
fn add_ground(width: usize, status: &CourseStatus, out: &mut String) -> Result<(), AllocError>
    ensures { OnOk result (string_bytes out.new ≡ string_bytes out.old ++ ground_text width status.now) }
{
    add_sheet(width, out)?;
    add_summary(status, out)?;
    end_text(out)
}

/// Adds all of the head.
pub(crate) fn add_head(
    width: usize,
    status: &CourseStatus,
    out: &mut String,
) -> Result<(), AllocError>
    ensures { OnOk result (string_bytes out.new ≡ string_bytes out.old ++ head_text width status.now) }
{
    add_svg(width, out)?;
    add_names(status, out)?;
    add_style(out)?;
    add_ground(width, status, out)
}
