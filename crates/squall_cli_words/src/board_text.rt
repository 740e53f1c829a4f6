//! What the line `board` shows of a board.

ghost use Rattle.std.specs.Prelude.{◌≡◌, ◌++◌, OnOk, map, string_bytes};
ghost use Rattle.std.specs.Arc.{arc_value};
ghost use Rattle.squall_join.specs.Flats.{flat_map};
ghost use Rattle.squall_board.specs.Listed.{cell_entry};
ghost use Rattle.squall_cli_words.specs.BoardText.{opening_lines, line_of_issue, issue_lines, text_of_complete, next_spans};
ghost use Rattle.squall_cli_words.specs.BoardText.{cell_line, cell_lines, text_of_lists, board_text};

use squall_board::{Board, CellParts, Opening};
use squall_join::Flat;
use squall_report::{CellId, Issue};
use squall_span::Spans;
use std::alloc::AllocError;
use std::sync::Arc;

/// Adds the lines of the openings.
fn add_openings(openings: &[Opening], out: &mut String) -> Result<(), AllocError>
    ensures { OnOk result (string_bytes out.new ≡ string_bytes out.old ++ opening_lines openings.now) }
{
    for opening in openings {
        let number = opening.number;
        let count = opening.count;
        write!(out, "opened {number} {count}\n")?;
    }
    Ok(())
}

/// Adds the line of what is issued under the number.
fn add_issue(number: u32, issue: &Flat<Arc<Issue>>, out: &mut String) -> Result<(), AllocError>
    ensures { OnOk result (string_bytes out.new ≡ string_bytes out.old ++ line_of_issue number (flat_map arc_value issue.now)) }
{
    match issue {
        Flat::Unknown => Ok(()),
        Flat::One(_) => write!(out, "issue {number} one\n"),
        Flat::Clash => write!(out, "issue {number} clash\n"),
    }
}

/// Adds the lines of what is issued.
fn add_issues(issues: &[(u32, Flat<Arc<Issue>>)], out: &mut String) -> Result<(), AllocError>
    ensures { OnOk result (string_bytes out.new ≡ string_bytes out.old ++ issue_lines (map (λ e. (e.0, flat_map arc_value e.1)) issues.now)) }
{
    for entry in issues {
        add_issue(entry.0, &entry.1, out)?;
    }
    Ok(())
}

/// Whether a partition is done, in a word.
fn complete_text(complete: bool) -> &'static str
    ensures { result.now ≡ text_of_complete complete }
{
    if complete { "done" } else { "open" }
}

/// Adds the spans, with a blank before each.
fn add_spans(spans: Spans<'_>, out: &mut String) -> Result<(), AllocError>
    ensures { OnOk result (string_bytes out.new ≡ string_bytes out.old ++ next_spans spans.entry) }
{
    for span in spans {
        write!(out, " {span}")?;
    }
    Ok(())
}

/// Adds the line of a cell at its place.
fn add_cell(place: CellId, cell: &CellParts, out: &mut String) -> Result<(), AllocError>
    ensures { OnOk result (string_bytes out.new ≡ string_bytes out.old ++ cell_line (cell_entry place cell.now)) }
{
    let number = place.number();
    let sub = place.sub();
    let part = place.part().get();
    let complete = complete_text(cell.second.get());
    write!(out, "cell {number} {sub} {part} {complete}")?;
    add_spans(cell.first.spans(), out)?;
    write!(out, "\n")
}

/// Adds the lines of the cells.
fn add_cells(cells: &[(CellId, &CellParts)], out: &mut String) -> Result<(), AllocError>
    ensures { OnOk result (string_bytes out.new ≡ string_bytes out.old ++ cell_lines (map (λ c. cell_entry c.0 c.1.now) cells.now)) }
{
    for cell in cells {
        add_cell(cell.0, cell.1, out)?;
    }
    Ok(())
}

/// Adds the lines of openings, of what is issued, and of cells, or `empty`.
fn add_lists(
    openings: &[Opening],
    issues: &[(u32, Flat<Arc<Issue>>)],
    cells: &[(CellId, &CellParts)],
    out: &mut String,
) -> Result<(), AllocError>
    ensures { OnOk result (string_bytes out.new ≡ string_bytes out.old
        ++ text_of_lists openings.now (map (λ e. (e.0, flat_map arc_value e.1)) issues.now) (map (λ c. cell_entry c.0 c.1.now) cells.now)) }
{
    if openings.is_empty() && issues.is_empty() && cells.is_empty() {
        return write!(out, "empty\n");
    }
    add_openings(openings, out)?;
    add_issues(issues, out)?;
    add_cells(cells, out)
}

/// Adds the lines of the board: one for each number with openings, for each number under which
/// plans are issued, and for each cell. An empty board is `empty`. It copies no keys.
#[tactic(auto, using(crate::proofs::BoardLists::lists_tell_the_board))]
pub fn add_board(board: &Board, out: &mut String) -> Result<(), AllocError>
    ensures { OnOk result (string_bytes out.new ≡ string_bytes out.old ++ board_text board.now) }
{
    let openings = board.openings()?;
    let issues = board.issues()?;
    let cells = board.lent_cells()?;
    add_lists(&openings, &issues, &cells, out)
}
