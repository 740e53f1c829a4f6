//! Whether a board tells already what is heard again. No test here allocates.

ghost use Rattle.std.specs.Prelude.{◌≡◌, ◌↔◌, ◌≤◌, ℕ, true, false, IsTrue};
ghost use Rattle.squall_join.specs.declared.flat.Flat.TheVariants.{Unknown, One};
ghost use Rattle.squall_span.specs.Spans.{has, span_has};
ghost use Rattle.squall_report.specs.Cells.{place_at};
ghost use Rattle.squall_report.specs.Facts.{Fact, LoadedKey, OpenedSub};
ghost use Rattle.squall_report.specs.Told.{TellsAll, both_issued, told_by_report};
ghost use Rattle.squall_board.specs.Boards.{cell_says, issued, says, told};

use crate::small::{OneCell, few_spans};
use squall_board::{Board, CellParts, Delta};
use squall_join::Flat;
use squall_report::{CellId, Issue, Report, ReportKind};
use squall_span::{Span, SpanSet};

/// Whether all keys of the span are in the other one.
fn lies_in(span: Span, other: Span) -> bool
    ensures { IsTrue result ↔ ((other.lo ≤ span.lo) × (span.hi ≤ other.hi)) }
{
    if span.lo().rank() < other.lo().rank() {
        return false;
    }
    span.hi().rank() <= other.hi().rank()
}

/// Whether the set has all keys of the span, by a binary search.
fn has_span(set: &SpanSet, span: Span) -> bool
    ensures { IsTrue result ↔ ((k : ℕ) → span_has span k ≡ true → has set.now k ≡ true) }
{
    match set.first_beyond(span.lo()) {
        Some(there) => lies_in(span, there),
        None => false,
    }
}

/// Whether the board says each key of the span loaded in the cell.
fn tells_load(board: &Board, cell: CellId, span: Span) -> bool
    ensures { IsTrue result ↔ ((k : ℕ) → span_has span k ≡ true → says board.now (LoadedKey cell k) ≡ true) }
{
    // The proof learns that the span has a key.
    let _bounds = (span.lo(), span.hi());
    match board.cell_at(cell) {
        Some(parts) => has_span(&parts.first, span),
        None => false,
    }
}

/// Whether the board issues the pair of plans under the number, or a clash.
fn tells_issue(board: &Board, number: u32, issue: &Issue) -> bool
    ensures { IsTrue result ↔ (both_issued (issued board.now number) (One issue.now) ≡ issued board.now number) }
{
    match board.issuing(number) {
        Flat::Unknown => false,
        Flat::One(known) => **known == *issue,
        Flat::Clash => true,
    }
}

/// Whether the board tells all that the report tells. The board is then unchanged if it takes the
/// report.
pub(crate) fn tells_report(board: &Board, report: &Report) -> bool
    ensures { IsTrue result ↔ TellsAll (told board.now) (told_by_report report.now) }
{
    match report.kind() {
        ReportKind::Loaded {
            number,
            sub,
            part,
            span,
        } => tells_load(board, CellId::of(number, sub, part), span),
        ReportKind::Done { number, sub, part } => board.says_done(number, sub, part),
        ReportKind::Opened { number, sub } => sub < board.opened(number),
        ReportKind::Issued { number, issue } => tells_issue(board, number, issue),
    }
}

/// Whether the set has all keys of the other one, by a binary search for each span of that one.
fn has_spans(set: &SpanSet, wanted: &SpanSet) -> bool
    ensures { IsTrue result → (k : ℕ) → has wanted.now k ≡ true → has set.now k ≡ true }
{
    for span in wanted.spans() {
        if !has_span(set, span) {
            return false;
        }
    }
    true
}

/// Whether one cell is complete, if the other one is.
fn is_complete_too(there: &CellParts, cell: &CellParts) -> bool
    ensures { IsTrue result → cell.now.second ≡ true → there.now.second ≡ true }
{
    there.second.get() || !cell.second.get()
}

/// Whether the board says all that the cell of a delta says.
fn tells_cell(board: &Board, one: OneCell) -> bool
    ensures { IsTrue result → (f : Fact)
        → cell_says (place_at one.entry.number one.entry.sub one.entry.part) one.entry.cell.now f ≡ true → says board.now f ≡ true }
{
    let Some(place) = CellId::new(one.number, one.sub, one.part) else {
        return false;
    };
    let Some(there) = board.cell_at(place) else {
        return false;
    };
    is_complete_too(there, one.cell) && has_spans(&there.first, &one.cell.first)
}

/// Whether the delta opens nothing and issues nothing. No opening takes no memory. `false` may also
/// mean that an allocation failed.
fn tells_cells_alone(delta: &Delta) -> bool
    ensures openings { IsTrue result → (number sub : ℕ) → says delta.now (OpenedSub number sub) ≡ false }
    ensures issues { IsTrue result → (number : ℕ) → issued delta.now number ≡ Unknown }
{
    if delta.has_issues() {
        return false;
    }
    match delta.openings() {
        Ok(openings) => openings.is_empty(),
        Err(_) => false,
    }
}

/// Whether the board tells all that the delta tells, which is one cell with few spans. `false` says
/// nothing. It does not walk the spans of the board's cell, which may be many.
pub(crate) fn tells_small(board: &Board, delta: &Delta) -> bool
    ensures { IsTrue result → TellsAll (told board.now) (told delta.now) }
{
    match few_spans(delta) {
        Some(one) => tells_cell(board, one) && tells_cells_alone(delta),
        None => false,
    }
}
