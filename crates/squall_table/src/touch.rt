//! The keys that a delta or a report touches.
//!
//! A function has one loop at most. So a walk over the cells of a delta takes a function for each
//! level.

ghost use Rattle.std.specs.Prelude.{◌≡◌, ℕ, ◌||◌, ◌&&◌, max, min, IfOk, OnOk};
ghost use Rattle.squall_span.specs.Spans.{has, span_has, span_at};
ghost use Rattle.squall_course.specs.Moves.{goes_to, move_has};
ghost use Rattle.squall_report.specs.declared.report.ReportKind.TheVariants.{Loaded, Done};
ghost use Rattle.squall_report.specs.Facts.{report_says};
ghost use Rattle.squall_report.specs.Told.{TellsBoth};
ghost use Rattle.squall_board.specs.Boards.{BoardValue, says, told};
ghost use Rattle.squall_table.specs.Legs.{MovesRise};
ghost use Rattle.squall_table.specs.Touched.{is_touched, ChangesWithin};
ghost use Rattle.squall_table.specs.Touching.{brought, touched_by_cell, touched_by_parts, touched_by_subs};

use crate::routes::first_move;
use squall_board::{CellParts, Delta};
use squall_course::{Course, Move};
use squall_join::JoinMap;
use squall_report::{CellId, Report, ReportKind};
use squall_span::{Span, SpanSet, Spans};
use std::alloc::{AllocError, Global};

/// The keys that are in both spans. `None` if they share none.
fn shared(span: Span, other: Span) -> Option<Span>
    ensures { result ≡ span_at (max span.lo other.lo) (min span.hi other.hi) }
{
    Span::new(span.lo().max(other.lo()), span.hi().min(other.hi()))
}

/// Adds the keys of the span that the move brings to the partition in the sub-plan.
fn add_shared(
    out: &mut SpanSet,
    one: &Move,
    sub: u32,
    part: u32,
    span: Span,
) -> Result<(), AllocError>
    ensures { OnOk result ((k : ℕ) → has out.new k ≡ (has out.old k || (span_has span k && (goes_to sub part one.now && move_has k one.now)))) }
{
    if one.sub != sub || one.dest.get() != part {
        return Ok(());
    }
    match shared(span, one.span) {
        Some(keys) => out.insert(keys),
        None => Ok(()),
    }
}

/// Adds the keys of the span that moves bring to the partition in the sub-plan. It looks only at
/// the first moves, those that begin before the span's end.
fn add_first(
    out: &mut SpanSet,
    moves: &[Move],
    sub: u32,
    part: u32,
    span: Span,
) -> Result<(), AllocError>
    requires { MovesRise 0 moves.now }
    ensures { OnOk result ((k : ℕ) → has out.new k ≡ (has out.old k || (span_has span k && brought sub part moves.now k))) }
{
    for one in moves {
        if span.hi() <= one.span.lo() {
            return Ok(());
        }
        add_shared(out, one, sub, part, span)?;
    }
    Ok(())
}

/// Adds the keys of the span that moves bring to the partition in the sub-plan. A binary search
/// finds the first move that ends beyond the span's start.
fn add_span(
    out: &mut SpanSet,
    moves: &[Move],
    sub: u32,
    part: u32,
    span: Span,
) -> Result<(), AllocError>
    requires { MovesRise 0 moves.now }
    ensures { OnOk result ((k : ℕ) → has out.new k ≡ (has out.old k || (span_has span k && brought sub part moves.now k))) }
{
    let first = first_move(moves, span.lo());
    add_first(out, &moves[first..], sub, part, span)
}

/// Adds the keys of all moves to the partition in the sub-plan.
fn add_moves(out: &mut SpanSet, moves: &[Move], sub: u32, part: u32) -> Result<(), AllocError>
    ensures { OnOk result ((k : ℕ) → has out.new k ≡ (has out.old k || brought sub part moves.now k)) }
{
    for one in moves {
        if one.sub == sub && one.dest.get() == part {
            out.insert(one.span)?;
        }
    }
    Ok(())
}

/// Adds those keys of the spans that moves bring to the partition in the sub-plan.
fn add_spans(
    out: &mut SpanSet,
    moves: &[Move],
    sub: u32,
    part: u32,
    spans: Spans<'_>,
) -> Result<(), AllocError>
    requires { MovesRise 0 moves.now }
    ensures { OnOk result ((k : ℕ) → has out.new k ≡ (has out.old k || (has spans.entry k && brought sub part moves.now k))) }
{
    for span in spans {
        add_span(out, moves, sub, part, span)?;
    }
    Ok(())
}

/// Adds the keys that the cell touches. If it is complete, these are all keys that come in to it.
/// If not, they are those that come in and were loaded.
fn add_cell(
    out: &mut SpanSet,
    moves: &[Move],
    sub: u32,
    part: u32,
    cell: &CellParts,
) -> Result<(), AllocError>
    requires { MovesRise 0 moves.now }
    ensures { OnOk result ((k : ℕ) → has out.new k ≡ (has out.old k || touched_by_cell moves.now sub part cell.now k)) }
{
    if cell.second.get() {
        return add_moves(out, moves, sub, part);
    }
    add_spans(out, moves, sub, part, cell.first.spans())
}

/// Adds the keys that the cells of a sub-plan touch.
fn add_parts(
    out: &mut SpanSet,
    moves: &[Move],
    sub: u32,
    parts: &[(u32, CellParts)],
) -> Result<(), AllocError>
    requires { MovesRise 0 moves.now }
    ensures { OnOk result ((k : ℕ) → has out.new k ≡ (has out.old k || touched_by_parts moves.now sub parts.now k)) }
{
    for entry in parts {
        add_cell(out, moves, sub, entry.0, &entry.1)?;
    }
    Ok(())
}

/// Adds the keys that the cells of the sub-plans touch.
fn add_subs(
    out: &mut SpanSet,
    moves: &[Move],
    subs: &[(u32, JoinMap<u32, CellParts>)],
) -> Result<(), AllocError>
    requires { MovesRise 0 moves.now }
    ensures { OnOk result ((k : ℕ) → has out.new k ≡ (has out.old k || touched_by_subs moves.now subs.now k)) }
{
    for entry in subs {
        add_parts(out, moves, entry.0, entry.1.entries())?;
    }
    Ok(())
}

/// The keys that the delta touches. Only cells of the course's number touch keys. A complete cell
/// touches all keys that come in to it, and any other cell those of them that were loaded. So each
/// key whose route changes when the delta is merged into a board is among them, whatever the board
/// told before. An error means that an allocation failed.
pub fn touched(alloc: Global, course: &Course, delta: &Delta) -> Result<SpanSet, AllocError>
    ensures keys { IfOk result (λ set. (k : ℕ) → has set k ≡ is_touched course.now (says delta.now) k) }
    ensures changed { IfOk result (λ set. (before after : BoardValue) → TellsBoth (told after) (told before) (told delta.now)
        → ChangesWithin course.now before after set) }
{
    delta.known();
    let mut set = SpanSet::empty(alloc);
    let Some(subs) = delta.cell_map().get(&course.number()) else {
        return Ok(set);
    };
    add_subs(&mut set, course.moves(), subs.entries())?;
    Ok(set)
}

/// The keys that a load of the span at the cell touches: those that moves bring there, if the
/// cell's number is the course's, and else none.
fn touched_by_load(
    alloc: Global,
    course: &Course,
    cell: CellId,
    span: Span,
) -> Result<SpanSet, AllocError>
    ensures { IfOk result (λ set. (k : ℕ) → has set k ≡ is_touched course.now (report_says (Loaded cell.number cell.sub cell.part span)) k) }
{
    let mut set = SpanSet::empty(alloc);
    if cell.number() != course.number() {
        return Ok(set);
    }
    add_span(
        &mut set,
        course.moves(),
        cell.sub(),
        cell.part().get(),
        span,
    )?;
    Ok(set)
}

/// The keys that a completion of the cell touches: all that moves bring there, if the cell's number
/// is the course's, and else none.
fn touched_by_completion(
    alloc: Global,
    course: &Course,
    cell: CellId,
) -> Result<SpanSet, AllocError>
    ensures { IfOk result (λ set. (k : ℕ) → has set k ≡ is_touched course.now (report_says (Done cell.number cell.sub cell.part)) k) }
{
    if cell.number() != course.number() {
        return Ok(SpanSet::empty(alloc));
    }
    course.incoming(alloc, cell.sub(), cell.part())
}

/// The keys that the report touches. Under the course's number a load touches those of its keys
/// that come in to its cell, and a completion all keys that come in to its cell. Other reports
/// touch none. An error means that an allocation failed.
pub(crate) fn touched_by_report(
    alloc: Global,
    course: &Course,
    report: &Report,
) -> Result<SpanSet, AllocError>
    ensures { IfOk result (λ set. (k : ℕ) → has set k ≡ is_touched course.now (report_says report.now) k) }
{
    match report.kind() {
        ReportKind::Loaded {
            number,
            sub,
            part,
            span,
        } => touched_by_load(alloc, course, CellId::of(number, sub, part), span),
        ReportKind::Done { number, sub, part } => {
            touched_by_completion(alloc, course, CellId::of(number, sub, part))
        }
        ReportKind::Opened { .. } | ReportKind::Issued { .. } => Ok(SpanSet::empty(alloc)),
    }
}
