//! Edits of several sets: all of them or none, and without a copy of a set.

ghost use Rattle.std.specs.Prelude.{◌≡◌, [], ◌∷◌, IfOk, OnOk, OnErr};
ghost use Rattle.squall_span.specs.Spans.{insert_span, without_span, union, minus};
ghost use Rattle.squall_board.specs.Boards.{IsBoard};
ghost use Rattle.squall_board.specs.Takes.{TakesReport};

use squall_board::Board;
use squall_report::Report;
use squall_span::{SetDraft, Span, SpanSet};
use std::alloc::{AllocError, Global};
use std::mem;

/// Takes the set out, with a draft that adds the keys of the spans. An error means that an
/// allocation failed. The set is then unchanged.
fn drafted_with_all(
    alloc: Global,
    set: &mut SpanSet,
    spans: Vec<Span>,
) -> Result<SetDraft, AllocError>
    ensures before { IfOk result (λ d. d.before ≡ set.old) }
    ensures after { IfOk result (λ d. d.after ≡ union set.old spans.items) }
    ensures err { OnErr result (set.new ≡ set.old) }
{
    match mem::replace(set, SpanSet::empty(alloc)).draft_insert_all(spans) {
        Ok(draft) => Ok(draft),
        Err(unchanged) => {
            *set = unchanged;
            Err(AllocError)
        }
    }
}

/// Takes the set out, with a draft that adds the keys of the span. An error means that an allocation
/// failed. The set is then unchanged.
fn drafted_with(alloc: Global, set: &mut SpanSet, span: Span) -> Result<SetDraft, AllocError>
    ensures before { IfOk result (λ d. d.before ≡ set.old) }
    ensures after { IfOk result (λ d. d.after ≡ insert_span span set.old) }
    ensures err { OnErr result (set.new ≡ set.old) }
{
    match mem::replace(set, SpanSet::empty(alloc)).draft_insert(span) {
        Ok(draft) => Ok(draft),
        Err(unchanged) => {
            *set = unchanged;
            Err(AllocError)
        }
    }
}

/// Takes the set out, with a draft that removes the keys of the span. An error means that an
/// allocation failed. The set is then unchanged.
fn drafted_without(alloc: Global, set: &mut SpanSet, span: Span) -> Result<SetDraft, AllocError>
    ensures before { IfOk result (λ d. d.before ≡ set.old) }
    ensures after { IfOk result (λ d. d.after ≡ without_span span set.old) }
    ensures err { OnErr result (set.new ≡ set.old) }
{
    match mem::replace(set, SpanSet::empty(alloc)).draft_remove(span) {
        Ok(draft) => Ok(draft),
        Err(unchanged) => {
            *set = unchanged;
            Err(AllocError)
        }
    }
}

/// Gives the keys of a span: they are held no longer, and given. An error means that an allocation
/// failed. Both sets are then unchanged.
pub(crate) fn hand_over(
    alloc: Global,
    held: &mut SpanSet,
    given: &mut SpanSet,
    span: Span,
) -> Result<(), AllocError>
    ensures held { OnOk result (held.new ≡ without_span span held.old) }
    ensures given { OnOk result (given.new ≡ insert_span span given.old) }
    ensures err { OnErr result ((held.new ≡ held.old) × (given.new ≡ given.old)) }
{
    let less = drafted_without(alloc, held, span)?;
    match given.insert(span) {
        Ok(()) => {
            *held = less.keep();
            Ok(())
        }
        Err(error) => {
            *held = less.undo();
            Err(error)
        }
    }
}

/// Takes both sets out, with drafts that add the keys of the fresh spans to the first, and those of
/// the span to the second. An error means that an allocation failed. Both sets are then unchanged.
fn both_drafted(
    alloc: Global,
    held: &mut SpanSet,
    fresh: Vec<Span>,
    loaded: &mut SpanSet,
    span: Span,
) -> Result<(SetDraft, SetDraft), AllocError>
    ensures held { IfOk result (λ d. (d.0.before ≡ held.old) × (d.0.after ≡ union held.old fresh.items)) }
    ensures loaded { IfOk result (λ d. (d.1.before ≡ loaded.old) × (d.1.after ≡ insert_span span loaded.old)) }
    ensures err { OnErr result ((held.new ≡ held.old) × (loaded.new ≡ loaded.old)) }
{
    let more = drafted_with_all(alloc, held, fresh)?;
    match drafted_with(alloc, loaded, span) {
        Ok(other) => Ok((more, other)),
        Err(error) => {
            *held = more.undo();
            Err(error)
        }
    }
}

/// Loads the keys of a span: those that were not loaded are held, all are loaded, and the board
/// takes the report. An error means that an allocation failed. All three are then unchanged.
fn load_keys(
    alloc: Global,
    board: &mut Board,
    held: &mut SpanSet,
    loaded: &mut SpanSet,
    span: Span,
    report: &Report,
) -> Result<(), AllocError>
    ensures takes { OnOk result (TakesReport board.old report.now board.new) }
    ensures valid { OnOk result (IsBoard board.new) }
    ensures held { OnOk result (held.new ≡ union held.old (minus (span ∷ []) loaded.old)) }
    ensures loaded { OnOk result (loaded.new ≡ insert_span span loaded.old) }
    ensures err { OnErr result ((board.new ≡ board.old) × (held.new ≡ held.old) × (loaded.new ≡ loaded.old)) }
{
    let fresh = SpanSet::of(alloc, &span)?
        .minus(alloc, loaded)?
        .into_list(alloc)?;
    let (more_held, more_loaded) = both_drafted(alloc, held, fresh, loaded, span)?;
    let taken = board.take(report);
    if taken.is_ok() {
        *held = more_held.keep();
        *loaded = more_loaded.keep();
    } else {
        *held = more_held.undo();
        *loaded = more_loaded.undo();
    }
    board.known();
    taken
}

/// Loads the keys of a span as [`load_keys`] does, and then none of them is awaited. An error means
/// that an allocation failed. All four are then unchanged.
pub(crate) fn load_awaited(
    alloc: Global,
    board: &mut Board,
    held: &mut SpanSet,
    loaded: &mut SpanSet,
    awaited: &mut SpanSet,
    span: Span,
    report: &Report,
) -> Result<(), AllocError>
    ensures takes { OnOk result (TakesReport board.old report.now board.new) }
    ensures valid { OnOk result (IsBoard board.new) }
    ensures held { OnOk result (held.new ≡ union held.old (minus (span ∷ []) loaded.old)) }
    ensures loaded { OnOk result (loaded.new ≡ insert_span span loaded.old) }
    ensures awaited { OnOk result (awaited.new ≡ without_span span awaited.old) }
    ensures err { OnErr result ((board.new ≡ board.old) × (held.new ≡ held.old) × (loaded.new ≡ loaded.old) × (awaited.new ≡ awaited.old)) }
{
    let less = drafted_without(alloc, awaited, span)?;
    let result = load_keys(alloc, board, held, loaded, span, report);
    *awaited = if result.is_ok() {
        less.keep()
    } else {
        less.undo()
    };
    result
}
