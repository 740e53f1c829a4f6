//! What is put into a piece: completions, and cells of some spans.

ghost use Rattle.std.specs.Prelude.{◌≡◌, ◌<◌, false, length, IfOk};
ghost use Rattle.squall_report.specs.declared.report.ReportKind.TheVariants.{Done};
ghost use Rattle.squall_span.specs.Spans.{IsSet};
ghost use Rattle.squall_board.specs.Listed.{entry_with};

use squall_board::Cell;
use squall_report::{CellId, Report};
use squall_span::{Span, SpanSet};
use std::alloc::{AllocError, Global};

/// The report that the cell is complete.
pub(crate) fn completion(place: CellId) -> Report
    ensures { result ≡ Done place.number place.sub place.part }
{
    Report::done(place.number(), place.sub(), place.part().get()).unwrap()
}

/// What is loaded in the cell: the keys of the spans.
pub(crate) fn cell_of(alloc: Global, place: CellId, spans: &[Span]) -> Result<Cell, AllocError>
    requires spans { IsSet spans.now }
    requires some { 0 < length spans.now }
    ensures { IfOk result (λ cell. cell ≡ entry_with place false spans.now) }
{
    place.known();
    let keys = SpanSet::from_spans(alloc, spans)?;
    Ok(Cell::new(place.number(), place.sub(), place.part().get(), false, keys).unwrap())
}
