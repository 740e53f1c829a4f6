//! What was reported of a cell.

ghost use Rattle.std.specs.Prelude.{◌≡◌, true, ◌||◌};
ghost use Rattle.squall_board.specs.Listed.{IsCell, entry_with, entry_of, has_spans};
ghost use Rattle.squall_report.specs.Cells.{is_cell_place};
ghost use Rattle.squall_span.specs.Spans.{IsSet};

use squall_report::CellId;
use squall_span::SpanSet;
use std::marker::Model;

/// What was reported of a partition in a sub-plan of a reconfiguration: the keys loaded there, and
/// whether it is complete. A cell says something: it has a key, or is complete.
///
/// Contracts see a cell as its place, whether it is complete, and the spans of its keys.
#[derive(Drop)]
pub struct Cell {
    place: CellId,
    complete: bool,
    spans: SpanSet,
}

impl Model for Cell {
    ghost use Rattle.squall_board.specs.Listed.{CellEntry, IsCell, entry_with};

    ghost Value = { CellEntry };

    ghost view = { λ c. entry_with c.place c.complete c.spans };

    ghost invariant = { λ c. IsCell (entry_with c.place c.complete c.spans) };
}

impl Cell {
    /// The cell of that partition in that sub-plan of the reconfiguration of that number. None if
    /// the number is 0, if the sub-plan or the partition is above 9999, or if the cell says
    /// nothing: it is not complete, and has no key.
    pub fn new(number: u32, sub: u32, part: u32, complete: bool, spans: SpanSet) -> Option<Cell>
        ensures { result ≡ entry_of number sub part complete spans }
    {
        let place = CellId::new(number, sub, part)?;
        if !complete && spans.is_empty() {
            return None;
        }
        spans.known();
        place.known();
        Some(Cell {
            place,
            complete,
            spans,
        })
    }

    /// The place of the cell: its number, its sub-plan and its partition.
    pub fn place(&self) -> CellId
        ensures { result ≡ self.now.cell }
    {
        self.place
    }

    /// The reconfiguration's number, from 1 on.
    pub fn number(&self) -> u32
        ensures { result ≡ self.now.cell.number }
    {
        self.place.number()
    }

    /// The sub-plan, at most 9999.
    pub fn sub(&self) -> u32
        ensures { result ≡ self.now.cell.sub }
    {
        self.place.sub()
    }

    /// The partition, at most 9999.
    pub fn part(&self) -> u32
        ensures { result ≡ self.now.cell.part }
    {
        self.place.part().get()
    }

    /// Whether the partition has all the keys that the sub-plan brings it.
    pub fn complete(&self) -> bool
        ensures { result ≡ self.now.complete }
    {
        self.complete
    }

    /// The keys that the partition has loaded in the sub-plan.
    pub fn spans(&self) -> &SpanSet
        ensures { result.now ≡ self.now.spans }
    {
        &self.spans
    }

    /// The keys of the cell, which is used up.
    pub(crate) fn into_spans(self) -> SpanSet
        ensures { result ≡ self.spans }
    {
        self.spans
    }

    /// The cell of an entry of a board.
    pub(crate) fn of_entry(place: CellId, complete: bool, spans: SpanSet) -> Cell
        requires { IsCell (entry_with place complete spans) }
        ensures { result ≡ entry_with place complete spans }
    {
        Cell {
            place,
            complete,
            spans,
        }
    }

    /// Changes nothing: after it a proof knows what holds of every cell. Its numbers lie within
    /// their limits, it is complete or has a key, and its spans are a set of keys.
    pub fn known(&self)
        ensures cell { IsCell self.now }
        ensures place { is_cell_place self.now.cell ≡ true }
        ensures kept { (self.now.complete || has_spans self.now.spans) ≡ true }
        ensures spans { IsSet self.now.spans }
    {
        let _place = self.place;
    }
}
