//! How much a board tells, in numbers.

ghost use Rattle.std.specs.Prelude.{◌≡◌, ◌↔◌, ◌++◌, IfOk, IfSome, IfNone, IsTrue, length, map, [], ◌∷◌};
ghost use Rattle.std.specs.List.{sum_by};
ghost use Rattle.squall_board.specs.Listed.{cell_entry};
ghost use Rattle.squall_status.specs.Tallies.{at_most_64_bits, spans_of, sub_plans_of, tally_of, tally_sum, FitsTally, IsWithin};

use squall_board::{Board, CellParts, Opening};
use squall_report::CellId;
use std::alloc::AllocError;

/// How much a board tells. A number that does not fit 64 bits is the greatest one that does.
#[repr(C)]
#[derive(Clone, Copy, Debug, PartialEq, Eq)]
pub struct Tally {
    /// The cells: of how many partitions in a sub-plan of a course something was reported.
    pub cells: u64,
    /// The spans of keys that were loaded, over all cells.
    pub spans: u64,
    /// The sub-plans that are opened, over all courses.
    pub opened: u64,
    /// The numbers under which plans were issued.
    pub issues: u64,
}

/// How many spans the cells have.
fn count_spans(cells: &[(CellId, &CellParts)]) -> u64
    ensures { result ≡ at_most_64_bits (sum_by spans_of (map (λ c. cell_entry c.0 c.1.now) cells.now)) }
{
    let mut spans: u64 = 0;
    for entry in cells {
        spans = spans.saturating_add(entry.1.first.len() as u64);
    }
    spans
}

/// How many sub-plans the openings have.
fn count_opened(openings: &[Opening]) -> u64
    ensures { result ≡ at_most_64_bits (sum_by sub_plans_of openings.now) }
{
    let mut opened: u64 = 0;
    for opening in openings {
        opened = opened.saturating_add(u64::from(opening.count));
    }
    opened
}

impl Tally {
    /// How much the board tells. It fails only if an allocation fails, or if the count of an issue's
    /// owners is full.
    pub fn of(board: &Board) -> Result<Tally, AllocError>
        ensures { IfOk result (λ tally. tally ≡ tally_of board.now) }
    {
        let cells = board.lent_cells()?;
        let openings = board.openings()?;
        let issues = board.issues()?;
        Ok(Tally {
            cells: cells.len() as u64,
            spans: count_spans(&cells),
            opened: count_opened(&openings),
            issues: issues.len() as u64,
        })
    }

    /// The numbers of both, added. `None` if a sum does not fit 64 bits.
    pub fn plus(self, other: Tally) -> Option<Tally>
        ensures sum { IfSome result (λ sum. sum ≡ tally_sum self other) }
        ensures none { IfNone result (FitsTally (tally_sum self other) → ⊥) }
    {
        Some(Tally {
            cells: self.cells.checked_add(other.cells)?,
            spans: self.spans.checked_add(other.spans)?,
            opened: self.opened.checked_add(other.opened)?,
            issues: self.issues.checked_add(other.issues)?,
        })
    }

    /// Whether each number is at most that of the other tally.
    pub fn is_within(self, most: &Tally) -> bool
        ensures { IsTrue result ↔ IsWithin self most.now }
    {
        self.cells <= most.cells
            && self.spans <= most.spans
            && self.opened <= most.opened
            && self.issues <= most.issues
    }
}
