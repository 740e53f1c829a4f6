//! Lists in order and within their limits.

ghost use Rattle.std.specs.Prelude.{◌≡◌, ◌↔◌, ℕ, IsTrue};
ghost use Rattle.squall_wire.specs.Limits.{AreListed, FitsOpening, after_opening, FitsIssueRow, after_issue_row, FitsRow, after_row};

use crate::digest::{DigestRow, IssueRow};
use squall_board::Opening;
use squall_key::PART_LIMIT;

/// A type whose values are in lists by rising place `P`.
trait Placed<P> {
    /// What holds of a value within its limits that comes after a place.
    ghost fits: { P → Self → Type 0 };

    /// The place of a value.
    ghost place: { Self → P };

    /// Whether the value lies within its limits, and comes after the place.
    fn follows(&self, last: P) -> bool
        ensures { IsTrue result ↔ fits last self.now };

    /// The place of the value.
    fn place(&self) -> P
        ensures { result ≡ place self.now };
}

impl Placed<u32> for Opening {
    ghost fits = { FitsOpening };

    ghost place = { λ opening. opening.number };

    fn follows(&self, last: u32) -> bool {
        last < self.number && self.count >= 1 && self.count <= PART_LIMIT
    }

    fn place(&self) -> u32 {
        self.number
    }
}

impl Placed<u32> for IssueRow {
    ghost fits = { FitsIssueRow };

    ghost place = { λ row. row.number };

    fn follows(&self, last: u32) -> bool {
        last < self.number
    }

    fn place(&self) -> u32 {
        self.number
    }
}

impl Placed<(u32, u32)> for DigestRow {
    ghost fits = { FitsRow };

    ghost place = { λ row. (row.number, row.sub) };

    fn follows(&self, last: (u32, u32)) -> bool {
        last < (self.number, self.sub) && self.number >= 1 && self.sub < PART_LIMIT
    }

    fn place(&self) -> (u32, u32) {
        (self.number, self.sub)
    }
}

/// Whether each item lies within its limits and comes after the one before it, or the first after
/// `start`, and four bytes hold their count.
fn are_listed<P: Copy, T: Placed<P>>(start: P, items: &[T]) -> bool
    ensures { IsTrue result ↔ AreListed T.fits (λ _ item. T.place item) start items.now }
{
    if items.len() > 4_294_967_295 {
        return false;
    }
    let mut last = start;
    for item in items {
        if !item.follows(last) {
            return false;
        }
        last = item.place();
    }
    true
}

/// Whether the openings are those of a digest.
pub(crate) fn are_openings(openings: &[Opening]) -> bool
    ensures { IsTrue result ↔ AreListed FitsOpening after_opening 0 openings.now }
{
    are_listed(0, openings)
}

/// Whether the rows are the hashes of issues of a digest.
pub(crate) fn are_issue_rows(rows: &[IssueRow]) -> bool
    ensures { IsTrue result ↔ AreListed FitsIssueRow after_issue_row 0 rows.now }
{
    are_listed(0, rows)
}

/// Whether the rows are the hashes of rows of a digest.
pub(crate) fn are_rows(rows: &[DigestRow]) -> bool
    ensures { IsTrue result ↔ AreListed FitsRow after_row (0, 0) rows.now }
{
    are_listed((0, 0), rows)
}
